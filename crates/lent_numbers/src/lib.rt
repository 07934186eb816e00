// What a pair of cells is lent: checks 9 to 11.
#![tactic(auto)]

ghost use Rattle.function.specs.Elements.{most_dim};
ghost use Rattle.std.specs.Prelude.{◌≡◌, ℕ, ◌+◌, ◌*◌, ◌<◌, ◌≤◌, length};
ghost use Rattle.lists.specs.Refusals.{refusal};
ghost use Rattle.refusals.specs.Numbers.{told};
ghost use Rattle.numbers.specs.Ranges.{within};
ghost use Rattle.lent_numbers.specs.Lent.{most_touching_points, most_distant_points, most_point_pairs, jdets_above0, touching_lengths, touching_numbers, touching_checks, distant_lengths, distant_numbers, distant_checks};
ghost use Rattle.lent_numbers.specs.Forms.{touching_of, distant_of, test_of, trial_of, point_of, side_lengths, side_numbers, pair_lengths, Few, HasGeometry};

use integrands::{Integrand, Point};
use numbers::all_finite;
use refusals::Refusal;
use table::Table;

// The most points of a touching pair, and of each side of a distant pair.
const MOST_TOUCHING_POINTS: usize = 2048;

const MOST_DISTANT_POINTS: usize = 64;

// What a local matrix is of: the integrand, and how many basis functions the test cell and the trial cell have.
#[derive(Clone, Copy)]
pub struct LocalForm {
    pub integrand: Integrand,
    pub test_dim: usize,
    pub trial_dim: usize,
}

impl LocalForm {
    // The same integrand, for so many basis functions.
    #[inline(always)]
    pub fn with_dims(self, test_dim: usize, trial_dim: usize) -> LocalForm
        ensures { (result.integrand ≡ self.integrand) × (result.test_dim ≡ test_dim) × (result.trial_dim ≡ trial_dim) }
    {
        LocalForm {
            test_dim,
            trial_dim,
            ..self
        }
    }
}

// What one side of a pair is lent: its points and their weights, the table of its basis functions and the geometry of its cell.
#[derive(Clone, Copy)]
pub struct Side<'a> {
    pub points: usize,
    pub weights: &'a [f64],
    pub table: &'a [f64],
    pub geometry: &'a [f64],
}

// What a touching pair is lent: one list of points for both cells.
#[derive(Clone, Copy)]
pub struct TouchingNumbers<'a> {
    pub points: usize,
    pub weights: &'a [f64],
    pub test_table: &'a [f64],
    pub trial_table: &'a [f64],
    pub kernel: &'a [f64],
    pub test_geometry: &'a [f64],
    pub trial_geometry: &'a [f64],
}

// What a distant pair is lent: test points and trial points.
#[derive(Clone, Copy)]
pub struct DistantNumbers<'a> {
    pub test: Side<'a>,
    pub trial: Side<'a>,
    pub kernel: &'a [f64],
}

// Check 9: a point count is in its range.
fn count_right(points: usize, most: usize) -> bool
    ensures { result ≡ within 1 most points }
{
    (1..=most).contains(&points)
}

// Whether each jdet is above 0. By number: of each ten numbers one is read, and in chunks of ten that one would have a number too.
fn jdets_above_0(s: &[f64], points: usize) -> bool
    requires { 10 * points ≤ length s.now }
    ensures { result ≡ jdets_above0 s.now points }
{
    (0..points).all(|p| 0.0 < s[10 * p])
}

// Check 10 of a pair: that of both sides, and one point's kernel values for each of so many points.
fn pair_lengths_right(
    local: LocalForm,
    test: Side,
    trial: Side,
    kernel: &[f64],
    points: usize,
) -> bool
    requires { Few local × (test.points ≤ most_touching_points) × (trial.points ≤ most_touching_points) × (points ≤ most_point_pairs) }
    ensures { result ≡ pair_lengths local test.entry trial.entry kernel.now points }
{
    let rows = integrands::table_rows(local.integrand);
    let width = integrands::kernel_width(local.integrand);
    test.lengths_right(rows, local.test_dim)
        & trial.lengths_right(rows, local.trial_dim)
        & (kernel.len() == width * points)
}

impl<'a> Side<'a> {
    // A point, with so many table rows and basis functions.
    pub fn at(self, rows: usize, dim: usize, point: usize) -> Point<'a>
        requires { 10 * point + 10 ≤ length self.geometry.now }
        ensures { result ≡ point_of rows dim self.entry point }
    {
        Point {
            geometry: integrands::geometry_at(self.geometry, point),
            table: Table::new(self.table, rows, self.points, dim, point),
        }
    }

    // Check 10 of a side.
    fn lengths_right(self, rows: usize, dim: usize) -> bool
        requires { (rows ≤ 3) × (dim ≤ most_dim) × (self.points ≤ most_touching_points) }
        ensures { result ≡ side_lengths rows dim self.entry }
    {
        (self.weights.len() == self.points)
            & (self.table.len() == rows * (self.points * dim))
            & (self.geometry.len() == 10 * self.points)
    }

    // Check 11 of a side's table and geometry.
    fn numbers_right(self) -> bool
        requires { HasGeometry self }
        ensures { result ≡ side_numbers self.entry }
    {
        all_finite(self.table)
            & all_finite(self.geometry)
            & jdets_above_0(self.geometry, self.points)
    }
}

impl<'a> TouchingNumbers<'a> {
    // One of its two sides: both have the same points.
    fn side(self, table: &'a [f64], geometry: &'a [f64]) -> Side<'a>
        ensures { (result.points ≡ self.entry.points) × (result.weights ≡ self.entry.weights) × (result.table ≡ table.entry) × (result.geometry ≡ geometry.entry) }
    {
        Side {
            points: self.points,
            weights: self.weights,
            table,
            geometry,
        }
    }

    pub fn test(self) -> Side<'a>
        ensures { result ≡ test_of self.entry }
    {
        self.side(self.test_table, self.test_geometry)
    }

    pub fn trial(self) -> Side<'a>
        ensures { result ≡ trial_of self.entry }
    {
        self.side(self.trial_table, self.trial_geometry)
    }

    // Check 10.
    fn lengths_right(self, local: LocalForm) -> bool
        requires { Few local × (self.points ≤ most_touching_points) }
        ensures { result ≡ touching_lengths local.integrand local.test_dim local.trial_dim (touching_of self.entry) }
    {
        pair_lengths_right(local, self.test(), self.trial(), self.kernel, self.points)
    }

    // Check 11.
    fn numbers_right(self) -> bool
        requires { HasGeometry (test_of self) × HasGeometry (trial_of self) }
        ensures { (f : _) (m n : ℕ) → result ≡ touching_numbers f m n (touching_of self.entry) }
    {
        all_finite(self.weights)
            & all_finite(self.kernel)
            & self.test().numbers_right()
            & self.trial().numbers_right()
    }

    // Checks 9 to 11: the first that turns the pair down, if any.
    // Written for both sorts of pair: each of the three steps is another, and a trait of the three with their clauses is longer than what both share.
    pub fn check(self, local: LocalForm) -> Result<(), Refusal>
        requires { Few local }
        ensures { told result ≡ refusal (touching_checks local.integrand local.test_dim local.trial_dim (touching_of self.entry)) }
    {
        if !count_right(self.points, MOST_TOUCHING_POINTS) {
            return Err(Refusal::PointCount);
        }
        if !self.lengths_right(local) {
            return Err(Refusal::LentLength);
        }
        if !self.numbers_right() {
            return Err(Refusal::LentNumber);
        }
        Ok(())
    }
}

impl<'a> DistantNumbers<'a> {
    // Check 10.
    fn lengths_right(self, local: LocalForm) -> bool
        requires { Few local × (self.test.points ≤ most_distant_points) × (self.trial.points ≤ most_distant_points) }
        ensures { result ≡ distant_lengths local.integrand local.test_dim local.trial_dim (distant_of self.entry) }
    {
        let points = self.test.points * self.trial.points;
        pair_lengths_right(local, self.test, self.trial, self.kernel, points)
    }

    // Check 11.
    fn numbers_right(self) -> bool
        requires { HasGeometry self.test × HasGeometry self.trial }
        ensures { (f : _) (m n : ℕ) → result ≡ distant_numbers f m n (distant_of self.entry) }
    {
        all_finite(self.test.weights)
            & all_finite(self.trial.weights)
            & all_finite(self.kernel)
            & self.test.numbers_right()
            & self.trial.numbers_right()
    }

    // Checks 9 to 11: the first that turns the pair down, if any.
    pub fn check(self, local: LocalForm) -> Result<(), Refusal>
        requires { Few local }
        ensures { told result ≡ refusal (distant_checks local.integrand local.test_dim local.trial_dim (distant_of self.entry)) }
    {
        if !(count_right(self.test.points, MOST_DISTANT_POINTS)
            & count_right(self.trial.points, MOST_DISTANT_POINTS))
        {
            return Err(Refusal::PointCount);
        }
        if !self.lengths_right(local) {
            return Err(Refusal::LentLength);
        }
        if !self.numbers_right() {
            return Err(Refusal::LentNumber);
        }
        Ok(())
    }
}
