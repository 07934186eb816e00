// What a pair of points adds to each entry of a local matrix.
#![tactic(auto)]

ghost use Rattle.function.specs.Elements.{most_dim};
ghost use Rattle.std.specs.Prelude.{◌≡◌, ℕ, ◌+◌, ◌<◌, ◌≤◌, length, Float, true};
ghost use Rattle.std.specs.Float.{nan};
ghost use Rattle.lists.specs.Maps.{Mapped};
ghost use Rattle.numbers.specs.Floats.{◌⊕◌, ◌⊗◌, ◌!◌};
ghost use Rattle.table.specs.Views.{row_of};
ghost use Rattle.integrands.specs.declared.Integrand.{Integrand};
ghost use Rattle.integrands.specs.declared.Term.{Term};
ghost use Rattle.integrands.specs.declared.Term.TheVariants as Variants;
ghost use Rattle.integrands.specs.Terms.{kind_of, table_rows};
ghost use Rattle.integrands.specs.Parts.{has_curls, test_part};
ghost use Rattle.integrands.specs.Columns.{Reads};
ghost use Rattle.integrands.specs.Views.{Covers};
ghost use Rattle.integrands.specs.declared.Point.{Point};
ghost use Rattle.point_sums.specs.declared.Parts.{Parts};
ghost use Rattle.point_sums.specs.Parts.{Long, part_at, Turned};
ghost use Rattle.point_sums.specs.Reads.{PairReads, MayAdd, kernel_at, ValueAt, HasRows, term_at, outer_at, curls_at, value_at, AddedAt};

use function::MOST_DIM;
use integrands::{Integrand, KindValue, Part, Point, Term};
use table::Table;

// How a point value is weighed: value·w·v. One that is weighed once has 1 for v.
#[derive(Clone, Copy)]
pub struct Weight {
    pub w: f64,
    pub v: f64,
}

// A test point and a trial point: how their values are weighed, their kernel values, which stand from `at` on, and what each side is lent.
#[derive(Clone, Copy)]
pub struct PointPair<'a> {
    pub weight: Weight,
    pub kernel: &'a [f64],
    pub at: usize,
    pub test: Point<'a>,
    pub trial: Point<'a>,
}

impl PointPair<'_> {
    // The value of a term's kind at the two points.
    #[inline(always)]
    fn value(self, term: Term) -> KindValue
        requires { Reads (kind_of term) self.at self.kernel.now }
        ensures { ValueAt self.entry term result }
    {
        let kind = integrands::kind_of(term);
        let test = self.test.geometry;
        let trial = self.trial.geometry;
        integrands::kind_value(kind, self.kernel, self.at, test, trial)
    }
}

// What each test basis function brings, number by number: as a list of `Part` kind 3 at dim 3 takes 1.09 times the instructions.
#[derive(Clone, Copy)]
pub struct Parts {
    x0: [f64; MOST_DIM],
    x1: [f64; MOST_DIM],
    x2: [f64; MOST_DIM],
}

// Room for ten, of which as many are filled as there are basis functions: nothing is allocated. So too `scaled` and `more` below.
const NO_PARTS: Parts = Parts {
    x0: [0.0; MOST_DIM],
    x1: [0.0; MOST_DIM],
    x2: [0.0; MOST_DIM],
};

impl Parts {
    #[inline(always)]
    fn at(&self, b: usize) -> Part
        requires { Long self.now × (b < most_dim) }
        ensures { result ≡ part_at self.now b }
    {
        Part {
            x0: self.x0[b],
            x1: self.x1[b],
            x2: self.x2[b],
        }
    }
}

// Adds value·w·v to each entry. The value at test basis i and trial basis j is `value(i, t)`, where t is what trial basis j brings.
// Inlined, as its callers are: a call at each point takes two to three times as long. By number, as i and j are what the closures are asked for.
#[inline(always)]
fn add_values<T: Copy, B: Fn(usize) -> T, V: Fn(usize, T) -> f64>(
    entries: &mut [f64; 100],
    pair: PointPair,
    brings: B,
    value: V,
)
    requires sizes { (length entries.old ≡ 100) × (pair.test.table.dim ≤ most_dim) × (pair.trial.table.dim ≤ most_dim) }
    requires may_bring { (j : ℕ) → j < pair.trial.table.dim → B.pre brings j }
    requires may_value { (i j : ℕ) (t : T) → i < pair.test.table.dim → j < pair.trial.table.dim → B.post brings j t → V.pre value i t }
    ensures { (u : ℕ → ℕ → Float)
        → ((i j : ℕ) (t : T) (x : Float) → i < pair.entry.test.table.dim → j < pair.entry.trial.table.dim → B.post brings j t → V.post value i t x → x ≡ u i j)
        → AddedAt pair.entry entries.old entries.new u }
{
    let weight = pair.weight;
    let test_dim = pair.test.table.dim;
    for j in 0..pair.trial.table.dim {
        let t = brings(j);
        for i in 0..test_dim {
            entries[i + test_dim * j] += value(i, t) * weight.w * weight.v;
        }
    }
}

// c times row 0 of each basis function. By number, as the table is read by it, here and in `bring_parts`: with `iter_mut` and `enumerate` it is there as well.
#[inline(always)]
fn scale_rows(scaled: &mut [f64; MOST_DIM], c: f64, table: Table)
    requires { (length scaled.old ≡ most_dim) × Covers table }
    ensures { Mapped nan 0 table.entry.dim (λ (b : ℕ) (x : Float). c ⊗ row_of table.entry b 0) scaled.old scaled.new }
{
    for b in 0..table.dim {
        scaled[b] = c * table.get(b, 0);
    }
}

// What each test basis function brings.
#[inline(always)]
fn bring_parts(parts: &mut Parts, x: KindValue, test: Point)
    requires { Long parts.old × Covers test.table × (has_curls x ≡ true → 3 ≤ test.table.rows) }
    ensures long { Long parts.new }
    ensures right { (b : ℕ) → b < test.entry.table.dim → part_at parts.new b ≡ test_part x test.entry.geometry (row_of test.entry.table b) }
{
    for b in 0..test.table.dim {
        let part = integrands::test_part(x, test, b);
        parts.x0[b] = part.x0;
        parts.x1[b] = part.x1;
        parts.x2[b] = part.x2;
    }
}

// A term other than curl-curl, with any c: c·t·r with its factor.
#[inline(always)]
pub fn add_outer(entries: &mut [f64; 100], pair: PointPair, term: Term, c: f64)
    requires { MayAdd pair entries.old }
    ensures { AddedAt pair.entry entries.old entries.new (outer_at pair.entry term c) }
{
    let trial = pair.trial.table;
    let mut scaled = [0.0; MOST_DIM];
    scale_rows(&mut scaled, c, pair.test.table);
    add_values(
        entries,
        pair,
        |j| trial.get(j, 0),
        |i, r| integrands::factored(term, scaled[i] * r),
    );
}

// The curls of the test basis functions. (The 0 is not read: only a value without curls has c before its row.)
#[inline(always)]
pub fn turned_parts(test: Point) -> Parts
    requires { Covers test.table × (3 ≤ test.table.rows) }
    ensures { Turned test.entry result }
{
    let mut parts = NO_PARTS;
    bring_parts(&mut parts, KindValue::Curls(0.0), test);
    parts
}

// A term with curls, with any c; parts are the curls of the test basis functions.
#[inline(always)]
pub fn add_turned(entries: &mut [f64; 100], pair: PointPair, parts: &Parts, term: Term, c: f64)
    requires { MayAdd pair entries.old × (3 ≤ pair.trial.table.rows) × Turned pair.test parts.now }
    ensures { AddedAt pair.entry entries.old entries.new (curls_at pair.entry term c) }
{
    let x = KindValue::Curls(c);
    let trial = pair.trial;
    let test_jdet = pair.test.geometry.jdet;
    let trial_jdet = trial.geometry.jdet;
    add_values(
        entries,
        pair,
        |j| integrands::trial_part(x, trial, j),
        |i, b| integrands::evaluate(term, x, parts.at(i), b, test_jdet, trial_jdet),
    );
}

// A term with curls, with any c. (`Curls` works the curls of a test point out once, for all its pairs.)
#[inline(always)]
pub fn add_curls(entries: &mut [f64; 100], pair: PointPair, term: Term, c: f64)
    requires { MayAdd pair entries.old × (3 ≤ pair.test.table.rows) × (3 ≤ pair.trial.table.rows) }
    ensures { AddedAt pair.entry entries.old entries.new (curls_at pair.entry term c) }
{
    let parts = turned_parts(pair.test);
    add_turned(entries, pair, &parts, term, c);
}

// Two terms other than curl-curl, first plus second: c·t·r and d·t·r, each with its factor.
#[inline(always)]
fn add_outers(entries: &mut [f64; 100], pair: PointPair, first: Term, c: f64, second: Term, d: f64)
    requires { MayAdd pair entries.old }
    ensures { AddedAt pair.entry entries.old entries.new (λ (i j : ℕ). outer_at pair.entry first c i j ⊕ outer_at pair.entry second d i j) }
{
    let trial = pair.trial.table;
    let mut scaled = [0.0; MOST_DIM];
    scale_rows(&mut scaled, c, pair.test.table);
    let mut more = [0.0; MOST_DIM];
    scale_rows(&mut more, d, pair.test.table);
    add_values(
        entries,
        pair,
        |j| trial.get(j, 0),
        |i, r| {
            let one = integrands::factored(first, scaled[i] * r);
            let two = integrands::factored(second, more[i] * r);
            one + two
        },
    );
}

// Two terms of any kind, first plus second; x and y are their values at the point.
#[inline(always)]
fn add_two(
    entries: &mut [f64; 100],
    pair: PointPair,
    first: Term,
    x: KindValue,
    second: Term,
    y: KindValue,
)
    requires reads { MayAdd pair entries.old × HasRows pair x × HasRows pair y }
    requires first { ValueAt pair first x }
    requires second { ValueAt pair second y }
    ensures { AddedAt pair.entry entries.old entries.new (λ (i j : ℕ). term_at pair.entry (kernel_at pair.entry) first i j ⊕ term_at pair.entry (kernel_at pair.entry) second i j) }
{
    let PointPair { test, trial, .. } = pair;
    let mut parts = NO_PARTS;
    bring_parts(&mut parts, x, test);
    let mut more = NO_PARTS;
    bring_parts(&mut more, y, test);
    let test_jdet = test.geometry.jdet;
    let trial_jdet = trial.geometry.jdet;
    add_values(
        entries,
        pair,
        |j| {
            (
                integrands::trial_part(x, trial, j),
                integrands::trial_part(y, trial, j),
            )
        },
        |i, b| {
            let one = integrands::evaluate(first, x, parts.at(i), b.0, test_jdet, trial_jdet);
            let two = integrands::evaluate(second, y, more.at(i), b.1, test_jdet, trial_jdet);
            one + two
        },
    );
}

// How an integrand is added at a pair of points.
pub trait AddPoint {
    // The integrand, and what has to hold of it.
    ghost integrand: { Self → Integrand };

    ghost suits: { Self → Type 0 };

    // What holds of the parts of a test point.
    ghost ready: { Self → Point → Parts → Type 0 };

    // What is worked out once for a test point: `NO_PARTS` where nothing is. (Each type says so itself: it has to meet `ready`, which here is not known.)
    fn parts(&self, test: Point) -> Parts
        requires { suits self.now × Covers test.table × (test.table.rows ≡ table_rows (integrand self.now)) }
        ensures { ready self.now test.entry result };

    // What a pair of points adds to each entry.
    fn add(&self, entries: &mut [f64; 100], pair: PointPair, parts: &Parts)
        requires { (length entries.old ≡ 100) × suits self.now × PairReads (integrand self.now) pair × ready self.now pair.test parts.now }
        ensures { AddedAt pair.entry entries.old entries.new (value_at (integrand self.now) pair.entry) };
}

// A term's form, known to the compiler: without a factor, or with one. (With `Term` in its place, which is matched at each entry, distant adds of one term
// take up to 1.12 times the instructions, at dims 3 and 6.)
pub trait Form: Copy {
    ghost term: { Self → ℕ → Term };

    // The kind is a number, as it is in `Term`.
    fn term(&self, kind: u32) -> Term
        ensures { result ≡ term self.now kind };
}

#[derive(Clone, Copy)]
pub struct Bare;

impl Form for Bare {
    ghost term = { λ s kind. Variants.Bare kind };

    #[inline(always)]
    fn term(&self, kind: u32) -> Term {
        Term::Bare(kind)
    }
}

#[derive(Clone, Copy)]
pub struct Scaled {
    pub factor: f64,
}

impl Form for Scaled {
    ghost term = { λ s kind. Variants.Scaled s.factor kind };

    #[inline(always)]
    fn term(&self, kind: u32) -> Term {
        Term::Scaled(self.factor, kind)
    }
}

// One term other than curl-curl.
#[derive(Clone, Copy)]
pub struct Outer<F> {
    pub integrand: Integrand,
    pub form: F,
}

impl<F: Form> AddPoint for Outer<F> {
    ghost integrand = { λ s. s.integrand };

    ghost suits = { λ s. (s.integrand.terms ≡ 1) × (F.term s.form (kind_of s.integrand.first) ≡ s.integrand.first) × (table_rows s.integrand ≡ 3 → ⊥) };

    ghost ready = { λ s test parts. Long parts };

    #[inline(always)]
    fn parts(&self, _test: Point) -> Parts {
        NO_PARTS
    }

    #[inline(always)]
    fn add(&self, entries: &mut [f64; 100], pair: PointPair, parts: &Parts) {
        let first = self.form.term(integrands::kind_of(self.integrand.first));
        let x = pair.value(first);
        add_outer(entries, pair, first, x.factor());
    }
}

// One term with curls. (`add` begins as that of `Outer`: a function for the beginning would answer both the term and its value, to spare two lines.)
#[derive(Clone, Copy)]
pub struct Curls<F> {
    pub integrand: Integrand,
    pub form: F,
}

impl<F: Form> AddPoint for Curls<F> {
    ghost integrand = { λ s. s.integrand };

    ghost suits = { λ s. (s.integrand.terms ≡ 1) × (F.term s.form (kind_of s.integrand.first) ≡ s.integrand.first) × (table_rows s.integrand ≡ 3) };

    ghost ready = { λ s test parts. Turned test parts };

    #[inline(always)]
    fn parts(&self, test: Point) -> Parts {
        turned_parts(test)
    }

    #[inline(always)]
    fn add(&self, entries: &mut [f64; 100], pair: PointPair, parts: &Parts) {
        let first = self.form.term(integrands::kind_of(self.integrand.first));
        let x = pair.value(first);
        let c = x.factor();
        add_turned(entries, pair, parts, first, c);
    }
}

// Two terms other than curl-curl.
#[derive(Clone, Copy)]
pub struct Outers {
    pub integrand: Integrand,
}

impl AddPoint for Outers {
    ghost integrand = { λ s. s.integrand };

    ghost suits = { λ s. (s.integrand.terms ≡ 1 → ⊥) × (table_rows s.integrand ≡ 3 → ⊥) };

    ghost ready = { λ s test parts. Long parts };

    #[inline(always)]
    fn parts(&self, _test: Point) -> Parts {
        NO_PARTS
    }

    #[inline(always)]
    fn add(&self, entries: &mut [f64; 100], pair: PointPair, parts: &Parts) {
        let Integrand { first, second, .. } = self.integrand;
        let x = pair.value(first);
        let y = pair.value(second);
        add_outers(entries, pair, first, x.factor(), second, y.factor());
    }
}

// Two terms, of which one has curls or both have. (`add` begins as that of `Outers`, and what they share is a read of each term and its value. Two types, since
// which of the two sums it is holds for a whole pair of cells: the type chooses it once, where a flag would choose at each pair of points.)
#[derive(Clone, Copy)]
pub struct Two {
    pub integrand: Integrand,
}

impl AddPoint for Two {
    ghost integrand = { λ s. s.integrand };

    ghost suits = { λ s. s.integrand.terms ≡ 1 → ⊥ };

    ghost ready = { λ s test parts. Long parts };

    #[inline(always)]
    fn parts(&self, _test: Point) -> Parts {
        NO_PARTS
    }

    #[inline(always)]
    fn add(&self, entries: &mut [f64; 100], pair: PointPair, parts: &Parts) {
        let Integrand { first, second, .. } = self.integrand;
        let x = pair.value(first);
        let y = pair.value(second);
        add_two(entries, pair, first, x, second, y);
    }
}
