// Writes the distant part of the work list: from the record of a pair up to all pairs, each function with a contract of one form, `Wrote ..`: the lent list is
// as it was with these records written from a place on, and the result is the place after them. Cells are read by their rows; the groups of a side are colour
// by colour of the triangles and then of the quads.
#![tactic(auto)]

ghost use Rattle.std.specs.Prelude.{◌≡◌, [], ◌∷◌, ◌+◌, ◌*◌, ◌≤◌, ◌<◌, length};
ghost use Rattle.lists.specs.Writes.{Wrote, Room};
ghost use Rattle.grid.specs.Cells.{has};
ghost use Rattle.grid.specs.Rows.{share};
ghost use Rattle.grid.specs.RowsFacts.{Padded};
ghost use Rattle.cell_pairs.specs.RecordsFacts.{records};
ghost use Rattle.cell_pairs.specs.WorkList.{most_batch, distant_pair, distant_batch, distant_colours};
ghost use Rattle.cells_by_key.specs.Groups.{Cells, Cut};
ghost use Rattle.distant_pairs.specs.Distant.{has_one_of, has_cells, distant_row, distant_tests, distant_parts};

use cell_pairs::{DISTANT, WorkRecord, put_record};
use cells_by_key::Groups;
use grid::Rows;
use numbers::wide;

// A trial cell: its number, and its vertices; of a triangle, the fourth is its first again.
#[derive(Clone, Copy)]
struct Trial {
    cell: u32,
    first: u32,
    second: u32,
    third: u32,
    fourth: u32,
}

// Whether x is one of the trial cell's vertices. By `|` and not `||`, here and below, it is compiled to several comparisons at a time: with arrays of
// four, by `any` and `contains`, 27 instructions for the 17 of each pair of cells.
fn is_one_of(trial: Trial, x: u32) -> bool
    ensures { result ≡ has (trial.first ∷ trial.second ∷ trial.third ∷ trial.fourth ∷ []) x }
{
    (trial.first == x) | (trial.second == x) | (trial.third == x) | (trial.fourth == x)
}

// Whether one of the trial cell's vertices is in the cell's row.
fn has_one_of(rows: Rows, cell: usize, trial: Trial) -> bool
    requires { 4 * cell + 4 ≤ length rows.rows.now }
    ensures { result ≡ has_one_of rows.entry.rows.now cell trial.first trial.second trial.third trial.fourth }
{
    let at = 4 * cell;
    is_one_of(trial, rows.rows[at])
        | is_one_of(trial, rows.rows[at + 1])
        | is_one_of(trial, rows.rows[at + 2])
        | is_one_of(trial, rows.rows[at + 3])
}

// The record of a pair of cells, if they are distant. (The list and a place in it, here and in what calls this, and no struct of both: each contract, and each
// loop's invariant, would say once more that its list stays the caller's.)
fn write_pair(rows: Rows, test: u32, trial: Trial, work: &mut [u32], at: usize) -> usize
    requires test_in_bounds { 4 * test + 4 ≤ length rows.rows.now }
    requires room { Room records work.old at (distant_pair (λ i _. has_one_of rows.rows.now i trial.first trial.second trial.third trial.fourth) test trial.cell) }
    ensures { Wrote records work.old work.new at result (distant_pair (λ i _. has_one_of rows.entry.rows.now i trial.first trial.second trial.third trial.fourth) test trial.cell) }
{
    if has_one_of(rows, wide(test), trial) {
        at
    } else {
        put_record(
            work,
            at,
            WorkRecord {
                pattern: DISTANT,
                test,
                trial: trial.cell,
            },
        )
    }
}

// One trial cell against a batch of test cells.
fn write_row(rows: Rows, tests: &[u32], trial: u32, work: &mut [u32], at: usize) -> usize
    requires padded { Padded rows.none rows.rows.now }
    requires cells { Cells rows.rows.now tests.now }
    requires trial_in_bounds { 4 * trial + 4 ≤ length rows.rows.now }
    requires room { Room records work.old at (distant_row rows.none rows.rows.now tests.now trial) }
    ensures { Wrote records work.old work.new at result
        (distant_row rows.entry.none rows.entry.rows.now tests.now trial) }
{
    let cell = wide(trial);
    let corner = 4 * cell;
    let trial_cell = Trial {
        cell: trial,
        first: rows.rows[corner],
        second: rows.rows[corner + 1],
        third: rows.rows[corner + 2],
        fourth: rows.fourth_or_first(cell),
    };
    let mut next = at;
    for &test in tests {
        next = write_pair(rows, test, trial_cell, work, next);
    }
    next
}

// A batch of trial cells against a batch of test cells.
fn write_batch(rows: Rows, tests: &[u32], trials: &[u32], work: &mut [u32], at: usize) -> usize
    requires padded { Padded rows.none rows.rows.now }
    requires cells { Cells rows.rows.now tests.now }
    requires cells_2 { Cells rows.rows.now trials.now }
    requires room { Room records work.old at (distant_batch (share rows.none rows.rows.now) tests.now trials.now) }
    ensures { Wrote records work.old work.new at result
        (distant_batch (share rows.entry.none rows.entry.rows.now) tests.now trials.now) }
{
    let mut next = at;
    for &trial in trials {
        next = write_row(rows, tests, trial, work, next);
    }
    next
}

// Each batch of the test cells of a colour against each batch of the trial cells of a colour. (That the size of a batch is in its range is asked here and in the
// two functions that hand it on: a type of such sizes would have to be made by each caller, of the u32 that check 5 has passed.)
fn write_colours(
    rows: Rows,
    batch: usize,
    tests: &[u32],
    trials: &[u32],
    work: &mut [u32],
    at: usize,
) -> usize
    requires batch_nonzero { (0 < batch) × (batch ≤ most_batch) }
    requires padded { Padded rows.none rows.rows.now }
    requires cells { Cells rows.rows.now tests.now }
    requires cells_2 { Cells rows.rows.now trials.now }
    requires room { Room records work.old at (distant_colours (share rows.none rows.rows.now) batch tests.now trials.now) }
    ensures { Wrote records work.old work.new at result
        (distant_colours (share rows.entry.none rows.entry.rows.now) batch tests.now trials.now) }
{
    let mut next = at;
    for test_part in tests.chunks(batch) {
        for trial_part in trials.chunks(batch) {
            next = write_batch(rows, test_part, trial_part, work, next);
        }
    }
    next
}

// The groups of one kind of a side, a colour each: half 0 of the side's groups are those of the triangles, half 1 those of the quads. (A number, since a
// group's place is reckoned from it; an enum of the two would be turned back into it there.)
#[derive(Clone, Copy)]
struct Half<'a> {
    groups: Groups<'a>,
    half: usize,
    ghost half_bound: { half < 2 },
}

impl Half<'_> {
    // Whether there are cells of the kind.
    fn has_cells(self) -> bool
        ensures { result ≡ has_cells self.entry.groups.ends.now self.entry.half }
    {
        let n = self.groups.ends.len() / 2;
        let first = self.half * n;
        self.groups.start(first) < self.groups.start(first + n)
    }
}

// Each colour of the test cells of a kind against each colour of the trial cells of a kind. (By the colours' numbers, which say where in its half a group
// stands.)
fn write_kinds(
    rows: Rows,
    batch: usize,
    tests: Half,
    trials: Half,
    work: &mut [u32],
    at: usize,
) -> usize
    requires batch_nonzero { (0 < batch) × (batch ≤ most_batch) }
    requires padded { Padded rows.none rows.rows.now }
    requires cut { Cut rows.rows.now tests.groups.order.now tests.groups.ends.now }
    requires cut_2 { Cut rows.rows.now trials.groups.order.now trials.groups.ends.now }
    requires room { Room records work.old at
        (distant_tests rows.none rows.rows.now batch tests.groups.order.now tests.groups.ends.now trials.groups.order.now trials.groups.ends.now tests.half trials.half) }
    ensures { Wrote records work.old work.new at result
        (distant_tests rows.entry.none rows.entry.rows.now batch tests.entry.groups.order.now tests.entry.groups.ends.now trials.entry.groups.order.now trials.entry.groups.ends.now tests.entry.half trials.entry.half) }
{
    let test_colours = tests.groups.ends.len() / 2;
    let trial_colours = trials.groups.ends.len() / 2;
    let mut next = at;
    for c in 0..test_colours {
        let test_cells = tests.groups.group(tests.half * test_colours + c);
        for d in 0..trial_colours {
            let trial_cells = trials.groups.group(trials.half * trial_colours + d);
            next = write_colours(rows, batch, test_cells, trial_cells, work, next);
        }
    }
    next
}

// All distant pairs, from the front of the work list on: how many there are. Where there are no cells of one of two kinds, their groups are not looked at.
pub fn write_distant(
    rows: Rows,
    batch: usize,
    tests: Groups,
    trials: Groups,
    work: &mut [u32],
) -> usize
    requires batch_nonzero { (0 < batch) × (batch ≤ most_batch) }
    requires padded { Padded rows.none rows.rows.now }
    requires cut { Cut rows.rows.now tests.order.now tests.ends.now }
    requires cut_2 { Cut rows.rows.now trials.order.now trials.ends.now }
    requires room { Room records work.old 0
        (distant_parts rows.none rows.rows.now batch tests.order.now tests.ends.now trials.order.now trials.ends.now) }
    ensures { Wrote records work.old work.new 0 result
        (distant_parts rows.entry.none rows.entry.rows.now batch tests.entry.order.now tests.entry.ends.now trials.entry.order.now trials.entry.ends.now) }
{
    let mut next = 0;
    for n in 0..2 {
        let test_kind = Half {
            groups: tests,
            half: n,
        };
        for k in 0..2 {
            let trial_kind = Half {
                groups: trials,
                half: k,
            };
            if test_kind.has_cells() & trial_kind.has_cells() {
                next = write_kinds(rows, batch, test_kind, trial_kind, work, next);
            }
        }
    }
    next
}
