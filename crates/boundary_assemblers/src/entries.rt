// The entries call: the local matrix of a touching pair goes into three lists.
ghost use Rattle.std.specs.Prelude.{◌≡◌, ◌<◌, OnErr};
ghost use Rattle.lists.specs.Bool.{◌and◌};
ghost use Rattle.function.specs.Elements.{dims_right};
ghost use Rattle.lent_numbers.specs.Forms.{touching_of};
ghost use Rattle.scatter.specs.Entries.{entry_at};
ghost use Rattle.scatter.specs.Lent.{SameLists};
ghost use Rattle.runs.specs.Runs.{pairs, kind_cells, kind_dim, entries_to, entries_right, add_entries, entries_written};
ghost use Rattle.boundary_assemblers.specs.Forms.{run_of, plan_lent, entries_lent, added_of, dofs_at};
ghost use Rattle.boundary_assemblers.specs.RunFacts.{Dims, Counts, Standing};
ghost use Rattle.boundary_assemblers.specs.EntryFacts.{put_at, Fit, written_at};

use crate::calls::local_matrix;
use crate::lent::LentNumbers;
use crate::{Cell, Pair, Run};
use function::{Elements, dims_right};
use lent_numbers::TouchingNumbers;
use numbers::wide;
use plans::{Plan, PlanNumbers};
use refusals::Refusal;
use scatter::EntryLists;

// The cells of a kind, a byte as in the kind list that C lends.
fn kind_cells(n: PlanNumbers, kind: u8) -> u32
    ensures { result ≡ kind_cells n kind }
{
    if kind == 3 { n.triangles } else { n.quads }
}

// The dim of a kind on a side. A kind without cells has none: its element is not read.
fn kind_dim(n: PlanNumbers, elements: Elements, kind: u8) -> usize
    ensures { result ≡ kind_dim n elements kind }
{
    let count = kind_cells(n, kind);
    if count == 0 { 0 } else { elements.dim(kind) }
}

impl Run {
    // The entries of the first q touching records, block after block. (Four lines for four blocks: a loop over them needs an array of kinds and counts, and an
    // invariant of two sums, which is no plainer.)
    fn entries_to(&self, q: u32) -> usize
        requires { Dims self.now.numbers }
        ensures { result ≡ entries_to self.now.numbers q }
    {
        let n = self.numbers;
        let k = n.pairs;
        let a = q.min(k.triangle_triangle);
        let q = q - a;
        let b = q.min(k.triangle_quad);
        let q = q - b;
        let c = q.min(k.quad_triangle);
        let q = q - c;
        let d = q.min(k.quad_quad);
        let test_triangle = kind_dim(n, n.test, 3);
        let test_quad = kind_dim(n, n.test, 4);
        let trial_triangle = kind_dim(n, n.trial, 3);
        let trial_quad = kind_dim(n, n.trial, 4);
        wide(a) * (test_triangle * trial_triangle)
            + wide(b) * (test_triangle * trial_quad)
            + wide(c) * (test_quad * trial_triangle)
            + wide(d) * (test_quad * trial_quad)
    }

    // 21: the elements are right, and the entry lists have their length.
    fn entries_right(&self, lists: &EntryLists) -> bool
        ensures { result ≡ (dims_right self.now.numbers.triangles self.now.numbers.quads self.now.numbers.test self.now.numbers.trial and entries_right (run_of self.now) (entries_lent lists.now)) }
    {
        let n = self.numbers;
        if !dims_right(n.triangles, n.quads, n.test, n.trial) {
            return false;
        }
        let count = self.entries_to(n.touching);
        (lists.rows.len() == count) & (lists.columns.len() == count) & (lists.values.len() == count)
    }

    // 22 of the entries call: the pairs per two kinds put no cells of other kinds at p. (A search for the block of p. As a loop over
    // the blocks it would be given four counts with two kinds each, and an invariant of what is left of q.)
    fn kinds_put(&self, test: Cell, trial: Cell) -> bool
        requires { Counts (run_of self.now) × (self.now.position < pairs self.now.numbers) }
        ensures { result ≡ put_at (run_of self.now) test.kind trial.kind }
    {
        let n = self.numbers;
        let k = n.pairs;
        if self.position < n.distant {
            return true;
        }
        let q = self.position - n.distant;
        if q < k.triangle_triangle {
            return (test.kind == 3) & (trial.kind == 3);
        }
        let q = q - k.triangle_triangle;
        if q < k.triangle_quad {
            return (test.kind == 3) & (trial.kind == 4);
        }
        let q = q - k.triangle_quad;
        if q < k.quad_triangle {
            return (test.kind == 4) & (trial.kind == 3);
        }
        (test.kind == 4) & (trial.kind == 4)
    }

    // Writes a local matrix as the entries of record p, behind those of the touching records before it.
    fn write_entries(&self, plan: Plan, pair: Pair, entries: &[f64; 100], lists: &mut EntryLists)
        requires standing { Standing (run_of self.now) plan.test_dofs.now plan.trial_dofs.now pair (entries_right (run_of self.now) (entries_lent lists.old)) }
        requires fit { Fit (run_of self.now) pair (entries_lent lists.old) }
        ensures written { entries_lent lists.new
            ≡ written_at (run_of self.now) pair (dofs_at plan.entry.test_dofs.now pair.test) (dofs_at plan.entry.trial_dofs.now pair.trial)
            (entry_at entries.now pair.test.dim) (entries_lent lists.old) }
        ensures same { SameLists lists.old lists.new }
    {
        let at = self.entries_to(self.position - self.numbers.distant);
        lists.write(at, local_matrix(plan, pair, entries));
    }

    // Enters the pair of record p. Checks 21, 20, 22, 22 by the kinds, 23, then 9 to 11. (It shares four steps with `add`. One function for both would be given
    // the check of the length, that of the kinds, the kind of run and the writing, each with the clauses that tell its law: longer than the four steps.)
    fn enter(
        &mut self,
        plan: Plan,
        lent: TouchingNumbers,
        lists: &mut EntryLists,
    ) -> Result<(), Refusal>
        ensures result_value { added_of (self.new, result) ≡ add_entries (run_of self.old) (plan_lent plan.entry) (entries_lent lists.old) (touching_of lent.entry) }
        ensures values_after { entries_lent lists.new ≡ entries_written (run_of self.old) (plan_lent plan.entry) (entries_lent lists.old) (touching_of lent.entry) }
        ensures refused { OnErr result ((self.new ≡ self.old) × (entries_lent lists.new ≡ entries_lent lists.old)) }
        ensures same { SameLists lists.old lists.new }
    {
        if !self.entries_right(lists) {
            return Err(Refusal::Run);
        }
        let pair = self.state_checked(plan)?;
        if !self.kinds_put(pair.test, pair.trial) {
            return Err(Refusal::Record);
        }
        if !(TouchingNumbers::is_taken(pair.item.pattern) & self.entries) {
            return Err(Refusal::Kind);
        }
        // nothing is allocated: a local matrix has at most 10 by 10 entries
        let mut entries = [0.0; 100];
        self.write_local(pair, lent, &mut entries)?;
        self.write_entries(plan, pair, &entries, lists);
        self.position += 1;
        Ok(())
    }

    // Writes row, column and value of each entry of a touching pair into three lists, and hands the run back. Checks 21, 20, 22, 22 by the kinds, 23, then 9 to
    // 11. A refused call leaves the run and the lists as they were. (It shares two lines with the adds; the work is done by `enter`.)
    pub fn add_entries(
        mut self,
        plan: Plan,
        lent: TouchingNumbers,
        lists: &mut EntryLists,
    ) -> (Run, Result<(), Refusal>)
        ensures result_value { added_of result ≡ add_entries (run_of self) (plan_lent plan.entry) (entries_lent lists.old) (touching_of lent.entry) }
        ensures values_after { entries_lent lists.new ≡ entries_written (run_of self) (plan_lent plan.entry) (entries_lent lists.old) (touching_of lent.entry) }
        ensures refused { OnErr result.1 ((result.0 ≡ self) × (entries_lent lists.new ≡ entries_lent lists.old)) }
        ensures same { SameLists lists.old lists.new }
    {
        let answer = self.enter(plan, lent, lists);
        (self, answer)
    }
}
