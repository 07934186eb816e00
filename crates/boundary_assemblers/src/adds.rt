// The adds: the local matrix of the pair at the run's position goes into the matrix.
ghost use Rattle.std.specs.Prelude.{◌≡◌, ◌≤◌, true, replicate, OnOk, OnErr};
ghost use Rattle.lists.specs.Refusals.{refusal};
ghost use Rattle.refusals.specs.Numbers.{told};
ghost use Rattle.numbers.specs.Floats.{0·0};
ghost use Rattle.function.specs.Elements.{most_dim};
ghost use Rattle.integrands.specs.Terms.{integrand_right};
ghost use Rattle.integrands.specs.Columns.{Held};
ghost use Rattle.lent_numbers.specs.Forms.{touching_of, distant_of};
ghost use Rattle.scatter.specs.Adding.{add_local};
ghost use Rattle.scatter.specs.Entries.{entry_at};
ghost use Rattle.runs.specs.Runs.{matrix_right, add_touching, touching_matrix, add_distant, distant_matrix};
ghost use Rattle.boundary_assemblers.specs.Forms.{run_of, plan_lent, added_of, dofs_at};
ghost use Rattle.boundary_assemblers.specs.RunFacts.{Standing};
ghost use Rattle.boundary_assemblers.specs.AddFacts.{added_by, matrix_by};

use crate::calls::local_matrix;
use crate::lent::LentNumbers;
use crate::{Pair, Run};
use lent_numbers::{DistantNumbers, LocalForm, TouchingNumbers};
use numbers::wide;
use plans::Plan;
use refusals::Refusal;

impl Run {
    // 21: the matrix has its length.
    fn matrix_right(&self, matrix: &[f64]) -> bool
        ensures { result ≡ matrix_right (run_of self.now) matrix.now }
    {
        matrix.len() == wide(self.numbers.rows) * wide(self.numbers.columns)
    }

    // Adds a local matrix at the DOFs of the two cells of record p.
    fn add_matrix(&self, plan: Plan, pair: Pair, entries: &[f64; 100], matrix: &mut [f64])
        requires { Standing (run_of self.now) plan.test_dofs.now plan.trial_dofs.now pair (matrix_right (run_of self.now) matrix.old) }
        ensures { matrix.new ≡ add_local (entry_at entries.now pair.test.dim) self.now.numbers.rows
            (dofs_at plan.entry.test_dofs.now pair.test) (dofs_at plan.entry.trial_dofs.now pair.trial) matrix.old }
    {
        local_matrix(plan, pair, entries).add_to(
            matrix,
            wide(self.numbers.rows),
            wide(self.numbers.columns),
        );
    }

    // The local matrix of record p, from what is lent and zeros. Checks 9 to 11. (The dims of a pair are known to be few only of a run that 21 has passed: so
    // it is asked here, and in `LentNumbers` of the form of the local matrix.)
    pub(crate) fn write_local<L: LentNumbers>(
        &self,
        pair: Pair,
        lent: L,
        entries: &mut [f64; 100],
    ) -> Result<(), Refusal>
        requires right { integrand_right self.now.numbers.integrand ≡ true }
        requires few { (pair.test.dim ≤ most_dim) × (pair.trial.dim ≤ most_dim) }
        requires zeros { entries.old ≡ replicate 100 0·0 }
        ensures refusal { told result ≡ refusal (L.checks self.now.numbers.integrand pair.test.dim pair.trial.dim lent) }
        ensures held { OnOk result (Held pair.test.dim pair.trial.dim entries.new (L.entry self.now.numbers.integrand lent)) }
    {
        let local = LocalForm {
            integrand: self.numbers.integrand,
            test_dim: pair.test.dim,
            trial_dim: pair.trial.dim,
        };
        lent.checked(local)?;
        lent.write_matrix(local, entries);
        Ok(())
    }

    // Adds the local matrix of a pair of one sort. Checks 21, 20, 22, 23, then 9 to 11.
    fn add<L: LentNumbers>(
        &mut self,
        plan: Plan,
        lent: L,
        matrix: &mut [f64],
    ) -> Result<(), Refusal>
        ensures result_value { added_of (self.new, result) ≡ added_by L.is_taken (λ m n. L.checks self.old.numbers.integrand m n lent) (run_of self.old) (plan_lent plan.entry) matrix.old }
        ensures matrix_after { matrix.new ≡ matrix_by L.is_taken (λ m n. L.checks self.old.numbers.integrand m n lent) (L.entry self.old.numbers.integrand lent) (run_of self.old) (plan_lent plan.entry) matrix.old }
        ensures refused { OnErr result ((self.new ≡ self.old) × (matrix.new ≡ matrix.old)) }
    {
        if !self.matrix_right(matrix) {
            return Err(Refusal::Run);
        }
        let pair = self.state_checked(plan)?;
        if !(L::is_taken(pair.item.pattern) & !self.entries) {
            return Err(Refusal::Kind);
        }
        // nothing is allocated: a local matrix has at most 10 by 10 entries
        let mut entries = [0.0; 100];
        self.write_local(pair, lent, &mut entries)?;
        self.add_matrix(plan, pair, &entries, matrix);
        self.position += 1;
        Ok(())
    }

    // Adds the local matrix of a touching pair, and hands the run back. Checks 21, 20, 22, 23, then 9 to 11. A refused call leaves the run and the matrix
    // as they were. (It differs from `add_distant` in what it is lent; the work of both, but for two lines, is done by `add`.)
    pub fn add_touching(
        mut self,
        plan: Plan,
        lent: TouchingNumbers,
        matrix: &mut [f64],
    ) -> (Run, Result<(), Refusal>)
        ensures result_value { added_of result ≡ add_touching (run_of self) (plan_lent plan.entry) matrix.old (touching_of lent.entry) }
        ensures matrix_after { matrix.new ≡ touching_matrix (run_of self) (plan_lent plan.entry) matrix.old (touching_of lent.entry) }
        ensures refused { OnErr result.1 ((result.0 ≡ self) × (matrix.new ≡ matrix.old)) }
    {
        let answer = self.add(plan, lent, matrix);
        (self, answer)
    }

    // Adds the local matrix of a distant pair, and hands the run back. Checks 21, 20, 22, 23, then 9 to 11. A refused call leaves the run and the matrix as
    // they were.
    pub fn add_distant(
        mut self,
        plan: Plan,
        lent: DistantNumbers,
        matrix: &mut [f64],
    ) -> (Run, Result<(), Refusal>)
        ensures result_value { added_of result ≡ add_distant (run_of self) (plan_lent plan.entry) matrix.old (distant_of lent.entry) }
        ensures matrix_after { matrix.new ≡ distant_matrix (run_of self) (plan_lent plan.entry) matrix.old (distant_of lent.entry) }
        ensures refused { OnErr result.1 ((result.0 ≡ self) × (matrix.new ≡ matrix.old)) }
    {
        let answer = self.add(plan, lent, matrix);
        (self, answer)
    }
}
