// What a pair is lent, touching or distant, as the adds see it.
ghost use Rattle.std.specs.Prelude.{◌≡◌, ℕ, ◌≤◌, true, Bool, List, Float, replicate};
ghost use Rattle.lists.specs.Refusals.{Check, refusal};
ghost use Rattle.refusals.specs.Numbers.{told};
ghost use Rattle.numbers.specs.Floats.{0·0};
ghost use Rattle.function.specs.Elements.{most_dim};
ghost use Rattle.integrands.specs.declared.Integrand.{Integrand};
ghost use Rattle.integrands.specs.Terms.{integrand_right};
ghost use Rattle.integrands.specs.Columns.{Held};
ghost use Rattle.lent_numbers.specs.Lent.{touching_checks, distant_checks};
ghost use Rattle.lent_numbers.specs.Forms.{touching_of, distant_of};
ghost use Rattle.lent_numbers.specs.Entries.{touching_entry, distant_entry};
ghost use Rattle.runs.specs.Runs.{is_touching, is_distant};

use cell_pair_assemblers::{distant_matrix, touching_matrix};
use cell_pairs::{DISTANT, NO_PATTERN};
use lent_numbers::{DistantNumbers, LocalForm, TouchingNumbers};
use refusals::Refusal;

// Which records take it, its checks 9 to 11, and its local entries. (Its two implementations hand on to one function each, of another crate, by three lines.)
pub(crate) trait LentNumbers: Copy {
    ghost is_taken: { ℕ → Bool };

    ghost checks: { Integrand → ℕ → ℕ → Self → List Check };

    ghost entry: { Integrand → Self → ℕ → ℕ → Float };

    // 23: whether a record of this pattern is of its sort.
    fn is_taken(pattern: u32) -> bool
        ensures { result ≡ is_taken pattern };

    // Checks 9 to 11.
    fn checked(self, local: LocalForm) -> Result<(), Refusal>
        requires { (local.test_dim ≤ most_dim) × (local.trial_dim ≤ most_dim) }
        ensures { told result ≡ refusal (checks local.integrand local.test_dim local.trial_dim self) };

    // Its local matrix, in place of zeros.
    fn write_matrix(self, local: LocalForm, entries: &mut [f64; 100])
        requires right { integrand_right local.integrand ≡ true }
        requires few { (local.test_dim ≤ most_dim) × (local.trial_dim ≤ most_dim) }
        requires passes { refusal (checks local.integrand local.test_dim local.trial_dim self) ≡ 0 }
        requires zeros { entries.old ≡ replicate 100 0·0 }
        ensures { Held local.test_dim local.trial_dim entries.new (entry local.integrand self) };
}

impl LentNumbers for TouchingNumbers<'_> {
    ghost is_taken = { is_touching };

    ghost checks = { λ f m n a. touching_checks f m n (touching_of a) };

    ghost entry = { λ f a. touching_entry f (touching_of a) };

    fn is_taken(pattern: u32) -> bool
        ensures { result ≡ is_touching pattern }
    {
        pattern < NO_PATTERN
    }

    fn checked(self, local: LocalForm) -> Result<(), Refusal> {
        self.check(local)
    }

    fn write_matrix(self, local: LocalForm, entries: &mut [f64; 100]) {
        touching_matrix(entries, local, self);
    }
}

impl LentNumbers for DistantNumbers<'_> {
    ghost is_taken = { is_distant };

    ghost checks = { λ f m n a. distant_checks f m n (distant_of a) };

    ghost entry = { λ f a. distant_entry f (distant_of a) };

    fn is_taken(pattern: u32) -> bool
        ensures { result ≡ is_distant pattern }
    {
        pattern == DISTANT
    }

    fn checked(self, local: LocalForm) -> Result<(), Refusal> {
        self.check(local)
    }

    fn write_matrix(self, local: LocalForm, entries: &mut [f64; 100]) {
        distant_matrix(entries, local, self);
    }
}
