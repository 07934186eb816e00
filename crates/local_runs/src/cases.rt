// A case: a pair of cells with what is lent for it, and the entries of its local matrix.
ghost use Rattle.std.specs.Prelude.{◌≡◌, ◌≤◌, true};
ghost use Rattle.function.specs.Elements.{most_dim};
ghost use Rattle.integrands.specs.Terms.{integrand_right};

use cell_pair_assemblers::{distant_matrix, touching_matrix};
use function::MOST_DIM;
use integrands::integrand_right;
use lent_numbers::{DistantNumbers, LocalForm, Side, TouchingNumbers};
use recorded::{Forms, Words, bits_of};
use refusals::Refusal;
use std::alloc::AllocError;
use std::io::Read;

/// The points of a touching pair, or of the two cells of a distant one.
#[derive(Clone, Copy)]
enum Points {
    Touching(usize),
    Distant { test: usize, trial: usize },
}

#[derive(Drop)]
pub struct Case {
    points: Points,
    local: LocalForm,
    test_weights: Vec<f64>,
    trial_weights: Vec<f64>,
    test_table: Vec<f64>,
    trial_table: Vec<f64>,
    kernel: Vec<f64>,
    test_geometry: Vec<f64>,
    trial_geometry: Vec<f64>,
    // The bits of the recorded entries.
    entries: Vec<u64>,
}

impl Case {
    pub fn read<R: Read>(words: &mut Words<R>) -> Result<Self, AllocError> {
        words.finish_word();
        let touching = words.digit() == 0;
        let forms = Forms::read(words);
        let test_dim = usize::from(words.digit());
        let trial_dim = usize::from(words.digit());
        let test_points = usize::from(words.digit());
        let trial_points = usize::from(words.digit());
        let [
            test_weights,
            trial_weights,
            test_table,
            trial_table,
            kernel,
            test_geometry,
            trial_geometry,
            entries,
        ] = words.word().to_be_bytes().map(usize::from);
        Ok(Case {
            points: if touching {
                Points::Touching(test_points)
            } else {
                Points::Distant {
                    test: test_points,
                    trial: trial_points,
                }
            },
            local: LocalForm {
                integrand: forms.read_factors(words),
                test_dim,
                trial_dim,
            },
            test_weights: words.scalars(test_weights)?,
            trial_weights: words.scalars(trial_weights)?,
            test_table: words.scalars(test_table)?,
            trial_table: words.scalars(trial_table)?,
            kernel: words.scalars(kernel)?,
            test_geometry: words.scalars(test_geometry)?,
            trial_geometry: words.scalars(trial_geometry)?,
            entries: words.scalars(entries)?,
        })
    }

    fn touching(&self, points: usize) -> TouchingNumbers<'_> {
        TouchingNumbers {
            points,
            weights: &self.test_weights,
            test_table: &self.test_table,
            trial_table: &self.trial_table,
            kernel: &self.kernel,
            test_geometry: &self.test_geometry,
            trial_geometry: &self.trial_geometry,
        }
    }

    fn distant(&self, test_points: usize, trial_points: usize) -> DistantNumbers<'_> {
        DistantNumbers {
            test: Side {
                points: test_points,
                weights: &self.test_weights,
                table: &self.test_table,
                geometry: &self.test_geometry,
            },
            trial: Side {
                points: trial_points,
                weights: &self.trial_weights,
                table: &self.trial_table,
                geometry: &self.trial_geometry,
            },
            kernel: &self.kernel,
        }
    }

    // The local matrix, or the refusal of what is lent.
    fn matrix(&self) -> Result<[f64; 100], Refusal>
        requires { (self.now.local.test_dim ≤ most_dim) × (self.now.local.trial_dim ≤ most_dim) × (integrand_right self.now.local.integrand ≡ true) }
    {
        // An array, as the calls ask for one.
        let mut entries = [0.0; 100];
        match self.points {
            Points::Touching(points) => {
                let lent = self.touching(points);
                lent.check(self.local)?;
                touching_matrix(&mut entries, self.local, lent);
            }
            Points::Distant { test, trial } => {
                let lent = self.distant(test, trial);
                lent.check(self.local)?;
                distant_matrix(&mut entries, self.local, lent);
            }
        }
        Ok(entries)
    }

    /// Whether the pair is accepted and gives the recorded entries.
    pub fn agrees(&self) -> bool {
        let LocalForm {
            integrand,
            test_dim,
            trial_dim,
        } = self.local;
        if MOST_DIM < test_dim || MOST_DIM < trial_dim || !integrand_right(integrand) {
            return false;
        }
        let count = test_dim * trial_dim;
        match self.matrix() {
            Ok(matrix) => {
                self.entries.len() == count
                    && matrix
                        .iter()
                        .zip(&self.entries)
                        .all(|(x, bits)| bits_of(*x) == *bits)
            }
            Err(_) => false,
        }
    }
}
