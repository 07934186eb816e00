// A case: a mesh with elements, batch size and integrand, and what each pair is lent.
ghost use Rattle.std.specs.Prelude.{◌<◌, ◌^◌};

use lent_numbers::{DistantNumbers, Side, TouchingNumbers};
use planning::Assembly;
use recorded::{Head, MeshVecs, PlanLengths, Scalar, Words};
use std::alloc::AllocError;
use std::io::Read;

/// How many floats there are of geometry, before the pool of other numbers.
pub const GEOMETRY: usize = 400;

/// How many numbers a record of places has: one more than there are lists.
pub const PLACE_NUMBERS: usize = 8;

/// The longest lists that a case has: those of 24 cells. A list that is longer in the file ends there.
pub const MOST: PlanLengths = PlanLengths {
    cell_vertices: 72,
    test_dofs: 240,
    trial_dofs: 240,
    colours: 24,
    test_owners: 720,
    trial_owners: 720,
    work: 1728,
};

const MOST_PLACES: usize = 4608;

const MOST_ENTRIES: usize = 768;

/// A number for each list that a distant pair is lent: how long it is, or where it begins.
#[derive(Clone, Copy)]
struct PerList {
    test_weights: usize,
    trial_weights: usize,
    test_table: usize,
    trial_table: usize,
    kernel: usize,
    test_geometry: usize,
    trial_geometry: usize,
}

impl PerList {
    fn read<R: Read>(words: &mut Words<R>) -> Self {
        PerList {
            test_weights: usize::next_in(words),
            trial_weights: usize::next_in(words),
            test_table: usize::next_in(words),
            trial_table: usize::next_in(words),
            kernel: usize::next_in(words),
            test_geometry: usize::next_in(words),
            trial_geometry: usize::next_in(words),
        }
    }
}

/// How many points a cell has, and how long the lists are that a distant pair is lent.
#[derive(Clone, Copy)]
struct Distant {
    test_points: usize,
    trial_points: usize,
    lengths: PerList,
}

/// The same of a touching pair.
#[derive(Clone, Copy)]
struct Touching {
    points: usize,
    weights: usize,
    test_table: usize,
    trial_table: usize,
    kernel: usize,
    geometry: usize,
}

/// The geometry of points with the pool of other numbers behind it, and the places of a case in them, a record for each pair.
#[derive(Clone, Copy)]
pub struct Numbers<'a> {
    pub floats: &'a [f64],
    pub places: &'a [u32],
}

impl<'a> Numbers<'a> {
    // Number j of the places of the pair at a position; 0 where they end.
    fn place(self, position: u32, j: usize) -> usize
        requires { j < 8 }
        ensures { result < 2 ^ 32 }
    {
        match self.places.get(PLACE_NUMBERS * position as usize + j) {
            Some(&place) => place as usize,
            None => 0,
        }
    }

    // Where the lists of the pair at a position begin. A touching pair's weights are its test weights.
    fn begin(self, position: u32) -> PerList {
        PerList {
            test_weights: GEOMETRY + self.place(position, 0),
            trial_weights: GEOMETRY + self.place(position, 1),
            test_table: GEOMETRY + self.place(position, 2),
            trial_table: GEOMETRY + self.place(position, 3),
            kernel: GEOMETRY + self.place(position, 4),
            test_geometry: self.place(position, 5),
            trial_geometry: self.place(position, 6),
        }
    }

    // The n floats from a place on; all of them where they are not there, which an add turns down.
    fn part(self, place: usize, n: usize) -> &'a [f64] {
        self.floats
            .get(place..)
            .and_then(|rest| rest.get(..n))
            .unwrap_or(self.floats)
    }

    fn touching(self, lengths: Touching, position: u32) -> TouchingNumbers<'a> {
        let begin = self.begin(position);
        TouchingNumbers {
            points: lengths.points,
            weights: self.part(begin.test_weights, lengths.weights),
            test_table: self.part(begin.test_table, lengths.test_table),
            trial_table: self.part(begin.trial_table, lengths.trial_table),
            kernel: self.part(begin.kernel, lengths.kernel),
            test_geometry: self.part(begin.test_geometry, lengths.geometry),
            trial_geometry: self.part(begin.trial_geometry, lengths.geometry),
        }
    }

    fn distant(self, distant: Distant, position: u32) -> DistantNumbers<'a> {
        let begin = self.begin(position);
        let lengths = distant.lengths;
        DistantNumbers {
            test: Side {
                points: distant.test_points,
                weights: self.part(begin.test_weights, lengths.test_weights),
                table: self.part(begin.test_table, lengths.test_table),
                geometry: self.part(begin.test_geometry, lengths.test_geometry),
            },
            trial: Side {
                points: distant.trial_points,
                weights: self.part(begin.trial_weights, lengths.trial_weights),
                table: self.part(begin.trial_table, lengths.trial_table),
                geometry: self.part(begin.trial_geometry, lengths.trial_geometry),
            },
            kernel: self.part(begin.kernel, lengths.kernel),
        }
    }
}

/// What planning is given, the number of its refusal, if it refuses, and the lengths of the lists that the runs are lent and write.
#[derive(Drop)]
pub struct Case {
    pub assembly: Assembly,
    // A number, as the file has it: one that no check has is no `Refusal`, and differs all the same.
    pub refusal: Option<u32>,
    pub lengths: PlanLengths,
    // How many numbers the places are.
    pub places: usize,
    pub test_owners: usize,
    pub trial_owners: usize,
    pub matrix: usize,
    pub entries: usize,
    distant: Distant,
    touching: Touching,
    pub mesh: MeshVecs,
}

impl Case {
    pub fn read<R: Read>(words: &mut Words<R>) -> Result<Self, AllocError> {
        let head = Head::read(words);
        let test_points = usize::from(words.digit());
        let trial_points = usize::from(words.digit());
        let points = usize::from(words.digit());
        let refusal = match words.digit() {
            0 => None,
            number => Some(u32::from(number)),
        };
        let assembly = head.read_assembly(words);
        let lengths = PlanLengths::read(words);
        let places = usize::next_in(words);
        let test_owners = usize::next_in(words);
        let trial_owners = usize::next_in(words);
        let matrix = usize::next_in(words);
        let entries = usize::next_in(words);
        let distant = Distant {
            test_points,
            trial_points,
            lengths: PerList::read(words),
        };
        let touching = Touching {
            points,
            weights: usize::next_in(words),
            test_table: usize::next_in(words),
            trial_table: usize::next_in(words),
            kernel: usize::next_in(words),
            geometry: usize::next_in(words),
        };
        let kinds = vec![in words.alloc; TRIANGLE; head.sizes.cells as usize]?;
        let cell_vertices = lengths.cell_vertices.min(MOST.cell_vertices);
        Ok(Case {
            assembly,
            refusal,
            lengths,
            places,
            test_owners,
            trial_owners,
            matrix,
            entries: entries.min(MOST_ENTRIES),
            distant,
            touching,
            mesh: MeshVecs::read(words, head.sizes, kinds, cell_vertices)?,
        })
    }

    /// The next places.
    pub fn read_places<R: Read>(&self, words: &mut Words<R>) -> Result<Vec<u32>, AllocError> {
        words.scalars(self.places.min(MOST_PLACES))
    }

    pub fn touching<'a>(&self, numbers: Numbers<'a>, position: u32) -> TouchingNumbers<'a> {
        numbers.touching(self.touching, position)
    }

    pub fn distant<'a>(&self, numbers: Numbers<'a>, position: u32) -> DistantNumbers<'a> {
        numbers.distant(self.distant, position)
    }
}

// The kind of a triangle in a kind list. (`worklist_text` has the same line: no crate below both has a constant for it.)
const TRIANGLE: u8 = 3;
