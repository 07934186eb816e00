// A case: what is played, and what must come of it.
use function::Elements;
use planning::Assembly;
use recorded::{Head, MeshVecs, PlanLengths, Scalar, Words, read_element};
use std::alloc::AllocError;
use std::fmt;
use std::io::Read;

// How many numbers encode a call.
const CALL_NUMBERS: usize = 11;

/// How long the lists of the sparse rows are, and what gathering the entries into them must answer: how many values are kept, or its refusal.
#[derive(Clone, Copy)]
pub struct Gathering {
    pub starts: usize,
    pub columns: usize,
    pub values: usize,
    // A refusal is a number, as the file has it: one that no check has is no `Refusal`, and differs all the same. None for a form that no answer has.
    pub answer: Option<Result<u64, u32>>,
}

/// What is planned and played, and what must be answered: the position after the last call or planning's refusal, and where gathering is asked what it answers.
#[derive(Drop)]
pub struct Case {
    pub assembly: Assembly,
    // Whether the run is of entries: `replay` takes a `bool`, as the run itself.
    pub entries: bool,
    pub lengths: PlanLengths,
    pub matrix_count: usize,
    pub entry_count: usize,
    pub answer_count: usize,
    // A refusal is a number here too.
    pub played: Result<u32, u32>,
    pub gathering: Option<Gathering>,
    pub mesh: MeshVecs,
    // How many calls and entries the file says, of which no more are read than there may be.
    call_count: usize,
    pub calls: Vec<usize>,
    pub pool: Vec<f64>,
}

// The longest lists that a case has: those of 8 cells and 160 calls, with a kind too many. A list that is longer in the file ends there.
pub const MOST: PlanLengths = PlanLengths {
    cell_vertices: 32,
    test_dofs: 80,
    trial_dofs: 80,
    colours: 8,
    test_owners: 240,
    trial_owners: 240,
    work: 192,
};

const MOST_KINDS: usize = 9;

const MOST_CALL_NUMBERS: usize = 160 * CALL_NUMBERS;

const MOST_POOL: usize = 1200;

const MOST_MATRIX: usize = 300;

pub const MOST_ENTRIES: usize = 600;

const MOST_ANSWERS: usize = 640;

const MOST_STARTS: usize = 24;

// What gathering must answer, by its form, a number of the file, where it is asked: nothing answers a form of the file that there is not.
fn gathered(form: u32, number: u32) -> Option<Result<u64, u32>> {
    match form {
        1 => Some(Ok(u64::from(number))),
        2 => Some(Err(number)),
        _ => None,
    }
}

impl Case {
    pub fn read<R: Read>(words: &mut Words<R>) -> Result<Self, AllocError> {
        let head = Head::read(words);
        let entries = words.digit() == 1;
        // Two digits; 0 where planning accepts. (No reader of two digits stands in `recorded`: it would be a function for this line alone.)
        let refusal = 16 * u32::from(words.digit()) + u32::from(words.digit());
        let assembly = head.read_assembly(words);
        let test_quad = read_element(words);
        let trial_quad = read_element(words);
        let lengths = PlanLengths::read(words);
        let call_numbers = usize::next_in(words);
        let pool = usize::next_in(words);
        let matrix = usize::next_in(words);
        let entry_count = usize::next_in(words);
        let answers = usize::next_in(words);
        let position = u32::next_in(words);
        let starts = usize::next_in(words);
        let columns = usize::next_in(words);
        let values = usize::next_in(words);
        let form = u32::next_in(words);
        let number = u32::next_in(words);
        let kinds = usize::next_in(words);
        let kinds = words.scalars(kinds.min(MOST_KINDS))?;
        let gathering = Gathering {
            starts: starts.min(MOST_STARTS),
            columns: columns.min(MOST_ENTRIES),
            values: values.min(MOST_ENTRIES),
            answer: gathered(form, number),
        };
        let cell_vertices = lengths.cell_vertices.min(MOST.cell_vertices);
        Ok(Case {
            assembly: Assembly {
                test: Elements {
                    quad: test_quad,
                    ..assembly.test
                },
                trial: Elements {
                    quad: trial_quad,
                    ..assembly.trial
                },
                ..assembly
            },
            entries,
            lengths,
            matrix_count: matrix.min(MOST_MATRIX),
            entry_count,
            answer_count: answers.min(MOST_ANSWERS),
            played: if refusal == 0 {
                Ok(position)
            } else {
                Err(refusal)
            },
            gathering: (form != 0).then_some(gathering),
            mesh: MeshVecs::read(words, head.sizes, kinds, cell_vertices)?,
            call_count: call_numbers / CALL_NUMBERS,
            calls: words.scalars(call_numbers.min(MOST_CALL_NUMBERS))?,
            pool: words.scalars(pool.min(MOST_POOL))?,
        })
    }
}

impl fmt::Display for Case {
    fn fmt<W: fmt::Write>(&self, f: &mut fmt::Formatter<W>) -> fmt::Result {
        let cells = self.mesh.sizes.cells;
        let calls = self.call_count;
        write!(f, "{cells} cells, {calls} calls, ")?;
        match self.played {
            Ok(position) => write!(f, "position {position}")?,
            Err(refusal) => write!(f, "planning refuses {refusal}")?,
        }
        let entries = self.entry_count;
        match self.gathering.and_then(|gathering| gathering.answer) {
            None => Ok(()),
            Some(Ok(kept)) => write!(f, ", {kept} values kept of {entries} entries"),
            Some(Err(refusal)) => write!(f, ", gathering refuses {refusal}"),
        }
    }
}
