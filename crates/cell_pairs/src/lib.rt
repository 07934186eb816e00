// Pairs of cells. Here a record of the work list: what it holds, and how it lies in a list of numbers, read and written. In specs/ the table of the
// patterns of touching pairs, check 7, the work list, and the counting theorem.
#![tactic(auto)]

ghost use Rattle.std.specs.Prelude.{◌≡◌, [], ◌∷◌, ◌+◌, ◌*◌, ◌≤◌, length};
ghost use Rattle.lists.specs.Writes.{Wrote, Room};
ghost use Rattle.cell_pairs.specs.Records.{width, record_at};
ghost use Rattle.cell_pairs.specs.RecordsFacts.{records};

// The numbers that a record takes.
pub const WIDTH: usize = 3;

// How many patterns touching pairs have: they are the numbers below this.
pub const PATTERNS: usize = 149;

// The same bound, in the type that patterns have: a number below it is a pattern. (By this name the constant of the type is written once, for three uses.)
pub const NO_PATTERN: u32 = PATTERNS as u32;

// Where the patterns of a triangle test cell with a quad trial cell begin, of a quad with a triangle, and of two quads.
pub const TRIANGLE_QUAD: usize = 28;

pub const QUAD_TRIANGLE: usize = 64;

pub const QUAD_QUAD: usize = 100;

// The pattern of a distant pair.
pub const DISTANT: u32 = 255;

// The pattern of a pair of cells, the test cell and the trial cell.
#[derive(Clone, Copy, Debug, PartialEq, Eq)]
pub struct WorkRecord {
    pub pattern: u32,
    pub test: u32,
    pub trial: u32,
}

// Record p of a work list. The list is of numbers, since C reads it.
pub fn record_at(work: &[u32], p: usize) -> WorkRecord
    requires { width * (p + 1) ≤ length work.now }
    ensures { result ≡ record_at work.now p }
{
    let start = WIDTH * p;
    WorkRecord {
        pattern: work[start],
        test: work[start + 1],
        trial: work[start + 2],
    }
}

// Writes a record at place at. Hands back the place after it.
pub fn put_record(work: &mut [u32], at: usize, item: WorkRecord) -> usize
    requires { Room records work.old at (item ∷ []) }
    ensures { Wrote records work.old work.new at result (item ∷ []) }
{
    let start = WIDTH * at;
    work[start] = item.pattern;
    work[start + 1] = item.test;
    work[start + 2] = item.trial;
    at + 1
}
