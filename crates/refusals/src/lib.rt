// Why a call turns its input down. Each reason has the number by which the paper and the C interface know it; where a call tests several things, the first that
// does not hold is the reason.
#![tactic(auto)]

ghost use Rattle.std.specs.Prelude.{◌≡◌};
ghost use Rattle.refusals.specs.Numbers.{number_of};

use std::error::Error;
use std::fmt;

#[derive(Clone, Copy, Debug, PartialEq, Eq, Hash)]
pub enum Refusal {
    // The number of cells, or the length of the vertex list.
    Cells = 1,
    // The number of vertices, or a vertex number.
    Vertices = 2,
    // The number of edges, the length of the edge list, an edge number, or the edge rule.
    Edges = 3,
    // The dim of an element, or `a` or `b` not the same for both kinds.
    Dim = 4,
    // The batch size.
    Batch = 5,
    // The integrand.
    Integrand = 6,
    // Two cells that share vertices in a way that has no pattern.
    Pattern = 7,
    // The length of a list that planning writes.
    ListLength = 8,
    // A point count.
    PointCount = 9,
    // The length of a lent list.
    LentLength = 10,
    // A lent number.
    LentNumber = 11,
    // No record is left.
    NoRecordLeft = 20,
    // The numbers of the run, the kind list, or the length of plan, matrix or entry lists.
    Run = 21,
    // The record at the run's position.
    Record = 22,
    // The record, or the run, is of the other kind.
    Kind = 23,
    // The length of a list that sparse rows are written into.
    SparseLength = 24,
    // The lengths of entry lists, or a row or column.
    Entries = 25,
    // The length of the kind list, or a kind.
    Kinds = 26,
}

impl Refusal {
    // The number that the paper gives it.
    pub fn number(self) -> u32
        ensures { result ≡ number_of self }
    {
        self as u32
    }
}

// The same number, as the forms of C take it; elsewhere `number` says what the u32 is.
impl From<Refusal> for u32 {
    fn from(refusal: Refusal) -> u32
        ensures { result ≡ number_of refusal }
    {
        refusal.number()
    }
}

// (The body is one line, and that of a job's refusal the same: a trait for the two would be longer.)
impl fmt::Display for Refusal {
    fn fmt<W: fmt::Write>(&self, f: &mut fmt::Formatter<W>) -> fmt::Result {
        write!(f, "refused {}", self.number())
    }
}

impl Error for Refusal {}
