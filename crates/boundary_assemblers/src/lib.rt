// The run, begun from what planning hands back, and its calls.
#![tactic(auto)]

mod adds;
mod calls;
mod entries;
mod lent;

use cell_pairs::WorkRecord;
use plans::PlanNumbers;

// A run: the numbers of the planning that it was begun from, whether it is an entries run, and its position p. (A bool, as the definitions
// have it: each check asks whether it is an entries run, and of an enum each would be a comparison.)
#[derive(Clone, Copy)]
pub struct Run {
    pub numbers: PlanNumbers,
    pub entries: bool,
    pub position: u32,
}

// A cell of record p: its kind, a byte as in the kind list that C lends, and where its DOFs begin in the DOF list of its side and how many they are.
#[derive(Clone, Copy)]
pub(crate) struct Cell {
    pub kind: u8,
    pub start: usize,
    pub dim: usize,
}

// Record p, and its two cells.
#[derive(Clone, Copy)]
pub(crate) struct Pair {
    pub item: WorkRecord,
    pub test: Cell,
    pub trial: Cell,
}
