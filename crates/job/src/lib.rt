// The job format: the fields of a job and checks 12 and 13 (`reading`), what its first 7 bytes decide (`head`), and why a job is turned down (`refusal`).
#![tactic(auto)]

mod head;
mod reading;
mod refusal;

use function::Element;
pub use head::{check_size, read_head};
pub use reading::read_job;
pub use refusal::JobRefusal;

// The most cells of a job of `worklist`.
pub const MOST_WORKLIST_CELLS: u32 = 64;

// The numbers of a job that stand before its lists: C, V, E, the two elements and the batch size.
#[derive(Clone, Copy)]
pub struct JobNumbers {
    pub cells: u32,
    pub vertices: u32,
    pub edges: u32,
    pub test: Element,
    pub trial: Element,
    pub batch: u32,
}
