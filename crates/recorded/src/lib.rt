// Files of recorded answers: words of 16 hexadecimal digits, a blank or a line end after each.
#![tactic(auto)]

mod floats;
mod heads;
mod planned;
mod values;
mod words;

pub use floats::{bits_of, finite_of};
pub use heads::{Forms, Head, read_element};
pub use planned::{EntryVecs, MeshVecs, PlanLengths, PlanVecs, front};
pub use values::{Recorded, Scalar};
pub use words::Words;
