// What the program `worklist` prints for a job: numbers and lines as text (`text`), and from the bytes of a job to the text (`worklist`).
#![tactic(auto)]

mod text;
mod worklist;

use arrayvec::ArrayString;
pub use text::{refused_text, write_refused};
pub use worklist::{MOST_TEXT, worklist_text, write_worklist};

// The text: no work list of at most 64 cells has a longer one.
pub type Text = ArrayString<MOST_TEXT>;
