// Why a job is turned down.
ghost use Rattle.std.specs.Prelude.{◌≡◌};
ghost use Rattle.job.specs.Answers.{number_of};

use std::error::Error;
use std::fmt;

#[derive(Clone, Copy, Debug, PartialEq, Eq, Hash)]
pub enum JobRefusal {
    // It is cut short or longer than it says, or of another version, or its length is not that of its cells.
    Malformed = 12,
    // It has more cells than `worklist` takes.
    TooLarge = 13,
}

impl JobRefusal {
    // The number that the paper gives it.
    pub fn number(self) -> u32
        ensures { result ≡ number_of self }
    {
        self as u32
    }
}

// For a caller's `{}` and `?`: nothing here calls it. (`Refusal` has the same line; a trait for both is longer than the two.)
impl fmt::Display for JobRefusal {
    fn fmt<W: fmt::Write>(&self, f: &mut fmt::Formatter<W>) -> fmt::Result {
        write!(f, "refused {}", self.number())
    }
}

impl Error for JobRefusal {}
