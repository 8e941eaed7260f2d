//! Why a program has no arguments to read, and the status that it ends with.
ghost use Rattle.std.specs.Prelude.{◌≡◌};
ghost use Rattle.program_input.specs.Faults.{status_of_arguments};

use thiserror::Error;

/// Why the arguments of a program can't be had.
#[derive(Clone, Copy, Debug, PartialEq, Eq, Error)]
pub enum ArgumentsFault {
    /// An argument isn't UTF-8.
    #[error("bad command line")]
    NotText,
    /// Memory ran out.
    #[error("out of memory")]
    Memory,
}

impl ArgumentsFault {
    /// The status that the program ends with.
    pub fn status(self) -> u8
        ensures { result ≡ status_of_arguments self }
    {
        match self {
            ArgumentsFault::NotText => 2,
            ArgumentsFault::Memory => 1,
        }
    }
}
