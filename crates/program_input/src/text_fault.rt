//! Why the text of a file or of standard input can't be read.
ghost use Rattle.std.specs.Prelude.{◌≡◌, ◌≢◌};
ghost use Rattle.std.specs.IoError.{error_kind};

use std::alloc::AllocError;
use std::io::{self, ErrorKind};
use thiserror::Error;

/// Why a text isn't read.
#[derive(Clone, Copy, Debug, PartialEq, Eq, Error)]
pub enum TextFault {
    /// It can't be read, or has too many bytes.
    #[error("cannot read the text")]
    Unreadable,
    /// Memory ran out.
    #[error("out of memory")]
    Memory,
}

impl TextFault {
    /// This fault, or lack of memory if that is what the system answered.
    pub fn or_memory(self, error: &io::Error) -> TextFault
        ensures memory { error_kind error.now ≡ ErrorKind.OutOfMemory → result ≡ TextFault.Memory }
        ensures other { error_kind error.now ≢ ErrorKind.OutOfMemory → result ≡ self }
    {
        match error.kind() {
            ErrorKind::OutOfMemory => TextFault::Memory,
            _ => self,
        }
    }
}

impl From<AllocError> for TextFault {
    ghost use Rattle.program_input.specs.declared.text_fault.TextFault.TheVariants.{Memory};

    ghost from_gives = { λ _ fault. fault ≡ Memory };

    fn from(_error: AllocError) -> TextFault {
        TextFault::Memory
    }
}
