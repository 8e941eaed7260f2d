//! What is awaited at a place of an A2L text, or refused there, in words.
ghost use Rattle.std.specs.Prelude.{◌≡◌};
ghost use Rattle.a2l_entries.specs.declared.entry_fault.EntryFault.TheVariants.{Memory};

use crate::awaited::Awaited;
use crate::refused::Refused;
use std::alloc::{AllocError, AllocFailed};

/// Why an entry isn't read, with the offset in the text.
#[derive(Clone, Copy)]
pub enum EntryFault {
    Memory,
    Awaited(usize, Awaited),
    Refused(usize, Refused),
}

impl From<AllocError> for EntryFault {
    ghost from_gives = { λ _ e. e ≡ Memory };

    fn from(_e: AllocError) -> EntryFault {
        EntryFault::Memory
    }
}

impl<T: Drop> From<AllocFailed<T>> for EntryFault {
    ghost from_gives = { λ _ e. e ≡ Memory };

    fn from(_e: AllocFailed<T>) -> EntryFault {
        EntryFault::Memory
    }
}
