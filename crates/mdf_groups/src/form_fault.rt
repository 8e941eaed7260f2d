//! Why the records of a group have no form.
ghost use Rattle.std.specs.Prelude.{◌≡◌};
ghost use Rattle.mdf_groups.specs.declared.form_fault.FormFault.TheVariants.{Memory};

use std::alloc::{AllocError, AllocFailed};
use thiserror::Error;

/// Why the records of a group have no form.
#[derive(Clone, Copy, Debug, PartialEq, Eq, Error)]
pub enum FormFault {
    #[error("there is not enough memory")]
    Memory,
    #[error("the records are too long")]
    TooLong,
    #[error("a value doesn't lie in the sample")]
    Outside,
}

impl From<AllocError> for FormFault {
    ghost from_gives = { λ _ e. e ≡ Memory };

    fn from(_e: AllocError) -> FormFault {
        FormFault::Memory
    }
}

impl<T: Drop> From<AllocFailed<T>> for FormFault {
    ghost from_gives = { λ _ e. e ≡ Memory };

    fn from(_e: AllocFailed<T>) -> FormFault {
        FormFault::Memory
    }
}
