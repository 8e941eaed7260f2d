//! Why a measurement file of samples isn't written.
ghost use Rattle.std.specs.Prelude.{◌≡◌};
ghost use Rattle.mdf_file.specs.declared.mdf_fault.MdfFault.TheVariants.{Memory};
ghost use Rattle.mdf_groups.specs.declared.group_fault.GroupFault.TheVariants.{File, Form, Record};

use crate::form_fault::FormFault;
use crate::record_fault::RecordFault;
use mdf_file::MdfFault;
use std::alloc::{AllocError, AllocFailed};
use thiserror::Error;

/// Why a measurement file of samples isn't written.
#[derive(Clone, Copy, Debug, PartialEq, Eq, Error)]
pub enum GroupFault {
    #[error("{0}")]
    Form(FormFault),
    #[error("{0}")]
    Record(RecordFault),
    #[error("{0}")]
    File(MdfFault),
}

impl GroupFault {
    ghost use Rattle.std.specs.Prelude.{◌≡◌};
    ghost use Rattle.mdf_groups.specs.Files.{is_memory};

    /// Whether there isn't enough memory.
    pub fn is_memory(self) -> bool
        ensures { result ≡ is_memory self }
    {
        match self {
            GroupFault::Form(fault) => matches!(fault, FormFault::Memory),
            GroupFault::Record(fault) => matches!(fault, RecordFault::Memory),
            GroupFault::File(fault) => matches!(fault, MdfFault::Memory),
        }
    }
}

impl From<FormFault> for GroupFault {
    ghost from_gives = { λ fault e. e ≡ Form fault };

    fn from(fault: FormFault) -> GroupFault {
        GroupFault::Form(fault)
    }
}

impl From<RecordFault> for GroupFault {
    ghost from_gives = { λ fault e. e ≡ Record fault };

    fn from(fault: RecordFault) -> GroupFault {
        GroupFault::Record(fault)
    }
}

impl From<MdfFault> for GroupFault {
    ghost from_gives = { λ fault e. e ≡ File fault };

    fn from(fault: MdfFault) -> GroupFault {
        GroupFault::File(fault)
    }
}

impl From<AllocError> for GroupFault {
    ghost from_gives = { λ _ e. e ≡ File Memory };

    fn from(_error: AllocError) -> GroupFault {
        GroupFault::File(MdfFault::Memory)
    }
}

impl<T: Drop> From<AllocFailed<T>> for GroupFault {
    ghost from_gives = { λ _ e. e ≡ File Memory };

    fn from(_error: AllocFailed<T>) -> GroupFault {
        GroupFault::File(MdfFault::Memory)
    }
}
