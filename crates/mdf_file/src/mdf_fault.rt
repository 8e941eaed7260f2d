//! Why a file isn't written.
use std::alloc::{AllocError, AllocFailed};
use std::io::{self, ErrorKind};
use thiserror::Error;

/// Why a file isn't written.
#[derive(Clone, Copy, Debug, PartialEq, Eq, Error)]
pub enum MdfFault {
    #[error("there is not enough memory")]
    Memory,
    #[error("a text has a byte of 0")]
    ZeroInText,
    #[error("a conversion has more than 65535 texts or numbers")]
    LongConversion,
    #[error("the records of a group have no bytes")]
    NoRecordBytes,
    #[error("the bytes of a group are no whole records")]
    PartOfRecord,
    #[error("the file is too long")]
    TooLong,
    #[error("there is no such group")]
    NoGroup,
    #[error("the file can't be written")]
    Unwritten,
}

impl From<AllocError> for MdfFault {
    fn from(_e: AllocError) -> MdfFault {
        MdfFault::Memory
    }
}

impl<T: Drop> From<AllocFailed<T>> for MdfFault {
    fn from(_e: AllocFailed<T>) -> MdfFault {
        MdfFault::Memory
    }
}

impl From<io::Error> for MdfFault {
    fn from(e: io::Error) -> MdfFault {
        match e.kind() {
            ErrorKind::OutOfMemory => MdfFault::Memory,
            _ => MdfFault::Unwritten,
        }
    }
}
