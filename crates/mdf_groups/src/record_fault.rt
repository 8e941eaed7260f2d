//! Why a record isn't written.
use thiserror::Error;

/// Why a record isn't written. Nothing was appended.
#[derive(Clone, Copy, Debug, PartialEq, Eq, Error)]
pub enum RecordFault {
    #[error("there is not enough memory")]
    Memory,
    #[error("the records of the group have times of another kind")]
    WrongTime,
    #[error("the sample has another number of bytes")]
    WrongLength,
}
