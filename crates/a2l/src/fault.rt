//! Why an A2L file gives no description, with the line and the column of the fault.
use a2l_entries::{Awaited, Refused};
use a2l_text::Place;
use thiserror::Error;

/// Why a text gives no description.
#[derive(Debug, Drop, Error)]
pub enum A2lFault {
    #[error("out of memory")]
    Memory,
    /// Something is wrong at a place of the text.
    #[error("line {}, column {}: {reason}", .place.line, .place.column)]
    At { place: Place, reason: Reason },
}

/// What is wrong at a place of a text.
#[derive(Debug, Drop, Error)]
pub enum Reason {
    /// Something else was awaited.
    #[error("expected {0}")]
    Awaited(Awaited),
    /// The end of the block of this name was awaited.
    #[error("expected /end {0}")]
    AwaitedEnd(String),
    /// What stands there is refused.
    #[error("{0}")]
    Refused(Refused),
}
