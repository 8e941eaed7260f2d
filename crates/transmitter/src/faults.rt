//! Why a pump is refused, or breaks off at a frame.
use thiserror::Error;

/// Why a pump stopped.
#[derive(Clone, Copy, Debug, PartialEq, Eq, Error)]
pub enum PumpFault {
    /// A frame was not written whole. Its sample stays in hand, and the writer is closed.
    #[error("a frame was not written whole")]
    Failed,
    /// The writer was closed earlier. Nothing was taken.
    #[error("the writer failed earlier")]
    Closed,
    /// `MAX_TAKEN` items were taken. Nothing was taken.
    #[error("no more items are taken")]
    Spent,
}
