//! Why the next frame of a recording can't be read: it is torn, or its counter jumps.
use thiserror::Error;

/// Why a recording breaks off, in the order of the checks.
#[derive(Clone, Copy, Debug, PartialEq, Eq, Error)]
pub enum FrameFault {
    /// The bytes that are left don't begin with a whole frame of at least one byte.
    #[error("the frame is torn")]
    Torn,
    /// The frame is whole, and has another counter than is awaited.
    #[error("the counter of a frame jumps")]
    Jump,
}
