//! Why a sampler isn't handed out to its task.
use thiserror::Error;

/// Why a sampler was not handed out. The link is unchanged.
#[derive(Clone, Copy, Debug, PartialEq, Eq, Error)]
pub enum HandFault {
    /// The measurement that was handed out last has not ended.
    #[error("the measurement has not ended")]
    NotEnded,
    /// Two samplers are out, or the task was using the place at that moment.
    #[error("the task has not given back the one before")]
    Busy,
    /// There was no memory.
    #[error("out of memory")]
    Memory,
}
