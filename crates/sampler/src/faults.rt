//! Why a sampler refuses a trigger, a start or a stop.
use thiserror::Error;

/// Why a trigger was not taken. The sampler is unchanged.
#[derive(Clone, Copy, Debug, PartialEq, Eq, Error)]
pub enum TriggerFault {
    /// The image has the wrong length.
    #[error("the image has the wrong length")]
    WrongImage,
    /// `MAX_TRIGGERS` triggers were accepted.
    #[error("no more triggers are accepted")]
    Spent,
}

/// Why a trigger over memory as it is was not taken. The sampler is unchanged.
#[derive(Clone, Copy, Debug, PartialEq, Eq, Error)]
pub enum MemoryFault {
    /// There isn't a slice for each segment, or one of a segment that the event channel may read
    /// has another length than the segment.
    #[error("memory doesn't fit the segments")]
    WrongMemory,
    /// `MAX_TRIGGERS` triggers were accepted.
    #[error("no more triggers are accepted")]
    Spent,
}

/// Why a DAQ list was not started. The sampler is unchanged.
#[derive(Clone, Copy, Debug, PartialEq, Eq, Error)]
pub enum StartFault {
    /// The list is not one of the event channel's.
    #[error("the list is not of this channel")]
    NotOfChannel,
    /// It runs already.
    #[error("the list runs already")]
    Running,
}

/// Why a DAQ list was not stopped. It runs or doesn't run, as before.
#[derive(Clone, Copy, Debug, PartialEq, Eq, Error)]
pub enum StopFault {
    /// The list is not one of the event channel's.
    #[error("the list is not of this channel")]
    NotOfChannel,
    /// It doesn't run.
    #[error("the list doesn't run")]
    NotRunning,
    /// The ring had no room for the stop marker. The list still runs.
    #[error("the ring has no room for the stop marker")]
    NoRoom,
}
