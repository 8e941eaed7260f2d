//! The statuses of all calls for C, with their numbers.
ghost use Rattle.std.specs.Prelude.{◌≡◌};
ghost use Rattle.c_engine.specs.Statuses.{number_of};

/// What a call answers. Its number is that of `ng_status` in `nerthogal.h`.
#[derive(Clone, Copy, Debug, PartialEq, Eq)]
pub enum Status {
    /// It was done.
    Ok,
    /// The handle is empty.
    Empty,
    /// The handle that was to be filled isn't empty.
    InUse,
    /// A number is out of its limits.
    BadLimits,
    /// The buffer is too short.
    SmallBuffer,
    /// Lack of memory.
    Memory,
    /// There is not one capacity for each event channel, or one is out of its limits.
    BadCaps,
    /// No DAQ list runs.
    NothingRunning,
    /// All samplers were handed out.
    NoSampler,
    /// The image has another length.
    WrongImage,
    /// No more triggers, or no more items, are taken.
    Spent,
    /// The DAQ list isn't one of the sampler's.
    NotOfChannel,
    /// The DAQ list runs already.
    Running,
    /// The DAQ list doesn't run.
    NotRunning,
    /// The ring has no room for the stop marker.
    NoRoom,
    /// A sampler, or a task, was not finished yet.
    Unfinished,
    /// The sampler's engine was freed.
    NoEngine,
    /// The task of the event channel was handed out before.
    NoTask,
    /// A frame's LEN is 0 or too great.
    BadFrame,
    /// Memory isn't there as the segments of the profile have it.
    WrongMemory,
}

impl Status {
    /// The number.
    pub fn number(self) -> u32
        ensures { result ≡ number_of self }
    {
        match self {
            Status::Ok => 0,
            Status::Empty => 1,
            Status::InUse => 2,
            Status::BadLimits => 3,
            Status::SmallBuffer => 4,
            Status::Memory => 5,
            Status::BadCaps => 6,
            Status::NothingRunning => 7,
            Status::NoSampler => 8,
            Status::WrongImage => 9,
            Status::Spent => 10,
            Status::NotOfChannel => 11,
            Status::Running => 12,
            Status::NotRunning => 13,
            Status::NoRoom => 14,
            Status::Unfinished => 15,
            Status::NoEngine => 16,
            Status::NoTask => 17,
            Status::BadFrame => 18,
            Status::WrongMemory => 19,
        }
    }
}
