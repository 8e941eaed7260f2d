//! Why the playing of a session breaks off.
use session::ProfileFault;
use std::alloc::AllocError;
use thiserror::Error;

/// Why a session was not played to its end.
#[derive(Clone, Copy, Debug, PartialEq, Eq, Error)]
pub enum PlayFault {
    /// The profile is out of a limit.
    #[error("{0}")]
    Profile(ProfileFault),
    /// Memory ran out.
    #[error("out of memory")]
    Memory,
    /// What is left of a task did not come back, so the account would not be whole.
    #[error("what is left of a task did not come back")]
    PartLost,
}

impl From<AllocError> for PlayFault {
    fn from(_: AllocError) -> PlayFault {
        PlayFault::Memory
    }
}
