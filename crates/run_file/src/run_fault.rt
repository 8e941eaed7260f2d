//! The faults of a run file, with the place of a bad packet or a bad step.
use thiserror::Error;

/// Why a text is no run file, in the order in which it is looked for. Places are counted from 0.
#[derive(Clone, Copy, Debug, PartialEq, Eq, Error)]
pub enum RunFault {
    /// It is no TOML document.
    #[error("not toml")]
    NotToml,
    /// A key is missing or isn't one of a run file, or its value isn't of its type or not within
    /// its limits.
    #[error("key")]
    BadKey,
    /// This string of `setup` is the first that is no command packet in hexadecimal.
    #[error("setup {0}")]
    BadSetup(usize),
    /// This string of `steps` is the first that is no step.
    #[error("step {0}")]
    BadStep(usize),
    /// Memory ran out. It may be answered before any other fault is looked for.
    #[error("out of memory")]
    Memory,
}
