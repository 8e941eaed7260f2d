//! The faults of a session file, with the place of a bad segment, event channel or line.
use thiserror::Error;

/// Why a text is no session file, in the order in which it is looked for. Places are counted from
/// 0.
#[derive(Clone, Copy, Debug, PartialEq, Eq, Error)]
pub enum FileFault {
    /// It is no TOML document.
    #[error("not toml")]
    NotToml,
    /// A key is missing or isn't one of a session file, or its value isn't of its type or not
    /// within its limits.
    #[error("key")]
    BadKey,
    /// This item of `segments` is the first that is no segment.
    #[error("segment {0}")]
    BadSegment(usize),
    /// This item of `events` is the first that is no event channel.
    #[error("event {0}")]
    BadEvent(usize),
    /// This string of `script` is the first that is no line of a session.
    #[error("line {0}")]
    BadLine(usize),
    /// Memory ran out. It may be answered before any other fault is looked for.
    #[error("out of memory")]
    Memory,
}
