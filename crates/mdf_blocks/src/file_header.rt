//! The header of a file.
use crate::time::Time;

/// What the header of a file says (ASAM MDF 4.1, HD). A link is a place in the file, or 0.
#[derive(Clone, Copy, Debug, PartialEq, Eq)]
pub struct FileHeader {
    /// The first data group.
    pub first_group: u64,
    /// The first entry of the file's history.
    pub first_history: u64,
    /// A comment.
    pub comment: u64,
    /// When the measurement began.
    pub start: Time,
}
