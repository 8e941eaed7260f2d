//! An entry of a file's history.
use crate::time::Time;

/// Who wrote the file, or changed it, and when (ASAM MDF 4.1, FH). A link is a place in the file,
/// or 0.
#[derive(Clone, Copy, Debug, PartialEq, Eq)]
pub struct FileHistory {
    /// The next entry.
    pub next: u64,
    /// The comment, which has the tool's name.
    pub comment: u64,
    pub time: Time,
}
