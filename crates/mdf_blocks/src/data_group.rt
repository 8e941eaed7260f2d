//! A data group.
/// Records and what they hold (ASAM MDF 4.1, DG). They stand without ids, so the data group has one
/// channel group. A link is a place in the file, or 0.
#[derive(Clone, Copy, Debug, PartialEq, Eq)]
pub struct DataGroup {
    /// The next data group.
    pub next: u64,
    /// The channel group.
    pub channel_group: u64,
    /// The records: a data block, or a list of them.
    pub records: u64,
    /// A comment.
    pub comment: u64,
}
