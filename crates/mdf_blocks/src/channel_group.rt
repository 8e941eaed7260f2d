//! A channel group.
/// What a record holds, and how many records there are (ASAM MDF 4.1, CG). A link is a place in the
/// file, or 0.
#[derive(Clone, Copy, Debug, PartialEq, Eq)]
pub struct ChannelGroup {
    /// The first channel.
    pub first_channel: u64,
    /// The name of what the samples came of.
    pub acquisition_name: u64,
    /// A comment.
    pub comment: u64,
    /// The number of records.
    pub cycles: u64,
    /// The number of bytes of a record.
    pub record_bytes: u32,
}
