//! The kinds of channels.
use crate::axis::Axis;

/// What a channel's values are (ASAM MDF 4.1, CN: cn_type and cn_sync_type).
#[derive(Clone, Copy, Debug, PartialEq, Eq)]
pub enum ChannelKind {
    /// Values of a fixed length.
    Value,
    /// The values that the samples of the group are ordered by.
    Master(Axis),
    /// The same, without bytes in the records: the raw value is the number of the record.
    VirtualMaster(Axis),
}
