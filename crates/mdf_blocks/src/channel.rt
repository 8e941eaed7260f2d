//! A channel.
use crate::channel_kind::ChannelKind;
use crate::value_format::ValueFormat;
use measured_values::ValueLimits;

/// One value of each record (ASAM MDF 4.1, CN). A link is a place in the file, or 0.
#[derive(Clone, Copy, Debug)]
pub struct Channel {
    /// The next channel of the group.
    pub next: u64,
    /// The name.
    pub name: u64,
    /// The conversion of raw values to physical ones.
    pub conversion: u64,
    /// The unit of the physical values.
    pub unit: u64,
    /// The comment, or a long name.
    pub comment: u64,
    pub kind: ChannelKind,
    pub format: ValueFormat,
    /// The place of its lowest bit in the byte at `byte_offset`: 0 to 7.
    pub bit_offset: u8,
    /// The place of its first byte in the record.
    pub byte_offset: u32,
    /// The number of its bits.
    pub bit_count: u32,
    pub limits: Option<ValueLimits>,
}
