//! A channel that a file is to have.
use crate::new_conversion::NewConversion;
use mdf_blocks::{ChannelKind, ValueFormat};
use measured_values::ValueLimits;

/// One value of each record (ASAM MDF 4.1, CN). No text has a byte of 0.
#[derive(Debug, Drop)]
pub struct NewChannel {
    pub name: String,
    /// The unit of the physical values.
    pub unit: Option<String>,
    /// The comment, or a long name.
    pub comment: Option<String>,
    /// The conversion of raw values to physical ones.
    pub conversion: Option<NewConversion>,
    pub kind: ChannelKind,
    pub format: ValueFormat,
    /// The place of its lowest bit in the byte at `byte_offset`: 0 to 7.
    pub bit_offset: u8,
    /// The place of its first byte in the record.
    pub byte_offset: u32,
    /// The number of its bits.
    pub bit_count: u32,
    pub limits: Option<ValueLimits>,
}
