//! Where the value of a channel stands in a record.
use crate::value_format::ValueFormat;

/// Where the value of a channel stands in a record, and what its bits are (ASAM MDF 4.1, CN).
#[derive(Clone, Copy, Debug, PartialEq, Eq)]
pub struct ValuePlace {
    pub format: ValueFormat,
    /// The place of its first byte.
    pub byte_offset: u32,
    /// The place of its lowest bit in that byte, or by Motorola's order in its last: 0 to 7.
    pub bit_offset: u8,
    /// The number of its bits.
    pub bit_count: u32,
}
