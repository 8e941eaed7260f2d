//! The raw values that a channel may have.
use measured_values::ByteOrder;

/// What the bits of a raw value are (ASAM MDF 4.1, CN: cn_data_type).
#[derive(Clone, Copy, Debug, PartialEq, Eq)]
pub enum ValueFormat {
    /// An unsigned integer.
    Unsigned(ByteOrder),
    /// An integer in two's complement.
    Signed(ByteOrder),
    /// A float (IEEE 754) of 16, 32 or 64 bits.
    Float(ByteOrder),
}
