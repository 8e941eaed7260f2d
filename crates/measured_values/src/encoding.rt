//! All that turns bytes into a raw value: data type, byte order, mask and bit operation.
use crate::bit_operation::BitOperation;
use crate::byte_order::ByteOrder;
use crate::data_type::DataType;

/// How a value stands in its bytes.
#[derive(Clone, Copy, Debug, PartialEq, Eq)]
pub struct Encoding {
    /// What the bytes are.
    pub data_type: DataType,
    /// In which order they stand.
    pub order: ByteOrder,
    /// The bits that count, if not all of them do (BIT_MASK). Without an operation the lowest of
    /// them becomes bit 0.
    pub mask: Option<u64>,
    /// What is done with them (BIT_OPERATION).
    pub operation: Option<BitOperation>,
}
