//! How the packets of a slave look.

use crate::id_field::IdField;
use measured_values::ByteOrder;

/// How the packets of a slave look, as its replies to CONNECT, GET_DAQ_PROCESSOR_INFO and
/// GET_DAQ_RESOLUTION_INFO tell (ASAM MCD-1 XCP, protocol layer).
#[derive(Clone, Copy, Debug, PartialEq, Eq)]
pub struct Form {
    /// Whether the slave told the byte order and the granularity.
    pub has_order: bool,
    /// The byte order of numbers.
    pub order: ByteOrder,
    /// How many bytes an address counts, as a power of two: ADDRESS_GRANULARITY.
    pub granularity: u8,
    /// Whether it told the identification field.
    pub has_field: bool,
    /// The identification field.
    pub field: IdField,
    /// Whether the highest bit of a PID is the overload indication.
    pub has_overload: bool,
    /// Whether it told how timestamps look.
    pub has_stamp: bool,
    /// TIMESTAMP_MODE: bits 0 to 2 are the bytes of a timestamp, bit 3 says that every list has
    /// them, bits 4 to 7 are the unit.
    pub stamp: u8,
    /// TIMESTAMP_TICKS: how many units a tick is.
    pub ticks: u16,
}

impl Form {
    /// The slave told nothing.
    pub const UNTOLD: Form = Form {
        has_order: false,
        order: ByteOrder::MsbLast,
        granularity: 0,
        has_field: false,
        field: IdField::Absolute,
        has_overload: false,
        has_stamp: false,
        stamp: 0,
        ticks: 0,
    };
}
