//! An entry of an ODT, as a master writes it.

/// An entry of an ODT, as a master writes it (ASAM MCD-1 XCP, protocol layer, WRITE_DAQ).
#[derive(Clone, Copy, Debug, PartialEq, Eq)]
pub struct Element {
    /// BIT_OFFSET: 0xFF, but of an element that is one bit.
    pub bit: u8,
    /// Its size, in units of the address granularity.
    pub size: u8,
    /// The extension of its address.
    pub extension: u8,
    /// Its address.
    pub address: u32,
}
