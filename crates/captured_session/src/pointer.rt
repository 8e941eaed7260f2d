//! Where the next entry is written.

/// Where the next entry is written (ASAM MCD-1 XCP, protocol layer, SET_DAQ_PTR), as far as that is
/// known.
#[derive(Clone, Copy, Debug, PartialEq, Eq)]
pub enum Pointer {
    /// Somewhere.
    Unknown,
    /// Somewhere in an ODT of a DAQ list.
    Within { list: u16, odt: u8 },
    /// At this entry of it.
    At { list: u16, odt: u8, entry: u8 },
}
