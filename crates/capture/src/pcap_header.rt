//! What the header of a file of libpcap says.

use measured_values::ByteOrder;

/// What parts of a second the stamps of a file count.
#[derive(Clone, Copy)]
pub enum Fraction {
    Micro,
    Nano,
}

/// What the header of a file of libpcap says.
#[derive(Clone, Copy)]
pub struct PcapHeader {
    /// The byte order of its numbers.
    pub order: ByteOrder,
    /// What parts of a second its stamps count.
    pub fraction: Fraction,
    /// The link type of its packets.
    pub link: u16,
}
