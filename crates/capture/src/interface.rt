//! An interface that packets of a section were captured at.

/// An interface that packets of a section were captured at (pcapng, interface description block).
#[derive(Clone, Copy)]
pub struct Interface {
    /// The link type of its packets.
    pub link: u16,
    /// The most bytes of a packet that were kept; 0 is no limit.
    pub snap_len: u32,
    /// Into what a second is divided (if_tsresol): a power of ten, or of two if the highest bit is
    /// set.
    pub resolution: u8,
    /// How many seconds are added to each time (if_tsoffset).
    pub offset: i64,
}
