//! An IP packet, of either version.

/// Which part of a datagram an IP packet carries.
#[derive(Clone, Copy)]
pub struct Part {
    /// The identification of the datagram.
    pub id: u32,
    /// At which byte of the datagram's it begins.
    pub at: u32,
    /// Whether it is the last part.
    pub is_last: bool,
}

/// An IP packet.
#[derive(Clone, Copy)]
pub struct IpPacket<'b> {
    /// The address of the sender: 4 bytes or 16.
    pub from: &'b [u8],
    /// That of the receiver.
    pub to: &'b [u8],
    /// The protocol of what it carries: 17 is UDP, 6 is TCP.
    pub protocol: u8,
    /// Which part of a datagram that is, if it isn't a whole one.
    pub part: Option<Part>,
    /// What it carries, as far as it was captured.
    pub payload: &'b [u8],
    /// Whether bytes of that weren't captured.
    pub is_cut: bool,
}
