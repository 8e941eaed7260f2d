//! A datagram that came in parts.

/// A datagram that came in parts, and is whole.
#[derive(Drop)]
pub struct WholeDatagram {
    /// The address of the sender: 4 bytes or 16.
    pub from: Vec<u8>,
    /// That of the receiver.
    pub to: Vec<u8>,
    /// The protocol of what it carries: 17 is UDP, 6 is TCP.
    pub protocol: u8,
    /// What it carries.
    pub payload: Vec<u8>,
}
