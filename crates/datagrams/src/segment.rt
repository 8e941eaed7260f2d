//! A TCP segment.

/// A TCP segment.
#[derive(Clone, Copy)]
pub struct Segment<'b> {
    /// The port of the sender.
    pub from_port: u16,
    /// That of the receiver.
    pub to_port: u16,
    /// The sequence number of its first byte, or of SYN.
    pub number: u32,
    /// ACK: the number of the byte that its sender waits for; those before came.
    pub acknowledged: Option<u32>,
    /// SYN: it begins a connection.
    pub begins: bool,
    /// FIN: its sender sends no more.
    pub ends: bool,
    /// RST: the connection is broken off.
    pub breaks_off: bool,
    /// What it carries, as far as it was captured.
    pub payload: &'b [u8],
}
