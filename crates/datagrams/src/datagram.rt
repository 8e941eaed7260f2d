//! A UDP datagram.

/// A UDP datagram.
#[derive(Clone, Copy)]
pub struct Datagram<'b> {
    /// The port of the sender.
    pub from_port: u16,
    /// That of the receiver.
    pub to_port: u16,
    /// What it carries, as far as it was captured.
    pub payload: &'b [u8],
    /// Whether bytes of that weren't captured.
    pub is_cut: bool,
}
