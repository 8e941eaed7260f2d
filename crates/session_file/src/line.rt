//! What a line of a session does: a packet, a trigger, a sending, or a loss.
/// A line of a session's script. Memory is a slice for each segment, in their order; one without a
/// byte isn't there.
#[derive(Debug, Drop)]
pub enum Line {
    /// A packet of the master, without LEN and CTR.
    Master(Vec<u8>),
    /// The task of an event channel takes a trigger.
    Trigger {
        channel: u8,
        stamp: u32,
        memory: Vec<Vec<u8>>,
    },
    /// What the next packets read without a DAQ list.
    Memory(Vec<Vec<u8>>),
    /// Items are taken off the rings, and what waits is sent: as many frames as find room in one
    /// datagram.
    Send,
    /// The same, but as many as find room in so many bytes.
    SendIn(u16),
    /// The same is shown, and the transport refuses it.
    Lose,
    /// The transport is lost.
    HangUp,
}
