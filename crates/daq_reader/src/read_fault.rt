//! The faults of a recording, of its frames and of their packets, in one.
use crate::frame_fault::FrameFault;
use crate::packet_fault::PacketFault;
use thiserror::Error;

/// Why a recording is read no further.
#[derive(Clone, Copy, Debug, PartialEq, Eq, Error)]
pub enum ReadFault {
    /// The next bytes are not the next frame.
    #[error("{0}")]
    Frame(FrameFault),
    /// The next frame's packet is refused.
    #[error("{0}")]
    Packet(PacketFault),
}
