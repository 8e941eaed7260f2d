//! Why a capture is read no further.

use thiserror::Error;

/// Why a capture is read no further.
#[derive(Clone, Copy, Debug, PartialEq, Eq, Error)]
pub enum CaptureFault {
    /// The bytes begin neither a file of libpcap, version 2.4, nor one of pcapng, version 1.
    #[error("no capture of pcap 2.4 or pcapng 1")]
    NoCapture,
    /// A block of pcapng isn't one: its lengths, an option, or a packet's interface.
    #[error("a block that is none")]
    Bad,
    /// A record or block has more than `MAX_UNIT` bytes.
    #[error("a record or block of over 16777216 bytes")]
    Long,
    /// A section has more than `MAX_INTERFACES` interfaces.
    #[error("over 1048576 interfaces")]
    ManyInterfaces,
    /// Memory is out.
    #[error("out of memory")]
    Memory,
}
