//! Why a packet can't be the next one of a sample.
use thiserror::Error;

/// Why a packet doesn't go on with a sample of a DAQ list, in the order of the checks.
#[derive(Clone, Copy, Debug, PartialEq, Eq, Error)]
pub enum PacketFault {
    /// Its identification field names another list, or it is shorter than such a field.
    #[error("the packet is of another DAQ list")]
    OtherList,
    /// Its PID isn't that of the ODT that is awaited.
    #[error("the packet is of an ODT out of turn")]
    OutOfTurn,
    /// It is shorter or longer than the packets of its ODT.
    #[error("the packet has another length than its ODT")]
    WrongLength,
}
