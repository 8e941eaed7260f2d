//! The mode of a DAQ list.

/// The mode of a DAQ list (ASAM MCD-1 XCP, protocol layer, SET_DAQ_LIST_MODE).
#[derive(Clone, Copy, Debug, PartialEq, Eq)]
pub struct ListMode {
    /// The bits: 1 is DIRECTION, 3 DTO_CTR, 4 TIMESTAMP, 5 PID_OFF.
    pub bits: u8,
    /// The event channel.
    pub channel: u16,
    /// The prescaler.
    pub prescaler: u8,
}
