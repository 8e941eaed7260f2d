//! What SET_DAQ_LIST_MODE sets: event channel, prescaler, timestamp and priority.
/// SET_DAQ_LIST_MODE: the mode of a DAQ list.
#[derive(Clone, Copy)]
pub struct Mode {
    pub channel: u8,
    pub prescaler: u8,
    pub stamped: bool,
    pub priority: u8,
}

/// TIMESTAMP: the one bit of the mode byte that is accepted.
pub const TIMESTAMP: u8 = 0x10;
