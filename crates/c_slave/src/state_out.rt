//! What a slave is about, laid out for C.
/// What a slave is about. In C it is `ng_slave_state`.
#[repr(C)]
#[derive(Clone, Copy, Debug, PartialEq, Eq)]
pub struct StateOut {
    /// Whether a master is connected.
    pub connected: bool,
    /// Whether some DAQ list runs.
    pub measuring: bool,
    /// How many bytes wait to be sent.
    pub waiting: usize,
}
