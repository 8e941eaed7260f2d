//! Who sends a packet.

/// Who sends a packet.
#[derive(Clone, Copy, Debug, PartialEq, Eq)]
pub enum Side {
    /// The master.
    Master,
    /// The slave.
    Slave,
}
