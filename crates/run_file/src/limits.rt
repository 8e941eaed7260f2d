//! The limits of a run file that no other crate has.

/// The most command packets of a run.
pub const MAX_PACKETS: usize = 10_000;

/// The longest command packet, in bytes; the shortest has none.
pub const MAX_COMMAND_LEN: usize = 255;

/// The most steps of a run.
pub const MAX_STEPS: usize = 1_000_000;
