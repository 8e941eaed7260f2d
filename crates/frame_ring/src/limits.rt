//! The limits of a ring of frames.
/// The least capacity of a ring, in bytes.
pub const MIN_FRAME_RING: usize = 64;

/// The greatest capacity of a ring, in bytes.
pub const MAX_FRAME_RING: usize = 16_777_216;

/// The least room of a send end, in blocks: that of the longest sample whose packets find room in a
/// value of fixed size.
pub const MIN_ROOM: usize = 70;
