//! The limits of segments.

/// The most segments; the least is one.
pub const MAX_SEGMENTS: usize = 16;

/// The most event channels that a segment may name.
pub const MAX_READERS: u16 = 16;

/// So many addresses an extension has, and so many bytes a segment at most.
pub const ADDRESSES: usize = 0x1_0000_0000;
