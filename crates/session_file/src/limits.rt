//! The limits of a session file that no other crate has.

/// The most lines of a script.
pub const MAX_LINES: usize = 1_000_000;

/// The greatest capacity and the greatest length that can be written: the greatest integer of a
/// TOML document. Whether a ring or a segment may have it is a limit of the profile.
pub const MAX_INTEGER: usize = 0x7FFF_FFFF_FFFF_FFFF;

/// MAX_CTO and MAX_DTO where a session file doesn't say them.
pub const USUAL_PACKET: usize = 64;

/// The last event channel that may read a segment. Whether a slave has it is a limit of the
/// profile.
pub const LAST_CHANNEL: usize = 15;

/// The most bytes of a datagram, by UDP. More may wait.
pub const ROOM: usize = 65_507;
