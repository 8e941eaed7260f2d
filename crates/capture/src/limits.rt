//! The limits of a capture that is read.

/// The longest header, record or block that is read, in bytes: as long as other tools allow a block
/// of pcapng to be.
pub const MAX_UNIT: usize = 16_777_216;

/// The most interfaces of a section.
pub const MAX_INTERFACES: usize = 1_048_576;
