//! The limits of what is put together.

/// The bytes of the longest datagram (RFC 791, total length).
pub const MAX_DATAGRAM: usize = 65_535;

/// How many datagrams wait for parts at most (own).
pub const MAX_WAITING: usize = 64;

/// The bytes of a segment that are taken at most (own): as many as a packet of a capture may have.
pub const MAX_SEGMENT: usize = 16_777_216;

/// How many bytes wait behind a hole in a connection, before it is given up (own): 4 MiB.
pub const MAX_HELD: usize = 4_194_304;

/// How many segments wait behind it, before it is given up (own).
pub const MAX_CAME: usize = 4096;
