//! How much a slave counts of what it does.

/// From so many counted acts on a slave hears and takes nothing any more: 2^57 less some, of which
/// what it still does, and its end, take less.
pub const MOST_ACTS: u64 = 0x1FF_FFFF_FFFF_FC00;

/// What hearing a packet counts as: no less than three for each act, none of which lays out more
/// than one packet. These are the packet's own, up to 32 parts of measurements that come back, and
/// one that is opened.
pub(crate) const PER_PACKET: u64 = 128;

/// What another act counts as: itself, the packets that it lays out, 124 at most, which have still
/// to be sent, and that of a master who connects.
pub(crate) const PER_ACT: u64 = 126;
