//! The limits of the profile, each of the type in which it is used.

/// The most event channels of a slave that a master connects to.
pub const MAX_CHANNELS: u16 = 16;

/// The most event channels of a run.
pub const RUN_CHANNELS: u16 = 8;

/// The most DAQ lists.
pub const MAX_LISTS: u16 = 16;

/// The most ODTs of one DAQ list of a run, and so the most packets of a sample in a value of fixed
/// size.
pub const MAX_ODTS: usize = 8;

/// The most ODTs of one DAQ list; and of all with an absolute ODT number, so that each PID stays at
/// or below 0x7B before the overload bit.
pub const MAX_ODTS_IN_ALL: usize = 124;

/// The most entries of one ODT of a slave that a master connects to.
pub const MAX_ENTRIES: usize = 255;

/// The most entries of one ODT of a run.
pub const RUN_ENTRIES: u8 = 32;

/// MAX_DTO of a run: the longest packet in a value of fixed size, in bytes.
pub const MAX_DTO: usize = 64;

/// The least MAX_DTO of a slave, in bytes.
pub const MIN_DTO: u16 = 8;

/// The greatest MAX_DTO of a slave: the longest packet, in bytes.
pub const MAX_PACKET: usize = 8192;

/// The greatest MAX_CTO of a slave: of its master's command packets and its replies, in bytes.
pub const MAX_CTO: usize = 255;

/// The least MAX_CTO of a slave, in bytes.
pub const MIN_CTO: usize = 8;

/// The longest name of a slave or of an event channel, in bytes: the reply to GET_ID has eight
/// bytes before it.
pub const MAX_NAME: usize = 56;

/// The greatest unit of time, 1 s; the least, 0, is 1 ns.
pub const MAX_UNIT: u8 = 9;

/// The longest identification field, in bytes.
pub const MAX_FIELD: usize = 3;

/// The longest timestamp, in bytes.
pub const MAX_STAMP: u8 = 4;

/// The longest ODT entry, in bytes, where MAX_DTO is longer; the shortest has one.
pub const MAX_ENTRY_SIZE: u8 = 255;

/// The longest memory image, in bytes; the shortest has one.
pub const MAX_IMAGE_LEN: usize = 4096;

/// The most triggers that one event channel accepts: 2^59.
pub const MAX_TRIGGERS: u64 = 0x0800_0000_0000_0000;

/// From so many items taken on, 2^62, a transmitter takes no more.
pub const MAX_TAKEN: u64 = 0x4000_0000_0000_0000;

/// The greatest capacity of a ring of samples, in items; the least is one.
pub const MAX_SAMPLE_RING: usize = 1024;

/// The least capacity of a ring of bytes, in bytes: the longest record.
pub const MIN_BYTE_RING: usize = 532;

/// The greatest capacity of a ring of bytes, in bytes.
pub const MAX_BYTE_RING: usize = 65536;

/// The greatest capacity of a ring of orders, in orders; the least is one.
pub const MAX_CONTROL_RING: usize = 64;

/// The bytes behind a frame that may be written over while it is laid out.
pub const SLACK: usize = 8;

/// The packets of a sample at their longest, each behind its length, in bytes.
pub(crate) const MAX_BODY: usize = MAX_ODTS * (1 + MAX_DTO);
