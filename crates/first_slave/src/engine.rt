//! What is measured: an engine's speed and its temperature, once a millisecond.
use segments::Segment;
use session::{EventChannel, Profile};
use std::alloc::{AllocError, Global};
use xcp_base::IdKind;

/// One event channel, and timestamps of 4 bytes in microseconds. Its ring has 64 bytes, room for
/// two samples of 32: a head of 16, LEN and CTR, and a packet of 8, filled up to a multiple of 8.
pub fn profile(alloc: Global) -> Result<Profile, AllocError> {
    let event = EventChannel {
        capacity: 64,
        name: Vec::from_slice(alloc, b"1 ms")?,
        cycle: 1,
        cycle_unit: 6,
        priority: 0,
    };
    let memory = Segment {
        extension: 0,
        base: 0x1000,
        len: 3,
        events: 1,
    };
    Ok(Profile {
        segments: vec![in alloc; memory]?,
        id: IdKind::Absolute,
        stamp_size: 4,
        unit: 3,
        ticks: 1,
        max_cto: 64,
        max_dto: 64,
        name: Vec::from_slice(alloc, b"engine")?,
        events: vec![in alloc; event]?,
        a2l_name: Vec::new(alloc),
        epk: Vec::from_slice(alloc, b"v1")?,
        a2l: Vec::new(alloc),
    })
}

/// A memory image: the speed in two bytes, the least significant first, and the temperature in one.
pub fn image(speed: u16, temperature: u8) -> [u8; 3] {
    let [low, high] = speed.to_le_bytes();
    [low, high, temperature]
}
