//! Stores whose DAQ lists run: each is set up by command packets.
use crate::same::same;
use daq_store::{Reply, Store, command};
use std::alloc::Global;
use std::process::Abort;

/// A list of event channel 0 that runs, and has the two bytes of the image.
const WHOLE: &[&[u8]] = &[
    &[0xD5, 0, 1, 0],
    &[0xD4, 0, 0, 0, 1],
    &[0xD3, 0, 0, 0, 0, 1],
    &[0xE2, 0, 0, 0, 0, 0],
    &[0xE1, 0xFF, 2, 0, 0, 0, 0, 0],
    &[0xE0, 0, 0, 0, 0, 0, 1, 0],
    &[0xDE, 1, 0, 0],
];

/// List `c` of each of two event channels `c` runs, and has the two bytes of the image.
const OF_TWO: &[&[u8]] = &[
    &[0xD5, 0, 2, 0],
    &[0xD4, 0, 0, 0, 1],
    &[0xD4, 0, 1, 0, 1],
    &[0xD3, 0, 0, 0, 0, 1],
    &[0xD3, 0, 1, 0, 0, 1],
    &[0xE2, 0, 0, 0, 0, 0],
    &[0xE1, 0xFF, 2, 0, 0, 0, 0, 0],
    &[0xE0, 0, 0, 0, 0, 0, 1, 0],
    &[0xE2, 0, 1, 0, 0, 0],
    &[0xE1, 0xFF, 2, 0, 0, 0, 0, 0],
    &[0xE0, 0, 1, 0, 1, 0, 1, 0],
    &[0xDE, 1, 0, 0],
    &[0xDE, 1, 1, 0],
];

/// A list of two ODTs that runs: each has two bytes of the image, the first also a timestamp.
const OF_TWO_ODTS: &[&[u8]] = &[
    &[0xD5, 0, 1, 0],
    &[0xD4, 0, 0, 0, 2],
    &[0xD3, 0, 0, 0, 0, 1],
    &[0xD3, 0, 0, 0, 1, 1],
    &[0xE2, 0, 0, 0, 0, 0],
    &[0xE1, 0xFF, 2, 0, 0, 0, 0, 0],
    &[0xE2, 0, 0, 0, 1, 0],
    &[0xE1, 0xFF, 2, 0, 2, 0, 0, 0],
    &[0xE0, 0x10, 0, 0, 0, 0, 1, 0],
    &[0xDE, 1, 0, 0],
];

/// Carries a command packet out.
fn carry(rt: &impl Abort, store: &mut Store, packet: &[u8]) {
    let command = command::read(packet).expect(rt, "a command");
    let reply = command::carry_out(store, command).expect(rt, "memory");
    let is_refused = matches!(reply, Reply::Error(_));
    same(rt, is_refused, false, "a command", "whether it is refused");
}

/// A store for which these packets were carried out.
fn store_of(
    rt: &impl Abort,
    alloc: Global,
    channels: u16,
    image_len: usize,
    packets: &[&[u8]],
) -> Store {
    let mut store = Store::new(alloc, channels, image_len).expect(rt, "a store");
    for packet in packets {
        carry(rt, &mut store, packet);
    }
    store
}

/// A store of two event channels, for images of two bytes, in which list `c` of each event channel
/// `c` runs and has the whole image.
pub fn two_lists(rt: &impl Abort, alloc: Global) -> Store {
    store_of(rt, alloc, 2, 2, OF_TWO)
}

/// The same with one event channel and its list.
pub fn one_list(rt: &impl Abort, alloc: Global) -> Store {
    store_of(rt, alloc, 1, 2, WHOLE)
}

/// A store of one event channel, for images of four bytes, whose list has two ODTs: two bytes
/// each, and a timestamp before the first.
pub fn two_odts(rt: &impl Abort, alloc: Global) -> Store {
    store_of(rt, alloc, 1, 4, OF_TWO_ODTS)
}
