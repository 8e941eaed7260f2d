//! An engine whose pumps fill a buffer.
use crate::same::same;
use crate::stores::two_lists;
use channel_ring::TakeHalf;
use daq_engine::Engine;
use frame_writer::{FrameWriter, SinkOut};
use std::alloc::Global;
use std::process::Abort;

/// Of three frames in a buffer of 24 bytes the last stands before 3 bytes that keep what they had.
const THREE_FRAMES: [u8; 24] = [
    0x03, 0x00, 0x00, 0x00, 0x00, 0xAA, 0xBB, 0x03, 0x00, 0x01, 0x00, 0x01, 0xCC, 0xDD, 0x03, 0x00,
    0x02, 0x00, 0x00, 0xAA, 0xBB, 0xFF, 0xFF, 0xFF,
];

/// Then the frame that didn't fit stands in front, and behind it all is as it was.
const FOURTH_FRAME: [u8; 24] = [
    0x03, 0x00, 0x03, 0x00, 0x01, 0xCC, 0xDD, 0x03, 0x00, 0x01, 0x00, 0x01, 0xCC, 0xDD, 0x03, 0x00,
    0x02, 0x00, 0x00, 0xAA, 0xBB, 0xFF, 0xFF, 0xFF,
];

/// An engine of two event channels that fills buffers, with room for two samples of each.
fn filling(rt: &impl Abort, alloc: Global) -> Engine<SinkOut, TakeHalf> {
    let store = two_lists(rt, alloc);
    let writer = FrameWriter::new(SinkOut::new());
    let Ok(engine) = Engine::open(alloc, &store, &[2, 2], writer) else {
        panic!(rt; "an engine that isn't opened");
    };
    engine
}

/// A trigger of each event channel.
fn trigger_both(rt: &impl Abort, engine: &mut Engine<SinkOut, TakeHalf>, stamp: u32) {
    let first = engine.trigger(0, &[0xAA, 0xBB], stamp);
    first.expect(rt, "the first trigger");
    let second = engine.trigger(1, &[0xCC, 0xDD], stamp);
    second.expect(rt, "the second trigger");
}

/// Fills a buffer, and compares how many samples were taken, how many frames and bytes they are,
/// and the whole buffer.
fn fills(
    rt: &impl Abort,
    engine: &mut Engine<SinkOut, TakeHalf>,
    buffer: &mut [u8; 24],
    wanted: (u64, u64, usize),
    bytes: [u8; 24],
    row: &str,
) {
    let (pumped, len) = engine.pump_all(buffer).expect(rt, row);
    let shown = (pumped.taken, pumped.frames, len);
    same(rt, shown, wanted, row, "taken, frames, bytes");
    same(rt, *buffer, bytes, row, "buffer");
}

/// Four samples fill a buffer and the front of the next one.
fn fills_twice(rt: &impl Abort, engine: &mut Engine<SinkOut, TakeHalf>) {
    trigger_both(rt, engine, 0);
    trigger_both(rt, engine, 1);
    let mut buffer = [0xFF; 24];
    let row = "three of four samples";
    fills(rt, engine, &mut buffer, (3, 3, 21), THREE_FRAMES, row);
    fills(
        rt,
        engine,
        &mut buffer,
        (1, 1, 7),
        FOURTH_FRAME,
        "the fourth",
    );
}

#[test]
fn what_does_not_fit_comes_first_in_the_next_buffer(rt: HostRuntime) {
    fills_twice(&rt, &mut filling(&rt, rt.alloc()));
}
