//! A sampler over a ring of frames.
ghost use Rattle.std.specs.Prelude.{◌≡◌, IfOk};

use crate::by_value::sampler_by_value;
use crate::frames_through::item_comes;
use crate::same::same;
use crate::stores::two_odts;
use channel_ring::SendEnd;
use frame_ring::limits::MIN_ROOM;
use frame_ring::{FrameRing, FrameSend, FrameTake, Head};
use sampler::Sampler;
use std::alloc::Global;
use std::process::Abort;
use xcp_base::ChannelId;

/// The image of each trigger.
const IMAGE: [u8; 4] = [0xAA, 0xBB, 0xCC, 0xDD];

/// The row of what is compared here.
const ROW: &str = "samples of five blocks through eight";

/// A sampler of a list of two ODTs over a ring of eight blocks of frames, and the ring's take end.
pub fn sampled_frames(rt: &impl Abort, alloc: Global) -> (Sampler<FrameSend>, FrameTake) {
    let store = two_odts(rt, alloc);
    let (send, take) = FrameRing::new(alloc, 64, MIN_ROOM).expect(rt, "a ring");
    let sampler = sampler_by_value(rt, alloc, &store, ChannelId::at(0), send);
    (sampler, take)
}

/// Compares the DAQ lists of which a sample is accepted, and dropped, at a trigger of this
/// timestamp.
fn triggers(
    rt: &impl Abort,
    sampler: &mut Sampler<FrameSend>,
    stamp: u32,
    wanted: (u16, u16),
    what: &str,
) {
    let taken = sampler.trigger(&IMAGE, stamp).expect(rt, what);
    same(rt, (taken.accepted, taken.dropped), wanted, ROW, what);
}

/// Compares the first item of a ring with the sample of this PID and timestamp: its frames stand as
/// they will be sent, each with a CTR of 0, and the first alone has an overload indication.
fn sample_comes(rt: &impl Abort, alloc: Global, take: &mut FrameTake, pid: u8, stamp: u8) {
    let head = Head::Sample {
        list: 0,
        packets: 2,
        len: 18,
    };
    let frames = [
        7, 0, 0, 0, pid, stamp, 0, 0, 0, 0xAA, 0xBB, 3, 0, 0, 0, 1, 0xCC, 0xDD,
    ];
    item_comes(rt, alloc, take, head, &frames[..]);
}

/// The first sample takes up five of eight blocks, so the next two are dropped, and the one that
/// finds room behind them says so.
fn a_full_ring_drops_samples(
    rt: &impl Abort,
    alloc: Global,
    sampler: &mut Sampler<FrameSend>,
    take: &mut FrameTake,
) {
    triggers(rt, sampler, 5, (1, 0), "the first trigger");
    triggers(rt, sampler, 6, (0, 1), "the second trigger");
    triggers(rt, sampler, 7, (0, 1), "the third trigger");
    sample_comes(rt, alloc, take, 0x00, 5);
    triggers(rt, sampler, 8, (1, 0), "the fourth trigger");
    sample_comes(rt, alloc, take, 0x80, 8);
}

/// Behind a stop a trigger sends nothing, and its marker comes behind the last sample.
fn a_stop_is_marked(
    rt: &impl Abort,
    alloc: Global,
    sampler: &mut Sampler<FrameSend>,
    take: &mut FrameTake,
) {
    triggers(rt, sampler, 9, (1, 0), "the fifth trigger");
    sampler.stop(0).expect(rt, "a stop");
    triggers(rt, sampler, 10, (0, 0), "behind the stop");
    sample_comes(rt, alloc, take, 0x00, 9);
    item_comes(rt, alloc, take, Head::Marker { list: 0 }, &[]);
    same(rt, take.look(), None, ROW, "behind the stop marker");
    same(rt, sampler.room(), 8, ROW, "blocks that are free");
}

#[test]
fn a_sampler_sends_samples_as_frames(rt: HostRuntime) {
    let (mut sampler, mut take) = sampled_frames(&rt, rt.alloc());
    a_full_ring_drops_samples(&rt, rt.alloc(), &mut sampler, &mut take);
    a_stop_is_marked(&rt, rt.alloc(), &mut sampler, &mut take);
}
