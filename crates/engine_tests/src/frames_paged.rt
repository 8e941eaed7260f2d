//! Frames of a sampler over a ring of frames, and of replies, as they go out of a page.
use crate::frames_sampled::sampled_frames;
use crate::same::same;
use frame_page::FramePage;
use frame_ring::{FrameSend, FrameTake, Front, Head};
use sampler::Sampler;
use std::process::Abort;

/// The image of each trigger.
const IMAGE: [u8; 4] = [0xAA, 0xBB, 0xCC, 0xDD];

/// The row of what is compared here.
const ROW: &str = "a page of ten blocks";

/// Takes the first sample of a ring into a page, if there is one and it finds room.
fn take_into(page: &mut FramePage<u8>, ring: &mut FrameTake) -> bool {
    let Some(head) = ring.look() else {
        return false;
    };
    let Head::Sample {
        list: _,
        packets,
        len,
    } = head
    else {
        return false;
    };
    if head.blocks() > page.free() || !page.has_place() {
        return false;
    }
    page.take_sample(ring, packets, len, 1);
    true
}

/// Lays out a positive reply of two bytes, if it finds room.
fn reply_into(page: &mut FramePage<u8>) -> bool {
    if page.free() == 0 || !page.has_place() {
        return false;
    }
    page.put_reply(&[0xFF, 0][..], 0);
    true
}

/// Hands as many frames as find room over to a buffer, as a transport would.
fn send_into(page: &mut FramePage<u8>, buffer: &mut [u8]) -> Front {
    let front = page.peek(buffer);
    page.sent(front.count);
    front
}

/// Compares what goes into a buffer with the frames that are wanted.
fn frames_go(rt: &impl Abort, page: &mut FramePage<u8>, room: usize, wanted: &[u8], what: &str) {
    let mut buffer = [0; 64];
    let room = room.min(64);
    let front = send_into(page, &mut buffer[..room]);
    let len = front.len.min(room);
    same(rt, &buffer[..len], wanted, "a page", what);
}

/// A sample of five of ten blocks and a reply of one find room in a page, and a second sample
/// doesn't.
fn a_page_fills(
    rt: &impl Abort,
    sampler: &mut Sampler<FrameSend>,
    take: &mut FrameTake,
    page: &mut FramePage<u8>,
) {
    let _ = sampler.trigger(&IMAGE, 5).expect(rt, "a trigger");
    let first = take_into(page, take);
    let _ = sampler.trigger(&IMAGE, 6).expect(rt, "a trigger");
    let rest = (reply_into(page), take_into(page, take), page.free());
    same(
        rt,
        (first, rest),
        (true, (true, false, 4)),
        ROW,
        "a sample of five blocks, a reply of one, a sample",
    );
}

/// The frames of the sample and of the reply go out in two datagrams.
fn frames_go_in_two(rt: &impl Abort, page: &mut FramePage<u8>) {
    // the first frame has 11 bytes, so no second one finds room in 17
    frames_go(
        rt,
        page,
        17,
        &[7, 0, 0, 0, 0, 5, 0, 0, 0, 0xAA, 0xBB],
        "the first frame of the sample",
    );
    frames_go(
        rt,
        page,
        64,
        &[3, 0, 1, 0, 1, 0xCC, 0xDD, 2, 0, 2, 0, 0xFF, 0],
        "its second one, and the reply",
    );
}

/// The second sample finds room now, and is discarded; the next one goes out in its place.
fn a_discarded_sample_counts_nowhere(
    rt: &impl Abort,
    sampler: &mut Sampler<FrameSend>,
    take: &mut FrameTake,
    page: &mut FramePage<u8>,
) {
    let freed = (page.free(), take_into(page, take));
    same(rt, freed, (10, true), ROW, "room behind what was sent");
    page.discard();
    let _ = sampler.trigger(&IMAGE, 7).expect(rt, "a trigger");
    let taken = take_into(page, take);
    same(rt, taken, true, ROW, "a sample behind what was discarded");
    frames_go(
        rt,
        page,
        64,
        &[
            7, 0, 3, 0, 0, 7, 0, 0, 0, 0xAA, 0xBB, 3, 0, 4, 0, 1, 0xCC, 0xDD,
        ],
        "its frames, with the CTR behind what was sent",
    );
}

/// Two samples and a reply go through a page, and a third sample behind one that is discarded.
fn samples_go_through(
    rt: &impl Abort,
    sampler: &mut Sampler<FrameSend>,
    take: &mut FrameTake,
    page: &mut FramePage<u8>,
) {
    a_page_fills(rt, sampler, take, page);
    frames_go_in_two(rt, page);
    a_discarded_sample_counts_nowhere(rt, sampler, take, page);
}

#[test]
fn a_sample_goes_out_in_several_datagrams(rt: HostRuntime) {
    let mut page = FramePage::new(rt.alloc(), 10, 3).expect(&rt, "memory");
    let (mut sampler, mut take) = sampled_frames(&rt, rt.alloc());
    samples_go_through(&rt, &mut sampler, &mut take, &mut page);
}
