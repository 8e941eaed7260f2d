//! Samples through a ring of frames, as they will be sent.
ghost use Rattle.std.specs.Prelude.{◌≡◌, ◌<◌, ◌≤◌, [], ◌∷◌, IfOk, IfSome, OnOk, length};
ghost use Rattle.channel_ring.specs.Making.{FitsSample, by_value};
ghost use Rattle.frame_ring.specs.Heads.{head_blocks};

use crate::same::same;
use channel_ring::{Beside, SampleMaker, SendEnd, TakeEnd};
use frame_ring::limits::MIN_ROOM;
use frame_ring::{BLOCK, Block, FrameRing, FrameSend, FrameTake, Head, frames_of};
use std::alloc::Global;
use std::process::Abort;
use xcp_base::{ChannelId, ListId, Packets, StopMark};

/// The blocks of the ring.
const BLOCKS: usize = 8;

/// The row of what is compared of a ring that fills.
const ROW: &str = "a ring of 64 bytes";

/// A sample of one packet of three bytes, which takes up three blocks.
#[derive(Drop)]
struct OnePacket {
    packet: [u8; 3],
    ghost long: { length packet ≡ 3 },
}

impl SampleMaker for OnePacket {
    ghost use Rattle.engine_tests.specs.OnePacket.{one_packet};

    ghost packets = { λ o. o.packet ∷ [] };

    fn count(&self) -> u8 {
        1
    }

    fn frames_len(&self) -> usize {
        7
    }

    fn fill(&self, sample: &mut Packets) {
        sample.clear();
        let _ = sample.push(&self.packet[..]);
    }

    fn lay_frames(&self, out: &mut [u8], at: usize) -> usize {
        let [a, b, c] = self.packet;
        out[at..at + 7].copy_from_slice(&[3, 0, 0, 0, a, b, c]);
        at + 7
    }

    ghost within = { λ o. one_packet o.packet o.long };
}

/// Offers the sample of this number of list 2.
fn offer(send: &mut FrameSend, number: u8) -> bool
    ensures ring_stays { ⟦<FrameSend as SendEnd>⟧.ring send.new
        ≡ ⟦<FrameSend as SendEnd>⟧.ring send.old }
{
    let sample = OnePacket {
        packet: [0, number, 0xFF],
    };
    send.offer_sample(ChannelId::at(1), ListId::at(2), number as u64, &sample)
}

/// Offers a stop marker of list 2, which isn't published.
fn offer_stop(send: &mut FrameSend) -> bool
    ensures ring_stays { ⟦<FrameSend as SendEnd>⟧.ring send.new
        ≡ ⟦<FrameSend as SendEnd>⟧.ring send.old }
{
    send.send_marker(StopMark::new(1, 2))
}

/// The bytes of the frames of what stands first.
fn len_of(head: Head) -> usize {
    match head {
        Head::Sample {
            list: _,
            packets: _,
            len,
        } => len as usize,
        Head::Marker { list: _ } => 0,
    }
}

/// The first item of a ring, which is taken, and its frames.
fn taken(rt: &impl Abort, alloc: Global, take: &mut FrameTake) -> (Head, Vec<u8>)
    ensures ring_stays { ⟦<FrameTake as TakeEnd>⟧.ring take.new
        ≡ ⟦<FrameTake as TakeEnd>⟧.ring take.old }
{
    let head = take.look().expect(rt, "an item");
    let count = head.blocks();
    assert!(rt; count <= BLOCKS, "a record that is longer than the ring");
    let room = vec![in alloc; [0; BLOCK]; count].expect(rt, "memory");
    let blocks = take.take_into(room, 0, count);
    (head, frames_in(rt, alloc, head, &blocks[..count]))
}

/// The frames of an item that has these blocks.
fn frames_in(rt: &impl Abort, alloc: Global, head: Head, blocks: &[Block]) -> Vec<u8> {
    if blocks.len() < 2 {
        return Vec::new(alloc);
    }
    let len = len_of(head).min(blocks.len() * BLOCK - 16);
    frames_of(blocks, len).to_vec(alloc).expect(rt, "memory")
}

/// Takes the first item of a ring, and compares it with one of this head and these frames.
pub fn item_comes(rt: &impl Abort, alloc: Global, take: &mut FrameTake, head: Head, frames: &[u8])
    ensures ring_stays { ⟦<FrameTake as TakeEnd>⟧.ring take.new
        ≡ ⟦<FrameTake as TakeEnd>⟧.ring take.old }
{
    let (shown, bytes) = taken(rt, alloc, take);
    same(rt, shown, head, "an item", "its head");
    same(rt, bytes.as_slice(), frames, "an item", "its frames");
}

/// Compares the first item of a ring with a sample of list 2 of this number.
fn sample_comes(rt: &impl Abort, alloc: Global, take: &mut FrameTake, number: u8)
    ensures ring_stays { ⟦<FrameTake as TakeEnd>⟧.ring take.new
        ≡ ⟦<FrameTake as TakeEnd>⟧.ring take.old }
{
    let head = Head::Sample {
        list: 2,
        packets: 1,
        len: 7,
    };
    item_comes(rt, alloc, take, head, &[3, 0, 0, 0, 0, number, 0xFF][..]);
}

/// Compares the first item of a ring with a stop marker of list 2.
fn marker_comes(rt: &impl Abort, alloc: Global, take: &mut FrameTake)
    ensures ring_stays { ⟦<FrameTake as TakeEnd>⟧.ring take.new
        ≡ ⟦<FrameTake as TakeEnd>⟧.ring take.old }
{
    item_comes(rt, alloc, take, Head::Marker { list: 2 }, &[]);
}

/// Of three samples of three blocks and of three stop markers two each find room. Nobody is told of
/// them yet.
fn a_ring_fills(rt: &impl Abort, send: &mut FrameSend)
    ensures ring_stays { ⟦<FrameSend as SendEnd>⟧.ring send.new
        ≡ ⟦<FrameSend as SendEnd>⟧.ring send.old }
{
    let offered = (offer(send, 0), offer(send, 1), offer(send, 2));
    let what = "three samples of three blocks";
    same(rt, offered, (true, true, false), ROW, what);
    let marked = (offer_stop(send), offer_stop(send), offer_stop(send));
    same(rt, marked, (true, true, false), ROW, "three stop markers");
    same(rt, send.room(), 0, ROW, "blocks that are free");
}

/// A sample that is taken leaves its blocks to a fourth one, which nobody is told of yet.
fn items_come_in_order(rt: &impl Abort, alloc: Global, send: &mut FrameSend, take: &mut FrameTake)
    ensures send_stays { ⟦<FrameSend as SendEnd>⟧.ring send.new
        ≡ ⟦<FrameSend as SendEnd>⟧.ring send.old }
    ensures take_stays { ⟦<FrameTake as TakeEnd>⟧.ring take.new
        ≡ ⟦<FrameTake as TakeEnd>⟧.ring take.old }
{
    sample_comes(rt, alloc, take, 0);
    let what = "blocks that are free behind a sample taken";
    same(rt, send.room(), 3, ROW, what);
    same(rt, offer(send, 3), true, ROW, "a fourth sample");
    sample_comes(rt, alloc, take, 1);
    marker_comes(rt, alloc, take);
    marker_comes(rt, alloc, take);
    same(rt, take.look(), None, ROW, "what is held back");
    let marked = send.offer_marker(StopMark::new(1, 2));
    let what = "a stop marker that is published with it";
    same(rt, marked, true, ROW, what);
    sample_comes(rt, alloc, take, 3);
}

/// The last marker is left in the ring once the send end is finished.
fn a_marker_is_left(rt: &impl Abort, alloc: Global, send: FrameSend, take: &mut FrameTake)
    requires one_ring { ⟦<FrameSend as SendEnd>⟧.ring send
        ≡ ⟦<FrameTake as TakeEnd>⟧.ring take.old }
{
    let mut left = send.finish().expect(rt, "an end");
    let count = take.after(&mut left);
    same(rt, count, 1, ROW, "what is left at the end");
    marker_comes(rt, alloc, take);
}

#[test]
fn samples_go_through_a_ring_of_frames(rt: HostRuntime) {
    let ring = FrameRing::new(rt.alloc(), BLOCKS * BLOCK, MIN_ROOM);
    let (mut send, mut take) = ring.expect(&rt, "a ring");
    let made = (send.longest(), send.capacity());
    same(&rt, made, (MIN_ROOM, BLOCKS), ROW, "its room");
    a_ring_fills(&rt, &mut send);
    same(&rt, take.look(), None, ROW, "what is held back at first");
    send.publish();
    items_come_in_order(&rt, rt.alloc(), &mut send, &mut take);
    a_marker_is_left(&rt, rt.alloc(), send, &mut take);
}

#[test]
fn a_look_beside_finds_what_is_held_back(rt: HostRuntime) {
    let ring = FrameRing::new(rt.alloc(), BLOCKS * BLOCK, MIN_ROOM);
    let (mut send, mut take) = ring.expect(&rt, "a ring");
    let row = "a look beside";
    same(&rt, offer(&mut send, 7), true, row, "a sample");
    same(&rt, take.beside(&mut send), 1, row, "items");
    sample_comes(&rt, rt.alloc(), &mut take, 7);
    same(&rt, take.beside(&mut send), 0, row, "items behind it");
    same(&rt, send.room(), BLOCKS, row, "blocks that are free");
}
