//! Items go into a ring of frames, each as a whole record or not at all.
ghost use Rattle.std.specs.Prelude.{◌≡◌, ℕ, ◌+◌, ◌*◌, ◌/◌, ◌%◌, ◌<◌, ◌≤◌, ◌-◌, [], ◌∷◌, ◌++◌, true};
ghost use Rattle.std.specs.Prelude.{false, length};
ghost use Rattle.rtrb.specs.Ring.{known_free, producer_capacity, sent};
ghost use Rattle.channel_ring.specs.Ends.{sample_item};
ghost use Rattle.channel_ring.specs.Names.{name_of};
ghost use Rattle.frame_ring.specs.Ends.{LooksForRoom, Sends, SendsNothing, StaysMade};
ghost use Rattle.frame_ring.specs.Ends.{limit_of};
ghost use Rattle.frame_ring.specs.Inner.{IsSend, counts, held_back};
ghost use Rattle.frame_ring.specs.Reading.{items_in};
ghost use Rattle.frame_ring.specs.Records.{cost, item_props};
ghost use Rattle.frame_ring.specs.declared.limits.TheConstants.{MIN_ROOM};
ghost use Rattle.xcp_base.specs.declared.item.Item.TheVariants.{Marker};

use crate::block::{BLOCK, Block, WholeRecords};
use crate::frame_left::FrameLeft;
use crate::record::{lay_marker, lay_sample, sample_cost};
use channel_ring::{SampleMaker, SendEnd};
use rtrb::Producer;
use std::alloc::Global;
use xcp_base::limits::SLACK;
use xcp_base::{ChannelId, ListId, StopMark};

/// The send end of a ring of frames.
///
/// A record is made in a buffer that is reserved at the opening, and held back there until
/// `publish`, so that all that one trigger sends goes into the ring by one push. What is held back
/// counts as sent: there is room for it in the ring.
#[derive(Drop)]
pub struct FrameSend {
    pub(crate) producer: Producer<Block, Global, WholeRecords>,
    // The records that are held back stand first; behind all that find room are `SLACK` bytes.
    buffer: Vec<u8>,
    // Their blocks.
    held: usize,
    // The blocks that the buffer has room for.
    room: usize,
    // The items sent, modulo 2^64.
    pub(crate) count: u64,
    ghost kept: { IsSend (sent producer) buffer.items held room (known_free producer) } by { Prim.hlevel item_props },
    ghost counted: { counts count (sent producer ++ held_back held buffer.items) },
}

/// So many blocks, of bytes that they begin.
pub fn first_blocks(bytes: &[u8], count: usize) -> &[Block]
    requires { 8 * count ≤ length bytes.now }
    ensures blocks { result.now ≡ held_back count bytes.now }
    ensures len { length result.now ≡ count }
{
    let (blocks, _) = bytes[..count * BLOCK].as_chunks::<BLOCK>();
    blocks
}

impl FrameSend {
    ghost use Rattle.std.specs.Prelude.{◌≡◌, ◌+◌, ◌*◌, ◌/◌, ◌%◌, ◌<◌, ◌≤◌, ◌-◌, [], ◌∷◌, ◌++◌};
    ghost use Rattle.frame_ring.specs.States.{send_state};

    /// The send end over a producer that pushed nothing. Its buffer has whole blocks and `SLACK`
    /// bytes.
    pub(crate) fn new(producer: Producer<Block, Global, WholeRecords>, buffer: Vec<u8>) -> FrameSend
        requires nothing_pushed { sent producer ≡ [] }
        requires whole { (length buffer.items - SLACK) % 8 ≡ 0 }
        requires least { 8 * MIN_ROOM + SLACK ≤ length buffer.items }
        ensures { send_state result ≡ record {
          sent = [];
          held = 0;
          free = known_free producer;
          capacity = producer_capacity producer;
          room = (length buffer.items - SLACK) / 8;
          ring = name_of producer.end;
        } }
    {
        let room = (buffer.len() - SLACK) / BLOCK;
        FrameSend {
            producer,
            buffer,
            held: 0,
            room,
            count: 0,
        }
    }

    /// Whether so many blocks are known to be free, after a look at the other end where fewer were.
    fn find_room(&mut self, blocks: usize) -> bool
        ensures yes { result ≡ true → blocks ≤ (send_state self.new).free }
        ensures no { result ≡ false → (send_state self.new).free < blocks }
        ensures looked { LooksForRoom (send_state self.old) (send_state self.new) }
    {
        if blocks <= self.producer.cached_slots() - self.held {
            return true;
        }
        blocks <= self.producer.slots() - self.held
    }

    /// Puts what is held back into the ring, by one push.
    pub(crate) fn push_held(&mut self)
        ensures rest_stays { send_state self.new
            ≡ record (send_state self.old) { held = 0; free = (send_state self.new).free } }
        ensures grows { (send_state self.old).free ≤ (send_state self.new).free }
    {
        let blocks = first_blocks(&self.buffer, self.held);
        let Ok(()) = self.producer.push_entire_slice(blocks) else {
            unreachable!()
        };
        self.held = 0;
    }

    /// Has room for so many blocks more in the buffer.
    fn make_room(&mut self, blocks: usize)
        requires fits { blocks ≤ (send_state self.old).room }
        ensures room { (send_state self.new).held + blocks ≤ (send_state self.new).room }
        ensures rest_stays { send_state self.new ≡ record (send_state self.old) {
          held = (send_state self.new).held;
          free = (send_state self.new).free;
        } }
        ensures grows { (send_state self.old).free ≤ (send_state self.new).free }
    {
        if blocks > self.room - self.held {
            self.push_held();
        }
    }

    /// Makes the record of a sample behind those that are held back.
    fn make<M: SampleMaker>(
        &mut self,
        channel: ChannelId,
        list: ListId,
        number: u64,
        maker: &M,
        blocks: usize,
    )
        requires cost { blocks ≡ cost (sample_item channel list number (M.packets maker.now)) }
        requires room { (send_state self.old).held + blocks ≤ (send_state self.old).room }
        requires free { blocks ≤ (send_state self.old).free }
        ensures { send_state self.new ≡ record (send_state self.old) {
          sent = (send_state self.old).sent
              ++ sample_item channel list number (M.packets maker.now) ∷ [];
          held = (send_state self.old).held + blocks;
          free = (send_state self.old).free - blocks;
        } }
    {
        let at = self.held * BLOCK;
        lay_sample(&mut self.buffer, at, channel, list, number, maker);
        self.held += blocks;
        self.count = self.count.wrapping_add(1);
    }

    /// Sends a sample, or nothing, if its record finds no room, also after a look at the other end;
    /// and returns which. It takes no memory. The record is held back until it is published, or
    /// until the buffer has no room for another one.
    pub fn send_sample<M: SampleMaker>(
        &mut self,
        channel: ChannelId,
        list: ListId,
        number: u64,
        maker: &M,
    ) -> bool
        requires fits { cost (sample_item channel list number (M.packets maker.now))
            ≤ (send_state self.old).room }
        ensures succeeds { cost (sample_item channel list number (M.packets maker.now))
            ≤ (send_state self.old).free → result ≡ true }
        ensures sends { result ≡ true → Sends (send_state self.old) (send_state self.new)
            (sample_item channel list number (M.packets maker.now)) }
        ensures drops { result ≡ false → SendsNothing (send_state self.old) (send_state self.new)
            (sample_item channel list number (M.packets maker.now)) }
        ensures made_stays { StaysMade (send_state self.old) (send_state self.new) }
    {
        let blocks = sample_cost(maker);
        if !self.find_room(blocks) {
            return false;
        }
        self.make_room(blocks);
        self.make(channel, list, number, maker, blocks);
        true
    }

    /// Makes the record of a stop marker behind those that are held back.
    fn make_marker(&mut self, marker: StopMark)
        requires room { (send_state self.old).held + 1 ≤ (send_state self.old).room }
        requires free { 1 ≤ (send_state self.old).free }
        ensures { send_state self.new ≡ record (send_state self.old) {
          sent = (send_state self.old).sent ++ Marker marker ∷ [];
          held = (send_state self.old).held + 1;
          free = (send_state self.old).free - 1;
        } }
    {
        let at = self.held * BLOCK;
        lay_marker(&mut self.buffer, at, marker);
        self.held += 1;
        self.count = self.count.wrapping_add(1);
    }

    /// Sends a stop marker, or nothing, if it finds no room; and returns which. It takes no memory.
    /// It is held back as a sample is.
    pub fn send_marker(&mut self, marker: StopMark) -> bool
        ensures succeeds { 1 ≤ (send_state self.old).free → result ≡ true }
        ensures sends { result ≡ true
            → Sends (send_state self.old) (send_state self.new) (Marker marker) }
        ensures drops { result ≡ false
            → SendsNothing (send_state self.old) (send_state self.new) (Marker marker) }
        ensures made_stays { StaysMade (send_state self.old) (send_state self.new) }
    {
        if !self.find_room(1) {
            return false;
        }
        self.make_room(1);
        self.make_marker(marker);
        true
    }

    /// The blocks of the longest record that it makes.
    pub fn longest(&self) -> usize
        ensures { result ≡ (send_state self.now).room }
    {
        self.room
    }
}

impl SendEnd for FrameSend {
    ghost use Rattle.std.proofs.Common.{arith, ap};
    ghost use Rattle.channel_ring.specs.Room.{units};

    type End = FrameLeft;

    ghost sent = { λ s. items_in (sent s.producer ++ held_back s.held s.buffer.items) };

    ghost held = { λ s. s.held };

    ghost free = { λ s. known_free s.producer - s.held };

    ghost capacity = { λ s. producer_capacity s.producer };

    ghost limit = { λ s. limit_of s.room };

    ghost ring = { λ s. name_of s.producer.end };

    // that the take end is gone is told by no ring
    ghost is_lost = { λ _. Unit {0} };

    fn offer_sample<M: SampleMaker>(
        &mut self,
        channel: ChannelId,
        list: ListId,
        number: u64,
        maker: &M,
    ) -> bool {
        self.send_sample(channel, list, number, maker)
    }

    fn offer_marker(&mut self, marker: StopMark) -> bool {
        let is_sent = self.send_marker(marker);
        self.push_held();
        is_sent
    }

    fn publish(&mut self) {
        self.push_held();
    }

    fn room(&mut self) -> usize {
        self.producer.slots() - self.held
    }

    fn capacity(&self) -> usize {
        self.producer.capacity()
    }

    fn finish(self) -> Option<FrameLeft> {
        let mut end = self;
        end.push_held();
        let FrameSend {
            producer,
            buffer,
            held: _,
            room: _,
            count,
        } = end;
        let finished = producer.finish()?;
        Some(FrameLeft {
            finished,
            count,
            buffer,
        })
    }

    ghost enough = { λ s. Prim.omega (arith, s.kept.costs, s.kept.there, s.producer.counts) };

    ghost least = { λ s. record {
      count = Prim.omega arith;
      packet = Prim.omega arith;
      frames = Prim.omega (arith, s.kept.least);
    } };

    ghost nothing_held = { λ s none. Prim.omega (arith, s.kept.costs, ap (units cost) none) };
}
