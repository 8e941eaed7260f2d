//! Items come out of a ring of frames, each as its record.
ghost use Rattle.std.specs.Prelude.{◌≡◌, ◌+◌, ◌<◌, ◌≤◌, [], ◌∷◌, ◌++◌, true, false};
ghost use Rattle.std.specs.Prelude.{length};
ghost use Rattle.rtrb.specs.Ring.{ConsumerLooked, SameConsumer, known_items, received};
ghost use Rattle.rtrb.specs.Fifo.{Allowed};
ghost use mathlib.Core.List.{IsPrefix};
ghost use Rattle.channel_ring.specs.Names.{name_of};
ghost use Rattle.frame_ring.specs.Ends.{IsFirstHead, LooksForItems, TakesFirst};
ghost use Rattle.frame_ring.specs.Fronts.{AreRecords, BeginRecords};
ghost use Rattle.frame_ring.specs.Heads.{head_blocks, head_of};
ghost use Rattle.frame_ring.specs.Inner.{PopsFront, PopsInto, counts};
ghost use Rattle.frame_ring.specs.Reading.{items_in};
ghost use Rattle.frame_ring.specs.Records.{item_props};

use crate::block::{Block, WholeRecords};
use crate::frame_left::FrameLeft;
use crate::frame_send::FrameSend;
use crate::head::{Head, head_of};
use channel_ring::{Beside, TakeEnd};
use core::mem::replace_with;
use rtrb::Consumer;
use std::alloc::Global;

/// The take end of a ring of frames.
#[derive(Drop)]
pub struct FrameTake {
    pub(crate) consumer: Consumer<Block, Global, WholeRecords>,
    // The items taken, modulo 2^64.
    count: u64,
    ghost whole: { AreRecords (received consumer) } by { Prim.hlevel item_props },
    ghost counted: { counts count (received consumer) },
}

impl FrameTake {
    ghost use Rattle.std.specs.Prelude.{◌≡◌, ℕ, ◌+◌, ◌<◌, ◌≤◌, List, [], ◌++◌, IfSome, IsNone};
    ghost use Rattle.std.specs.Prelude.{drop, length, take};
    ghost use Rattle.frame_ring.specs.States.{take_state};

    /// The take end over a consumer that popped nothing.
    pub(crate) fn new(consumer: Consumer<Block, Global, WholeRecords>) -> FrameTake
        requires { received consumer ≡ [] }
        ensures { result.consumer ≡ consumer }
    {
        FrameTake { consumer, count: 0 }
    }

    /// What stands first in the ring, and stays there; `None` if no item is known.
    ///
    /// It may find an item if none is known: the send end may have published one since. It takes
    /// nothing: the record's place isn't free before it is taken.
    pub fn look(&mut self) -> Option<Head>
        ensures some { IfSome result (λ head. IsFirstHead head (take_state self.new)) }
        ensures none { IsNone result → (take_state self.new).known ≡ [] }
        ensures looked { LooksForItems (take_state self.old) (take_state self.new) }
    {
        if self.consumer.is_empty() {
            return None;
        }
        let head = head_of(self.consumer.peek_known());
        if !is_there(&mut self.consumer, head.blocks()) {
            return None;
        }
        Some(head)
    }

    /// Takes the first item: its record, which has so many blocks, goes into a page, from a block
    /// of it on. It takes no memory. The page comes back; it is handed over by value, since through
    /// a borrow the place of the ring's blocks would be read anew for each of them.
    pub fn take_into(&mut self, page: Vec<Block>, at: usize, blocks: usize) -> Vec<Block>
        requires some { 0 < length (take_state self.old).known }
        requires size { blocks ≡ head_blocks (head_of (take_state self.old).front) }
        requires room { at + blocks ≤ length page.items }
        ensures takes { TakesFirst (take_state self.old) (take_state self.new)
            (take blocks (drop at result.items)) }
        ensures front { take at result.items ≡ take at page.items }
        ensures behind { drop (at + blocks) result.items ≡ drop (at + blocks) page.items }
        ensures len { length result.items ≡ length page.items }
    {
        let page = pop_into(&mut self.consumer, page, at, blocks);
        self.count = self.count.wrapping_add(1);
        page
    }

    /// Lets the first item go, of which nobody reads more: its record is popped, which has so many
    /// blocks. It takes no memory.
    pub fn pass(&mut self, blocks: usize)
        requires some { 0 < length (take_state self.old).known }
        requires size { blocks ≡ head_blocks (head_of (take_state self.old).front) }
        ensures { (popped : List (List ℕ))
            × TakesFirst (take_state self.old) (take_state self.new) popped }
    {
        drop_blocks(&mut self.consumer, blocks);
        self.count = self.count.wrapping_add(1);
    }
}

impl TakeEnd for FrameTake {
    type End = FrameLeft;

    ghost received = { λ t. items_in (received t.consumer) };

    ghost known = { λ t. items_in (known_items t.consumer) };

    ghost ring = { λ t. name_of t.consumer.end };

    fn after(&mut self, end: &mut FrameLeft) -> usize {
        self.consumer.slots_after(&mut end.finished);
        end.count.wrapping_sub(self.count) as usize
    }
}

impl Beside for FrameTake {
    type Send = FrameSend;

    fn beside(&mut self, send: &mut FrameSend) -> usize {
        send.push_held();
        let _ = send.producer.slots_beside(&mut self.consumer);
        self.consumer.slots_beside(&mut send.producer);
        send.count.wrapping_sub(self.count) as usize
    }
}

/// Whether so many blocks are known to be there, after a look at the other end where fewer were.
fn is_there(consumer: &mut Consumer<Block, Global, WholeRecords>, blocks: usize) -> bool
    ensures yes { result ≡ true → blocks ≤ length (known_items consumer.new) }
    ensures no { result ≡ false → length (known_items consumer.new) < blocks }
    ensures looked { ConsumerLooked consumer.old consumer.new }
{
    if blocks <= consumer.cached_slots() {
        return true;
    }
    blocks <= consumer.slots()
}

/// Pops so many blocks, which are there.
fn drop_blocks(consumer: &mut Consumer<Block, Global, WholeRecords>, count: usize)
    requires there { count ≤ length (known_items consumer.old) }
    ensures { PopsFront count consumer.old consumer.new }
{
    for _ in 0..count {
        consumer.pop_known();
    }
}

/// Pops so many blocks, which are there, into a page from a block of it on.
fn pop_into(
    consumer: &mut Consumer<Block, Global, WholeRecords>,
    page: Vec<Block>,
    at: usize,
    count: usize,
) -> Vec<Block>
    requires there { count ≤ length (known_items consumer.old) }
    requires room { at + count ≤ length page.items }
    ensures pops { PopsInto consumer.old consumer.new at count page.items result.items }
{
    replace_with(consumer, (page, at, count), popped)
}

/// A consumer behind the blocks that it popped into a page.
fn popped(
    mut consumer: Consumer<Block, Global, WholeRecords>,
    place: (Vec<Block>, usize, usize),
) -> (Consumer<Block, Global, WholeRecords>, Vec<Block>)
    requires there { place.2 ≤ length (known_items consumer) }
    requires room { place.1 + place.2 ≤ length place.0.items }
    ensures pops { PopsInto consumer result.0 place.1 place.2 place.0.items result.1.items }
{
    let (mut page, at, count) = place;
    pop_blocks(&mut consumer, &mut page[at..at + count]);
    (consumer, page)
}

/// Pops as many blocks, which are there.
fn pop_blocks(consumer: &mut Consumer<Block, Global, WholeRecords>, blocks: &mut [Block])
    requires there { length blocks.old ≤ length (known_items consumer.old) }
    ensures ring { SameConsumer consumer.old consumer.new }
    ensures len { length blocks.new ≡ length blocks.old }
    ensures popped { received consumer.new ≡ received consumer.old ++ blocks.new }
    ensures known { IsPrefix (known_items consumer.old) (blocks.new ++ known_items consumer.new) }
    ensures allowed { Allowed (λ past block. BeginRecords (past ++ block ∷ []))
        (received consumer.old) blocks.new }
{
    let Ok(()) = consumer.pop_entire_slice(blocks) else {
        unreachable!()
    };
}
