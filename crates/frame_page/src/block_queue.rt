//! Blocks that wait, in one piece.
ghost use Rattle.std.specs.Prelude.{◌≡◌, ◌+◌, ◌<◌, ◌≤◌, [], ◌++◌, IfOk, drop, length, take};
ghost use Rattle.frame_ring.specs.Ends.{TakesFirst};
ghost use Rattle.frame_ring.specs.Heads.{head_blocks, head_of};
ghost use Rattle.frame_ring.specs.States.{take_state};
ghost use Rattle.frame_page.specs.Queue.{QueueState};

use frame_ring::{BLOCK, Block, FrameTake};
use std::alloc::{AllocError, Global};
use std::marker::Model;
use std::mem::replace;

/// Blocks that wait in one piece, the oldest first.
///
/// Those that are let go stay in front of it, and what waits is moved only where more blocks find
/// no room behind it.
#[derive(Drop)]
pub(crate) struct BlockQueue {
    blocks: Vec<Block>,
    // Those that wait begin at `start`, and are `len`.
    start: usize,
    len: usize,
}

impl Model for BlockQueue {
    ghost use Rattle.std.specs.Prelude.{◌+◌, ◌≤◌, drop, length, take};
    ghost use Rattle.frame_page.specs.Queue.{QueueState};

    ghost Value = { QueueState };

    ghost view = { λ q. record {
      all = take q.len (drop q.start q.blocks.items);
      room = length q.blocks.items;
    } };

    ghost invariant = { λ q. q.start + q.len ≤ length q.blocks.items };
}

/// So many blocks, of which the first are copies of these.
fn copied_in(alloc: Global, blocks: &[Block], count: usize) -> Result<Vec<Block>, AllocError>
    requires fit { length blocks.now ≤ count }
    ensures len { IfOk result (λ grown. length grown.items ≡ count) }
    ensures first { IfOk result (λ grown. take (length blocks.now) grown.items ≡ blocks.now) }
{
    let mut grown = vec![in alloc; [0; BLOCK]; count]?;
    copy_into(&mut grown, blocks);
    Ok(grown)
}

/// Copies these blocks to the front of others.
fn copy_into(grown: &mut [Block], blocks: &[Block])
    requires fit { length blocks.now ≤ length grown.old }
    ensures len { length grown.new ≡ length grown.old }
    ensures first { take (length blocks.now) grown.new ≡ blocks.now }
{
    grown[..blocks.len()].copy_from_slice(blocks);
}

/// Makes room for so many blocks behind `len` of them that begin at `start`, and answers where
/// these begin then: they are moved to the front where there is no such room.
fn make_room(blocks: &mut [Block], start: usize, len: usize, more: usize) -> usize
    requires within { start + len ≤ length blocks.old }
    requires room { len + more ≤ length blocks.old }
    ensures room { result + len + more ≤ length blocks.new }
    ensures stay { take len (drop result blocks.new) ≡ take len (drop start blocks.old) }
    ensures len { length blocks.new ≡ length blocks.old }
{
    if more <= blocks.len() - (start + len) {
        return start;
    }
    blocks.copy_within(start..start + len, 0);
    0
}

/// Copies blocks behind `len` of them that begin at `start`, and answers where these begin then.
fn push_behind(blocks: &mut [Block], start: usize, len: usize, more: &[Block]) -> usize
    requires within { start + len ≤ length blocks.old }
    requires room { len + length more.now ≤ length blocks.old }
    ensures within { result + (len + length more.now) ≤ length blocks.new }
    ensures all { take (len + length more.now) (drop result blocks.new)
        ≡ take len (drop start blocks.old) ++ more.now }
    ensures len { length blocks.new ≡ length blocks.old }
{
    let first = make_room(blocks, start, len, more.len());
    let end = first + len;
    blocks[end..end + more.len()].copy_from_slice(more);
    first
}

impl BlockQueue {
    /// Room for so many blocks, of which none waits.
    pub(crate) fn new(alloc: Global, count: usize) -> Result<BlockQueue, AllocError>
        ensures { IfOk result (λ queue. queue ≡ record { all = []; room = count }) }
    {
        Ok(BlockQueue {
            blocks: vec![in alloc; [0; BLOCK]; count]?,
            start: 0,
            len: 0,
        })
    }

    /// A copy of what waits, in room for so many blocks.
    pub(crate) fn grown(&self, alloc: Global, count: usize) -> Result<BlockQueue, AllocError>
        requires fit { length self.now.all ≤ count }
        ensures { IfOk result (λ queue. queue ≡ record { all = self.now.all; room = count }) }
    {
        Ok(BlockQueue {
            blocks: copied_in(alloc, self.as_slice(), count)?,
            start: 0,
            len: self.len,
        })
    }

    /// The blocks that wait.
    pub(crate) fn as_slice(&self) -> &[Block]
        ensures { result.now ≡ self.now.all }
    {
        &self.blocks[self.start..self.start + self.len]
    }

    /// How many blocks wait.
    pub(crate) fn len(&self) -> usize
        ensures { result ≡ length self.now.all }
    {
        self.len
    }

    /// How many blocks find room in all.
    pub(crate) fn room(&self) -> usize
        ensures { result ≡ self.now.room }
    {
        self.blocks.len()
    }

    /// Lets so many blocks go, the oldest. The others stay where they are.
    pub(crate) fn let_go(&mut self, count: usize)
        requires { count ≤ length self.old.all }
        ensures { self.new ≡ record self.old { all = drop count self.old.all } }
    {
        if count == self.len {
            self.clear();
            return;
        }
        self.start += count;
        self.len -= count;
    }

    /// Lets all blocks go.
    pub(crate) fn clear(&mut self)
        ensures { self.new ≡ record self.old { all = [] } }
    {
        self.start = 0;
        self.len = 0;
    }

    /// Copies blocks behind all that wait.
    pub(crate) fn push(&mut self, more: &[Block])
        requires room { length self.old.all + length more.now ≤ self.old.room }
        ensures { self.new ≡ record self.old { all = self.old.all ++ more.now } }
    {
        self.start = push_behind(&mut self.blocks, self.start, self.len, more);
        self.len += more.len();
    }

    /// Takes the first item of a ring: its record, which has so many blocks, is popped behind all
    /// that wait.
    pub(crate) fn take_record(&mut self, ring: &mut FrameTake, count: usize)
        requires some { 0 < length (take_state ring.old).known }
        requires size { count ≡ head_blocks (head_of (take_state ring.old).front) }
        requires room { length self.old.all + count ≤ self.old.room }
        ensures takes { TakesFirst (take_state ring.old) (take_state ring.new)
            (drop (length self.old.all) self.new.all) }
        ensures rest { self.new ≡ record self.old {
          all = self.old.all ++ drop (length self.old.all) self.new.all;
        } }
    {
        self.start = make_room(&mut self.blocks, self.start, self.len, count);
        let none = Vec::new(*self.blocks.allocator());
        let blocks = replace(&mut self.blocks, none);
        self.blocks = ring.take_into(blocks, self.start + self.len, count);
        self.len += count;
    }
}
