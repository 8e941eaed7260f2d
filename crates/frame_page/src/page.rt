//! What waits for the transport, in blocks.
ghost use Rattle.std.specs.Prelude.{◌≡◌, ◌-◌, ◌<◌, ◌≤◌, [], IfOk, OnErr, OnOk, Some, false};
ghost use Rattle.std.specs.Prelude.{length, slice_get, true};
ghost use Rattle.frame_page.specs.Laid.{Laid};

use crate::block_queue::BlockQueue;
use crate::unit::Unit;
use circular_buffer::HeapCircularBuffer;
use std::alloc::{AllocError, Global};
use std::marker::Model;

/// Frames that wait for the transport, the oldest first.
///
/// Contracts see them by their packets. They are numbered as they are handed over, in a row.
#[derive(Drop)]
pub struct FramePage<O> {
    // What waits, unit by unit.
    pub(crate) blocks: BlockQueue,
    pub(crate) units: HeapCircularBuffer<Unit<O>>,
    // CTR of the first frame that waits, or of the next one.
    pub(crate) counter: u16,
}

impl<O> Model for FramePage<O> {
    ghost use Rattle.std.specs.Prelude.{length};
    ghost use Rattle.frame_page.specs.Pages.{PageState, waits_in};
    ghost use Rattle.frame_page.specs.Inner.{IsPage};

    ghost Value = { PageState O };

    ghost view = { λ p. record {
      waits = waits_in p.blocks.all p.units.items;
      counter = p.counter;
      used = length p.blocks.all;
      blocks = p.blocks.room;
      most = p.units.capacity;
    } };

    ghost invariant = { λ p. IsPage p.blocks p.units };
}

impl<O: Copy> FramePage<O> {
    /// A page of so many blocks in which nothing waits, and at most so many samples and replies
    /// find room. Its first frame has CTR 0.
    pub fn new(alloc: Global, blocks: usize, most: usize) -> Result<FramePage<O>, AllocError>
        requires few { blocks ≤ 0xFFFFFFFF }
        ensures { IfOk result (λ page. page ≡ record {
          waits = [];
          counter = 0;
          used = 0;
          blocks = blocks;
          most = most;
        }) }
    {
        Ok(FramePage {
            blocks: BlockQueue::new(alloc, blocks)?,
            units: HeapCircularBuffer::with_capacity(alloc, most)?,
            counter: 0,
        })
    }

    /// Makes room for so many blocks, samples and replies in all. What waits stays as it is; if
    /// there is no memory, nothing changes.
    pub fn grow(&mut self, alloc: Global, blocks: usize, most: usize) -> Result<(), AllocError>
        requires blocks { self.old.blocks ≤ blocks }
        requires few { blocks ≤ 0xFFFFFFFF }
        requires places { self.old.most ≤ most }
        ensures ok { OnOk result (self.new ≡ record self.old { blocks = blocks; most = most }) }
        ensures err { OnErr result (self.new ≡ self.old) }
    {
        if self.has_all(blocks, most) {
            return Ok(());
        }
        let grown = self.blocks.grown(alloc, blocks)?;
        self.units.resize(most)?;
        self.blocks = grown;
        Ok(())
    }

    /// Whether there is room for so many blocks, samples and replies in all.
    fn has_all(&self, blocks: usize, most: usize) -> bool
        ensures blocks { result ≡ true → blocks ≤ self.now.blocks }
        ensures places { result ≡ true → most ≤ self.now.most }
    {
        blocks <= self.blocks.room() && most <= self.units.capacity()
    }

    /// The blocks that are free.
    pub fn free(&self) -> usize
        ensures { result ≡ self.now.blocks - self.now.used }
    {
        self.blocks.room() - self.blocks.len()
    }

    /// Whether one more sample or reply finds a place, if its blocks do.
    pub fn has_place(&self) -> bool
        ensures yes { result ≡ true → length self.now.waits < self.now.most }
        ensures no { result ≡ false → self.now.most ≤ length self.now.waits }
    {
        self.units.len() < self.units.capacity()
    }

    /// How many samples and replies wait.
    pub fn len(&self) -> usize
        ensures { result ≡ length self.now.waits }
    {
        self.units.len()
    }

    /// Where the sample or the reply is from that waits at place `i`, of the oldest first.
    pub fn origin(&self, i: usize) -> O
        requires place { i < length self.now.waits }
        ensures { (x : Laid O) → slice_get self.now.waits i ≡ Some x → result ≡ x.origin }
    {
        let Some(unit) = self.units.get(i) else {
            unreachable!()
        };
        unit.origin
    }
}
