//! A sample is taken off a ring of frames, into the page.
ghost use Rattle.std.specs.Prelude.{◌≡◌, ◌+◌, ◌-◌, ◌<◌, ◌≤◌, length};
ghost use Rattle.frame_ring.specs.Records.{blocks_for};
ghost use Rattle.frame_ring.specs.States.{take_state};
ghost use Rattle.frame_page.specs.Taking.{IsSampleFront, TakesSample};

use crate::page::FramePage;
use crate::unit::Unit;
use frame_ring::{FrameTake, sample_blocks};

/// The bytes in front of the frames of a sample.
const HEAD: usize = 16;

impl<O: Copy> FramePage<O> {
    /// Takes the first item of a ring, a sample of which a look told the packets and the bytes of
    /// the frames, and lays it out behind all that waits. Its record is popped into the page, where
    /// it is moved only to make room for more behind it. It takes no memory.
    pub fn take_sample(&mut self, ring: &mut FrameTake, packets: u8, len: u32, origin: O)
        requires front { IsSampleFront (take_state ring.old) packets len }
        requires room { self.old.used + (2 + blocks_for len) ≤ self.old.blocks }
        requires place { length self.old.waits < self.old.most }
        ensures { TakesSample (take_state ring.old) (take_state ring.new) self.old self.new
            origin }
    {
        let blocks = sample_blocks(len as usize);
        self.blocks.take_record(ring, blocks);
        let _ = self.units.push_back(Unit {
            origin,
            blocks,
            at: HEAD,
            len: len as usize,
            count: packets as usize,
        });
    }
}
