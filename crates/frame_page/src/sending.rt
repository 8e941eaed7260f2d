//! Frames that were sent wait no more, and what is thrown away neither.
ghost use Rattle.std.specs.Prelude.{◌≡◌, ◌+◌, ◌%◌, ◌<◌, ◌≤◌, [], drop, length, take};
ghost use Rattle.frame_page.specs.Inner.{IsWithinNext, blocks_in, frames_in};
ghost use Rattle.frame_page.specs.Laid.{IsWithinFirst, behind, blocks_of, packets_in};

use crate::page::FramePage;
use crate::peeking::bytes_in;
use crate::unit::Unit;
use circular_buffer::HeapCircularBuffer;
use frame_ring::front_len;

/// The units within so many of the first frames: how many are whole, their blocks, and how many of
/// the frames stand behind them.
#[derive(Drop)]
struct Whole {
    units: usize,
    blocks: usize,
    left: usize,
}

/// The units within so many of the first frames.
fn whole_units<O: Copy>(units: &HeapCircularBuffer<Unit<O>>, count: usize) -> Whole
    requires few { blocks_in units.now.items ≤ 0xFFFFFFFF }
    ensures there { result.units ≤ length units.now.items }
    ensures blocks { result.blocks ≡ blocks_in (take result.units units.now.items) }
    ensures left { count ≡ frames_in (take result.units units.now.items) + result.left }
    ensures within { IsWithinNext result.left (drop result.units units.now.items) }
{
    let mut left = count;
    let mut blocks = 0;
    for i in 0..units.len() {
        let Some(unit) = units.get(i) else {
            unreachable!()
        };
        if left < unit.count {
            return Whole {
                units: i,
                blocks,
                left,
            };
        }
        left -= unit.count;
        blocks += unit.blocks;
    }
    Whole {
        units: units.len(),
        blocks,
        left,
    }
}

impl<O: Copy> FramePage<O> {
    ghost use Rattle.std.specs.Prelude.{◌≡◌, ◌+◌, ◌%◌, ◌≤◌, [], length};

    /// The first so many frames that wait were sent, and wait no more. The next one gets the CTR
    /// behind theirs.
    pub fn sent(&mut self, count: usize)
        requires { count ≤ length (packets_in self.old.waits) }
        ensures { self.new ≡ record self.old {
          waits = behind count self.old.waits;
          counter = (self.old.counter + count) % 65536;
          used = blocks_of (behind count self.old.waits);
        } }
    {
        let left = self.let_go(count);
        self.pass(count);
        self.cut(left);
    }

    /// All frames that wait, which are so many, were sent. The next one gets the CTR behind theirs.
    pub fn sent_all(&mut self, count: usize)
        requires { count ≡ length (packets_in self.old.waits) }
        ensures { self.new ≡ record self.old {
          waits = [];
          counter = (self.old.counter + count) % 65536;
          used = 0;
        } }
    {
        self.pass(count);
        self.discard();
    }

    /// The next frame gets the CTR behind those of so many frames.
    fn pass(&mut self, count: usize)
        ensures { self.new ≡ record self.old { counter = (self.old.counter + count) % 65536 } }
    {
        self.counter = self.counter.wrapping_add((count % 65536) as u16);
    }

    /// Lets the units go that lie within the first so many frames, and returns how many frames of
    /// the next one are among these.
    fn let_go(&mut self, count: usize) -> usize
        requires { count ≤ length (packets_in self.old.waits) }
        ensures rest { self.new
            ≡ record self.old { waits = self.new.waits; used = blocks_of self.new.waits } }
        ensures waits { behind count self.old.waits ≡ behind result self.new.waits }
        ensures within { IsWithinFirst result self.new.waits }
    {
        let whole = whole_units(&self.units, count);
        let left = self.units.len() - whole.units;
        self.units.truncate_front(left);
        self.blocks.let_go(whole.blocks);
        whole.left
    }

    /// So many frames of the first unit wait no more, and others of it do.
    fn cut(&mut self, count: usize)
        requires { IsWithinFirst count self.old.waits }
        ensures { self.new ≡ record self.old { waits = behind count self.old.waits } }
    {
        if count == 0 {
            return;
        }
        let Some(unit) = self.units.pop_front() else {
            return;
        };
        let frames = bytes_in(self.blocks.as_slice(), 0, unit.at, unit.len);
        let len = front_len(frames, unit.count, count);
        let _ = self.units.push_front(Unit {
            origin: unit.origin,
            blocks: unit.blocks,
            at: unit.at + len,
            len: unit.len - len,
            count: unit.count - count,
        });
    }

    /// Throws away what waits: it is never sent. The next frame has the CTR behind that of the last
    /// frame that was sent.
    pub fn discard(&mut self)
        ensures { self.new ≡ record self.old { waits = []; used = 0 } }
    {
        self.units.clear();
        self.blocks.clear();
    }
}
