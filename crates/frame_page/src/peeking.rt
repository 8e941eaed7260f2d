//! What waits is shown to the transport, frame by frame.
ghost use Rattle.std.specs.Prelude.{◌≡◌, ◌+◌, ◌*◌, ◌≤◌, drop, length, take};
ghost use Rattle.frame_ring.specs.Reading.{flat};
ghost use Rattle.frame_page.specs.Showing.{Shows};

use crate::page::FramePage;
use frame_ring::{BLOCK, Block, Front, put_frames};

/// So many bytes in blocks, from a byte of this block on.
pub(crate) fn bytes_in(blocks: &[Block], start: usize, at: usize, len: usize) -> &[u8]
    requires few { length blocks.now ≤ 0xFFFFFFFF }
    requires within { 8 * start + at + len ≤ 8 * length blocks.now }
    ensures { result.now ≡ take len (drop (8 * start + at) (flat blocks.now)) }
{
    let from = start * BLOCK + at;
    &blocks.as_flattened()[from..from + len]
}

impl<O: Copy> FramePage<O> {
    /// Copies as many whole frames as find room to the front of a buffer, the oldest first, and
    /// numbers them in a row. They still wait: the next peek begins with the same, unless `sent`
    /// comes between. A sample may so go out in several datagrams.
    pub fn peek(&self, buffer: &mut [u8]) -> Front
        ensures { Shows self.now buffer.old buffer.new result }
    {
        let mut shown = Front { count: 0, len: 0 };
        let mut start = 0;
        for i in 0..self.units.len() {
            let Some(unit) = self.units.get(i) else {
                unreachable!()
            };
            let frames = bytes_in(self.blocks.as_slice(), start, unit.at, unit.len);
            let counter = self.counter.wrapping_add((shown.count % 65536) as u16);
            let front = put_frames(buffer, shown.len, frames, unit.count, counter);
            shown = Front {
                count: shown.count + front.count,
                len: shown.len + front.len,
            };
            if front.count < unit.count {
                return shown;
            }
            start += unit.blocks;
        }
        shown
    }
}
