//! A reply is laid out behind all that waits.
ghost use Rattle.std.specs.Prelude.{◌≡◌, ◌+◌, ◌<◌, ◌≤◌, [], ◌∷◌, ◌++◌, length, take};
ghost use Rattle.frame_writer.specs.Frame.{frame};
ghost use Rattle.frame_ring.specs.Records.{blocks_for};

use crate::page::FramePage;
use crate::putting::place_frame;
use frame_ring::BLOCK;
use xcp_base::limits::MAX_CTO;

/// The blocks of the longest reply.
pub const REPLY_BLOCKS: usize = (4 + MAX_CTO + 7) / BLOCK;

/// The frame of a reply, with a CTR of 0, and how many bytes it has.
fn framed(packet: &[u8]) -> ([u8; REPLY_BLOCKS * BLOCK], usize)
    requires fits { length packet.now ≤ MAX_CTO }
    ensures len { result.1 ≡ 4 + length packet.now }
    ensures bytes { take result.1 result.0 ≡ frame 0 packet.now }
    ensures room { length result.0 ≡ 264 }
{
    let mut bytes = [0; REPLY_BLOCKS * BLOCK];
    let end = place_frame(&mut bytes, 0, packet);
    (bytes, end)
}

impl<O: Copy> FramePage<O> {
    /// Lays a reply out behind all that waits. It takes no memory.
    pub fn put_reply(&mut self, packet: &[u8], origin: O)
        requires not_empty { 0 < length packet.now }
        requires fits { length packet.now ≤ MAX_CTO }
        requires room { self.old.used + blocks_for (4 + length packet.now) ≤ self.old.blocks }
        requires place { length self.old.waits < self.old.most }
        ensures { self.new ≡ record self.old {
          waits = self.old.waits ++ record {
            origin = origin;
            packets = packet.now ∷ [];
            blocks = blocks_for (4 + length packet.now);
          } ∷ [];
          used = self.old.used + blocks_for (4 + length packet.now);
        } }
    {
        let (bytes, len) = framed(packet);
        self.put(&bytes, len, 1, origin);
    }
}
