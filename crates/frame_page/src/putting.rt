//! Frames are copied into the page, behind all that waits.
ghost use Rattle.std.specs.Prelude.{◌≡◌, ℕ, ◌+◌, ◌*◌, ◌<◌, ◌≤◌, [], ◌∷◌, ◌++◌, List, length, take};
ghost use Rattle.xcp_base.specs.declared.limits.TheConstants.{MAX_ODTS_IN_ALL};
ghost use Rattle.frame_writer.specs.Frame.{frame};
ghost use Rattle.frame_ring.specs.Records.{blocks_for};
ghost use Rattle.frame_ring.specs.Sending.{AreFrames, AreFramesOf};

use crate::page::FramePage;
use crate::unit::Unit;
use frame_ring::{BLOCK, first_blocks};
use frame_writer::place;

impl<O: Copy> FramePage<O> {
    /// Copies so many frames behind all that waits: the first `len` of some bytes.
    pub(crate) fn put(&mut self, bytes: &[u8], len: usize, count: usize, origin: O)
        requires frames { AreFrames (take len bytes.now) count }
        requires some { 0 < count }
        requires few { count ≤ MAX_ODTS_IN_ALL }
        requires short { len ≤ 0xFFFFFFFF }
        requires whole { 8 * blocks_for len ≤ length bytes.now }
        requires room { self.old.used + blocks_for len ≤ self.old.blocks }
        requires place { length self.old.waits < self.old.most }
        ensures { (packets : List (List ℕ)) → AreFramesOf (take len bytes.now) count packets
            → self.new ≡ record self.old {
              waits = self.old.waits ++ record {
                origin = origin;
                packets = packets;
                blocks = blocks_for len;
              } ∷ [];
              used = self.old.used + blocks_for len;
            } }
    {
        let blocks = (len + BLOCK - 1) / BLOCK;
        self.blocks.push(first_blocks(bytes, blocks));
        let _ = self.units.push_back(Unit {
            origin,
            blocks,
            at: 0,
            len,
            count,
        });
    }
}

/// Writes the frame of a packet from `at` on, with a CTR of 0, and answers where it ends.
pub(crate) fn place_frame(room: &mut [u8], at: usize, packet: &[u8]) -> usize
    requires fits { length packet.now ≤ 255 }
    requires room { at + 4 + length packet.now ≤ length room.old }
    ensures frame { take result room.new ≡ take at room.old ++ frame 0 packet.now }
    ensures end { result ≡ at + 4 + length packet.now }
    ensures len { length room.new ≡ length room.old }
{
    let header = [packet.len() as u8, 0, 0, 0];
    let body = place(room, at, &header[..]);
    place(room, body, packet)
}
