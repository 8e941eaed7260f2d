//! A ring of frames is made, and its two ends are handed out.
ghost use Rattle.std.specs.Prelude.{◌≡◌, ◌≢◌, ◌+◌, ◌*◌, ◌/◌, ◌%◌, ◌<◌, ◌≤◌, ◌⊎◌, ◌↔◌, IfOk};
ghost use Rattle.std.specs.Prelude.{IsErrOf, length, true};
ghost use Rattle.frame_ring.specs.Ends.{AreEnds};
ghost use Rattle.frame_ring.specs.States.{send_state, take_state};

use crate::block::{BLOCK, Block, WholeRecords};
use crate::frame_send::FrameSend;
use crate::frame_take::FrameTake;
use crate::limits::{MAX_FRAME_RING, MIN_FRAME_RING, MIN_ROOM};
use channel_ring::RingFault;
use rtrb::RingBuffer;
use std::alloc::{AllocError, Global};
use xcp_base::limits::SLACK;

/// A lock-free ring of frames, in which each item costs the blocks of its record. Its two ends may
/// be in two threads.
pub struct FrameRing;

impl FrameRing {
    /// The two ends of a new ring with `cap` bytes, a multiple of eight from `MIN_FRAME_RING` to
    /// `MAX_FRAME_RING`; outside of these limits it is refused with `BadCap`. The send end makes
    /// records of up to `room` blocks, at least `MIN_ROOM`.
    pub fn new(alloc: Global, cap: usize, room: usize) -> Result<(FrameSend, FrameTake), RingFault>
        requires least { MIN_ROOM ≤ room }
        requires few { room ≤ MAX_FRAME_RING / BLOCK }
        ensures ends { IfOk result
            (λ ends. AreEnds (cap / 8) room (send_state ends.0) (take_state ends.1)) }
        ensures bad_cap { IsErrOf result RingFault.BadCap
            ↔ ((cap < MIN_FRAME_RING) ⊎ (MAX_FRAME_RING < cap) ⊎ (cap % 8 ≢ 0)) }
    {
        if is_bad(cap) {
            return Err(RingFault::BadCap);
        }
        let Ok(buffer) = buffer_of(alloc, room) else {
            return Err(RingFault::Memory);
        };
        let Ok((producer, consumer)) = RingBuffer::<Block>::with_protocol::<Global, WholeRecords>(
            alloc,
            cap / BLOCK,
        ) else {
            return Err(RingFault::Memory);
        };
        Ok((FrameSend::new(producer, buffer), FrameTake::new(consumer)))
    }
}

/// Whether a capacity is outside the limits.
fn is_bad(cap: usize) -> bool
    ensures { (result ≡ true) ↔ ((cap < MIN_FRAME_RING) ⊎ (MAX_FRAME_RING < cap) ⊎ (cap % 8 ≢ 0)) }
{
    cap < MIN_FRAME_RING || cap > MAX_FRAME_RING || cap % BLOCK != 0
}

/// Room for so many blocks, and for what may be written over behind them.
fn buffer_of(alloc: Global, blocks: usize) -> Result<Vec<u8>, AllocError>
    requires few { blocks ≤ MAX_FRAME_RING / BLOCK }
    ensures { IfOk result (λ buffer. length buffer.items ≡ blocks * 8 + SLACK) }
{
    vec![in alloc; 0; blocks * BLOCK + SLACK]
}
