//! A ring of bytes is made, and its two ends are handed out.
ghost use Rattle.std.specs.Prelude.{◌≡◌, ◌<◌, ◌⊎◌, ◌↔◌, [], IfOk, IsErrOf};

use crate::byte_send::ByteSend;
use crate::byte_take::ByteTake;
use channel_ring::{RingFault, SendEnd, TakeEnd};
use rtrb::RingBuffer;
use std::alloc::Global;
use xcp_base::limits::{MAX_BYTE_RING, MIN_BYTE_RING};

/// A lock-free ring of bytes, in which each item costs the bytes of its record. Its two ends may be
/// in two threads.
pub struct ByteRing;

impl ByteRing {
    /// The two ends of a new ring with `cap` bytes, `MIN_BYTE_RING` to `MAX_BYTE_RING`; outside of
    /// these limits it is refused with `BadCap`.
    pub fn new(alloc: Global, cap: usize) -> Result<(ByteSend, ByteTake), RingFault>
        ensures one_ring { IfOk result (λ ends.
            ⟦<ByteSend as SendEnd>⟧.ring ends.0 ≡ ⟦<ByteTake as TakeEnd>⟧.ring ends.1) }
        ensures sent { IfOk result (λ ends. ⟦<ByteSend as SendEnd>⟧.sent ends.0 ≡ []) }
        ensures capacity { IfOk result (λ ends. ⟦<ByteSend as SendEnd>⟧.capacity ends.0 ≡ cap) }
        ensures free { IfOk result (λ ends. ⟦<ByteSend as SendEnd>⟧.free ends.0 ≡ cap) }
        ensures received { IfOk result (λ ends. ⟦<ByteTake as TakeEnd>⟧.received ends.1 ≡ []) }
        ensures known { IfOk result (λ ends. ⟦<ByteTake as TakeEnd>⟧.known ends.1 ≡ []) }
        ensures bad_cap { IsErrOf result RingFault.BadCap
            ↔ ((cap < MIN_BYTE_RING) ⊎ (MAX_BYTE_RING < cap)) }
    {
        if cap < MIN_BYTE_RING || cap > MAX_BYTE_RING {
            return Err(RingFault::BadCap);
        }
        match RingBuffer::new(alloc, cap) {
            Ok((producer, consumer)) => Ok((ByteSend::new(producer), ByteTake::new(consumer))),
            Err(_) => Err(RingFault::Memory),
        }
    }
}
