//! The kinds of rings that an engine may be opened over.
ghost use Rattle.std.specs.Prelude.{◌≡◌, ℕ, Bool, [], IfOk};
ghost use Rattle.daq_engine.specs.Openings.{is_byte_cap, is_cap};

use byte_ring::{ByteRing, ByteSend, ByteTake};
use channel_ring::{Beside, ItemTake, RingFault, SampleRing, SendEnd, SendHalf, TakeEnd, TakeHalf};
use std::alloc::Global;
use xcp_base::limits::{MAX_BYTE_RING, MAX_SAMPLE_RING, MIN_BYTE_RING};

/// A kind of ring, of which the event channels of an engine have one each.
pub trait Ring {
    /// The send end of such a ring.
    type Send: SendEnd;

    /// The take end of such a ring.
    type Take: ItemTake + Beside<Send = Self::Send> + TakeEnd<End = <Self::Send as SendEnd>::End>;

    /// Whether such a ring may have this capacity.
    ghost is_cap: { ℕ → Bool };

    /// Whether such a ring may have this capacity.
    fn is_cap(cap: usize) -> bool
        ensures { result ≡ is_cap cap };

    /// The two ends of a new ring with `cap` units.
    fn make(alloc: Global, cap: usize) -> Result<(Self::Send, Self::Take), RingFault>
        ensures one_ring { IfOk result (λ ends. Self.Send.ring ends.0 ≡ Self.Take.ring ends.1) }
        ensures sent { IfOk result (λ ends. Self.Send.sent ends.0 ≡ []) }
        ensures capacity { IfOk result (λ ends. Self.Send.capacity ends.0 ≡ cap) }
        ensures free { IfOk result (λ ends. Self.Send.free ends.0 ≡ cap) }
        ensures received { IfOk result (λ ends. Self.Take.received ends.1 ≡ []) }
        ensures known { IfOk result (λ ends. Self.Take.known ends.1 ≡ []) };
}

impl Ring for SampleRing {
    type Send = SendHalf;

    type Take = TakeHalf;

    ghost is_cap = { is_cap };

    fn is_cap(cap: usize) -> bool {
        1 <= cap && cap <= MAX_SAMPLE_RING
    }

    fn make(alloc: Global, cap: usize) -> Result<(SendHalf, TakeHalf), RingFault> {
        SampleRing::new(alloc, cap)
    }
}

impl Ring for ByteRing {
    type Send = ByteSend;

    type Take = ByteTake;

    ghost is_cap = { is_byte_cap };

    fn is_cap(cap: usize) -> bool {
        MIN_BYTE_RING <= cap && cap <= MAX_BYTE_RING
    }

    fn make(alloc: Global, cap: usize) -> Result<(ByteSend, ByteTake), RingFault> {
        ByteRing::new(alloc, cap)
    }
}
