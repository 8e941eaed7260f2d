//! A ring of orders is made, and its two ends are handed out.
ghost use Rattle.std.specs.Prelude.{◌≡◌, ◌+◌, ◌<◌, ◌⊎◌, ◌↔◌, [], IfErr, IfOk, IsErrOf};
ghost use Rattle.channel_ring.specs.Orders.{AreEnds};

use crate::RingFault;
use crate::control_send::ControlSend;
use crate::control_take::ControlTake;
use crate::order::Order;
use rtrb::RingBuffer;
use std::alloc::Global;
use xcp_base::limits::MAX_CONTROL_RING;

/// A lock-free ring of orders, each of which costs 1. Its two ends may be in two threads.
pub struct ControlRing;

impl ControlRing {
    /// The two ends of a new ring with `cap` places, 1 to `MAX_CONTROL_RING`; outside of these
    /// limits it is refused with `BadCap`.
    pub fn new(alloc: Global, cap: usize) -> Result<(ControlSend, ControlTake), RingFault>
        ensures ends { IfOk result (λ ends. AreEnds cap ends.0 ends.1) }
        ensures bad_cap { IsErrOf result RingFault.BadCap
            ↔ ((cap ≡ 0) ⊎ (MAX_CONTROL_RING < cap)) }
    {
        if cap == 0 || cap > MAX_CONTROL_RING {
            return Err(RingFault::BadCap);
        }
        of_places(alloc, cap)
    }

    /// The two ends of a new ring with `cap` places for starts and stops, 1 to `MAX_CONTROL_RING`,
    /// and one more, for the order to end; outside of these limits it is refused with `BadCap`.
    pub fn with_end(alloc: Global, cap: usize) -> Result<(ControlSend, ControlTake), RingFault>
        ensures ends { IfOk result (λ ends. AreEnds (cap + 1) ends.0 ends.1) }
        ensures bad_cap { IsErrOf result RingFault.BadCap
            ↔ ((cap ≡ 0) ⊎ (MAX_CONTROL_RING < cap)) }
    {
        if cap == 0 || cap > MAX_CONTROL_RING {
            return Err(RingFault::BadCap);
        }
        of_places(alloc, cap + 1)
    }
}

/// The two ends of a new ring with so many places.
fn of_places(alloc: Global, places: usize) -> Result<(ControlSend, ControlTake), RingFault>
    ensures ends { IfOk result (λ ends. AreEnds places ends.0 ends.1) }
    ensures memory { IfErr result (λ fault. fault ≡ RingFault.Memory) }
{
    match RingBuffer::new(alloc, places) {
        Ok((producer, consumer)) => Ok((ControlSend { producer }, ControlTake { consumer })),
        Err(_) => Err(RingFault::Memory),
    }
}
