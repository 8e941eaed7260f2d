//! The end at which orders come out of their ring.
ghost use Rattle.std.specs.Prelude.{◌≡◌, ◌<◌, [], ◌∷◌, ◌++◌, length, IfSome, IsNone, IsSome};
ghost use mathlib.Core.List.{IsPrefix};
ghost use Rattle.channel_ring.specs.Orders.{LooksForRoom};

use crate::control_ended::ControlEnded;
use crate::control_send::ControlSend;
use crate::order::Order;
use rtrb::Consumer;
use std::marker::Model;

/// The take end of a ring of orders.
#[derive(Drop)]
pub struct ControlTake {
    pub(crate) consumer: Consumer<Order>,
}

impl Model for ControlTake {
    ghost use Rattle.rtrb.specs.Ring.{known_items, received};
    ghost use Rattle.channel_ring.specs.Names.{name_of};
    ghost use Rattle.channel_ring.specs.Orders.{TakeState};

    ghost Value = { TakeState };

    ghost view = { λ t. record {
      received = received t.consumer;
      known = known_items t.consumer;
      ring = name_of t.consumer.end;
    } };
}

impl ControlTake {
    /// The oldest order, which stays in the ring: it is what the next `take` gives.
    ///
    /// It may find an order if none is known: the send end may have sent one since.
    pub fn front(&mut self) -> Option<Order>
        ensures gives { 0 < length self.old.known → IsSome result }
        ensures some { IfSome result (λ order. IsPrefix (order ∷ []) self.new.known) }
        ensures none { IsNone result → self.new.known ≡ [] }
        ensures grows { IsPrefix self.old.known self.new.known }
        ensures received_stays { self.new.received ≡ self.old.received }
        ensures ring_stays { self.new.ring ≡ self.old.ring }
    {
        if self.consumer.is_empty() {
            return None;
        }
        Some(*self.consumer.peek_known())
    }

    /// Takes the oldest order. It takes no memory.
    ///
    /// It may find an order if none is known: the send end may have sent one since.
    pub fn take(&mut self) -> Option<Order>
        ensures gives { 0 < length self.old.known → IsSome result }

        ensures some { IfSome result (λ order.
            self.new.received ≡ self.old.received ++ order ∷ []) }
        // the first order that is known, and none of the others is forgotten
        ensures first { IfSome result (λ order.
            IsPrefix self.old.known (order ∷ self.new.known)) }

        ensures none { IsNone result → self.new.received ≡ self.old.received }
        ensures empty { IsNone result → self.new.known ≡ [] }

        ensures ring_stays { self.new.ring ≡ self.old.ring }
    {
        self.consumer.pop().ok()
    }

    /// Looks at all that was sent through the send end of this ring, which is beside, and returns
    /// how many orders are left.
    pub fn beside(&mut self, send: &mut ControlSend) -> usize
        requires one_ring { send.old.ring ≡ self.old.ring }
        ensures count { result ≡ length self.new.known }
        ensures left { self.new.received ++ self.new.known ≡ send.new.sent }

        ensures received_stays { self.new.received ≡ self.old.received }
        ensures ring_stays { self.new.ring ≡ self.old.ring }
        ensures looked { LooksForRoom send.old send.new }
    {
        self.consumer.slots_beside(&mut send.producer)
    }

    /// Looks at all that was sent through the finished send end of this ring, and returns how many
    /// orders are left.
    ///
    /// From then on each order left is known. It holds in whichever threads the two ends were.
    pub fn after(&mut self, end: &mut ControlEnded) -> usize
        requires one_ring { end.old.ring ≡ self.old.ring }
        ensures count { result ≡ length self.new.known }
        ensures left { self.new.received ++ self.new.known ≡ end.new.sent }

        ensures received_stays { self.new.received ≡ self.old.received }
        ensures sent_stays { end.new.sent ≡ end.old.sent }
        ensures ring_stays { self.new.ring ≡ self.old.ring }
        ensures end_ring_stays { end.new.ring ≡ end.old.ring }
    {
        self.consumer.slots_after(&mut end.finished)
    }
}
