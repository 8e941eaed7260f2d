//! The end at which orders go into their ring.
ghost use Rattle.std.specs.Prelude.{◌≡◌, ◌+◌, ◌<◌, ◌≤◌, [], ◌∷◌, ◌++◌};
ghost use Rattle.std.specs.Prelude.{IfErr, IfSome, IsOk, OnErr, OnOk, length};
ghost use Rattle.channel_ring.specs.Orders.{LooksForRoom};

use crate::control_ended::ControlEnded;
use crate::order::Order;
use rtrb::{Producer, PushError};
use std::marker::Model;

/// The send end of a ring of orders.
#[derive(Drop)]
pub struct ControlSend {
    pub(crate) producer: Producer<Order>,
}

impl Model for ControlSend {
    ghost use Rattle.rtrb.specs.Ring.{known_free, producer_capacity, sent};
    ghost use Rattle.channel_ring.specs.Names.{name_of};
    ghost use Rattle.channel_ring.specs.Orders.{SendState};

    ghost Value = { SendState };

    ghost view = { λ s. record {
      sent = sent s.producer;
      free = known_free s.producer;
      capacity = producer_capacity s.producer;
      ring = name_of s.producer.end;
    } };
}

impl ControlSend {
    /// A law of each send end: what isn't known to be free is taken up by what was sent.
    pub fn enough(&self)
        ensures { self.now.capacity ≤ self.now.free + length self.now.sent }
    {
        // for the proof: opens what the end keeps of its ring
        let _ = &self.producer;
    }

    /// Sends an order, or gives it back. It takes no memory.
    ///
    /// It may succeed if no place is known to be free: the take end may have freed some since.
    pub fn send(&mut self, order: Order) -> Result<(), Order>
        ensures succeeds { 1 ≤ self.old.free → IsOk result }

        ensures ok { OnOk result (self.new.sent ≡ self.old.sent ++ order ∷ []) }
        ensures spent { OnOk result (self.old.free ≤ self.new.free + 1) }

        ensures back { IfErr result (λ returned. returned ≡ order) }
        ensures err { OnErr result (self.new.sent ≡ self.old.sent) }
        ensures err_free { OnErr result (self.old.free ≤ self.new.free) }

        ensures capacity_stays { self.new.capacity ≡ self.old.capacity }
        ensures ring_stays { self.new.ring ≡ self.old.ring }
    {
        match self.producer.push(order) {
            Ok(()) => Ok(()),
            Err(PushError::Full(order)) => Err(order),
        }
    }

    /// Looks at the other end, and returns the places known to be free from then on.
    pub fn room(&mut self) -> usize
        ensures value { result ≡ self.new.free }
        ensures looked { LooksForRoom self.old self.new }
    {
        self.producer.slots()
    }

    /// Sends an order for which a place is known to be free. It takes no memory.
    pub fn send_reserved(&mut self, order: Order)
        requires place { 0 < self.old.free }
        ensures sends { self.new.sent ≡ self.old.sent ++ order ∷ [] }
        ensures spent { self.old.free ≡ self.new.free + 1 }
        ensures capacity_stays { self.new.capacity ≡ self.old.capacity }
        ensures ring_stays { self.new.ring ≡ self.old.ring }
    {
        self.producer.push_reserved(order);
    }

    /// Gives the end up. What was sent stays in the ring. `None` if the take end was dropped
    /// before; no clause says that the answer is `Some`.
    pub fn finish(self) -> Option<ControlEnded>
        ensures sent { IfSome result (λ end. end.sent ≡ self.sent) }
        ensures ring { IfSome result (λ end. end.ring ≡ self.ring) }
    {
        let finished = self.producer.finish()?;
        Some(ControlEnded { finished })
    }
}
