//! The finished send end of a ring of orders, for a last look at what it left in the ring.
use crate::order::Order;
use rtrb::Finished;
use std::marker::Model;

/// What is left of the send end of a ring of orders once it is finished.
#[derive(Drop)]
pub struct ControlEnded {
    pub(crate) finished: Finished<Order>,
}

impl Model for ControlEnded {
    ghost use Rattle.rtrb.specs.Ring.{all_sent};
    ghost use Rattle.channel_ring.specs.Names.{name_of};
    ghost use Rattle.channel_ring.specs.Orders.{EndedState};

    ghost Value = { EndedState };

    ghost view = { λ e. record { sent = all_sent e.finished; ring = name_of e.finished.end } };
}
