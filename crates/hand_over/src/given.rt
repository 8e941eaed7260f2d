//! A way back that was used: it shows that what is left of its value was given back.
use crate::returns::{Return, Returns};
use crate::rule::Rule;
use rtrb::Producer;
use std::alloc::Global;
use std::marker::Model;
use std::snapshot::Snapshot;

/// A way back on which what is left of a value was given back. There is none but of
/// `WayBack::give`: so a call that has one has given it.
#[derive(Drop)]
pub struct Given<T, L, R: Rule<T, L>> {
    pub(crate) producer: Producer<Return<T, L>, Global, Returns<R>>,
    pub(crate) went: Snapshot<T>,
    pub(crate) left: Snapshot<L>,
}

impl<T, L, R: Rule<T, L>> Model for Given<T, L, R> {
    ghost use Rattle.rtrb.specs.Ring.{sent};
    ghost use Rattle.hand_over.specs.Ways.{GivenState, HasGiven};

    ghost Value = { GivenState T L };

    ghost view = { λ g. record { went = g.went.value; left = g.left.value } };

    ghost invariant = { λ g.
        HasGiven (record { went = g.went.value; left = g.left.value }) (sent g.producer) };
}
