//! The other thread's end of a way back, which travels with its value.
use crate::given::Given;
use crate::returns::{Return, Returns};
use crate::rule::Rule;
use rtrb::Producer;
use std::alloc::Global;
use std::marker::Model;
use std::snapshot::Snapshot;

/// The end of a way back that goes with a value.
///
/// Contracts see the value as it went.
#[derive(Drop)]
pub struct WayBack<T, L, R: Rule<T, L>> {
    pub(crate) producer: Producer<Return<T, L>, Global, Returns<R>>,
    pub(crate) went: Snapshot<T>,
}

impl<T, L, R: Rule<T, L>> Model for WayBack<T, L, R> {
    ghost use Rattle.std.specs.Prelude.{◌<◌};
    ghost use Rattle.rtrb.specs.Ring.{known_free, sent};
    ghost use Rattle.hand_over.specs.Ways.{HasOnlyGone};

    ghost Value = { T };

    ghost view = { λ w. w.went.value };

    ghost invariant = { λ w.
        HasOnlyGone w.went.value (sent w.producer) × (0 < known_free w.producer) };
}

impl<T: Drop, L: Drop, R: Rule<T, L>> WayBack<T, L, R> {
    ghost use Rattle.std.specs.Prelude.{◌≡◌};

    /// Gives what is left of the value back. It takes no memory.
    pub fn give(self, left: L) -> Given<T, L, R>
        requires { R.leaves self left }
        ensures { result ≡ record { went = self; left = left } }
    {
        let WayBack { mut producer, went } = self;
        let kept = Snapshot::of(&left);
        producer.push_reserved(Return::Left(left));
        Given {
            producer,
            went,
            left: kept,
        }
    }
}
