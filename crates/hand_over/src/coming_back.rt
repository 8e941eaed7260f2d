//! The owner's end of a way back, at which what is left of one value arrives.
use crate::returns::{Return, Returns};
use crate::rule::Rule;
use rtrb::Consumer;
use std::alloc::Global;
use std::marker::Model;
use std::snapshot::Snapshot;

/// The end of a way back that stays where the value went from.
///
/// Contracts see the value as it went.
#[derive(Drop)]
pub struct ComingBack<T, L, R: Rule<T, L>> {
    pub(crate) consumer: Consumer<Return<T, L>, Global, Returns<R>>,
    pub(crate) went: Snapshot<T>,
}

impl<T, L, R: Rule<T, L>> Model for ComingBack<T, L, R> {
    ghost use Rattle.rtrb.specs.Ring.{received};
    ghost use Rattle.hand_over.specs.Ways.{HasGone};

    ghost Value = { T };

    ghost view = { λ c. c.went.value };

    ghost invariant = { λ c. HasGone c.went.value (received c.consumer) };
}

impl<T: Drop, L: Drop, R: Rule<T, L>> ComingBack<T, L, R> {
    ghost use Rattle.std.specs.Prelude.{◌≡◌, IfSome};

    /// What is left of the value, once the other end of the way was let go of. So it is this end
    /// that frees the way, and not the other one's thread. No clause says that what was given is
    /// there.
    pub fn take(&mut self) -> Option<L>
        ensures left { IfSome result (λ left. R.leaves self.old left) }
        ensures stays { self.new ≡ self.old }
    {
        if !self.consumer.is_abandoned() {
            return None;
        }
        let Ok(returned) = self.consumer.pop() else {
            return None;
        };
        match returned {
            Return::Left(left) => Some(left),
            Return::Went(_) => None,
        }
    }
}
