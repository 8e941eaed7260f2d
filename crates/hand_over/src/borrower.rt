//! The other thread's end of a line: it fetches values, and gives back what is left of them.
use crate::known::{Fetched, InTurn, Known, Shown};
use crate::parcel::{Backs, Parcel};
use crate::rule::Rule;
use crossbeam_queue::{Pass, RuledArrayQueue};
use rtrb::Producer;
use std::alloc::Global;
use std::marker::Model;
use std::sync::Arc;

/// The end of a line at which values are fetched, one behind another, and what is left of each is
/// given back. It never waits for the other end, and takes and frees no memory.
#[derive(Drop)]
pub struct Borrower<T, L, R: Rule<T, L>> {
    pub(crate) place: Arc<RuledArrayQueue<T, Known<T>, InTurn>>,
    pub(crate) pass: Pass<T, Known<T>>,
    pub(crate) giving: Producer<Parcel<T, L>, Global, Backs<R>>,
}

impl<T, L, R: Rule<T, L>> Model for Borrower<T, L, R> {
    ghost use Rattle.std.specs.Arc.{arc_value};
    ghost use Rattle.rtrb.specs.Ring.{known_free, sent};
    ghost use Rattle.crossbeam_queue.specs.Passes.{IsPassOf, view as seen};
    ghost use Rattle.channel_ring.specs.Names.{name_of};
    ghost use Rattle.hand_over.specs.Lines.{BorrowerState, lefts};
    ghost use Rattle.hand_over.specs.Inner.{IsBorrower};

    ghost Value = { BorrowerState T L };

    ghost view = { λ b. record {
      ring = name_of b.giving.end;
      fetched = (seen b.pass).fetched;
      gave = lefts (sent b.giving);
    } };

    ghost invariant = { λ b. IsPassOf (arc_value b.place) b.pass
        × IsBorrower b.pass (sent b.giving) (known_free b.giving) };
}

impl<T: Drop, L: Drop, R: Rule<T, L>> Borrower<T, L, R> {
    ghost use Rattle.std.specs.Prelude.{◌≡◌, [], ◌∷◌, ◌++◌, length, IfSome, IsNone};
    ghost use Rattle.hand_over.specs.Lines.{MayGive};

    /// Fetches the value that lies in the place. It may find none, if the other end was in the way.
    ///
    /// What is left of the one before was given back.
    pub fn fetch(&mut self) -> Option<T>
        requires none_held { length self.old.fetched ≡ length self.old.gave }
        ensures some { IfSome result (λ value.
            self.new ≡ record self.old { fetched = self.old.fetched ++ value ∷ [] }) }
        ensures none { IsNone result → self.new ≡ self.old }
    {
        // so many are never on their way back that there is no room for one more
        if self.giving.is_full() {
            return None;
        }
        self.place.try_pop_as::<Fetched>(&mut self.pass)
    }

    /// Gives back what is left of the value that was fetched last.
    pub fn give(&mut self, left: L)
        requires { MayGive R.leaves self.old left }
        ensures { self.new ≡ record self.old { gave = self.old.gave ++ left ∷ [] } }
    {
        let shown = self.place.another::<Shown>(&mut self.pass);
        self.giving.push_reserved(Parcel::Back(left, shown));
    }
}
