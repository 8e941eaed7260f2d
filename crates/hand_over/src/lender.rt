//! The owner's end of a line: it lends values, recalls them, and takes what is left of them.
use crate::borrower::Borrower;
use crate::known::{InTurn, Known, Lent, Recalled, Shown};
use crate::parcel::{Backs, Parcel};
use crate::rule::Rule;
use crossbeam_queue::{Pass, RuledArrayQueue};
use rtrb::Consumer;
use std::alloc::Global;
use std::marker::Model;
use std::sync::Arc;

/// The end of a line at which values are lent, one behind another, and to which what is left of
/// each comes back. It never waits for the other end.
#[derive(Drop)]
pub struct Lender<T, L, R: Rule<T, L>> {
    pub(crate) place: Arc<RuledArrayQueue<T, Known<T>, InTurn>>,
    pub(crate) pass: Pass<T, Known<T>>,
    pub(crate) coming: Consumer<Parcel<T, L>, Global, Backs<R>>,
}

impl<T, L, R: Rule<T, L>> Model for Lender<T, L, R> {
    ghost use Rattle.std.specs.Prelude.{◌≡◌, drop, length};
    ghost use Rattle.std.specs.Arc.{arc_value};
    ghost use Rattle.rtrb.specs.Ring.{known_items, received};
    ghost use Rattle.crossbeam_queue.specs.Passes.{IsPassOf, ruled_capacity, view as seen};
    ghost use Rattle.channel_ring.specs.Names.{name_of};
    ghost use Rattle.hand_over.specs.Lines.{LenderState, lefts};
    ghost use Rattle.hand_over.specs.Inner.{IsLender};

    ghost Value = { LenderState T L };

    ghost view = { λ l. record {
      ring = name_of l.coming.end;
      out = drop (length (lefts (received l.coming))) (seen l.pass).lent;
      came = lefts (received l.coming);
      coming = lefts (known_items l.coming);
    } };

    ghost invariant = { λ l. IsPassOf (arc_value l.place) l.pass
        × (ruled_capacity (arc_value l.place) ≡ 1)
        × IsLender l.pass (received l.coming) };
}

impl<T: Drop, L: Drop, R: Rule<T, L>> Lender<T, L, R> {
    ghost use Rattle.std.specs.Prelude.{◌≡◌, ◌<◌, [], ◌∷◌, ◌++◌, drop, length};
    ghost use mathlib.Core.List.{IsPrefix};
    ghost use Rattle.std.specs.Prelude.{IfErr, IfSome, IsNone, IsSome, OnErr, OnOk};
    ghost use Rattle.hand_over.specs.Lines.{ComesBack};

    /// Lends a value, or hands it back, if one lies in the place or the other end was in the way.
    /// It takes no memory.
    pub fn lend(&mut self, value: T) -> Result<(), T>
        ensures ok { OnOk result (self.new ≡ record self.old { out = self.old.out ++ value ∷ [] }) }
        ensures back { IfErr result (λ returned. returned ≡ value) }
        ensures err { OnErr result (self.new ≡ self.old) }
    {
        self.place.try_push_as::<Lent>(&mut self.pass, value)
    }

    /// Takes the value that was lent last back out of the place, if it lies there yet. It may find
    /// none, if the other end was in the way. It frees no memory.
    pub fn recall(&mut self) -> Option<T>
        ensures last { IfSome result (λ value. self.old.out ≡ self.new.out ++ value ∷ []) }
        ensures rest_stays { self.new ≡ record self.old { out = self.new.out } }
        ensures none { IsNone result → self.new ≡ self.old }
    {
        self.place.try_pop_as::<Recalled>(&mut self.pass)
    }

    /// What is left of the oldest value that is out, if it came back.
    pub fn take(&mut self) -> Option<L>
        ensures gives { 0 < length self.old.coming → IsSome result }
        ensures some { IfSome result (λ left. ComesBack R.leaves self.old self.new left) }
        ensures none { IsNone result → self.new ≡ self.old }
    {
        let Ok(parcel) = self.coming.pop() else {
            return None;
        };
        let Parcel::Back(left, shown) = parcel else {
            unreachable!()
        };
        self.place.absorb::<Shown>(&mut self.pass, shown);
        // for the proof: what was fetched is the first of what was lent
        self.place.learn_as::<Shown>(&mut self.pass);
        Some(left)
    }

    /// Looks at all that was given back through the other end, which is beside. From then on each
    /// of it is known to come. What was fetched, and of which nothing came back, is the first of
    /// what is out.
    pub fn beside(&mut self, borrower: &mut Borrower<T, L, R>)
        requires one_line { borrower.old.ring ≡ self.old.ring }
        ensures all { self.new.came ++ self.new.coming ≡ borrower.old.gave }
        ensures fetched { IsPrefix (drop (length self.old.came) borrower.old.fetched) self.old.out }
        ensures rest_stays { self.new ≡ record self.old { coming = self.new.coming } }
        ensures borrower_stays { borrower.new ≡ borrower.old }
    {
        let _ = self.coming.slots_beside(&mut borrower.giving);
        // for the proof: what the other end fetched is the first of what was lent
        let before = self.place.another::<Shown>(&mut self.pass);
        let shown = self.place.another::<Shown>(&mut borrower.pass);
        self.place.absorb::<Shown>(&mut self.pass, shown);
        self.place.learn_as::<Shown>(&mut self.pass);
        self.place.absorb::<Shown>(&mut self.pass, before);
    }
}
