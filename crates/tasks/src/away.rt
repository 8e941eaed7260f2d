//! What the slave keeps of a sampler that is at its task: orders sent, and lists that run.
use crate::handed::Handed;
use crate::needs::places_for;
use crate::rule::Left;
use channel_ring::{ControlSend, Order, SendEnd};
use sampler::SamplerEnd;
use std::marker::Model;
use std::snapshot::Snapshot;
use xcp_base::{ListId, ListSet};

/// What the slave keeps of a sampler that was handed out: its end of the orders, the set of the DAQ
/// lists that run by those that were sent, and the sampler itself, if it was recalled.
#[derive(Drop)]
pub struct Away<S: SendEnd> {
    pub(crate) orders: ControlSend,
    pub(crate) went: Snapshot<Handed<S>>,
    pub(crate) running: ListSet,
    pub(crate) ended: bool,
    pub(crate) out: bool,
    pub(crate) here: Option<Handed<S>>,
}

impl<S: SendEnd> Model for Away<S> {
    ghost use Rattle.std.specs.Prelude.{◌≡◌, ℕ, ◌+◌, ◌<◌, ◌≤◌, false, [], IfSome};
    ghost use Rattle.std.specs.Option.{is_some};
    ghost use Rattle.xcp_base.specs.declared.limits.TheConstants.{MAX_LISTS};
    ghost use Rattle.xcp_base.specs.Lists.{has_list};
    ghost use Rattle.sampler.specs.State.{runs_in};
    ghost use Rattle.xcp_base.specs.Counts.{how_many};
    ghost use Rattle.tasks.specs.Links.{AwayState, runs_by};

    ghost Value = { AwayState S };

    ghost view = { λ a. record {
      sampler = a.went.value.sampler;
      went = a.went.value.orders;
      orders = a.orders.sent;
      free = a.orders.free;
      ended = a.ended;
      out = a.out;
      here = is_some a.here;
    } };

    ghost invariant = { λ a.
        (a.orders.ring ≡ a.went.value.orders.ring)
        × ((l : ℕ) → l < MAX_LISTS → has_list a.running l
        ≡ runs_by a.orders.sent (runs_in a.went.value.sampler l) l)
        × (a.ended ≡ false → 1 + how_many MAX_LISTS (has_list a.running) ≤ a.orders.free)
        × (a.went.value.orders.received ≡ [])
        × IfSome a.here (λ handed. (handed ≡ a.went.value) × (a.out ≡ false)) };
}

impl<S: SendEnd> Away<S> {
    ghost use Rattle.std.specs.Prelude.{◌≡◌, ℕ, ◌<◌, ◌&&◌, Bool, true, false, not};
    ghost use Rattle.std.specs.Prelude.{Err, IfSome, IsNone};
    ghost use Rattle.tasks.specs.declared.lost.Lost.{Lost};
    ghost use Rattle.xcp_base.specs.declared.limits.TheConstants.{MAX_LISTS};
    ghost use Rattle.xcp_base.specs.Lists.{has_list};
    ghost use Rattle.tasks.specs.Inner.{IsFinishedOf, IsTakenOf};
    ghost use Rattle.tasks.specs.Links.{HasPlacesFor, LooksAtOrders, SendsOrder};
    ghost use Rattle.tasks.specs.Links.{runs_of, without};
    ghost use Rattle.tasks.specs.Ways.{LeavesBy};
    ghost use Rattle.channel_ring.specs.declared.order.Order.TheVariants.{Start, Stop, End};

    /// Whether it takes orders.
    pub fn takes_orders(&self) -> bool
        ensures { result ≡ not self.now.ended }
    {
        !self.ended
    }

    /// The set of the lists that run by the orders that were sent; none, if it takes no orders.
    pub fn running(&self) -> ListSet
        ensures { (l : ℕ) → l < MAX_LISTS
            → has_list result l ≡ (not self.now.ended && runs_of self.now l) }
    {
        if self.ended {
            ListSet::none()
        } else {
            self.running
        }
    }

    /// Looks at the ring of orders, and returns whether starts of these lists find places.
    pub fn can_start(&mut self, lists: ListSet) -> bool
        ensures yes { result ≡ true → HasPlacesFor self.new (has_list lists) }
        ensures no { result ≡ false → ¬ HasPlacesFor self.new (has_list lists) }
        ensures looked { LooksAtOrders self.old self.new }
        ensures rest_stays { self.new ≡ record self.old { free = self.new.free } }
    {
        if self.ended {
            return false;
        }
        let needed = places_for(self.running, lists);
        needed <= self.orders.room()
    }

    /// Sends the start of a list that was checked.
    pub fn start(&mut self, l: ListId)
        requires checked { (lists : ℕ → Bool) × (lists l ≡ true) × HasPlacesFor self.old lists }
        ensures sends { SendsOrder self.old self.new (Start l) }
        ensures others { (lists : ℕ → Bool) → lists l ≡ true → HasPlacesFor self.old lists
            → HasPlacesFor self.new (without l lists) }
    {
        self.orders.send_reserved(Order::Start(l.byte()));
        self.running = self.running.with_list(l);
    }

    /// Sends the stop of a list that runs.
    pub fn stop(&mut self, l: ListId)
        requires takes_orders { self.old.ended ≡ false }
        requires runs { runs_of self.old l ≡ true }
        ensures sends { SendsOrder self.old self.new (Stop l) }
    {
        self.orders.send_reserved(Order::Stop(l.byte()));
        self.running = self.running.without_list(l);
    }

    /// Sends an order to end.
    pub fn end(&mut self)
        requires takes_orders { self.old.ended ≡ false }
        ensures sends { SendsOrder self.old self.new End }
    {
        self.orders.send_reserved(Order::End);
        self.ended = true;
    }

    /// Ends without an order.
    pub fn end_unordered(&mut self)
        ensures { self.new ≡ record self.old { ended = true } }
    {
        self.ended = true;
    }

    /// Whether it is out.
    pub fn is_out(&self) -> bool
        ensures { result ≡ self.now.out }
    {
        self.out
    }

    /// The sampler was recalled, and is here.
    pub fn recall(&mut self, handed: Handed<S>)
        requires { handed ≡ record { sampler = self.old.sampler; orders = self.old.went } }
        ensures { self.new ≡ record self.old { out = false; here = true } }
    {
        self.out = false;
        self.here = Some(handed);
    }

    /// The sampler came back over the line.
    pub fn arrive(&mut self)
        ensures { self.new ≡ record self.old { out = false } }
    {
        self.out = false;
    }

    /// Finishes the sampler, if it was recalled: what is left of it.
    pub fn finish(&mut self) -> Option<Left<S>>
        ensures some { IfSome result (IsFinishedOf S.SendEnd S.End.RingEnd self.old) }
        ensures none { IsNone result → self.old.here ≡ false }
        ensures gone { self.new ≡ record self.old { here = false } }
    {
        let handed = self.here.take()?;
        Some(handed.finish())
    }

    /// The end of the sampler in what is left of it, unless it was lost, and how many orders were
    /// left to be carried out.
    pub fn take(&mut self, left: Left<S>) -> Option<(SamplerEnd<S::End>, usize)>
        requires { LeavesBy S.SendEnd S.End.RingEnd self.old.sampler self.old.went left }
        ensures back { IfSome result (IsTakenOf S.SendEnd S.End.RingEnd self.old left) }
        ensures lost { IsNone result → (lost : Lost) × (left.0 ≡ Err lost) }
        ensures looked { LooksAtOrders self.old self.new }
        ensures stays { self.new ≡ record self.old { free = self.new.free } }
    {
        let (end, mut orders) = left;
        let rest = orders.beside(&mut self.orders);
        let Ok(end) = end else {
            return None;
        };
        Some((end, rest))
    }
}
