//! The task of an event channel: it carries out the slave's orders, then takes a trigger.
use crate::handed::Handed;
use crate::rule::TaskLine;
use crate::task_end::TaskEnd;
use channel_ring::{Order, SendEnd};
use sampler::{MemoryFault, Polled, Taken};
use std::marker::Model;

/// The sampling task of one event channel. It takes and frees no memory.
#[derive(Drop)]
pub struct Task<S: SendEnd> {
    pub(crate) line: TaskLine<S>,
    pub(crate) held: Option<Handed<S>>,
}

impl<S: SendEnd> Model for Task<S> {
    ghost use Rattle.std.specs.Prelude.{map};
    ghost use Rattle.tasks.specs.Inner.{HoldsLast};
    ghost use Rattle.tasks.specs.Tasks.{TaskState};
    ghost use Rattle.tasks.specs.Ways.{left_of};

    ghost Value = { TaskState S };

    ghost view = { λ t. record {
      ring = t.line.ring;
      came = t.line.fetched;
      gave = map (left_of S.End.RingEnd) t.line.gave;
      held = t.held;
    } };

    ghost invariant = { λ t.
        HoldsLast S.SendEnd S.End.RingEnd t.line.fetched t.line.gave t.held };
}

ghost use Rattle.std.specs.Prelude.{◌≡◌, [], ◌∷◌, IfSome, IsNone, None, Some, true, false};
ghost use Rattle.segments.specs.Memory.{parts};
ghost use Rattle.sampler.specs.Control.{answered};
ghost use Rattle.tasks.specs.Inner.{ObeysAs};
ghost use Rattle.tasks.specs.Tasks.{FinishesAs, GivesBackHeld, Looks, ObeysHeld, Rests, Steps};
ghost use Rattle.tasks.specs.Tasks.{TakesTurn, TriggersHeld};

/// The most that a look does.
const MOST_STEPS: usize = 256;

/// Nothing is due if there is no measurement.
const NONE_DUE: Taken = Taken {
    due: 0,
    accepted: 0,
    dropped: 0,
};

/// Takes off the next order of what is held.
fn obey_held<S: SendEnd>(held: &mut Option<Handed<S>>) -> Polled
    ensures { ObeysHeld S.SendEnd S.End.RingEnd held.old held.new result }
{
    match held {
        Some(held) => held.obey(),
        None => Polled::Nothing,
    }
}

/// The order that a look took off, if it did.
fn order_in(polled: Polled) -> Option<Order>
    ensures some { IfSome result (λ o. answered polled ≡ o ∷ []) }
    ensures none { IsNone result → answered polled ≡ [] }
{
    match polled {
        Polled::Nothing => None,
        Polled::Waiting(_) => None,
        Polled::Done(order) => Some(order),
        Polled::Refused(order) => Some(order),
    }
}

/// Takes a trigger with what is held.
fn trigger_held<S: SendEnd>(
    held: &mut Option<Handed<S>>,
    memory: &[&[u8]],
    stamp: u32,
) -> Result<Taken, MemoryFault>
    ensures { TriggersHeld S.SendEnd S.End.RingEnd NONE_DUE held.old held.new (parts memory.now)
        stamp result }
{
    match held {
        Some(held) => held.trigger(memory, stamp),
        None => Ok(NONE_DUE),
    }
}

impl<S: SendEnd> Task<S> {
    /// Takes the next sampler that was handed out, if one is there.
    ///
    /// It stands out of line, as does all that a look seldom finds: a trigger then makes no room
    /// for it on the stack.
    #[inline(never)]
    fn receive(&mut self) -> bool
        requires none { self.old.held ≡ None }
        ensures some { result ≡ true → Steps S.SendEnd S.End.RingEnd self.old self.new }
        ensures none { result ≡ false → Rests S.SendEnd S.End.RingEnd self.old self.new }
        ensures ring_stays { self.new.ring ≡ self.old.ring }
    {
        let Some(handed) = self.line.fetch() else {
            return false;
        };
        self.held = Some(handed);
        true
    }

    /// Gives back what is left of what is held, if anything is.
    #[inline(never)]
    fn give_back(&mut self)
        ensures { GivesBackHeld S.SendEnd S.End.RingEnd self.old self.new }
    {
        if let Some(held) = self.held.take() {
            self.line.give(held.finish());
        }
    }

    /// Carries out the next order of what is held, if there is one.
    fn obey(&mut self) -> Option<Order>
        ensures obeys { ObeysAs S.SendEnd S.End.RingEnd self.old self.new result }
        ensures ring_stays { self.new.ring ≡ self.old.ring }
    {
        order_in(obey_held(&mut self.held))
    }

    /// Does the next that the slave ordered, if anything is there.
    fn step(&mut self) -> bool
        ensures some { result ≡ true → Steps S.SendEnd S.End.RingEnd self.old self.new }
        ensures none { result ≡ false → Rests S.SendEnd S.End.RingEnd self.old self.new }
        ensures ring_stays { self.new.ring ≡ self.old.ring }
    {
        if self.held.is_none() {
            return self.receive();
        }
        match self.obey() {
            None => false,
            Some(Order::End) => {
                self.give_back();
                true
            }
            Some(Order::Start(_)) => true,
            Some(Order::Stop(_)) => true,
        }
    }

    /// Does all that the slave ordered, in its order.
    fn look(&mut self)
        ensures looks { Looks S.SendEnd S.End.RingEnd MOST_STEPS self.old self.new }
        ensures ring_stays { self.new.ring ≡ self.old.ring }
    {
        let mut done = 0;
        while done < MOST_STEPS {
            if !self.step() {
                return;
            }
            done += 1;
        }
    }

    /// Does all that the slave ordered, in its order, and then takes a trigger, with memory as it
    /// is and a timestamp in ticks, as `Sampler::trigger_over` does. `memory` has a slice for each
    /// segment, in their order; of a segment that the event channel may not read nothing is looked
    /// at, and its slice may be empty. If there is no measurement nothing is due.
    pub fn trigger(&mut self, memory: &[&[u8]], stamp: u32) -> Result<Taken, MemoryFault>
        ensures { TakesTurn S.SendEnd S.End.RingEnd MOST_STEPS NONE_DUE
            self.old self.new (parts memory.now) stamp result }
    {
        self.look();
        trigger_held(&mut self.held, memory, stamp)
    }

    /// Finishes the task, and gives back what is left of what it holds. The answer is for the
    /// slave's thread.
    pub fn finish(mut self) -> TaskEnd<S>
        ensures { FinishesAs S.SendEnd S.End.RingEnd self result }
    {
        self.give_back();
        let Task { line, held: _ } = self;
        TaskEnd { line }
    }
}
