//! What a task holds: a sampler, and the orders that it carries out on it.
use crate::lost;
use crate::rule::Left;
use channel_ring::{ControlTake, SendEnd};
use sampler::{MemoryFault, Polled, Sampler, Taken};
use std::marker::Model;

/// A sampler that is handed out, with the task's end of its orders.
#[derive(Drop)]
pub struct Handed<S: SendEnd> {
    pub(crate) sampler: Sampler<S>,
    pub(crate) orders: ControlTake,
}

impl<S: SendEnd> Model for Handed<S> {
    ghost use Rattle.tasks.specs.Tasks.{HeldState};

    ghost Value = { HeldState S };

    ghost view = { λ h. record { sampler = h.sampler; orders = h.orders } };
}

impl<S: SendEnd> Handed<S> {
    ghost use Rattle.std.specs.Prelude.{◌≡◌, IfOk, IsErr};
    ghost use Rattle.segments.specs.Memory.{parts};
    ghost use Rattle.tasks.specs.Tasks.{ObeysNext, TriggersSampler};
    ghost use Rattle.tasks.specs.Ways.{IsLeftOf};

    /// The sampler, which is handed out no more.
    pub fn into_sampler(self) -> Sampler<S>
        ensures { result ≡ self.sampler }
    {
        let Handed { sampler, orders: _ } = self;
        sampler
    }

    /// Takes the next order off, and carries it out.
    pub fn obey(&mut self) -> Polled
        ensures { ObeysNext S.SendEnd S.End.RingEnd self.old.sampler self.new.sampler
            self.old.orders self.new.orders result }
    {
        let Some(_) = self.orders.front() else {
            return Polled::Nothing;
        };
        self.obey_first()
    }

    /// The same where an order is there. It stands out of line, since a look seldom finds one.
    #[inline(never)]
    fn obey_first(&mut self) -> Polled
        ensures { ObeysNext S.SendEnd S.End.RingEnd self.old.sampler self.new.sampler
            self.old.orders self.new.orders result }
    {
        self.sampler.poll_control(&mut self.orders)
    }

    /// Takes a trigger.
    pub fn trigger(&mut self, memory: &[&[u8]], stamp: u32) -> Result<Taken, MemoryFault>
        ensures takes { TriggersSampler S.SendEnd S.End.RingEnd
            self.old.sampler self.new.sampler (parts memory.now) stamp result }
        ensures orders_stay { self.new.orders ≡ self.old.orders }
    {
        self.sampler.trigger_over(memory, stamp)
    }

    /// Finishes the sampler: what is left of it.
    pub fn finish(self) -> Left<S>
        ensures left { IfOk result.0 (IsLeftOf S.SendEnd S.End.RingEnd self.sampler) }
        ensures lost { IsErr result.0 → S.is_lost self.sampler.end }
        ensures orders { result.1 ≡ self.orders }
    {
        let Handed { sampler, orders } = self;
        (lost::finish(sampler), orders)
    }
}
