//! Orders that come through a control ring.
ghost use Rattle.std.specs.Prelude.{◌≡◌, [], ◌∷◌, ◌++◌};
ghost use mathlib.Core.List.{IsPrefix};
ghost use Rattle.channel_ring.specs.declared.order.Order.TheVariants.{Start as ToStart};
ghost use Rattle.channel_ring.specs.declared.order.Order.TheVariants.{Stop as ToStop};
ghost use Rattle.sampler.specs.Control.{Polls, answered};
ghost use Rattle.sampler.specs.Stays.{KeepsSetUp};

use crate::faults::StopFault;
use crate::polled::Polled;
use crate::sampler::Sampler;
use channel_ring::{ControlTake, Order, SendEnd};

impl<S: SendEnd> Sampler<S> {
    /// Carries out the order at the front of a control ring, if one is there.
    ///
    /// A start or a stop that is refused is taken off too; but a stop whose marker finds no room
    /// stays at the front, and the orders behind it wait with it. An order to end is taken off, and
    /// told: the sampler does nothing then. It takes no memory.
    pub fn poll_control(&mut self, ctl: &mut ControlTake) -> Polled
        ensures polled { Polls S.SendEnd S.End.RingEnd self.old self.new ctl.old ctl.new result }
        ensures orders { ctl.new.received ≡ ctl.old.received ++ answered result }
        ensures set_up_stays { KeepsSetUp S.SendEnd self.old self.new }
        ensures control_ring_stays { ctl.new.ring ≡ ctl.old.ring }
    {
        match ctl.front() {
            None => Polled::Nothing,
            Some(Order::Start(l)) => self.start_ordered(ctl, l),
            Some(Order::Stop(l)) => self.stop_ordered(ctl, l),
            Some(Order::End) => {
                ctl.take();
                Polled::Done(Order::End)
            }
        }
    }

    /// Carries out the start at the front.
    #[inline(never)]
    fn start_ordered(&mut self, ctl: &mut ControlTake, l: u8) -> Polled
        requires front { IsPrefix (ToStart l ∷ []) ctl.old.known }
        ensures polled { Polls S.SendEnd S.End.RingEnd self.old self.new ctl.old ctl.new result }
        ensures orders { ctl.new.received ≡ ctl.old.received ++ answered result }
        ensures set_up_stays { KeepsSetUp S.SendEnd self.old self.new }
        ensures control_ring_stays { ctl.new.ring ≡ ctl.old.ring }
    {
        let started = self.start(l);
        ctl.take();
        match started {
            Ok(()) => Polled::Done(Order::Start(l)),
            Err(_) => Polled::Refused(Order::Start(l)),
        }
    }

    /// Carries out the stop at the front, unless its marker finds no room.
    #[inline(never)]
    fn stop_ordered(&mut self, ctl: &mut ControlTake, l: u8) -> Polled
        requires front { IsPrefix (ToStop l ∷ []) ctl.old.known }
        ensures polled { Polls S.SendEnd S.End.RingEnd self.old self.new ctl.old ctl.new result }
        ensures orders { ctl.new.received ≡ ctl.old.received ++ answered result }
        ensures set_up_stays { KeepsSetUp S.SendEnd self.old self.new }
        ensures control_ring_stays { ctl.new.ring ≡ ctl.old.ring }
    {
        let stopped = self.stop(l);
        if stopped == Err(StopFault::NoRoom) {
            return Polled::Waiting(Order::Stop(l));
        }
        ctl.take();
        match stopped {
            Ok(()) => Polled::Done(Order::Stop(l)),
            Err(_) => Polled::Refused(Order::Stop(l)),
        }
    }
}
