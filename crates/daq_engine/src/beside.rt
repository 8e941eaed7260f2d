//! Samplers beside the transmitter of their rings, in one thread: looks, and a pump step.
ghost use Rattle.std.specs.Prelude.{◌≡◌, ◌≢◌, ℕ, ◌<◌, ◌++◌, OnOk, length, slice_get};
ghost use Rattle.transmitter.specs.Looks.{KnowsAll, Looked, LookedAt};
ghost use Rattle.transmitter.specs.Merge.{of_ring};
ghost use Rattle.transmitter.specs.Written.{next_of, transmission};
ghost use Rattle.daq_engine.specs.PumpSteps.{IsPumpStep};
ghost use Rattle.daq_engine.specs.Samplers.{AllOnlyLooked, AreBeside, AreRoomy, IsRoomyAt};
ghost use Rattle.daq_engine.specs.Samplers.{sent_of_each};

use channel_ring::{Beside, ItemTake, RingEnd, SendEnd, TakeEnd};
use frame_writer::Out;
use sampler::Sampler;
use transmitter::{PumpFault, Pumped, Transmitter};

/// Looks at all that was sent to ring `c`.
///
/// From then on each item left is known there, and each unit to be free that no item takes up.
pub(crate) fn look_at<O: Out, T: Beside + ItemTake>(
    samplers: &mut Vec<Sampler<T::Send>>,
    transmitter: &mut Transmitter<O, T>,
    c: usize,
)
    requires beside { AreBeside T.Send.SendEnd samplers.old.items
        (transmission O.Out T.TakeEnd transmitter.old) }
    requires place { c < length samplers.old.items }
    ensures samplers { AllOnlyLooked T.Send.SendEnd T.Send.End.RingEnd
        samplers.old.items samplers.new.items }
    ensures others_stay { (e : ℕ) → e ≢ c
        → slice_get samplers.new.items e ≡ slice_get samplers.old.items e }
    ensures looked { LookedAt c (transmission O.Out T.TakeEnd transmitter.old)
        (transmission O.Out T.TakeEnd transmitter.new) }
    ensures left { of_ring (transmission O.Out T.TakeEnd transmitter.new).received c
        ++ of_ring (transmission O.Out T.TakeEnd transmitter.new).known c
        ≡ of_ring (sent_of_each T.Send.SendEnd samplers.old.items) c }
    ensures roomy { IsRoomyAt T.Send.SendEnd T.Send.End.RingEnd samplers.new.items
        (transmission O.Out T.TakeEnd transmitter.new) c }
    ensures next_stays { next_of transmitter.new ≡ next_of transmitter.old }
{
    let sampler = &mut samplers[c];
    transmitter.beside(sampler);
}

/// Looks at all that was sent to each ring.
///
/// From then on each item left is known, and each unit to be free that no item takes up.
pub(crate) fn look<O: Out, T: Beside + ItemTake>(
    samplers: &mut Vec<Sampler<T::Send>>,
    transmitter: &mut Transmitter<O, T>,
)
    requires beside { AreBeside T.Send.SendEnd samplers.old.items
        (transmission O.Out T.TakeEnd transmitter.old) }
    ensures samplers { AllOnlyLooked T.Send.SendEnd T.Send.End.RingEnd
        samplers.old.items samplers.new.items }
    ensures looked { Looked (transmission O.Out T.TakeEnd transmitter.old)
        (transmission O.Out T.TakeEnd transmitter.new) }
    ensures left { KnowsAll (sent_of_each T.Send.SendEnd samplers.old.items)
        (transmission O.Out T.TakeEnd transmitter.new) }
    ensures as_many { length (transmission O.Out T.TakeEnd transmitter.new).known
        ≡ length samplers.old.items }
    ensures roomy { AreRoomy T.Send.SendEnd T.Send.End.RingEnd samplers.new.items
        (transmission O.Out T.TakeEnd transmitter.new) }
    ensures next_stays { next_of transmitter.new ≡ next_of transmitter.old }
{
    for c in 0..samplers.len() {
        look_at(samplers, transmitter, c);
    }
}

/// Looks at all that was sent, pumps, and looks again, whatever the pump answered.
///
/// From then on each item left is known, and each unit to be free that no item takes up.
pub(crate) fn pump_step<O: Out, T: Beside + ItemTake>(
    samplers: &mut Vec<Sampler<T::Send>>,
    transmitter: &mut Transmitter<O, T>,
) -> Result<Pumped, PumpFault>
    requires beside { AreBeside T.Send.SendEnd samplers.old.items
        (transmission O.Out T.TakeEnd transmitter.old) }
    ensures samplers { AllOnlyLooked T.Send.SendEnd T.Send.End.RingEnd
        samplers.old.items samplers.new.items }
    ensures rings_stay { (transmission O.Out T.TakeEnd transmitter.new).rings
        ≡ (transmission O.Out T.TakeEnd transmitter.old).rings }
    ensures pumps { IsPumpStep (length samplers.old.items)
        (of_ring (sent_of_each T.Send.SendEnd samplers.old.items))
        (transmission O.Out T.TakeEnd transmitter.old)
        (transmission O.Out T.TakeEnd transmitter.new) result }
    ensures roomy { AreRoomy T.Send.SendEnd T.Send.End.RingEnd samplers.new.items
        (transmission O.Out T.TakeEnd transmitter.new) }
    ensures next { OnOk result (next_of transmitter.new ≡ 0) }
{
    // the pump is to find all that was sent
    look(samplers, transmitter);
    let answer = transmitter.pump();
    // for the proof: gives `roomy`, and that all that is left is known
    look(samplers, transmitter);
    answer
}
