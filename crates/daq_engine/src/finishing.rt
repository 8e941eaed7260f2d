//! From samplers to their ends, and from these to the account.
ghost use Rattle.std.specs.Prelude.{◌≡◌, ◌↔◌, ◌≤◌, map, vec_capacity, vec_len};
ghost use Rattle.std.specs.Prelude.{IfErr, IfOk, IfSome, IsNone, OnOk};
ghost use Rattle.xcp_base.specs.declared.limits.TheConstants.{MAX_LISTS};
ghost use Rattle.frame_writer.specs.Shown.{shown};
ghost use Rattle.sampler.specs.State.{joined, sent_by};
ghost use Rattle.transmitter.specs.Looks.{AreOfRings};
ghost use Rattle.transmitter.specs.Pumps.{TakesMore};
ghost use Rattle.transmitter.specs.Written.{transmission};
ghost use Rattle.daq_engine.specs.Closed.{ClosesWith, WasDrained};
ghost use Rattle.daq_engine.specs.Headline.{AreEndsOf};
ghost use Rattle.daq_engine.specs.Samplers.{AreFinished, SomeIsLost};

use crate::closing::{account, room_for};
use crate::faults::CloseFault;
use crate::laws::drained_engines_leave_nothing;
use crate::report::{ListReport, Report};
use channel_ring::{ItemTake, RingEnd, SendEnd, TakeEnd};
use frame_writer::Out;
use sampler::{Sampler, SamplerEnd};
use std::alloc::Global;
use transmitter::Transmitter;

/// What is left of some samplers, which are all finished, in their order and in the room that was
/// made for it.
///
/// `None` only if the `finish` of a ring returns it.
pub fn finish_all<S: SendEnd>(
    samplers: Vec<Sampler<S>>,
    room: Vec<SamplerEnd<S::End>>,
) -> Option<Vec<SamplerEnd<S::End>>>
    requires empty { vec_len room ≡ 0 }
    requires enough { vec_len samplers ≤ vec_capacity room }
    ensures finishes { IfSome result (λ ends.
        AreFinished S.SendEnd S.End.RingEnd samplers.items ends.items) }
    ensures none { IsNone result → SomeIsLost S.SendEnd samplers.items }
{
    let mut ends = room;
    for sampler in samplers {
        let end = sampler.finish()?;
        ends.push_reserved(end);
    }
    Some(ends)
}

/// Drains the rings, where that is wanted. A fault of the drain stands in the transmitter.
fn drain_if<O: Out, T: ItemTake>(
    transmitter: &mut Transmitter<O, T>,
    ends: &mut Vec<SamplerEnd<T::End>>,
    drain: bool,
)
    requires one_ring { AreOfRings T.End.RingEnd (transmission O.Out T.TakeEnd transmitter.old)
        ends.old.items }
    ensures drained { WasDrained drain (sent_by (map (joined T.End.RingEnd) ends.old.items))
        (transmission O.Out T.TakeEnd transmitter.old)
        (transmission O.Out T.TakeEnd transmitter.new) }
    ensures more { TakesMore (transmission O.Out T.TakeEnd transmitter.old)
        (transmission O.Out T.TakeEnd transmitter.new) }
    ensures one_ring { AreOfRings T.End.RingEnd (transmission O.Out T.TakeEnd transmitter.new)
        ends.new.items }
    ensures ends_stay { map (joined T.End.RingEnd) ends.new.items
        ≡ map (joined T.End.RingEnd) ends.old.items }
{
    if drain {
        let _ = transmitter.drain(ends.as_mut_slice());
    }
}

/// The report of an engine, in the room that was made for its lines, and the writer, after a drain
/// where that is wanted.
pub fn account_after<O: Out, T: ItemTake>(
    room: Vec<ListReport>,
    mut transmitter: Transmitter<O, T>,
    mut ends: Vec<SamplerEnd<T::End>>,
    drain: bool,
) -> (Report, O)
    requires empty { vec_len room ≡ 0 }
    requires enough { MAX_LISTS ≤ vec_capacity room }
    requires one_ring { AreOfRings T.End.RingEnd (transmission O.Out T.TakeEnd transmitter)
        ends.items }
    ensures { ClosesWith drain (transmission O.Out T.TakeEnd transmitter)
        (map (joined T.End.RingEnd) ends.items) result.0 (shown O.Out result.1) }
{
    // for the proof: after a drain that answers Ok nothing is left
    drained_engines_leave_nothing();
    drain_if(&mut transmitter, &mut ends, drain);
    account(room, transmitter, ends)
}

/// Closes an engine whose samplers were finished, as `close` does, after a drain of its rings where
/// that is wanted.
///
/// A fault of the drain doesn't keep the engine from being closed: the report says that the writer
/// failed. Refused as `close` is, before anything is drained; each refusal hands all back, as it
/// was.
pub fn drain_and_close<O: Out, T: ItemTake>(
    alloc: Global,
    transmitter: Transmitter<O, T>,
    ends: Vec<SamplerEnd<T::End>>,
    drain: bool,
) -> Result<(Report, O), (CloseFault, Transmitter<O, T>, Vec<SamplerEnd<T::End>>)>
    requires one_ring { AreEndsOf (transmission O.Out T.TakeEnd transmitter) ends.items
        → AreOfRings T.End.RingEnd (transmission O.Out T.TakeEnd transmitter) ends.items }

    ensures closed { IfOk result (λ r. ClosesWith drain (transmission O.Out T.TakeEnd transmitter)
        (map (joined T.End.RingEnd) ends.items) r.0 (shown O.Out r.1)) }
    ensures fit { OnOk result (AreEndsOf (transmission O.Out T.TakeEnd transmitter) ends.items) }

    ensures wrong_ends { IfErr result (λ back. (back.0 ≡ CloseFault.WrongEnds)
        ↔ ¬ (AreEndsOf (transmission O.Out T.TakeEnd transmitter) ends.items)) }
    ensures memory { IfErr result (λ back. back.0 ≡ CloseFault.Memory
        → AreEndsOf (transmission O.Out T.TakeEnd transmitter) ends.items) }
    ensures back { IfErr result (λ back. (back.1 ≡ transmitter) × (back.2 ≡ ends)) }
{
    match room_for(alloc, &transmitter, &ends) {
        Ok(room) => Ok(account_after(room, transmitter, ends, drain)),
        Err(fault) => Err((fault, transmitter, ends)),
    }
}
