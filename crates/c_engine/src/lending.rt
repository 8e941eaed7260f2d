//! The samplers of an engine: handed out one by one, and collected once they are finished.
ghost use Rattle.std.specs.Prelude.{◌≡◌, ◌+◌, ◌<◌, ◌∷◌, IfSome, IsNone};
ghost use Rattle.std.specs.Prelude.{length, option_to_list, vec_capacity, vec_len};
ghost use Rattle.sampler.specs.State.{SamplerState};
ghost use Rattle.c_engine.specs.Ways.{IsEndOf};

use crate::lent::Lent;
use crate::rule::{EngineWay, Left};
use channel_ring::{SendEnd, TakeEnd};
use daq_engine::Ring;
use frame_writer::SinkOut;
use sampler::{Sampler, SamplerEnd};
use std::alloc::{AllocError, Global};
use std::marker::Model;
use std::snapshot::Snapshot;
use transmitter::Transmitter;

/// The samplers of an engine: those that weren't handed out yet, the ways back of those that were,
/// and what came back.
#[derive(Drop)]
pub struct Lending<R: Ring> {
    // in falling order of their event channels, so that the first one is popped
    pub(crate) samplers: Vec<Sampler<R::Send>>,
    pub(crate) ways: Vec<EngineWay<R::Send>>,
    pub(crate) ends: Vec<SamplerEnd<<R::Send as SendEnd>::End>>,
    // all of them, as they were at the opening
    pub(crate) began: Snapshot<Vec<Sampler<R::Send>>>,
}

impl<R: Ring> Model for Lending<R> {
    ghost use Rattle.std.specs.Prelude.{◌+◌, ◌≤◌, ◌++◌, reverse, vec_capacity, vec_len};
    ghost use Rattle.c_engine.specs.Lendings.{HaveComeOf, LendingState};

    ghost Value = { LendingState R.Send R.Send.End };

    ghost view = { λ l. record {
      began = l.began.value.items;
      out = l.ways.items;
      samplers = reverse l.samplers.items;
      ends = l.ends.items;
    } };

    ghost invariant = { λ l.
        (vec_len l.ways + vec_len l.samplers ≤ vec_capacity l.samplers)
        × (vec_len l.ways + vec_len l.samplers ≤ vec_capacity l.ways)
        × (vec_len l.ends + (vec_len l.ways + vec_len l.samplers) ≤ vec_capacity l.ends)
        × HaveComeOf R.Send.SendEnd R.Send.End.RingEnd l.began.value.items l.ends.items
        (l.ways.items ++ reverse l.samplers.items) };
}

impl<R: Ring> Lending<R> {
    ghost use mathlib.Core.List.{IsPrefix};
    ghost use Rattle.std.specs.Prelude.{◌≡◌, ◌<◌, [], IfOk, OnErr, false, length, true};
    ghost use Rattle.transmitter.specs.Looks.{KnowsNone, KnowsSome};
    ghost use Rattle.transmitter.specs.Sinks.{sink_transmitter};
    ghost use Rattle.transmitter.specs.Written.{writer_of};
    ghost use Rattle.c_engine.specs.Lendings.{AreBack, LooksAtEnds, rings_in};
    ghost use Rattle.c_engine.specs.Lendings.{LendingState as LendingOf};
    ghost use Rattle.c_engine.specs.Lends.{Lends, LendsNext};

    /// Of samplers that weren't handed out, with room for a way of each and what is left of it.
    pub fn over(
        mut samplers: Vec<Sampler<R::Send>>,
        ways: Vec<EngineWay<R::Send>>,
        ends: Vec<Left<R::Send>>,
    ) -> Lending<R>
        requires ways { (ways.items ≡ []) × (vec_len ways ≡ 0)
            × (vec_capacity ways ≡ vec_len samplers) }
        requires ends { (ends.items ≡ []) × (vec_len ends ≡ 0)
            × (vec_capacity ends ≡ vec_len samplers) }
        ensures { result ≡ record {
          began = samplers.items;
          out = [];
          samplers = samplers.items;
          ends = [];
        } }
    {
        let began = Snapshot::of(&samplers);
        samplers.as_mut_slice().reverse();
        Lending {
            samplers,
            ways,
            ends,
            began,
        }
    }

    /// Hands the first sampler out, where there is one.
    pub fn next(&mut self, alloc: Global) -> Result<Option<Lent<R>>, AllocError>
        ensures ok { IfOk result (LendsNext self.old self.new) }
        ensures err { OnErr result (self.new ≡ self.old) }
        ensures wanted { OnErr result (0 < length self.old.samplers) }
    {
        let Some(sampler) = self.samplers.pop() else {
            return Ok(None);
        };
        match Lent::going(alloc, sampler) {
            Ok((lent, coming)) => {
                self.ways.push_reserved(coming);
                Ok(Some(lent))
            }
            Err(sampler) => {
                self.samplers.push_reserved(sampler);
                Err(AllocError)
            }
        }
    }

    /// Takes the sampler back that was handed out last, as though it hadn't been.
    pub fn take_back(&mut self, lent: Lent<R>)
        requires { (before : LendingOf R.Send R.Send.End)
            × Lends before self.old lent }
        ensures { (before : LendingOf R.Send R.Send.End) →
            Lends before self.old lent → self.new ≡ before }
    {
        let _ = self.ways.pop();
        self.samplers.push_reserved(lent.into_sampler());
    }

    /// Collects what came back, and tells whether nothing is out any more. What came back before
    /// stays.
    pub fn collect(&mut self) -> bool
        ensures began { self.new.began ≡ self.old.began }
        ensures samplers { self.new.samplers ≡ self.old.samplers }
        ensures ends { IsPrefix self.old.ends self.new.ends }
        ensures all { result ≡ true → AreBack R.Send.SendEnd R.Send.End.RingEnd self.new }
    {
        while !self.ways.is_empty() {
            let Some(end) = first_end(&mut self.ways) else {
                return false;
            };
            self.ends.push_reserved(end);
        }
        self.samplers.is_empty()
    }

    /// Looks at all that was sent, once nothing is out any more, and tells whether something is
    /// left.
    pub fn look(&mut self, transmitter: &mut Transmitter<SinkOut, R::Take>) -> bool
        requires back { AreBack R.Send.SendEnd R.Send.End.RingEnd self.old }
        requires rings { rings_in R.Send.SendEnd self.old.began
            ≡ (sink_transmitter R.Take.TakeEnd transmitter.old).rings }
        ensures looks { LooksAtEnds R.Send.SendEnd R.Send.End.RingEnd
            (sink_transmitter R.Take.TakeEnd transmitter.old)
            (sink_transmitter R.Take.TakeEnd transmitter.new)
            self.old self.new }
        ensures writer_stays { writer_of transmitter.new ≡ writer_of transmitter.old }
        ensures some { result ≡ true → KnowsSome
            (sink_transmitter R.Take.TakeEnd transmitter.new) }
        ensures none { result ≡ false → KnowsNone
            (sink_transmitter R.Take.TakeEnd transmitter.new) }
    {
        transmitter.after(self.ends.as_mut_slice())
    }
}

/// What came back on the first of these ways, which then goes.
fn first_end<S: SendEnd>(ways: &mut Vec<EngineWay<S>>) -> Option<Left<S>>
    requires some { 0 < vec_len ways.old }
    ensures first { IfSome result (λ end. (sampler : SamplerState S)
        × (ways.old.items ≡ sampler ∷ ways.new.items)
        × IsEndOf S.SendEnd S.End.RingEnd sampler end) }
    ensures len { vec_len ways.new + length (option_to_list result) ≡ vec_len ways.old }
    ensures none { IsNone result → ways.new.items ≡ ways.old.items }
    ensures capacity { vec_capacity ways.new ≡ vec_capacity ways.old }
{
    let end = ways[0].take()?;
    let _ = ways.remove(0);
    Some(end)
}
