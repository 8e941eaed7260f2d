//! A sampler that was handed to C: its calls, each with a status.
use crate::counts_out::CountsOut;
use crate::rule::{EngineWay, GivenSampler, LaterPast, SamplerWay};
use crate::status::Status;
use crate::taken_out::TakenOut;
use daq_engine::Ring;
use hand_over::hand_over;
use sampler::{Sampler, StartFault, StopFault, TriggerFault};
use std::alloc::Global;
use std::marker::Model;

/// A sampler that was handed out, and its way back to its engine.
#[derive(Drop)]
pub struct Lent<R: Ring> {
    pub(crate) sampler: Sampler<R::Send>,
    pub(crate) way: SamplerWay<R::Send>,
}

impl<R: Ring> Model for Lent<R> {
    ghost use Rattle.sampler.specs.State.{SamplerState};
    ghost use Rattle.c_engine.specs.Ways.{IsLaterOf};

    ghost Value = { SamplerState R.Send };

    ghost view = { λ l. l.sampler };

    ghost invariant = { λ l. IsLaterOf R.Send.SendEnd R.Send.End.RingEnd l.way l.sampler };
}

impl<R: Ring> Lent<R> {
    ghost use Rattle.std.specs.Prelude.{◌≡◌, IfErr, IfOk};
    ghost use Rattle.c_engine.specs.Samplers.{CountsList, IsLeftOf, StartsList, StopsList};
    ghost use Rattle.c_engine.specs.Samplers.{TriggersSampler};

    /// A sampler that goes out, and the end of its way back that its engine keeps; or the sampler
    /// itself, if there is no memory.
    pub(crate) fn going(
        alloc: Global,
        sampler: Sampler<R::Send>,
    ) -> Result<(Lent<R>, EngineWay<R::Send>), Sampler<R::Send>>
        ensures lent { IfOk result (λ going. going.0 ≡ sampler) }
        ensures way { IfOk result (λ going. going.1 ≡ sampler) }
        ensures back { IfErr result (λ back. back ≡ sampler) }
    {
        match hand_over::<_, _, LaterPast>(alloc, sampler) {
            Ok((sampler, way, coming)) => Ok((Lent { sampler, way }, coming)),
            Err(sampler) => Err(sampler),
        }
    }

    /// The sampler, whose way back isn't taken any more.
    pub(crate) fn into_sampler(self) -> Sampler<R::Send>
        ensures { result ≡ self }
    {
        self.sampler
    }

    /// Takes a trigger.
    pub fn trigger(&mut self, image: &[u8], stamp: u32, taken: &mut TakenOut) -> Status
        ensures { TriggersSampler R.Send.SendEnd R.Send.End.RingEnd
            self.old self.new image.now stamp taken.old taken.new result }
    {
        match self.sampler.trigger(image, stamp) {
            Ok(sets) => {
                *taken = TakenOut::of(sets);
                Status::Ok
            }
            Err(TriggerFault::WrongImage) => Status::WrongImage,
            Err(TriggerFault::Spent) => Status::Spent,
        }
    }

    /// Starts a DAQ list.
    pub fn start(&mut self, list: u8) -> Status
        ensures { StartsList R.Send.SendEnd R.Send.End.RingEnd
            self.old self.new list result }
    {
        match self.sampler.start(list) {
            Ok(()) => Status::Ok,
            Err(StartFault::NotOfChannel) => Status::NotOfChannel,
            Err(StartFault::Running) => Status::Running,
        }
    }

    /// Stops a DAQ list.
    pub fn stop(&mut self, list: u8) -> Status
        ensures { StopsList R.Send.SendEnd R.Send.End.RingEnd
            self.old self.new list result }
    {
        match self.sampler.stop(list) {
            Ok(()) => Status::Ok,
            Err(StopFault::NotOfChannel) => Status::NotOfChannel,
            Err(StopFault::NotRunning) => Status::NotRunning,
            Err(StopFault::NoRoom) => Status::NoRoom,
        }
    }

    /// Tells a DAQ list's counts.
    pub fn counts_of(&self, list: u8, counts: &mut CountsOut) -> Status
        ensures { CountsList R.Send.SendEnd R.Send.End.RingEnd
            self.now list counts.old counts.new result }
    {
        match self.sampler.counts(list) {
            Some(told) => {
                *counts = CountsOut::of(told);
                Status::Ok
            }
            None => Status::NotOfChannel,
        }
    }

    /// Finishes the sampler, and gives what is left of it back. Refused with `NoEngine` if the
    /// engine was freed: then nothing is left.
    pub fn finish(self) -> Result<GivenSampler<R::Send>, Status>
        ensures ok { IfOk result (λ given.
            IsLeftOf R.Send.SendEnd R.Send.End.RingEnd self given.left) }
        ensures err { IfErr result (λ status. status ≡ Status.NoEngine) }
    {
        let Lent { sampler, way } = self;
        match sampler.finish() {
            Some(end) => Ok(way.give(end)),
            None => Err(Status::NoEngine),
        }
    }
}
