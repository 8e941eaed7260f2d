//! An engine in one thread.
ghost use Rattle.transmitter.specs.Written.{transmission};
ghost use Rattle.daq_engine.specs.Samplers.{AreBeside};

use crate::beside::pump_step;
use crate::channel_fault::ChannelFault;
use crate::finishing::{account_after, finish_all};
use crate::report::Report;
use crate::unclosed::Unclosed;
use channel_ring::{Beside, ItemTake, RingEnd, SendEnd, TakeEnd};
use frame_writer::Out;
use sampler::{ListCounts, Sampler, StartFault, StopFault, Taken, TriggerFault};
use std::alloc::Global;
use transmitter::{PumpFault, Pumped, Transmitter};
use xcp_base::limits::MAX_LISTS;

/// The samplers of all event channels beside the transmitter of their rings, in one thread.
///
/// Contracts speak of what it stands after: the frame writer that it began with, the past of each
/// event channel, and the items that it took from the rings.
#[derive(Drop)]
pub struct Engine<O: Out, T: Beside> {
    pub(crate) samplers: Vec<Sampler<T::Send>>,
    pub(crate) transmitter: Transmitter<O, T>,
    ghost beside: { AreBeside T.Send.SendEnd samplers.items
        (transmission O.Out T.TakeEnd transmitter) },
}

impl<O: Out, T: Beside + ItemTake> Engine<O, T>
where
    T::Send: SendEnd<End = T::End>,
{
    ghost use Rattle.std.specs.Prelude.{◌≡◌, ◌≤◌, IfErr, IfOk, OnOk, length};
    ghost use Rattle.frame_writer.specs.Shown.{shown};
    ghost use Rattle.sampler.specs.Tracks.{counts_after};
    ghost use Rattle.transmitter.specs.Written.{next_of, transmission};
    ghost use Rattle.daq_engine.specs.Asking.{AsksStart, AsksStop, AsksTrigger};
    ghost use Rattle.daq_engine.specs.Closings.{ClosesEngine, GivesBack};
    ghost use Rattle.daq_engine.specs.Engines.{OfPast, Stands, Standing, engine_state};
    ghost use Rattle.daq_engine.specs.Events.{PumpsOn};
    ghost use Rattle.daq_engine.specs.Fillings.{next_ring};
    ghost use Rattle.daq_engine.specs.Samplers.{AreBeside};

    /// An engine of samplers, in rising event channel from 0 on, and the transmitter of their
    /// rings.
    pub fn new(samplers: Vec<Sampler<T::Send>>, transmitter: Transmitter<O, T>) -> Engine<O, T>
        requires { AreBeside T.Send.SendEnd samplers.items
            (transmission O.Out T.TakeEnd transmitter) }
        ensures samplers { (engine_state O.Out T.TakeEnd result).samplers ≡ samplers.items }
        ensures transmitter { (engine_state O.Out T.TakeEnd result).transmitter
            ≡ transmission O.Out T.TakeEnd transmitter }
        ensures next { next_ring result ≡ next_of transmitter }
    {
        Engine {
            samplers,
            transmitter,
        }
    }

    /// The samplers and the transmitter, as they stand, to go on with in threads of their own.
    pub fn into_parts(self) -> (Vec<Sampler<T::Send>>, Transmitter<O, T>)
        ensures samplers { result.0.items ≡ (engine_state O.Out T.TakeEnd self).samplers }
        ensures transmitter { transmission O.Out T.TakeEnd result.1
            ≡ (engine_state O.Out T.TakeEnd self).transmitter }
        ensures beside { AreBeside T.Send.SendEnd result.0.items
            (transmission O.Out T.TakeEnd result.1) }
        ensures next { next_of result.1 ≡ next_ring self }
    {
        let Engine {
            samplers,
            transmitter,
        } = self;
        (samplers, transmitter)
    }

    /// The number of event channels.
    pub fn channels(&self) -> usize
        ensures { result ≡ length (engine_state O.Out T.TakeEnd self.now).samplers }
    {
        self.samplers.len()
    }

    /// The transmitter, to be read: the sample in hand, and how many samples of a list were
    /// written.
    pub fn transmitter(&self) -> &Transmitter<O, T>
        ensures { transmission O.Out T.TakeEnd result.now
            ≡ (engine_state O.Out T.TakeEnd self.now).transmitter }
    {
        &self.transmitter
    }

    /// Hands a trigger to the sampler of event channel `c`, with the memory image and a timestamp
    /// in ticks.
    ///
    /// Refused with `NoChannel`, or as `Sampler::trigger` refuses it; then nothing changes.
    pub fn trigger(
        &mut self,
        c: usize,
        image: &[u8],
        stamp: u32,
    ) -> Result<Taken, ChannelFault<TriggerFault>>
        ensures asks { AsksTrigger T.Send.SendEnd T.End.RingEnd
            (engine_state O.Out T.TakeEnd self.old) (engine_state O.Out T.TakeEnd self.new)
            c image.now stamp result }
    {
        if c >= self.samplers.len() {
            return Err(ChannelFault::NoChannel);
        }
        match self.samplers[c].trigger(image, stamp) {
            Ok(taken) => Ok(taken),
            Err(fault) => Err(ChannelFault::Refused(fault)),
        }
    }

    /// Starts a DAQ list of event channel `c`.
    ///
    /// Refused with `NoChannel`, or as `Sampler::start` refuses it; then nothing changes.
    pub fn start(&mut self, c: usize, l: u8) -> Result<(), ChannelFault<StartFault>>
        ensures asks { AsksStart T.Send.SendEnd T.End.RingEnd
            (engine_state O.Out T.TakeEnd self.old) (engine_state O.Out T.TakeEnd self.new)
            c l result }
    {
        if c >= self.samplers.len() {
            return Err(ChannelFault::NoChannel);
        }
        match self.samplers[c].start(l) {
            Ok(()) => Ok(()),
            Err(fault) => Err(ChannelFault::Refused(fault)),
        }
    }

    /// Stops a DAQ list of event channel `c`, and sends its stop marker.
    ///
    /// Refused with `NoChannel`, or as `Sampler::stop` refuses it. Then nothing changes but, with
    /// `NoRoom`, what the channel's sampler knows to be free.
    pub fn stop(&mut self, c: usize, l: u8) -> Result<(), ChannelFault<StopFault>>
        ensures asks { AsksStop T.Send.SendEnd T.End.RingEnd
            (engine_state O.Out T.TakeEnd self.old) (engine_state O.Out T.TakeEnd self.new)
            c l result }
    {
        if c >= self.samplers.len() {
            return Err(ChannelFault::NoChannel);
        }
        match self.samplers[c].stop(l) {
            Ok(()) => Ok(()),
            Err(fault) => Err(ChannelFault::Refused(fault)),
        }
    }

    /// Pumps: all that was sent is looked at, then the first item left in each ring that has one is
    /// taken, in rising event channel, and each sample is written as frames; then all is looked at
    /// again.
    ///
    /// Refused as `Transmitter::pump` refuses it.
    pub fn pump(&mut self) -> Result<Pumped, PumpFault>
        ensures pumps { PumpsOn T.Send.SendEnd T.End.RingEnd
            (engine_state O.Out T.TakeEnd self.old) (engine_state O.Out T.TakeEnd self.new) result }
        ensures next { OnOk result (next_ring self.new ≡ 0) }
    {
        pump_step(&mut self.samplers, &mut self.transmitter)
    }

    /// How often a DAQ list of event channel `c` was due, and what became of its samples; `None`
    /// where there is no such channel, or the list isn't of it.
    pub fn counts(&self, c: usize, l: u8) -> Option<ListCounts>
        ensures after { OfPast T.Send.SendEnd T.End.RingEnd
            (engine_state O.Out T.TakeEnd self.now) c
            (λ past. result ≡ counts_after past l) }
        ensures no_channel { length (engine_state O.Out T.TakeEnd self.now).samplers ≤ c
            → result ≡ None }
    {
        if c >= self.samplers.len() {
            return None;
        }
        self.samplers[c].counts(l)
    }

    /// Closes the engine, after a drain of its rings where that is wanted: the report, and the
    /// writer as it stands.
    ///
    /// A fault of the drain doesn't keep it from being closed: the report says that the writer
    /// failed. Refused with `Memory`, before anything is done, and then the engine comes back; or
    /// with `Lost` only where a ring's `finish` gave nothing, and then the frame writer does.
    pub fn close(self, alloc: Global, drain: bool) -> Result<(Report, O), Unclosed<O, T>>
        ensures closed { IfOk result (λ r. (st : Standing) →
            Stands T.Send.SendEnd T.End.RingEnd (engine_state O.Out T.TakeEnd self) st →
            ClosesEngine T.Send.SendEnd T.End.RingEnd drain (engine_state O.Out T.TakeEnd self) st
            r.0 (shown O.Out r.1)) }
        ensures back { IfErr result (λ r.
            GivesBack O.Out T.TakeEnd r (engine_state O.Out T.TakeEnd self)) }
    {
        let Ok(room) = Vec::with_capacity(alloc, self.samplers.len()) else {
            return Err(Unclosed::Memory(self));
        };
        let Ok(lines) = Vec::with_capacity(alloc, MAX_LISTS as usize) else {
            return Err(Unclosed::Memory(self));
        };
        let Engine {
            samplers,
            transmitter,
        } = self;
        match finish_all(samplers, room) {
            Some(ends) => Ok(account_after(lines, transmitter, ends, drain)),
            None => Err(Unclosed::Lost(transmitter.into_writer())),
        }
    }
}
