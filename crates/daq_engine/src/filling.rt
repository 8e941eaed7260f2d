//! Pumps of an engine in one thread, whose frames go straight to a buffer, as many as it has room
//! for.
ghost use Rattle.std.specs.Prelude.{◌≡◌, IfErr, IfOk, length};
ghost use Rattle.transmitter.specs.Sinks.{sink_transmitter};
ghost use Rattle.daq_engine.specs.Fillings.{FillsFrontStep, RefusesFillStep};
ghost use Rattle.daq_engine.specs.Samplers.{AllOnlyLooked, AreBeside, AreRoomy, sent_of_each};
ghost use Rattle.transmitter.specs.Merge.{of_ring};

use crate::beside::look;
use crate::engine::Engine;
use channel_ring::{Beside, ItemTake, RingEnd, SendEnd, TakeEnd};
use frame_writer::SinkOut;
use sampler::Sampler;
use transmitter::{PumpFault, PumpedAll, Transmitter};

impl<T: Beside + ItemTake> Engine<SinkOut, T>
where
    T::Send: SendEnd<End = T::End>,
{
    ghost use Rattle.daq_engine.specs.Fillings.{FillsFrontOn, RefusesFillOn, sink_engine};

    /// Looks at all that was sent, and pumps again and again, until nothing is left or the next
    /// sample's frames don't fit into the buffer; answers what the pumps did, and how many bytes
    /// their frames have in the front of the buffer.
    ///
    /// A sample that doesn't fit stays in its ring, and the next call goes on at this ring. A
    /// buffer of 544 bytes has room for any sample. Refused as `pump` is, but never with `Failed`;
    /// then nothing is taken, and the buffer is as it was.
    pub fn pump_all(&mut self, buffer: &mut [u8]) -> Result<(PumpedAll, usize), PumpFault>
        ensures ok { IfOk result (FillsFrontOn T.Send.SendEnd T.End.RingEnd
            (sink_engine T.TakeEnd self.old) (sink_engine T.TakeEnd self.new)
            buffer.old buffer.new) }
        ensures err { IfErr result (RefusesFillOn T.Send.SendEnd T.End.RingEnd
            (sink_engine T.TakeEnd self.old) (sink_engine T.TakeEnd self.new)
            buffer.old buffer.new) }
    {
        fill_step(&mut self.samplers, &mut self.transmitter, buffer)
    }
}

/// Looks at all that was sent, fills the buffer, and looks again, whatever the pumps answered.
fn fill_step<T: Beside + ItemTake>(
    samplers: &mut Vec<Sampler<T::Send>>,
    transmitter: &mut Transmitter<SinkOut, T>,
    buffer: &mut [u8],
) -> Result<(PumpedAll, usize), PumpFault>
    requires beside { AreBeside T.Send.SendEnd samplers.old.items
        (sink_transmitter T.TakeEnd transmitter.old) }
    ensures samplers { AllOnlyLooked T.Send.SendEnd T.Send.End.RingEnd
        samplers.old.items samplers.new.items }
    ensures rings_stay { (sink_transmitter T.TakeEnd transmitter.new).rings
        ≡ (sink_transmitter T.TakeEnd transmitter.old).rings }
    ensures roomy { AreRoomy T.Send.SendEnd T.Send.End.RingEnd samplers.new.items
        (sink_transmitter T.TakeEnd transmitter.new) }
    ensures ok { IfOk result (FillsFrontStep (length samplers.old.items)
        (of_ring (sent_of_each T.Send.SendEnd samplers.old.items))
        (sink_transmitter T.TakeEnd transmitter.old)
        (sink_transmitter T.TakeEnd transmitter.new) buffer.old buffer.new) }
    ensures err { IfErr result (RefusesFillStep (length samplers.old.items)
        (of_ring (sent_of_each T.Send.SendEnd samplers.old.items))
        (sink_transmitter T.TakeEnd transmitter.old)
        (sink_transmitter T.TakeEnd transmitter.new) buffer.old buffer.new) }
{
    // the pumps are to find all that was sent
    look(samplers, transmitter);
    let answer = transmitter.pump_all(buffer);
    // for the proof: gives `roomy`, and that all that is left is known
    look(samplers, transmitter);
    answer
}
