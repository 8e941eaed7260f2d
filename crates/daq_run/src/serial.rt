//! A whole run in one thread.
ghost use Rattle.std.specs.Prelude.{◌≡◌, ◌⊎◌, IfErr, IfOk, length, true};
ghost use Rattle.std.specs.List.{list_all};
ghost use Rattle.frame_writer.specs.Shown.{shown};
ghost use Rattle.daq_engine.specs.Closings.{GivesBack};
ghost use Rattle.daq_engine.specs.Engines.{EngineState};
ghost use Rattle.daq_run.specs.Watched.{TellsSteps};
ghost use Rattle.daq_run.specs.Faults.{StandsAtFault};
ghost use Rattle.daq_run.specs.Runs.{ComesTo, cost_in};
ghost use Rattle.daq_run.specs.declared.sim_fault.SimFault.TheVariants.{EndLost, Memory};

use crate::outcome::Outcome;
use crate::setting_up::opened;
use crate::sim_fault::SimFault;
use crate::{NoWatch, Watch, do_watched};
use byte_ring::ByteRing;
use channel_ring::{Beside, ItemTake, RingEnd, SampleRing, SendEnd, TakeEnd};
use daq_engine::{Engine, Ring, Unclosed};
use frame_writer::Out;
use run_file::Run;
use std::alloc::Global;
use xcp_base::RingKind;

/// Carries out a run in one thread: its set-up, whose replies are the first frames, then its steps
/// in order on one engine, over rings of the run's kind, and at the end a drain if the run says
/// so.
///
/// The steps go on if the writer fails; the report says that it failed. Refused with `Memory`,
/// `NothingRunning` if after the set-up no DAQ list runs, `SetupWrite` if a reply isn't
/// written whole, or `EndLost`; the writer comes back with what was written until then.
pub fn run_serial<O: Out>(alloc: Global, run: &Run, out: O) -> Result<Outcome<O>, (SimFault, O)>
    ensures ok { IfOk result (λ outcome. ComesTo run.now (shown O.Out out)
        outcome.refused outcome.report (shown O.Out outcome.out)) }
    ensures fault { IfErr result (λ e.
        StandsAtFault run.now (shown O.Out out) (shown O.Out e.1) e.0) }
{
    run_watched(alloc, run, out, &mut NoWatch)
}

/// Carries out the same run before a watch, which is told what came of each step.
pub fn run_watched<O: Out, W: Watch>(
    alloc: Global,
    run: &Run,
    out: O,
    watch: &mut W,
) -> Result<Outcome<O>, (SimFault, O)>
    ensures ok { IfOk result (λ outcome. ComesTo run.now (shown O.Out out)
        outcome.refused outcome.report (shown O.Out outcome.out)) }
    ensures tells { IfOk result (λ outcome. TellsSteps W.notes watch.old watch.new
        (length run.now.steps) outcome.refused) }
    ensures fault { IfErr result (λ e.
        StandsAtFault run.now (shown O.Out out) (shown O.Out e.1) e.0) }
{
    match run.ring() {
        RingKind::Samples => run_over::<SampleRing, O, W>(alloc, run, out, watch),
        RingKind::Bytes => run_over::<ByteRing, O, W>(alloc, run, out, watch),
    }
}

/// The same over rings of one kind.
fn run_over<K: Ring, O: Out, W: Watch>(
    alloc: Global,
    run: &Run,
    out: O,
    watch: &mut W,
) -> Result<Outcome<O>, (SimFault, O)>
    requires caps { list_all K.is_cap run.now.caps ≡ true }
    requires cost { K.Send.End.cost ≡ cost_in run.now.ring }
    ensures ok { IfOk result (λ outcome. ComesTo run.now (shown O.Out out)
        outcome.refused outcome.report (shown O.Out outcome.out)) }
    ensures tells { IfOk result (λ outcome. TellsSteps W.notes watch.old watch.new
        (length run.now.steps) outcome.refused) }
    ensures fault { IfErr result (λ e.
        StandsAtFault run.now (shown O.Out out) (shown O.Out e.1) e.0) }
{
    let mut engine = opened::<K, O>(alloc, run, out)?;
    let refused = do_watched(&mut engine, run, watch);
    match engine.close(alloc, run.drain()) {
        Ok((report, out)) => Ok(Outcome {
            refused,
            report,
            out,
        }),
        Err(unclosed) => Err(given_back(unclosed)),
    }
}

/// The fault of an engine that was not closed, and its writer.
fn given_back<O: Out, T: Beside + ItemTake>(unclosed: Unclosed<O, T>) -> (SimFault, O)
where
    T::Send: SendEnd<End = T::End>,
    ensures fault { (result.0 ≡ Memory) ⊎ (result.0 ≡ EndLost) }
    ensures written { (e : EngineState T.Send) → GivesBack O.Out T.TakeEnd unclosed e
        → shown O.Out result.1 ≡ e.transmitter.writer.out }
{
    match unclosed {
        Unclosed::Memory(engine) => {
            let (_, transmitter) = engine.into_parts();
            (SimFault::Memory, transmitter.into_writer().into_out())
        }
        Unclosed::Lost(writer) => (SimFault::EndLost, writer.into_out()),
    }
}
