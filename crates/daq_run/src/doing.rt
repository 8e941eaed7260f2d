//! The steps of a run, in one thread.
ghost use Rattle.std.specs.Prelude.{◌≤◌, ◌≡◌, ℕ, length, map};
ghost use Rattle.frame_writer.specs.Writing.{WriterState};
ghost use Rattle.sampler.specs.History.{Opening};
ghost use Rattle.run_file.specs.Lent.{step_data};
ghost use Rattle.daq_engine.specs.Engines.{Stands, engine_state, first_standing};
ghost use Rattle.daq_engine.specs.Samplers.{StayThose};
ghost use Rattle.daq_run.specs.Cames.{IsCame, TellsCames};
ghost use Rattle.daq_run.specs.StepRuns.{AnswersStepAt, DoesStep, HasDone, IsStepOf};
ghost use Rattle.daq_run.specs.Steps.{run_step};
ghost use Rattle.daq_run.specs.Watched.{TellsSteps, cause_of, refusals};

use crate::came::Came;
use crate::cause::Cause;
use crate::watch::{NoWatch, Watch};
use channel_ring::{Beside, ItemTake, RingEnd, SendEnd, TakeEnd};
use daq_engine::{ChannelFault, Engine};
use frame_writer::Out;
use run_file::{Run, Step};

/// Does a step, and returns what came of it. A pump at which the writer fails is no refusal.
pub fn do_step<O: Out, T: Beside + ItemTake>(engine: &mut Engine<O, T>, step: Step<'_>) -> Came
where
    T::Send: SendEnd<End = T::End>,
    requires of_channel { IsStepOf (length (engine_state O.Out T.TakeEnd engine.old).samplers)
        (run_step (step_data step)) }
    ensures does { DoesStep T.Send.SendEnd T.End.RingEnd
        (engine_state O.Out T.TakeEnd engine.old) (engine_state O.Out T.TakeEnd engine.new)
        (run_step (step_data step.entry)) (refusals result) }
    ensures answers { AnswersStepAt T.Send.SendEnd T.End.RingEnd
        (engine_state O.Out T.TakeEnd engine.old) (engine_state O.Out T.TakeEnd engine.new)
        (run_step (step_data step.entry)) (cause_of result) }
    ensures came { IsCame T.Send.SendEnd T.End.RingEnd
        (engine_state O.Out T.TakeEnd engine.old) (engine_state O.Out T.TakeEnd engine.new)
        (run_step (step_data step.entry)) result }
    ensures samplers_stay { StayThose T.Send.SendEnd
        (engine_state O.Out T.TakeEnd engine.old).samplers
        (engine_state O.Out T.TakeEnd engine.new).samplers }
{
    match step {
        Step::Trigger {
            channel,
            stamp,
            image,
        } => match engine.trigger(channel as usize, image, stamp) {
            Ok(taken) => Came::Taken(taken),
            Err(ChannelFault::Refused(fault)) => Came::Refused(Cause::Trigger(fault)),
            Err(ChannelFault::NoChannel) => unreachable!(),
        },
        Step::Start { channel, list } => match engine.start(channel as usize, list) {
            Ok(()) => Came::Switched,
            Err(ChannelFault::Refused(fault)) => Came::Refused(Cause::Start(fault)),
            Err(ChannelFault::NoChannel) => unreachable!(),
        },
        Step::Stop { channel, list } => match engine.stop(channel as usize, list) {
            Ok(()) => Came::Switched,
            Err(ChannelFault::Refused(fault)) => Came::Refused(Cause::Stop(fault)),
            Err(ChannelFault::NoChannel) => unreachable!(),
        },
        Step::Pump => match engine.pump() {
            Ok(pumped) => Came::Pumped(pumped),
            Err(fault) => Came::Stuck(fault),
        },
    }
}

/// How many were refused of a step of which this came: none or one.
fn count(came: Came) -> u64
    ensures value { result ≡ refusals came }
    ensures few { result ≤ 1 }
{
    match came {
        Came::Refused(_) => 1,
        _ => 0,
    }
}

/// Does the steps of a run in order, and returns how many were refused. They go on if the writer
/// fails.
pub fn do_steps<O: Out, T: Beside + ItemTake>(engine: &mut Engine<O, T>, run: &Run) -> u64
where
    T::Send: SendEnd<End = T::End>,
    requires channels { length (engine_state O.Out T.TakeEnd engine.old).samplers
        ≡ run.now.channels }
    ensures does { (start : WriterState) (openings : ℕ → Opening)
        → Stands T.Send.SendEnd T.End.RingEnd (engine_state O.Out T.TakeEnd engine.old)
        (first_standing start openings)
        → HasDone T.Send.SendEnd T.End.RingEnd (engine_state O.Out T.TakeEnd engine.new)
        start openings (map run_step run.now.steps) result }
    ensures few { result ≤ length run.now.steps }
    ensures samplers_stay { StayThose T.Send.SendEnd
        (engine_state O.Out T.TakeEnd engine.old).samplers
        (engine_state O.Out T.TakeEnd engine.new).samplers }
{
    do_watched(engine, run, &mut NoWatch)
}

/// Does the same before a watch, which is told what came of each step.
pub fn do_watched<O: Out, T: Beside + ItemTake, W: Watch>(
    engine: &mut Engine<O, T>,
    run: &Run,
    watch: &mut W,
) -> u64
where
    T::Send: SendEnd<End = T::End>,
    requires channels { length (engine_state O.Out T.TakeEnd engine.old).samplers
        ≡ run.now.channels }
    ensures does { (start : WriterState) (openings : ℕ → Opening)
        → Stands T.Send.SendEnd T.End.RingEnd (engine_state O.Out T.TakeEnd engine.old)
        (first_standing start openings)
        → HasDone T.Send.SendEnd T.End.RingEnd (engine_state O.Out T.TakeEnd engine.new)
        start openings (map run_step run.now.steps) result }
    ensures tells { TellsSteps W.notes watch.old watch.new (length run.now.steps) result }
    ensures cames { TellsCames T.Send.SendEnd T.End.RingEnd W.notes
        (engine_state O.Out T.TakeEnd engine.old) (engine_state O.Out T.TakeEnd engine.new)
        watch.old watch.new (map run_step run.now.steps) result }
    ensures few { result ≤ length run.now.steps }
    ensures samplers_stay { StayThose T.Send.SendEnd
        (engine_state O.Out T.TakeEnd engine.old).samplers
        (engine_state O.Out T.TakeEnd engine.new).samplers }
{
    let mut refused = 0;
    for i in 0..run.steps() {
        let Some(step) = run.step(i) else {
            unreachable!()
        };
        let came = do_step(engine, step);
        watch.note(came);
        refused += count(came);
    }
    refused
}
