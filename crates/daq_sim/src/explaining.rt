//! Carries a run out, and prints its story in the place of its frames.
ghost use Rattle.std.specs.Prelude.{◌≡◌, ◌≤◌, Bool, IfErr, IfOk, IfSome, List, None, OnErr, Some};
ghost use Rattle.std.specs.Prelude.{ℕ};
ghost use Rattle.std.specs.Io.KnownBytes.{Keeps};
ghost use Rattle.frame_writer.specs.Shown.{shown};
ghost use Rattle.run_file.specs.RunFile.{IsRunText};
ghost use Rattle.daq_sim.specs.Done.{CameTo, PrintsRun, PrintsText, nothing_written};
ghost use Rattle.daq_sim.specs.Stops.{StopsAt, StopsOf, StopsRun};

use crate::carrying::status_of_printing;
use crate::command_line::Options;
use crate::program_fault::ProgramFault;
use crate::report_text::print_outcome;
use daq_run::{NoGate, Outcome, SimFault, run_threads, run_watched};
use explain::{KeepingOut, StepLog, Why, run_or_why, story_of};
use frame_writer::{Out, StdOut, VecOut};
use run_file::Run;
use std::alloc::Global;
use std::fs;
use std::io::{Read, Write};
use std::rt::Files;
use std::sync::Wait;
use std::thread::Threads;

/// Carries out the run that the arguments name, and prints its story and its account. After a
/// fault `why` has the reason.
pub fn explain<R: Files + Threads + Wait + Sync, I: Read + Drop, W: Write>(
    rt: &R,
    alloc: Global,
    options: Options<'_>,
    input: I,
    out: &mut W,
    why: &mut Why,
) -> Result<u8, ProgramFault>
    ensures status { IfOk result (λ status. status ≤ 1) }
    ensures silent { OnErr result (Keeps (W.contents out.old) (W.contents out.new)) }
    ensures of_input { options.entry.run ≡ None → IfOk result (λ status.
        IfSome (I.remaining input) (λ text. (story : List ℕ)
        × PrintsText options.entry.threads (λ _. Some story) text status
        (W.contents out.old) (W.contents out.new))) }
    ensures stops { options.entry.run ≡ None → IfErr result (λ fault.
        IfSome (I.remaining input) (λ text. StopsAt options.entry.threads text fault)) }
{
    let run = run_of(rt, alloc, options.run, input, why)?;
    match options.out {
        Some(path) => to_file(rt, alloc, &run, options.threads, path, out, why),
        None => to_memory(rt, alloc, &run, options.threads, out, why),
    }
}

/// The run of a file, or of standard input if no file is named.
fn run_of<R: Files, I: Read + Drop>(
    rt: &R,
    alloc: Global,
    path: Option<&str>,
    input: I,
    why: &mut Why,
) -> Result<Run, ProgramFault>
    ensures ok { path.entry ≡ None → IfOk result (λ run.
        IfSome (I.remaining input) (λ text. IsRunText text run)) }
    ensures stops { path.entry ≡ None → (threads : Bool) → IfErr result (λ fault.
        IfSome (I.remaining input) (λ text. StopsAt threads text fault)) }
{
    let mut input = input;
    let Some(path) = path else {
        return Ok(run_or_why(alloc, "standard input", &mut input, why)?);
    };
    match fs::open(rt, path) {
        Ok(mut file) => Ok(run_or_why(alloc, path, &mut file, why)?),
        Err(error) => {
            let fault = ProgramFault::Unreadable.or_memory(&error);
            why.tell_file(path, error);
            Err(fault)
        }
    }
}

/// Carries out a run whose frames go to a file, which is made first.
fn to_file<R: Files + Threads + Wait + Sync, W: Write>(
    rt: &R,
    alloc: Global,
    run: &Run,
    threads: bool,
    path: &str,
    out: &mut W,
    why: &mut Why,
) -> Result<u8, ProgramFault>
    ensures status { IfOk result (λ status. status ≤ 1) }
    ensures printed { IfOk result (λ status. (story : List ℕ)
        × PrintsRun threads (λ _. Some story) run.now status
        (W.contents out.old) (W.contents out.new)) }
    ensures stops { IfErr result (StopsOf threads run.now) }
    ensures silent { OnErr result (Keeps (W.contents out.old) (W.contents out.new)) }
{
    let file = match fs::create(rt, path) {
        Ok(file) => file,
        Err(error) => {
            let fault = ProgramFault::OutFile.or_memory(&error);
            why.tell_file(path, error);
            return Err(fault);
        }
    };
    let mut log = StepLog::new(alloc);
    let frames = KeepingOut::new(alloc, StdOut::new(file));
    match outcome_of(rt, alloc, run, threads, frames, &mut log) {
        Ok(outcome) => {
            let Some(written) = outcome.out.kept() else {
                return Err(ProgramFault::MEMORY);
            };
            let log = if threads { None } else { Some(&log) };
            let story = story_of(alloc, run, log, written)?;
            let printing = print_outcome(out, Some(&story), outcome.refused, &outcome.report);
            Ok(status_of_printing(printing, outcome.report.failed))
        }
        Err((fault, frames)) => {
            why.tell_set_up(run, frames.kept().unwrap_or(&[]));
            Err(ProgramFault::Sim(fault))
        }
    }
}

/// Carries out a run whose frames are kept in memory.
fn to_memory<R: Threads + Wait + Sync, W: Write>(
    rt: &R,
    alloc: Global,
    run: &Run,
    threads: bool,
    out: &mut W,
    why: &mut Why,
) -> Result<u8, ProgramFault>
    ensures status { IfOk result (λ status. status ≤ 1) }
    ensures printed { IfOk result (λ status. (story : List ℕ)
        × PrintsRun threads (λ _. Some story) run.now status
        (W.contents out.old) (W.contents out.new)) }
    ensures stops { IfErr result (StopsOf threads run.now) }
    ensures silent { OnErr result (Keeps (W.contents out.old) (W.contents out.new)) }
{
    let mut log = StepLog::new(alloc);
    match outcome_of(rt, alloc, run, threads, VecOut::new(alloc), &mut log) {
        Ok(outcome) => {
            let log = if threads { None } else { Some(&log) };
            let story = story_of(alloc, run, log, outcome.out.bytes())?;
            let printing = print_outcome(out, Some(&story), outcome.refused, &outcome.report);
            Ok(status_of_printing(printing, outcome.report.failed))
        }
        Err((fault, frames)) => {
            why.tell_set_up(run, frames.bytes());
            Err(ProgramFault::Sim(fault))
        }
    }
}

/// What comes of a run, in one thread before a log of its steps, or with a thread for each event
/// channel.
fn outcome_of<R: Threads + Wait + Sync, O: Out + Drop>(
    rt: &R,
    alloc: Global,
    run: &Run,
    threads: bool,
    out: O,
    log: &mut StepLog,
) -> Result<Outcome<O>, (SimFault, O)>
    requires unused { shown O.Out out ≡ nothing_written }
    ensures ok { IfOk result (λ outcome. CameTo threads run.now
        outcome.refused outcome.report (shown O.Out outcome.out)) }
    ensures stops { IfErr result (λ e. StopsRun threads run.now e.0) }
{
    if threads {
        return run_threads(rt, alloc, run, out, &NoGate);
    }
    run_watched(alloc, run, out, log)
}
