//! Carries a run out, and prints what came of it.
ghost use Rattle.std.specs.Prelude.{◌≡◌, ◌↔◌, ◌≤◌, IfErr, IfOk, IsOk, OnErr, false, true};
ghost use Rattle.std.specs.Io.KnownBytes.{Keeps};
ghost use Rattle.frame_writer.specs.Shown.{shown};
ghost use Rattle.daq_sim.specs.Done.{CameTo, PrintsRun, in_hex, not_printed, nothing_written};
ghost use Rattle.daq_sim.specs.Stops.{StopsOf};

use crate::program_fault::ProgramFault;
use crate::report_text::print_outcome;
use daq_run::{NoGate, Outcome, run_serial, run_threads};
use frame_writer::{Out, StdOut, VecOut};
use run_file::Run;
use std::alloc::Global;
use std::fs;
use std::io::{self, Write};
use std::rt::Files;
use std::sync::Wait;
use std::thread::Threads;

/// Carries out a run whose frames go to a file, which is made first, and prints the account.
pub fn to_file<R: Files + Threads + Wait + Sync, W: Write>(
    rt: &R,
    alloc: Global,
    run: &Run,
    threads: bool,
    path: &str,
    out: &mut W,
) -> Result<u8, ProgramFault>
    ensures status { IfOk result (λ status. status ≤ 1) }
    ensures printed { IfOk result (λ status.
        PrintsRun threads not_printed run.now status (W.contents out.old) (W.contents out.new)) }
    ensures stops { IfErr result (StopsOf threads run.now) }
    ensures silent { OnErr result (Keeps (W.contents out.old) (W.contents out.new)) }
{
    let file = match fs::create(rt, path) {
        Ok(file) => file,
        Err(error) => return Err(ProgramFault::OutFile.or_memory(&error)),
    };
    let Outcome {
        refused,
        report,
        ..
    } = outcome_of(rt, alloc, run, threads, StdOut::new(file))?;
    let printing = print_outcome(out, None, refused, &report);
    Ok(status_of_printing(printing, report.failed))
}

/// Carries out a run whose frames are kept in memory, and prints them and the account.
pub fn to_memory<R: Threads + Wait + Sync, W: Write>(
    rt: &R,
    alloc: Global,
    run: &Run,
    threads: bool,
    out: &mut W,
) -> Result<u8, ProgramFault>
    ensures status { IfOk result (λ status. status ≤ 1) }
    ensures printed { IfOk result (λ status.
        PrintsRun threads in_hex run.now status (W.contents out.old) (W.contents out.new)) }
    ensures stops { IfErr result (StopsOf threads run.now) }
    ensures silent { OnErr result (Keeps (W.contents out.old) (W.contents out.new)) }
{
    let Outcome {
        refused,
        report,
        out: frames,
    } = outcome_of(rt, alloc, run, threads, VecOut::new(alloc))?;
    let line = hex::encode(alloc, frames.bytes())?;
    let printing = print_outcome(out, Some(&line), refused, &report);
    Ok(status_of_printing(printing, report.failed))
}

/// What comes of a run, in one thread or with a thread for each event channel.
fn outcome_of<R: Threads + Wait + Sync, O: Out + Drop>(
    rt: &R,
    alloc: Global,
    run: &Run,
    threads: bool,
    out: O,
) -> Result<Outcome<O>, ProgramFault>
    requires unused { shown O.Out out ≡ nothing_written }
    ensures ok { IfOk result (λ outcome. CameTo threads run.now
        outcome.refused outcome.report (shown O.Out outcome.out)) }
    ensures stops { IfErr result (StopsOf threads run.now) }
{
    if threads {
        return outcome_apart(rt, alloc, run, out);
    }
    outcome_in_order(alloc, run, out)
}

/// What comes of a run in one thread.
fn outcome_in_order<O: Out + Drop>(
    alloc: Global,
    run: &Run,
    out: O,
) -> Result<Outcome<O>, ProgramFault>
    requires unused { shown O.Out out ≡ nothing_written }
    ensures ok { IfOk result (λ outcome. CameTo false run.now
        outcome.refused outcome.report (shown O.Out outcome.out)) }
    ensures stops { IfErr result (StopsOf false run.now) }
{
    match run_serial(alloc, run, out) {
        Ok(outcome) => Ok(outcome),
        Err((fault, _)) => Err(ProgramFault::Sim(fault)),
    }
}

/// What comes of a run with a thread for each event channel.
fn outcome_apart<R: Threads + Wait + Sync, O: Out + Drop>(
    rt: &R,
    alloc: Global,
    run: &Run,
    out: O,
) -> Result<Outcome<O>, ProgramFault>
    requires unused { shown O.Out out ≡ nothing_written }
    ensures ok { IfOk result (λ outcome. CameTo true run.now
        outcome.refused outcome.report (shown O.Out outcome.out)) }
    ensures stops { IfErr result (StopsOf true run.now) }
{
    match run_threads(rt, alloc, run, out, &NoGate) {
        Ok(outcome) => Ok(outcome),
        Err((fault, _out)) => Err(ProgramFault::Sim(fault)),
    }
}

/// The status: 1 if the writer failed or the output can't be printed, else 0.
pub fn status_of_printing(printing: io::Result<()>, failed: bool) -> u8
    ensures range { result ≤ 1 }
    ensures well { (result ≡ 0) ↔ (IsOk printing × (failed ≡ false)) }
{
    if failed || printing.is_err() { 1 } else { 0 }
}
