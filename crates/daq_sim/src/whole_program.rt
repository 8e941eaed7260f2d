//! The program `xcpdaq`: from its arguments and streams to its status.
ghost use Rattle.std.specs.Prelude.{◌≡◌, ◌≤◌, Bool, IfErr, IfOk, IfSome, IsOkAnd, None, OnErr};
ghost use Rattle.std.specs.Prelude.{codes, map, string_bytes, true};
ghost use Rattle.std.specs.Io.KnownBytes.{Keeps};
ghost use Rattle.program_input.specs.Versions.{PrintsVersion, asks_version};
ghost use Rattle.run_file.specs.RunFile.{IsRunText};
ghost use Rattle.daq_sim.specs.Done.{PrintsText, frames_line_of};
ghost use Rattle.daq_sim.specs.Stops.{StopsAt};

use crate::carrying::{status_of_printing, to_file, to_memory};
use crate::command_line::{CommandLine, Options, read_command_line};
use crate::explaining::explain;
use crate::program_fault::ProgramFault;
use clap::Error;
use explain::{Why, run_from};
use program_input::print_version;
use run_file::Run;
use std::alloc::Global;
use std::fs;
use std::io::{BufWriter, Read, Write};
use std::rt::Files;
use std::sync::Wait;
use std::thread::Threads;

/// The program over its arguments, without its name, its standard input, standard output and
/// standard error. It returns its status.
///
/// With `--threads` it may wait.
pub fn program<R: Files + Threads + Wait + Sync, I: Read + Drop, W: Write + Drop, E: Write + Drop>(
    rt: &R,
    alloc: Global,
    words: &[String],
    input: I,
    out: W,
    err: E,
) -> u8
    ensures { result ≤ 2 }
{
    let mut err = err;
    let mut why = Why::new(alloc, words);
    let answer = match BufWriter::new(alloc, out) {
        Ok(mut out) => answer(rt, alloc, words, input, &mut out, &mut why),
        Err(_) => Err(ProgramFault::MEMORY),
    };
    match answer {
        Ok(status) => status,
        Err(fault) => {
            let _ = writeln!(err, "{fault}");
            let _ = err.write_all(why.text().as_bytes());
            fault.status()
        }
    }
}

/// What the arguments ask for: the status once that is printed, or the fault that is still to be.
fn answer<R: Files + Threads + Wait + Sync, I: Read + Drop, W: Write>(
    rt: &R,
    alloc: Global,
    words: &[String],
    input: I,
    out: &mut W,
    why: &mut Why,
) -> Result<u8, ProgramFault>
    ensures status { IfOk result (λ status. status ≤ 1) }
    ensures version { asks_version (map string_bytes words.now) ≡ true → IsOkAnd result
        (PrintsVersion (codes "xcpdaq") (W.contents out.old) (W.contents out.new)) }
    ensures silent { OnErr result (Keeps (W.contents out.old) (W.contents out.new)) }
{
    match read_command_line(alloc, words, why)? {
        CommandLine::Help(text) => Ok(print_help(out, text)),
        CommandLine::Version => Ok(print_version(out, "xcpdaq")),
        CommandLine::Run(options) => do_run(rt, alloc, options, input, out, why),
    }
}

/// Carries out the run that the arguments name, and prints what came of it, or its story.
fn do_run<R: Files + Threads + Wait + Sync, I: Read + Drop, W: Write>(
    rt: &R,
    alloc: Global,
    options: Options<'_>,
    input: I,
    out: &mut W,
    why: &mut Why,
) -> Result<u8, ProgramFault>
    ensures status { IfOk result (λ status. status ≤ 1) }
    ensures silent { OnErr result (Keeps (W.contents out.old) (W.contents out.new)) }
{
    if options.explain {
        explain(rt, alloc, options, input, out, why)
    } else {
        carry_out(rt, alloc, options, input, out)
    }
}

/// Carries out the run that the arguments name, and prints what came of it.
fn carry_out<R: Files + Threads + Wait + Sync, I: Read + Drop, W: Write>(
    rt: &R,
    alloc: Global,
    options: Options<'_>,
    input: I,
    out: &mut W,
) -> Result<u8, ProgramFault>
    ensures status { IfOk result (λ status. status ≤ 1) }
    ensures silent { OnErr result (Keeps (W.contents out.old) (W.contents out.new)) }
    ensures of_input { options.entry.run ≡ None → IfOk result (λ status.
        IfSome (I.remaining input) (λ text. PrintsText options.entry.threads
        (frames_line_of options.entry.out) text status
        (W.contents out.old) (W.contents out.new))) }
    ensures stops { options.entry.run ≡ None → IfErr result (λ fault.
        IfSome (I.remaining input) (λ text. StopsAt options.entry.threads text fault)) }
{
    let run = run_of(rt, alloc, options.run, input)?;
    match options.out {
        Some(path) => to_file(rt, alloc, &run, options.threads, path, out),
        None => to_memory(rt, alloc, &run, options.threads, out),
    }
}

/// Prints the help, and returns the status.
fn print_help<W: Write>(out: &mut W, help: Error) -> u8
    ensures { result ≤ 1 }
{
    status_of_printing(write!(out, "{help}").and_then(|()| out.flush()), false)
}

/// The run of a file, or of standard input if no file is named.
fn run_of<R: Files, I: Read + Drop>(
    rt: &R,
    alloc: Global,
    path: Option<&str>,
    input: I,
) -> Result<Run, ProgramFault>
    ensures ok { path.entry ≡ None → IfOk result (λ run.
        IfSome (I.remaining input) (λ text. IsRunText text run)) }
    ensures stops { path.entry ≡ None → (threads : Bool) → IfErr result (λ fault.
        IfSome (I.remaining input) (λ text. StopsAt threads text fault)) }
{
    let mut input = input;
    let Some(path) = path else {
        return Ok(run_from(alloc, &mut input)?);
    };
    match fs::open(rt, path) {
        Ok(mut file) => Ok(run_from(alloc, &mut file)?),
        Err(error) => Err(ProgramFault::Unreadable.or_memory(&error)),
    }
}
