//! The program `xcpread`: from its arguments and streams to its status.
ghost use Rattle.std.specs.Prelude.{◌≡◌, ◌≤◌, ◌↔◌, ℕ, List, [], IfErr, IfOk, Ok, OnOk};
ghost use Rattle.std.specs.Prelude.{IsOk, map, string_bytes, true};
ghost use Rattle.std.specs.Option.{option_copied};
ghost use Rattle.daq_reader.specs.Recorded.{Recorded};
ghost use Rattle.program_input.specs.Versions.{asks_version};
ghost use Rattle.recording.specs.Files.{IsFaultOfFile, IsFileWith, IsNotOfRecording, IsOfTearOr};
ghost use Rattle.recording.specs.Files.{IsReadFile, ShowsFile};
ghost use Rattle.xcpread.specs.Faults.{IsOfRecording};
ghost use Rattle.xcpread.specs.Files.{ShowsNamed, ShowsRun, ShowsSomeRun};

use crate::capture_program::show_capture;
use crate::command_line::{CommandLine, Options, read_command_line};
use crate::err_messages::ErrMessages;
use crate::no_text::no_text;
use crate::program_fault::ProgramFault;
use crate::run_output::write_recorded;
use crate::why_unread::tell_unread;
use a2l::{A2lFault, Description};
use clap::Error;
use daq_reader::shapes_of;
use daq_run::set_up;
use explain::{RunTextFault, Why, run_or_why};
use frame_writer::VecOut;
use program_input::{TextFault, bytes_from, print_version};
use recording::{RecordingFault, RunRecording, Source, show_recording};
use run_file::Run;
use std::alloc::Global;
use std::fs;
use std::io::{BufWriter, Read, Write};
use std::rt::Files;
use value_tables::with_elements;

/// The program over its arguments, without its name, its standard input, standard output and
/// standard error. It returns its status.
pub fn program<R: Files, I: Read + Drop, W: Write + Drop, E: Write + Drop>(
    rt: &R,
    alloc: Global,
    words: &[String],
    input: I,
    out: W,
    err: E,
) -> u8
    ensures { result ≤ 2 }
{
    let mut messages = ErrMessages::new(alloc, err, Why::new(alloc, words));
    let answer = match BufWriter::new(alloc, out) {
        Ok(out) => answer(rt, alloc, words, input, out, &mut messages),
        Err(_) => Err(ProgramFault::MEMORY),
    };
    match answer {
        Ok(status) => status,
        Err(fault) => {
            messages.tell_fault(fault);
            fault.status()
        }
    }
}

/// What the arguments ask for: the status once that is printed, or the fault that is still to be.
fn answer<R: Files, I: Read + Drop, W: Write + Drop, E: Write + Drop>(
    rt: &R,
    alloc: Global,
    words: &[String],
    input: I,
    out: W,
    messages: &mut ErrMessages<E>,
) -> Result<u8, ProgramFault>
    ensures status { IfOk result (λ status. status ≤ 1) }
    ensures version { asks_version (map string_bytes words.now) ≡ true → IsOk result }
{
    match read_command_line(alloc, words, &mut messages.why)? {
        CommandLine::Help(text) => Ok(print_help(out, text)),
        CommandLine::Version => {
            let mut out = out;
            Ok(print_version(&mut out, "xcpread"))
        }
        CommandLine::Recording(options) => match options.mf4 {
            Some(path) => write(rt, alloc, options, path, messages),
            None => show(rt, alloc, options, out, messages),
        },
        CommandLine::Capture(options) => show_capture(rt, alloc, options, input, out, messages),
    }
}

/// Prints the help, and returns the status.
fn print_help<W: Write + Drop>(out: W, help: Error) -> u8
    ensures { result ≤ 1 }
{
    let mut out = out;
    let printing = write!(out, "{help}").and_then(|()| out.flush());
    status_of_printing(printing.is_ok())
}

/// Reads the recording that the arguments name, and prints its samples.
fn show<R: Files, W: Write + Drop, E: Write + Drop>(
    rt: &R,
    alloc: Global,
    options: Options<'_>,
    out: W,
    messages: &mut ErrMessages<E>,
) -> Result<u8, ProgramFault>
    ensures range { IfOk result (λ status. status ≤ 1) }
    ensures all { result ≡ Ok 0 → (after : W) × ShowsSomeRun options.entry
        (W.contents out) (W.contents after) }
{
    let run = run_of(rt, alloc, options.run, &mut messages.why)?;
    let description = description_of(rt, alloc, options.a2l, messages)?;
    let description = with_arrays(alloc, description, &run)?;
    show_run(
        rt,
        alloc,
        options,
        &run,
        description.as_ref(),
        out,
        messages,
    )
}

/// Reads the recording that the arguments name, and writes the values of its samples to a file.
fn write<R: Files, E: Write + Drop>(
    rt: &R,
    alloc: Global,
    options: Options<'_>,
    path: &str,
    messages: &mut ErrMessages<E>,
) -> Result<u8, ProgramFault>
    ensures { IfOk result (λ status. status ≤ 1) }
{
    let run = run_of(rt, alloc, options.run, &mut messages.why)?;
    let description = description_of(rt, alloc, options.a2l, messages)?;
    let description = with_arrays(alloc, description, &run)?;
    write_run(
        rt,
        alloc,
        options,
        path,
        &run,
        description.as_ref(),
        messages,
    )
}

/// Reads the recording of a run, and writes the values of its samples to a file.
fn write_run<R: Files, E: Write + Drop>(
    rt: &R,
    alloc: Global,
    options: Options<'_>,
    path: &str,
    run: &Run,
    description: Option<&Description>,
    messages: &mut ErrMessages<E>,
) -> Result<u8, ProgramFault>
    ensures { IfOk result (λ status. status ≤ 1) }
{
    let Ok((store, writer)) = set_up(alloc, run, VecOut::new(alloc)) else {
        return Err(ProgramFault::MEMORY);
    };
    let replies = writer.into_out();
    if options.progress {
        messages.want_progress();
    }
    let recorded = RunRecording {
        name: options.frames,
        run,
        replies: replies.bytes(),
        store: &store,
        description,
    };
    write_recorded(rt, alloc, options, path, &recorded, messages)
}

/// Reads the recording of a run, and prints its samples.
fn show_run<R: Files, W: Write + Drop, E: Write + Drop>(
    rt: &R,
    alloc: Global,
    options: Options<'_>,
    run: &Run,
    description: Option<&Description>,
    out: W,
    messages: &mut ErrMessages<E>,
) -> Result<u8, ProgramFault>
    ensures range { IfOk result (λ status. status ≤ 1) }
    ensures all { result ≡ Ok 0 → (after : W) × ShowsRun options.entry run.now
        (option_copied description.entry) (W.contents out) (W.contents after) }
{
    let Ok((store, writer)) = set_up(alloc, run, VecOut::new(alloc)) else {
        return Err(ProgramFault::MEMORY);
    };
    let replies = writer.into_out();
    if options.progress {
        messages.want_progress();
    }
    let recorded = RunRecording {
        name: options.frames,
        run,
        replies: replies.bytes(),
        store: &store,
        description,
    };
    show_recorded(rt, alloc, options, &recorded, out, messages)
}

/// A description, if there is one, with the elements of arrays that the lists of a run have.
fn with_arrays(
    alloc: Global,
    description: Option<Description>,
    run: &Run,
) -> Result<Option<Description>, ProgramFault> {
    let Some(description) = description else {
        return Ok(None);
    };
    let Ok((store, _)) = set_up(alloc, run, VecOut::new(alloc)) else {
        return Err(ProgramFault::MEMORY);
    };
    let shapes = shapes_of(alloc, &store)?;
    Ok(Some(with_elements(alloc, description, &shapes)?))
}

/// Opens the file of a recording, and prints its samples.
fn show_recorded<R: Files, W: Write + Drop, E: Write + Drop>(
    rt: &R,
    alloc: Global,
    options: Options<'_>,
    recorded: &RunRecording<'_>,
    out: W,
    messages: &mut ErrMessages<E>,
) -> Result<u8, ProgramFault>
    ensures range { IfOk result (λ status. status ≤ 1) }
    ensures all { result ≡ Ok 0 → (after : W) × ShowsNamed options.entry.view recorded.now
        (W.contents out) (W.contents after) }
{
    match fs::open(rt, recorded.name) {
        Ok(file) => {
            let mut from = Source::new(alloc, file, messages);
            show_file(rt, alloc, options, recorded, &mut from, out)
        }
        Err(error) => {
            let fault = TextFault::Unreadable.or_memory(&error);
            messages.why.tell_file(recorded.name, error);
            Err(ProgramFault::Recording(RecordingFault::of_text(fault)))
        }
    }
}

/// What the A2L file says, if there is one.
pub fn description_of<R: Files, E: Write + Drop>(
    rt: &R,
    alloc: Global,
    path: Option<&str>,
    messages: &mut ErrMessages<E>,
) -> Result<Option<Description>, ProgramFault> {
    let Some(path) = path else {
        return Ok(None);
    };
    let text = text_of(rt, alloc, path, messages)?;
    if let Some(reason) = no_text(&text) {
        messages.detail(reason);
        return Err(ProgramFault::BadA2l);
    }
    match Description::read(alloc, &text) {
        Ok(description) => Ok(Some(description)),
        Err(A2lFault::Memory) => Err(ProgramFault::MEMORY),
        Err(fault) => {
            messages.detail(fault);
            Err(ProgramFault::BadA2l)
        }
    }
}

/// The text of an A2L file.
fn text_of<R: Files, E: Write + Drop>(
    rt: &R,
    alloc: Global,
    path: &str,
    messages: &mut ErrMessages<E>,
) -> Result<Vec<u8>, ProgramFault> {
    let read = match fs::open(rt, path) {
        Ok(mut file) => bytes_from(alloc, &mut file),
        Err(error) => Err(TextFault::Unreadable.or_memory(&error)),
    };
    match read {
        Ok(text) => Ok(text),
        Err(TextFault::Memory) => Err(ProgramFault::MEMORY),
        Err(TextFault::Unreadable) => {
            messages.detail(path);
            Err(ProgramFault::UnreadableA2l)
        }
    }
}

/// Reads the file of a recording, and prints its samples. The status is 0 if the writer is given
/// back, as it is where all of them are printed, and else 1.
fn show_file<R: Files, I: Read + Drop, W: Write + Drop, E: Write + Drop>(
    rt: &R,
    alloc: Global,
    options: Options<'_>,
    recorded: &RunRecording<'_>,
    from: &mut Source<'_, I, ErrMessages<E>>,
    out: W,
) -> Result<u8, ProgramFault>
    ensures range { IfOk result (λ status. status ≤ 1) }
    ensures all { result ≡ Ok 0 → (after : W) × ShowsFile options.entry.view recorded.now
        (I.remaining from.old.input) (I.remaining from.new.input)
        (W.contents out) (W.contents after) }
    ensures read { OnOk result
        (IsReadFile recorded.now (I.remaining from.old.input) (I.remaining from.new.input)) }
    ensures fault { IfErr result (IsOfRecording (IsFaultOfFile options.entry.view recorded.now
        (I.remaining from.old.input) (I.remaining from.new.input))) }

    ensures whole { (samples : List (ℕ × Recorded))
        → IsFileWith recorded.now samples [] (I.remaining from.old.input)
        → IfErr result (IsOfRecording IsNotOfRecording) }
    ensures torn { (samples : List (ℕ × Recorded)) (lost : List ℕ)
        → IsFileWith recorded.now samples lost (I.remaining from.old.input)
        → IfErr result (IsOfRecording (IsOfTearOr (I.remaining from.new.input))) }
{
    match show_recording(alloc, options.view, recorded, from, out) {
        Ok(shown) => Ok(status_of_printing(shown.is_some())),
        Err(fault) => {
            tell_unread(rt, alloc, recorded, fault, &mut from.messages.why);
            Err(ProgramFault::Recording(fault))
        }
    }
}

/// The run of a file. Behind a fault `why` has the reason.
fn run_of<R: Files>(rt: &R, alloc: Global, path: &str, why: &mut Why) -> Result<Run, ProgramFault> {
    match fs::open(rt, path) {
        Ok(mut file) => Ok(run_or_why(alloc, path, &mut file, why)?),
        Err(error) => {
            let fault = TextFault::Unreadable.or_memory(&error);
            why.tell_file(path, error);
            Err(ProgramFault::Text(RunTextFault::from(fault)))
        }
    }
}

/// The status: 0 if all was printed, else 1.
fn status_of_printing(printed: bool) -> u8
    ensures range { result ≤ 1 }
    ensures well { (result ≡ 0) ↔ (printed ≡ true) }
{
    if printed { 0 } else { 1 }
}
