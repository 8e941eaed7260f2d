//! The program `xcpslave`: from its arguments and streams to its status.
ghost use Rattle.std.specs.Prelude.{◌≡◌, ◌≤◌, IfOk, IsOkAnd, codes, map, string_bytes, true};
ghost use Rattle.program_input.specs.Versions.{PrintsVersion, asks_version};

use crate::command_line::{CommandLine, Options, read_command_line};
use crate::session_fault::SessionFault;
use crate::session_text::{text_of, told_of};
use crate::session_words::words_of;
use crate::why_no_session::why_no_session;
use explain::Why;
use program_input::{TextFault, print_version, text_from};
use session_file::{FileFault, SessionFile, play};
use std::alloc::Global;
use std::fs;
use std::io::{self, Read, Write};
use std::rt::Files;

/// The program over its arguments, without its name, its standard input, standard output and
/// standard error. It returns its status.
pub fn program<R: Files, I: Read + Drop, W: Write + Drop, E: Write + Drop>(
    rt: &R,
    alloc: Global,
    words: &[String],
    input: I,
    out: W,
    err: E,
) -> u8
    ensures { result ≤ 2 }
{
    let mut out = out;
    let mut err = err;
    let mut why = Why::new(alloc, words);
    match answer(rt, alloc, words, input, &mut out, &mut why) {
        Ok(status) => status,
        Err(fault) => {
            let _ = writeln!(err, "{fault}");
            let _ = err.write_all(why.text().as_bytes());
            fault.status()
        }
    }
}

/// What the arguments ask for: the status once that is printed, or the fault that is still to be.
fn answer<R: Files, I: Read + Drop, W: Write>(
    rt: &R,
    alloc: Global,
    words: &[String],
    input: I,
    out: &mut W,
    why: &mut Why,
) -> Result<u8, SessionFault>
    ensures status { IfOk result (λ status. status ≤ 1) }
    ensures version { asks_version (map string_bytes words.now) ≡ true → IsOkAnd result
        (PrintsVersion (codes "xcpslave") (W.contents out.old) (W.contents out.new)) }
{
    match read_command_line(alloc, words, why)? {
        CommandLine::Help(text) => {
            let printing = write!(out, "{text}").and_then(|()| out.flush());
            Ok(status_of_printing(printing))
        }
        CommandLine::Version => Ok(print_version(out, "xcpslave")),
        CommandLine::Session(options) => {
            let file = session_of(rt, alloc, options, input, why)?;
            print_session(alloc, file, options.explain, out)
        }
    }
}

/// Plays a session, and prints what came of it, in words if it is to be explained.
fn print_session<W: Write>(
    alloc: Global,
    file: SessionFile,
    explain: bool,
    out: &mut W,
) -> Result<u8, SessionFault>
    ensures { IfOk result (λ status. status ≤ 1) }
{
    let text = if explain {
        told(alloc, file)?
    } else {
        sent(alloc, file)?
    };
    let printing = out.write_all(text.as_bytes()).and_then(|()| out.flush());
    Ok(status_of_printing(printing))
}

/// What a session sends, and its account.
fn sent(alloc: Global, file: SessionFile) -> Result<String, SessionFault> {
    let played = play(alloc, file).map_err(SessionFault::of_play)?;
    text_of(alloc, &played).map_err(|_| SessionFault::Memory)
}

/// A session in words, and its account.
fn told(alloc: Global, file: SessionFile) -> Result<String, SessionFault> {
    let words = words_of(alloc, &file.script).map_err(|_| SessionFault::Memory)?;
    let played = play(alloc, file).map_err(SessionFault::of_play)?;
    told_of(words, &played).map_err(|_| SessionFault::Memory)
}

/// The status: 1 if the output can't be printed, else 0.
fn status_of_printing(printing: io::Result<()>) -> u8
    ensures { result ≤ 1 }
{
    if printing.is_err() { 1 } else { 0 }
}

/// The session of a file, or of standard input if no file is named.
fn session_of<R: Files, I: Read + Drop>(
    rt: &R,
    alloc: Global,
    options: Options<'_>,
    input: I,
    why: &mut Why,
) -> Result<SessionFile, SessionFault> {
    let mut input = input;
    let Some(path) = options.session else {
        return session_from(alloc, "standard input", &mut input, why);
    };
    match fs::open(rt, path) {
        Ok(mut file) => session_from(alloc, path, &mut file, why),
        Err(error) => {
            let fault = SessionFault::of_text(TextFault::Unreadable.or_memory(&error));
            why.tell_file(path, error);
            Err(fault)
        }
    }
}

/// Reads a session, from a text that has this name and is read to its end. After a fault `why` has
/// the reason.
fn session_from<I: Read>(
    alloc: Global,
    name: &str,
    input: &mut I,
    why: &mut Why,
) -> Result<SessionFile, SessionFault> {
    let text = match text_from(alloc, input) {
        Ok(text) => text,
        Err(fault) => {
            why.tell_file(
                name,
                "it can't be read, isn't UTF-8, or has over 67108864 bytes",
            );
            return Err(SessionFault::of_text(fault));
        }
    };
    match SessionFile::read(alloc, &text) {
        Ok(file) => Ok(file),
        Err(fault) => {
            tell(alloc, name, &text, fault, why);
            Err(SessionFault::of_file(fault))
        }
    }
}

/// Tells why a text is no session, if that is wanted.
fn tell(alloc: Global, name: &str, text: &str, fault: FileFault, why: &mut Why) {
    if !why.is_wanted() {
        return;
    }
    if let Ok(reason) = why_no_session(alloc, name, text, fault) {
        why.tell(reason.as_str());
    }
}
