//! Shows a capture.

use crate::capture_program::{CaptureSource, read_samples};
use crate::command_line::CaptureOptions;
use crate::err_messages::ErrMessages;
use crate::program_fault::ProgramFault;
use capture_recording::CaptureReadFault;
use capture_story::Story;
use capture_tables::{CaptureRows, CaptureSheet, ElementRows, ListTable, TallyTable, ValuePicture};
use recording::Mode;
use std::alloc::Global;
use std::io::{self, ErrorKind, Write};
use std::rt::Files;
use value_tables::Column;

/// Shows columns as the options say.
pub fn show_columns<R: Files, W: Write + Drop, E: Write + Drop>(
    rt: &R,
    alloc: Global,
    source: CaptureSource<'_>,
    options: CaptureOptions<'_>,
    columns: Vec<Column<'_>>,
    out: W,
    messages: &mut ErrMessages<E>,
) -> Result<(), ProgramFault> {
    match options.mode {
        Mode::Summary => {
            let table = TallyTable::new(alloc, columns, out)?;
            show_on(rt, alloc, source, table, messages)
        }
        Mode::Csv => {
            let rows = CaptureRows::new(alloc, columns, options.clocks, out);
            show_on(rt, alloc, source, rows, messages)
        }
        Mode::Svg => {
            let picture = ValuePicture::new(alloc, columns, out)?;
            show_on(rt, alloc, source, picture, messages)
        }
    }
}

/// Shows lists: their elements as CSV, or a table with a line for each of them.
pub fn show_lists<R: Files, W: Write + Drop, E: Write + Drop>(
    rt: &R,
    alloc: Global,
    source: CaptureSource<'_>,
    options: CaptureOptions<'_>,
    out: W,
    messages: &mut ErrMessages<E>,
) -> Result<(), ProgramFault> {
    match options.mode {
        Mode::Csv => {
            let rows = ElementRows::new(alloc, options.clocks, out);
            show_on(rt, alloc, source, rows, messages)
        }
        _ => show_on(rt, alloc, source, ListTable::new(alloc, out), messages),
    }
}

/// Tells the session in words.
pub fn show_story<R: Files, W: Write + Drop, E: Write + Drop>(
    rt: &R,
    alloc: Global,
    source: CaptureSource<'_>,
    out: W,
    messages: &mut ErrMessages<E>,
) -> Result<(), ProgramFault> {
    let story = Story::new(alloc, source.form, out);
    let (story, broken) = read_samples(rt, alloc, source, story, messages)?;
    match story.finish() {
        Ok(_out) => end_by(broken),
        Err(error) => Err(fault_of(&error)),
    }
}

/// Shows the samples of a capture on a sheet.
fn show_on<R: Files, S: CaptureSheet + Drop, E: Write + Drop>(
    rt: &R,
    alloc: Global,
    source: CaptureSource<'_>,
    sheet: S,
    messages: &mut ErrMessages<E>,
) -> Result<(), ProgramFault> {
    let (sheet, broken) = read_samples(rt, alloc, source, sheet, messages)?;
    match sheet.print() {
        Ok(()) => end_by(broken),
        Err(error) => Err(fault_of(&error)),
    }
}

/// Why it isn't printed.
fn fault_of(error: &io::Error) -> ProgramFault {
    match error.kind() {
        ErrorKind::OutOfMemory => ProgramFault::MEMORY,
        _ => ProgramFault::Unprinted,
    }
}

/// The fault that broke a capture off, if one did.
pub fn end_by(broken: Option<CaptureReadFault>) -> Result<(), ProgramFault> {
    match broken {
        Some(fault) => Err(ProgramFault::Capture(fault)),
        None => Ok(()),
    }
}
