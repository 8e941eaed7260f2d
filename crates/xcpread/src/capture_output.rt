//! Writes a capture to a measurement file.

use crate::capture_program::{CaptureSource, read_samples};
use crate::capture_views::end_by;
use crate::command_line::CaptureOptions;
use crate::err_messages::ErrMessages;
use crate::mdf_about::about;
use crate::output_file::make_output;
use crate::program_fault::ProgramFault;
use crate::run_output::tell_raw;
use capture_tables::CaptureFile;
use mdf_file::{MdfOut, SeekOut};
use mdf_groups::GroupFault;
use std::alloc::Global;
use std::io::Write;
use std::rt::Files;
use value_tables::Column;

/// Where the values of a capture are written to.
#[derive(Clone, Copy)]
pub struct CaptureOutput<'a> {
    pub path: &'a str,
    /// When the first packet was captured, in nanoseconds since 1970-01-01, UTC, if that is known.
    pub start: Option<u64>,
}

/// Writes columns to a measurement file.
pub fn write_columns<R: Files, E: Write + Drop>(
    rt: &R,
    alloc: Global,
    source: CaptureSource<'_>,
    options: CaptureOptions<'_>,
    output: CaptureOutput<'_>,
    columns: Vec<Column<'_>>,
    messages: &mut ErrMessages<E>,
) -> Result<(), ProgramFault> {
    tell_raw(alloc, &columns, messages)?;
    let said = about(alloc, output.start)?;
    let inputs = [options.path, options.a2l.unwrap_or("")];
    let file = make_output(rt, output.path, &inputs, messages)?;
    let sheet = CaptureFile::new(alloc, said, output.start, columns, SeekOut::new(file));
    write_samples(rt, alloc, source, sheet.map_err(fault_of)?, messages)
}

/// Writes the samples of a capture to a file, to its end.
fn write_samples<R: Files, O: MdfOut + Drop, E: Write + Drop>(
    rt: &R,
    alloc: Global,
    source: CaptureSource<'_>,
    sheet: CaptureFile<'_, O>,
    messages: &mut ErrMessages<E>,
) -> Result<(), ProgramFault> {
    let (sheet, broken) = read_samples(rt, alloc, source, sheet, messages)?;
    match sheet.finish() {
        Ok(_out) => end_by(broken),
        Err(fault) => Err(fault_of(fault)),
    }
}

/// Why the file isn't written.
fn fault_of(fault: GroupFault) -> ProgramFault {
    if fault.is_memory() {
        return ProgramFault::MEMORY;
    }
    ProgramFault::Unwritten
}
