//! Writes a recording to a measurement file.
ghost use Rattle.std.specs.Prelude.{◌≤◌, IfOk};

use crate::command_line::Options;
use crate::err_messages::ErrMessages;
use crate::mdf_about::about;
use crate::output_file::make_output;
use crate::program_fault::ProgramFault;
use crate::why_unread::tell_unread;
use daq_reader::shapes_of;
use mdf_file::SeekOut;
use mdf_groups::is_lost;
use program_input::TextFault;
use recording::{
    FileValues, RecordingFault, RunRecording, Source, begin_recording, chosen_columns,
    tell_not_shown, values_of, write_values,
};
use std::alloc::{AllocError, Global};
use std::fs;
use std::io::{Read, Write};
use std::rt::Files;
use value_tables::Column;

/// Reads a recording, and writes the values of its samples to a file at a path.
pub fn write_recorded<R: Files, E: Write + Drop>(
    rt: &R,
    alloc: Global,
    options: Options<'_>,
    path: &str,
    recorded: &RunRecording<'_>,
    messages: &mut ErrMessages<E>,
) -> Result<u8, ProgramFault>
    ensures { IfOk result (λ status. status ≤ 1) }
{
    match fs::open(rt, recorded.name) {
        Ok(file) => {
            let mut from = Source::new(alloc, file, messages);
            let written = write_from(rt, alloc, options, path, recorded, &mut from);
            if let Err(ProgramFault::Recording(fault)) = written {
                tell_unread(rt, alloc, recorded, fault, &mut from.messages.why);
            }
            written
        }
        Err(error) => {
            let fault = TextFault::Unreadable.or_memory(&error);
            messages.why.tell_file(recorded.name, error);
            Err(ProgramFault::Recording(RecordingFault::of_text(fault)))
        }
    }
}

/// The same, of a file that is open. The output is made once all else is known to be right.
fn write_from<R: Files, I: Read + Drop, E: Write + Drop>(
    rt: &R,
    alloc: Global,
    options: Options<'_>,
    path: &str,
    recorded: &RunRecording<'_>,
    from: &mut Source<'_, I, ErrMessages<E>>,
) -> Result<u8, ProgramFault>
    ensures { IfOk result (λ status. status ≤ 1) }
{
    let Some(description) = recorded.description else {
        return Err(ProgramFault::CommandLine);
    };
    begin_recording(alloc, recorded, from)?;
    let values = values_of(options.view, description);
    let shapes = shapes_of(alloc, recorded.store)?;
    let columns = chosen_columns(alloc, values, &shapes, from.messages)?;
    tell_not_shown(values, &shapes, from.messages);
    let values = FileValues {
        columns: &columns,
        tick: values.tick,
    };
    write_chosen(rt, alloc, options, path, recorded, values, from)
}

/// Makes the output, and writes these values to it.
fn write_chosen<R: Files, I: Read + Drop, E: Write + Drop>(
    rt: &R,
    alloc: Global,
    options: Options<'_>,
    path: &str,
    recorded: &RunRecording<'_>,
    values: FileValues<'_>,
    from: &mut Source<'_, I, ErrMessages<E>>,
) -> Result<u8, ProgramFault>
    ensures { IfOk result (λ status. status ≤ 1) }
{
    tell_raw(alloc, values.columns, from.messages)?;
    let inputs = [options.run, options.frames, options.a2l.unwrap_or("")];
    let file = make_output(rt, path, &inputs, from.messages)?;
    let said = about(alloc, None)?;
    let out = SeekOut::new(file);
    match write_values(alloc, recorded.store, values, said, from, out)? {
        Some(_) => Ok(0),
        None => Err(ProgramFault::Unwritten),
    }
}

/// Tells how many columns have a conversion that the file can't have, if there are any.
pub fn tell_raw<E: Write + Drop>(
    alloc: Global,
    columns: &[Column<'_>],
    messages: &mut ErrMessages<E>,
) -> Result<(), AllocError> {
    let mut raw = 0usize;
    for column in columns {
        if is_lost(alloc, column)? {
            raw = raw.saturating_add(1);
        }
    }
    messages.tell_raw(raw, columns.len());
    Ok(())
}
