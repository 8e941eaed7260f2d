//! Reads the samples of a recording, and prints them in words.
ghost use Rattle.std.specs.Prelude.{IfErr, OnOk};
ghost use Rattle.daq_reader.specs.Ready.{ready_lists};
ghost use Rattle.recording.specs.Shown.{IsRead};
ghost use Rattle.recording.specs.Stops.{IsFaultOfSamples};

use crate::messages::Messages;
use crate::piece::Piece;
use crate::reason::Reason;
use crate::recording::read_frames;
use crate::recording_fault::RecordingFault;
use crate::run_recording::RunRecording;
use crate::sample_lines::SampleLines;
use crate::showing::concluded;
use crate::source::Source;
use daq_reader::{Reader, reader_of, shapes_of};
use explain::{Stop, set_up_story, why_broken};
use sample_tables::Summary;
use std::alloc::Global;
use std::io::{Read, Write};

/// Prints the command packets of a recording with their replies, reads it behind these, and prints
/// a line for each frame of a sample, and the table. It gives the writer back if all is printed.
/// Where it breaks off, it tells why.
pub fn explain_samples<I: Read + Drop, W: Write + Drop, M: Messages>(
    alloc: Global,
    recorded: &RunRecording<'_>,
    from: &mut Source<'_, I, M>,
    out: W,
) -> Result<Option<W>, RecordingFault>
    ensures read { OnOk result (IsRead (ready_lists recorded.now.store.now)
        (I.remaining from.old.input) (I.remaining from.new.input)
        from.old.piece from.new.piece) }
    ensures fault { IfErr result (IsFaultOfSamples (ready_lists recorded.now.store.now)
        (I.remaining from.old.input) (I.remaining from.new.input)
        from.old.piece from.new.piece) }
{
    let story = set_up_story(alloc, recorded.run, recorded.replies)?;
    let shapes = shapes_of(alloc, recorded.store)?;
    let mut reader = reader_of(alloc, recorded.store)?;
    let summary = Summary::new(alloc, shapes.len())?;
    let counter = from.piece.place.counter();
    let mut lines = SampleLines::new(alloc, &story, summary, counter, out);
    let outcome = read_frames(
        &mut from.input,
        &mut from.piece,
        &mut reader,
        &mut lines,
        from.messages,
    );
    from.messages.end_progress();
    let reason = reason_of(alloc, recorded.name, &reader, &from.piece, outcome);
    from.messages.tell_reason(&reason);
    let printing = lines.finish(&shapes);
    concluded(outcome, printing)
}

/// Why a recording breaks off, in words; nothing if it doesn't, or memory for them is refused.
fn reason_of(
    alloc: Global,
    name: &str,
    reader: &Reader,
    piece: &Piece,
    outcome: Result<(), RecordingFault>,
) -> String {
    let Err(RecordingFault::BreaksOff(at)) = outcome else {
        return String::new(alloc);
    };
    let stop = Stop {
        name,
        byte: at.place.byte,
        frame: at.place.frame,
        rest: &piece.bytes,
    };
    let fault = match at.why {
        Reason::Read(fault) => Some(fault),
        Reason::WithinSample => None,
    };
    match why_broken(alloc, stop, reader, fault) {
        Ok(text) => text,
        Err(_) => String::new(alloc),
    }
}
