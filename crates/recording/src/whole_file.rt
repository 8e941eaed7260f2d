//! Shows the recording of a file, from the replies with which it begins.
ghost use Rattle.std.specs.Prelude.{ℕ, List, [], IfErr, IfOk, IfSome, OnOk};
ghost use Rattle.std.specs.Option.{option_copied};
ghost use Rattle.daq_reader.specs.Ready.{ready_lists};
ghost use Rattle.daq_reader.specs.Recorded.{Recorded};
ghost use Rattle.recording.specs.Files.{IsFaultBehind, IsFaultOfFile, IsFileWith};
ghost use Rattle.recording.specs.Files.{IsNotOfRecording, IsOfTearOr, IsReadFile};
ghost use Rattle.recording.specs.Files.{ShowsBehind, ShowsFile};
ghost use Rattle.recording.specs.Shown.{IsRead};

use crate::beginning::begin_recording;
use crate::explaining::explain_samples;
use crate::messages::Messages;
use crate::recording_fault::RecordingFault;
use crate::run_recording::RunRecording;
use crate::showing::show_samples;
use crate::source::Source;
use crate::values::{show_values, values_of};
use crate::view::View;
use std::alloc::Global;
use std::io::{Read, Write};

/// Reads the file of a recording, and prints its samples. It gives the writer back exactly if all
/// of them are printed.
pub fn show_recording<I: Read + Drop, W: Write + Drop, M: Messages>(
    alloc: Global,
    view: View<'_>,
    recorded: &RunRecording<'_>,
    from: &mut Source<'_, I, M>,
    out: W,
) -> Result<Option<W>, RecordingFault>
    ensures shown { IfOk result (λ shown. IfSome shown (λ after. ShowsFile view.entry
        recorded.now (I.remaining from.old.input) (I.remaining from.new.input)
        (W.contents out) (W.contents after))) }
    ensures read { OnOk result
        (IsReadFile recorded.now (I.remaining from.old.input) (I.remaining from.new.input)) }
    ensures fault { IfErr result (IsFaultOfFile view.entry recorded.now
        (I.remaining from.old.input) (I.remaining from.new.input)) }

    ensures whole { (samples : List (ℕ × Recorded))
        → IsFileWith recorded.now samples [] (I.remaining from.old.input)
        → IfErr result IsNotOfRecording }
    ensures torn { (samples : List (ℕ × Recorded)) (lost : List ℕ)
        → IsFileWith recorded.now samples lost (I.remaining from.old.input)
        → IfErr result (IsOfTearOr (I.remaining from.new.input)) }
{
    shown_of(alloc, view, recorded, from, out)
}

/// The same.
fn shown_of<I: Read + Drop, W: Write + Drop, M: Messages>(
    alloc: Global,
    view: View<'_>,
    recorded: &RunRecording<'_>,
    from: &mut Source<'_, I, M>,
    out: W,
) -> Result<Option<W>, RecordingFault>
    ensures shown { IfOk result (λ shown. IfSome shown (λ after. ShowsFile view.entry
        recorded.now (I.remaining from.old.input) (I.remaining from.new.input)
        (W.contents out) (W.contents after))) }
    ensures read { OnOk result
        (IsReadFile recorded.now (I.remaining from.old.input) (I.remaining from.new.input)) }
    ensures fault { IfErr result (IsFaultOfFile view.entry recorded.now
        (I.remaining from.old.input) (I.remaining from.new.input)) }
{
    begin_recording(alloc, recorded, from)?;
    show_behind(alloc, view, recorded, from, out)
}

/// Reads a recording behind its replies, and prints its samples as the view asks for. It gives
/// the writer back exactly if all of them are printed.
fn show_behind<I: Read + Drop, W: Write + Drop, M: Messages>(
    alloc: Global,
    view: View<'_>,
    recorded: &RunRecording<'_>,
    from: &mut Source<'_, I, M>,
    out: W,
) -> Result<Option<W>, RecordingFault>
    ensures shown { IfOk result (λ shown. IfSome shown (λ after. ShowsBehind view.entry
        (option_copied recorded.now.description) (ready_lists recorded.now.store.now)
        (I.remaining from.old.input) (I.remaining from.new.input) from.old.piece from.new.piece
        (W.contents out) (W.contents after))) }
    ensures read { OnOk result (IsRead (ready_lists recorded.now.store.now)
        (I.remaining from.old.input) (I.remaining from.new.input) from.old.piece from.new.piece) }
    ensures fault { IfErr result (IsFaultBehind view.entry
        (option_copied recorded.now.description) (ready_lists recorded.now.store.now)
        (I.remaining from.old.input) (I.remaining from.new.input) from.old.piece from.new.piece) }
{
    let store = recorded.store;
    if let Some(description) = recorded.description {
        let values = values_of(view, description);
        return show_values(alloc, store, values, from, out);
    }
    if view.explain {
        return explain_samples(alloc, recorded, from, out);
    }
    show_samples(alloc, store, view.mode, from, out)
}
