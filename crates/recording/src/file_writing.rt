//! Writes the values of a recording to a measurement file.
ghost use Rattle.std.specs.Prelude.{◌≡◌, ℕ, List, [], IfErr, IfOk, IfSome};
ghost use Rattle.daq_reader.specs.Ready.{ready_lists};
ghost use Rattle.daq_reader.specs.Recorded.{Recorded};
ghost use Rattle.recording.specs.Measured.{IsMeasured};
ghost use Rattle.recording.specs.Shown.{ShowsBy};
ghost use Rattle.recording.specs.Stops.{IsFaultOfSamples, IsFront, IsOfStream, IsOfTear, IsWhole};

use crate::file_sheet::FileSheet;
use crate::file_values::FileValues;
use crate::messages::Messages;
use crate::recording_fault::RecordingFault;
use crate::showing::show_on;
use crate::source::Source;
use daq_reader::shapes_of;
use daq_store::Store;
use mdf_file::{About, MdfOut};
use std::alloc::Global;
use std::io::Read;

/// Reads a recording behind its replies, and writes the values of its samples, to an out that has
/// no bytes. It gives the out back exactly if all of them are written.
pub fn write_values<I: Read + Drop, O: MdfOut + Drop, M: Messages>(
    alloc: Global,
    store: &Store,
    values: FileValues<'_>,
    about: About,
    from: &mut Source<'_, I, M>,
    out: O,
) -> Result<Option<O>, RecordingFault>
    requires empty { IfSome (O.known out) (λ bytes. bytes ≡ []) }
    ensures written { IfOk result (λ written. IfSome written (λ after. ShowsBy
        (λ plans samples. IsMeasured about values.entry.tick values.entry.columns.now plans samples
        (O.known out) (O.known after)) (ready_lists store.now)
        (I.remaining from.old.input) (I.remaining from.new.input)
        from.old.piece from.new.piece)) }
    ensures fault { IfErr result (IsFaultOfSamples (ready_lists store.now)
        (I.remaining from.old.input) (I.remaining from.new.input) from.old.piece from.new.piece) }

    ensures whole { (samples : List (ℕ × Recorded))
        → IsWhole (ready_lists store.now) samples (I.remaining from.old.input) from.old.piece
        → IfErr result IsOfStream }
    ensures torn { (samples : List (ℕ × Recorded))
        → IsFront (ready_lists store.now) samples (I.remaining from.old.input) from.old.piece
        → IfErr result (IsOfTear (I.remaining from.new.input)) }
{
    written_of(alloc, store, values, about, from, out)
}

/// The same.
fn written_of<I: Read + Drop, O: MdfOut + Drop, M: Messages>(
    alloc: Global,
    store: &Store,
    values: FileValues<'_>,
    about: About,
    from: &mut Source<'_, I, M>,
    out: O,
) -> Result<Option<O>, RecordingFault>
    requires empty { IfSome (O.known out) (λ bytes. bytes ≡ []) }
    ensures written { IfOk result (λ written. IfSome written (λ after. ShowsBy
        (λ plans samples. IsMeasured about values.entry.tick values.entry.columns.now plans samples
        (O.known out) (O.known after)) (ready_lists store.now)
        (I.remaining from.old.input) (I.remaining from.new.input)
        from.old.piece from.new.piece)) }
    ensures fault { IfErr result (IsFaultOfSamples (ready_lists store.now)
        (I.remaining from.old.input) (I.remaining from.new.input) from.old.piece from.new.piece) }
{
    let shapes = shapes_of(alloc, store)?;
    match FileSheet::new(alloc, about, values, shapes, out) {
        Ok(sheet) => show_on(alloc, store, from, sheet),
        Err(fault) if fault.is_memory() => Err(RecordingFault::Memory),
        Err(_) => Ok(None),
    }
}
