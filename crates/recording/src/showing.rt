//! Reads the samples of a recording, and prints them.
ghost use Rattle.std.specs.Prelude.{◌≡◌, ◌≢◌, ◌⊎◌, ℕ, List, [], Err, IfErr, IfOk, IfSome, IsOk};
ghost use Rattle.std.specs.Prelude.{None, Ok, OnOk, Some};
ghost use Rattle.std.specs.IoError.{error_kind};
ghost use Rattle.daq_reader.specs.Ready.{ready_lists};
ghost use Rattle.daq_reader.specs.Recorded.{Recorded};
ghost use Rattle.recording.specs.Shown.{IsRead, ShowsAll, ShowsBy};
ghost use Rattle.recording.specs.Stops.{IsFaultOfSamples, IsFront, IsOfStream, IsOfTear, IsWhole};
ghost use Rattle.recording.specs.declared.recording_fault.RecordingFault.TheVariants.{Memory};

use crate::drawing::Drawing;
use crate::messages::Messages;
use crate::mode::Mode;
use crate::recording::read_frames;
use crate::recording_fault::RecordingFault;
use crate::sheet::Sheet;
use crate::source::Source;
use crate::table::Table;
use daq_reader::{reader_of, shapes_of};
use daq_store::Store;
use sample_tables::SampleRows;
use std::alloc::Global;
use std::io::{self, ErrorKind, Read, Write};

/// Reads a recording behind its replies, and prints its samples. It gives the writer back exactly
/// where all of them are printed.
pub fn show_samples<I: Read + Drop, W: Write + Drop, M: Messages>(
    alloc: Global,
    store: &Store,
    mode: Mode,
    from: &mut Source<'_, I, M>,
    out: W,
) -> Result<Option<W>, RecordingFault>
    ensures shown { IfOk result (λ shown. IfSome shown (λ after. ShowsAll mode
        (ready_lists store.now) (I.remaining from.old.input) (I.remaining from.new.input)
        from.old.piece from.new.piece (W.contents out) (W.contents after))) }
    ensures read { OnOk result (IsRead (ready_lists store.now) (I.remaining from.old.input)
        (I.remaining from.new.input) from.old.piece from.new.piece) }
    ensures fault { IfErr result (IsFaultOfSamples (ready_lists store.now)
        (I.remaining from.old.input) (I.remaining from.new.input) from.old.piece from.new.piece) }

    ensures whole { (samples : List (ℕ × Recorded))
        → IsWhole (ready_lists store.now) samples (I.remaining from.old.input) from.old.piece
        → IfErr result IsOfStream }
    ensures torn { (samples : List (ℕ × Recorded))
        → IsFront (ready_lists store.now) samples (I.remaining from.old.input) from.old.piece
        → IfErr result (IsOfTear (I.remaining from.new.input)) }
{
    show_in(alloc, store, mode, from, out)
}

/// The same, in one of the ways to show samples.
fn show_in<I: Read + Drop, W: Write + Drop, M: Messages>(
    alloc: Global,
    store: &Store,
    mode: Mode,
    from: &mut Source<'_, I, M>,
    out: W,
) -> Result<Option<W>, RecordingFault>
    ensures shown { IfOk result (λ shown. IfSome shown (λ after. ShowsAll mode
        (ready_lists store.now) (I.remaining from.old.input) (I.remaining from.new.input)
        from.old.piece from.new.piece (W.contents out) (W.contents after))) }
    ensures read { OnOk result (IsRead (ready_lists store.now) (I.remaining from.old.input)
        (I.remaining from.new.input) from.old.piece from.new.piece) }
    ensures fault { IfErr result (IsFaultOfSamples (ready_lists store.now)
        (I.remaining from.old.input) (I.remaining from.new.input) from.old.piece from.new.piece) }
{
    match mode {
        Mode::Summary => show_table(alloc, store, from, out),
        Mode::Csv => show_rows(alloc, store, from, out),
        Mode::Svg => show_picture(alloc, store, from, out),
    }
}

/// The same, as a table.
fn show_table<I: Read + Drop, W: Write + Drop, M: Messages>(
    alloc: Global,
    store: &Store,
    from: &mut Source<'_, I, M>,
    out: W,
) -> Result<Option<W>, RecordingFault>
    ensures shown { IfOk result (λ shown. IfSome shown (λ after. ShowsAll Mode.Summary
        (ready_lists store.now) (I.remaining from.old.input) (I.remaining from.new.input)
        from.old.piece from.new.piece (W.contents out) (W.contents after))) }
    ensures read { OnOk result (IsRead (ready_lists store.now) (I.remaining from.old.input)
        (I.remaining from.new.input) from.old.piece from.new.piece) }
    ensures fault { IfErr result (IsFaultOfSamples (ready_lists store.now)
        (I.remaining from.old.input) (I.remaining from.new.input) from.old.piece from.new.piece) }
{
    let shapes = shapes_of(alloc, store)?;
    let table = Table::new(alloc, shapes, out)?;
    show_on(alloc, store, from, table)
}

/// The same, as CSV.
fn show_rows<I: Read + Drop, W: Write + Drop, M: Messages>(
    alloc: Global,
    store: &Store,
    from: &mut Source<'_, I, M>,
    out: W,
) -> Result<Option<W>, RecordingFault>
    ensures shown { IfOk result (λ shown. IfSome shown (λ after. ShowsAll Mode.Csv
        (ready_lists store.now) (I.remaining from.old.input) (I.remaining from.new.input)
        from.old.piece from.new.piece (W.contents out) (W.contents after))) }
    ensures read { OnOk result (IsRead (ready_lists store.now) (I.remaining from.old.input)
        (I.remaining from.new.input) from.old.piece from.new.piece) }
    ensures fault { IfErr result (IsFaultOfSamples (ready_lists store.now)
        (I.remaining from.old.input) (I.remaining from.new.input) from.old.piece from.new.piece) }
{
    let shapes = shapes_of(alloc, store)?;
    let rows = SampleRows::new(alloc, shapes, out)?;
    show_on(alloc, store, from, rows)
}

/// The same, as a picture.
fn show_picture<I: Read + Drop, W: Write + Drop, M: Messages>(
    alloc: Global,
    store: &Store,
    from: &mut Source<'_, I, M>,
    out: W,
) -> Result<Option<W>, RecordingFault>
    ensures shown { IfOk result (λ shown. IfSome shown (λ after. ShowsAll Mode.Svg
        (ready_lists store.now) (I.remaining from.old.input) (I.remaining from.new.input)
        from.old.piece from.new.piece (W.contents out) (W.contents after))) }
    ensures read { OnOk result (IsRead (ready_lists store.now) (I.remaining from.old.input)
        (I.remaining from.new.input) from.old.piece from.new.piece) }
    ensures fault { IfErr result (IsFaultOfSamples (ready_lists store.now)
        (I.remaining from.old.input) (I.remaining from.new.input) from.old.piece from.new.piece) }
{
    let drawing = Drawing::new(alloc, store, out)?;
    show_on(alloc, store, from, drawing)
}

/// Reads a recording behind its replies, and prints its samples on a sheet that has none yet. It
/// gives the sheet's writer back exactly if all of them are printed.
pub fn show_on<I: Read + Drop, M: Messages, S: Sheet + Drop>(
    alloc: Global,
    store: &Store,
    from: &mut Source<'_, I, M>,
    sheet: S,
) -> Result<Option<S::Out>, RecordingFault>
    requires none { S.handed sheet ≡ [] }
    ensures shown { IfOk result (λ shown. IfSome shown (λ out. ShowsBy
        (λ plans samples. S.IsPrinted sheet samples out) (ready_lists store.now)
        (I.remaining from.old.input) (I.remaining from.new.input)
        from.old.piece from.new.piece)) }
    ensures read { OnOk result (IsRead (ready_lists store.now) (I.remaining from.old.input)
        (I.remaining from.new.input) from.old.piece from.new.piece) }
    ensures fault { IfErr result (IsFaultOfSamples (ready_lists store.now)
        (I.remaining from.old.input) (I.remaining from.new.input) from.old.piece from.new.piece) }
{
    let mut reader = reader_of(alloc, store)?;
    let mut sheet = sheet;
    let outcome = read_frames(
        &mut from.input,
        &mut from.piece,
        &mut reader,
        &mut sheet,
        from.messages,
    );
    from.messages.end_progress();
    let printing = sheet.print();
    concluded(outcome, printing)
}

/// What comes of a recording that was read, or breaks off, and of what was printed of it: where it
/// breaks off, that is the fault; else lack of memory is one, and the writer is given back exactly
/// if all was printed.
pub fn concluded<W: Drop>(
    outcome: Result<(), RecordingFault>,
    printing: io::Result<W>,
) -> Result<Option<W>, RecordingFault>
    ensures fault { IfErr outcome (λ fault. result ≡ Err fault) }
    ensures err { IfErr result (λ fault. (outcome ≡ Err fault) ⊎ (fault ≡ Memory)) }
    ensures read { OnOk result (IsOk outcome) }
    ensures printed { IsOk outcome → IfOk printing (λ out. result ≡ Ok (Some out)) }
    ensures shown { IfOk result (λ shown. IfSome shown (λ after. IsOk outcome
        × (printing ≡ Ok after))) }
    ensures memory { IsOk outcome → IfErr printing (λ error.
        error_kind error ≡ ErrorKind.OutOfMemory → result ≡ Err Memory) }
    ensures other { IsOk outcome → IfErr printing (λ error.
        error_kind error ≢ ErrorKind.OutOfMemory → result ≡ Ok None) }
{
    outcome?;
    match printing {
        Ok(out) => Ok(Some(out)),
        Err(error) if error.kind() == ErrorKind::OutOfMemory => Err(RecordingFault::Memory),
        Err(_) => Ok(None),
    }
}
