//! Reads the samples of a recording, and prints the values of what an A2L file describes.
ghost use Rattle.std.specs.Prelude.{◌≡◌, ◌⊎◌, Err, IfErr, IfOk, IfSome, IsErrOf, OnOk};
ghost use Rattle.std.specs.Option.{option_copied};
ghost use Rattle.daq_reader.specs.Lists.{plans_of};
ghost use Rattle.daq_reader.specs.Ready.{ready_lists};
ghost use Rattle.recording.specs.ByName.{AreAsked, IsByName, IsFaultOfValues, ShowsByName};
ghost use Rattle.recording.specs.declared.recording_fault.RecordingFault.TheVariants.{Memory};
ghost use Rattle.recording.specs.Shown.{IsRead, ShowsBy};
ghost use Rattle.recording.specs.Stops.{IsFaultOfSamples};
ghost use Rattle.recording.specs.declared.mode.Mode.TheVariants as mode;
ghost use Rattle.recording.specs.declared.recording_fault.RecordingFault.TheVariants.{NoValue};
ghost use Rattle.value_tables.specs.Columns.{AreColumns, HasChosen};
ghost use Rattle.value_tables.specs.Holders.{lists_hold};

use crate::curve_sheet::CurveSheet;
use crate::messages::Messages;
use crate::mode::Mode;
use crate::not_shown::tell_not_shown;
use crate::recording_fault::RecordingFault;
use crate::showing::show_on;
use crate::source::Source;
use crate::tally_sheet::TallySheet;
use crate::view::View;
use a2l::Description;
use daq_reader::shapes_of;
use daq_store::Store;
use measured_values::Tick;
use std::alloc::Global;
use std::io::{Read, Write};
use value_tables::{Column, Holder, ValueRows, columns_of, unknown_name};

/// Which values of a recording or a capture are shown, and how.
#[derive(Clone, Copy)]
pub struct Values<'a> {
    /// What an A2L file says.
    pub description: &'a Description,
    /// The names of those that are shown, with commas between them; `None`: all.
    pub only: Option<&'a str>,
    /// How long a tick is, if that is known.
    pub tick: Option<Tick>,
    pub mode: Mode,
}

/// The columns of the values, and how long a tick is, if that is known.
#[derive(Drop)]
struct Shown<'a> {
    columns: Vec<Column<'a>>,
    tick: Option<Tick>,
}

/// Which values of a description a view asks for, and how: how long a tick is it says before the
/// A2L file.
pub fn values_of<'a>(view: View<'a>, description: &'a Description) -> Values<'a>
    ensures { AreAsked view.entry description.now result }
{
    Values {
        description,
        only: view.only,
        tick: view.tick.or(description.tick),
        mode: view.mode,
    }
}

/// Reads a recording behind its replies, and prints the values of its samples. It gives the writer
/// back exactly if all of them are printed.
pub fn show_values<I: Read + Drop, W: Write + Drop, M: Messages>(
    alloc: Global,
    store: &Store,
    values: Values<'_>,
    from: &mut Source<'_, I, M>,
    out: W,
) -> Result<Option<W>, RecordingFault>
    ensures shown { IfOk result (λ shown. IfSome shown (λ after. ShowsByName values.entry
        (ready_lists store.now) (I.remaining from.old.input) (I.remaining from.new.input)
        from.old.piece from.new.piece (W.contents out) (W.contents after))) }
    ensures read { OnOk result (IsRead (ready_lists store.now) (I.remaining from.old.input)
        (I.remaining from.new.input) from.old.piece from.new.piece) }
    ensures fault { IfErr result (IsFaultOfValues values.entry (ready_lists store.now)
        (I.remaining from.old.input) (I.remaining from.new.input) from.old.piece from.new.piece) }
    ensures no_value { ¬ HasChosen values.entry.description.now
        (lists_hold (plans_of (ready_lists store.now))) (option_copied values.entry.only)
        → (result ≡ Err NoValue) ⊎ (result ≡ Err Memory) }
{
    let shapes = shapes_of(alloc, store)?;
    let columns = chosen_columns(alloc, values, &shapes, from.messages)?;
    tell_not_shown(values, &shapes, from.messages);
    let shown = Shown {
        columns,
        tick: values.tick,
    };
    match values.mode {
        Mode::Summary => show_tallies(alloc, store, shown, from, out),
        Mode::Csv => show_rows(alloc, store, shown, from, out),
        Mode::Svg => show_curves(alloc, store, shown, from, out),
    }
}

/// The columns of the values that are chosen. A name that no measurement has whose bytes are there
/// is a fault, whose line goes on with the name; and so is it if there is no column.
pub fn chosen_columns<'a, H: Holder, M: Messages>(
    alloc: Global,
    values: Values<'a>,
    holder: &H,
    messages: &mut M,
) -> Result<Vec<Column<'a>>, RecordingFault>
    ensures are { IfOk result (λ columns. AreColumns values.entry.description.now
        (H.held holder.now) (option_copied values.entry.only) columns.items) }
    ensures chosen { IfOk result (λ _. HasChosen values.entry.description.now (H.held holder.now)
        (option_copied values.entry.only)) }
    ensures err { IfErr result (λ fault. (fault ≡ NoValue) ⊎ (fault ≡ Memory)) }
    ensures no_value { IsErrOf result NoValue → ¬ HasChosen values.entry.description.now
        (H.held holder.now) (option_copied values.entry.only) }
{
    if let Some(name) = unknown_name(values.description, holder, values.only) {
        messages.tell_unknown(name);
        return Err(RecordingFault::NoValue);
    }
    let columns = columns_of(alloc, values.description, holder, values.only)?;
    if columns.is_empty() {
        return Err(RecordingFault::NoValue);
    }
    Ok(columns)
}

/// The same, as a table.
fn show_tallies<I: Read + Drop, W: Write + Drop, M: Messages>(
    alloc: Global,
    store: &Store,
    shown: Shown<'_>,
    from: &mut Source<'_, I, M>,
    out: W,
) -> Result<Option<W>, RecordingFault>
    ensures shown { IfOk result (λ w. IfSome w (λ after. ShowsBy (IsByName mode.Summary
        shown.entry.tick shown.entry.columns.items (W.contents out) (W.contents after))
        (ready_lists store.now) (I.remaining from.old.input) (I.remaining from.new.input)
        from.old.piece from.new.piece)) }
    ensures read { OnOk result (IsRead (ready_lists store.now) (I.remaining from.old.input)
        (I.remaining from.new.input) from.old.piece from.new.piece) }
    ensures fault { IfErr result (IsFaultOfSamples (ready_lists store.now)
        (I.remaining from.old.input) (I.remaining from.new.input) from.old.piece from.new.piece) }
{
    let shapes = shapes_of(alloc, store)?;
    let tallies = TallySheet::new(alloc, shown.columns, shapes, out)?;
    show_on(alloc, store, from, tallies)
}

/// The same, as CSV.
fn show_rows<I: Read + Drop, W: Write + Drop, M: Messages>(
    alloc: Global,
    store: &Store,
    shown: Shown<'_>,
    from: &mut Source<'_, I, M>,
    out: W,
) -> Result<Option<W>, RecordingFault>
    ensures shown { IfOk result (λ w. IfSome w (λ after. ShowsBy (IsByName mode.Csv
        shown.entry.tick shown.entry.columns.items (W.contents out) (W.contents after))
        (ready_lists store.now) (I.remaining from.old.input) (I.remaining from.new.input)
        from.old.piece from.new.piece)) }
    ensures read { OnOk result (IsRead (ready_lists store.now) (I.remaining from.old.input)
        (I.remaining from.new.input) from.old.piece from.new.piece) }
    ensures fault { IfErr result (IsFaultOfSamples (ready_lists store.now)
        (I.remaining from.old.input) (I.remaining from.new.input) from.old.piece from.new.piece) }
{
    let shapes = shapes_of(alloc, store)?;
    let rows = ValueRows::new(alloc, shown.tick, shown.columns, shapes, out)?;
    show_on(alloc, store, from, rows)
}

/// The same, as curves.
fn show_curves<I: Read + Drop, W: Write + Drop, M: Messages>(
    alloc: Global,
    store: &Store,
    shown: Shown<'_>,
    from: &mut Source<'_, I, M>,
    out: W,
) -> Result<Option<W>, RecordingFault>
    ensures shown { IfOk result (λ w. IfSome w (λ after. ShowsBy (IsByName mode.Svg
        shown.entry.tick shown.entry.columns.items (W.contents out) (W.contents after))
        (ready_lists store.now) (I.remaining from.old.input) (I.remaining from.new.input)
        from.old.piece from.new.piece)) }
    ensures read { OnOk result (IsRead (ready_lists store.now) (I.remaining from.old.input)
        (I.remaining from.new.input) from.old.piece from.new.piece) }
    ensures fault { IfErr result (IsFaultOfSamples (ready_lists store.now)
        (I.remaining from.old.input) (I.remaining from.new.input) from.old.piece from.new.piece) }
{
    let shapes = shapes_of(alloc, store)?;
    let curves = CurveSheet::new(alloc, shown.tick, shown.columns, shapes, out)?;
    show_on(alloc, store, from, curves)
}
