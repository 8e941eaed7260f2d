//! The groups of a measurement file, one for each DAQ list.
ghost use Rattle.std.specs.Prelude.{◌≡◌, [], IfOk, OnOk};
ghost use Rattle.mdf_groups.specs.Files.{AddsGroup, group_name};
ghost use Rattle.recording.specs.Measured.{HaveGroups, front_of, placed_in};
ghost use Rattle.recording.specs.Outs.{KeepsUnfinished};
ghost use Rattle.value_tables.specs.Places.{sample_len};

use crate::file_values::FileValues;
use daq_reader::ListShape;
use mdf_file::MdfOut;
use mdf_groups::{Front, GroupFault, GroupFile, PlacedColumn, group_name};
use measured_values::Tick;
use std::alloc::{AllocError, Global};
use value_tables::{Column, place_for, sample_len};

/// Adds the group of each list to a file that has none.
pub fn add_lists<O: MdfOut + Drop>(
    alloc: Global,
    file: &mut GroupFile<O>,
    values: FileValues<'_>,
    shapes: &[ListShape],
) -> Result<(), GroupFault>
    requires none { (file.old.forms ≡ []) × (file.old.file.groups ≡ []) }
    ensures groups { OnOk result (HaveGroups values.entry.tick values.entry.columns.now
        shapes.now [] file.new.forms file.new.file.groups) }
    ensures about { OnOk result (file.new.file.about ≡ file.old.file.about) }
    ensures unfinished { OnOk result
        (KeepsUnfinished file.old.file.bytes file.new.file.bytes) }
{
    for shape in shapes {
        add_list(alloc, file, values, shape)?;
    }
    Ok(())
}

/// Adds the group of a list.
fn add_list<O: MdfOut + Drop>(
    alloc: Global,
    file: &mut GroupFile<O>,
    values: FileValues<'_>,
    shape: &ListShape,
) -> Result<(), GroupFault>
    ensures group { OnOk result (AddsGroup file.old file.new
        (group_name shape.now.list shape.now.channel) (front_of values.entry.tick shape.now)
        (sample_len shape.now) (placed_in shape.now values.entry.columns.now)) }
    ensures unfinished { OnOk result
        (KeepsUnfinished file.old.file.bytes file.new.file.bytes) }
{
    let name = group_name(alloc, shape.list() as u16, shape.channel() as u16)?;
    let placed = placed_in(alloc, shape, values.columns)?;
    file.add(
        name,
        front_of(shape, values.tick),
        sample_len(shape),
        &placed,
    )?;
    Ok(())
}

/// What the records of a list begin with.
fn front_of(shape: &ListShape, tick: Option<Tick>) -> Front
    ensures { result ≡ front_of tick shape.now }
{
    if !shape.stamped() {
        return Front::Nothing;
    }
    match tick {
        Some(_) => Front::Seconds,
        None => Front::Ticks,
    }
}

/// The columns that the samples of a list have, and where. Lack of memory is the only fault.
fn placed_in<'a>(
    alloc: Global,
    shape: &ListShape,
    columns: &[Column<'a>],
) -> Result<Vec<PlacedColumn<'a>>, AllocError>
    ensures { IfOk result (λ placed. placed.items ≡ placed_in shape.now columns.now) }
{
    let mut placed = Vec::new(alloc);
    for column in columns {
        if let Some(at) = place_for(shape, column) {
            placed.push(PlacedColumn {
                column: *column,
                at,
            })?;
        }
    }
    Ok(placed)
}
