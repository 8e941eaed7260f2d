//! The channels of a group.
ghost use Rattle.std.specs.Prelude.{◌≡◌, IfOk, OnOk, length, map, string_bytes};
ghost use Rattle.mdf_file.specs.Describing.{told_channel};
ghost use Rattle.mdf_groups.specs.Channels.{AddsChannels, AreChannels, wanted_names};
ghost use Rattle.mdf_groups.specs.Names.{AreNames};

use crate::column_channel::column_channel;
use crate::front::Front;
use crate::front_channels::{front_channels, front_names};
use crate::names::names_of;
use crate::placed_column::PlacedColumn;
use crate::record_form::RecordForm;
use mdf_blocks::ValuePlace;
use mdf_file::NewChannel;
use std::alloc::{AllocError, Global};

/// The channels of a group whose records have this form: of what these begin with, of their mark,
/// and of each column, in their order. No two have the same name.
pub fn channels_of(
    alloc: Global,
    form: &RecordForm,
    columns: &[PlacedColumn<'_>],
) -> Result<Vec<NewChannel>, AllocError>
    requires { length form.now.places ≡ length columns.now }
    ensures { IfOk result (λ channels. AreChannels form.now columns.now
        (map told_channel channels.items)) }
{
    let names = group_names(alloc, form.front(), columns)?;
    let count = columns.len();
    let mut channels = front_channels(alloc, form.front(), &names[count..])?;
    add_columns(
        alloc,
        &mut channels,
        columns,
        form.places(),
        &names[..count],
    )?;
    Ok(channels)
}

/// The names of the columns, and then those of the channels before them.
fn group_names(
    alloc: Global,
    front: Front,
    columns: &[PlacedColumn<'_>],
) -> Result<Vec<String>, AllocError>
    ensures { IfOk result (λ names. AreNames (wanted_names front columns.now)
        (map string_bytes names.items)) }
{
    let mut wanted = Vec::new(alloc);
    for column in columns {
        wanted.push(column.column.name)?;
    }
    wanted.extend_from_slice(front_names(front))?;
    names_of(alloc, &wanted)
}

/// Appends the channels of columns.
fn add_columns(
    alloc: Global,
    channels: &mut Vec<NewChannel>,
    columns: &[PlacedColumn<'_>],
    places: &[ValuePlace],
    names: &[String],
) -> Result<(), AllocError>
    requires places { length places.now ≡ length columns.now }
    requires names { length names.now ≡ length columns.now }
    ensures { OnOk result (AddsChannels columns.now places.now (map string_bytes names.now)
        (map told_channel channels.old.items) (map told_channel channels.new.items)) }
{
    for i in 0..columns.len() {
        let channel = column_channel(alloc, &columns[i].column, places[i], &names[i])?;
        channels.push(channel)?;
    }
    Ok(())
}
