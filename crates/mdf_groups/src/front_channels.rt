//! The channels of what a record begins with, and of its mark.
ghost use Rattle.std.specs.Prelude.{◌≡◌, IfOk, Some, length, map, string_bytes};
ghost use Rattle.mdf_file.specs.Describing.{told_channel, told_conversion};
ghost use Rattle.mdf_groups.specs.Channels.{front_channels, front_names, index_channel};
ghost use Rattle.mdf_groups.specs.Channels.{integer_place, key, mark_channel, marks, ticks_channel};
ghost use Rattle.mdf_groups.specs.Channels.{time_channel};
ghost use Rattle.mdf_groups.specs.declared.front.Front.TheVariants.{Nothing, Seconds, Ticks};

use crate::channel::channel_at;
use crate::front::Front;
use mdf_blocks::{Axis, ChannelKind, ConversionKind, ValueFormat, ValuePlace};
use mdf_file::{NewChannel, NewConversion};
use measured_values::ByteOrder;
use std::alloc::{AllocError, Global};
use std::num::nearest_u64_to_f64;

/// The names of these channels, if no column has them.
pub fn front_names(front: Front) -> &'static [&'static str]
    ensures { map (λ w. w.now) result.now ≡ front_names front }
{
    match front {
        Front::Seconds => &["t", "overload"],
        Front::Ticks => &["index", "ticks", "overload"],
        Front::Nothing => &["index", "overload"],
    }
}

/// The channels of what a record begins with, and of its mark, by their names.
pub fn front_channels(
    alloc: Global,
    front: Front,
    names: &[String],
) -> Result<Vec<NewChannel>, AllocError>
    requires { length names.now ≡ length (front_names front) }
    ensures { IfOk result (λ channels. map told_channel channels.items
        ≡ front_channels front (map string_bytes names.now)) }
{
    match front {
        Front::Seconds => seconds_channels(alloc, names),
        Front::Ticks => ticks_channels(alloc, names),
        Front::Nothing => nothing_channels(alloc, names),
    }
}

/// The channels of records that begin with a time in seconds.
fn seconds_channels(alloc: Global, names: &[String]) -> Result<Vec<NewChannel>, AllocError>
    requires { length names.now ≡ 2 }
    ensures { IfOk result (λ channels. map told_channel channels.items
        ≡ front_channels Seconds (map string_bytes names.now)) }
{
    let time = time_channel(alloc, &names[0])?;
    let mark = mark_channel(alloc, &names[1], 8)?;
    Ok(Vec::from_array(alloc, [time, mark])?)
}

/// The channels of records that begin with a time in ticks.
fn ticks_channels(alloc: Global, names: &[String]) -> Result<Vec<NewChannel>, AllocError>
    requires { length names.now ≡ 3 }
    ensures { IfOk result (λ channels. map told_channel channels.items
        ≡ front_channels Ticks (map string_bytes names.now)) }
{
    let index = index_channel(alloc, &names[0])?;
    let ticks = ticks_channel(alloc, &names[1])?;
    let mark = mark_channel(alloc, &names[2], 8)?;
    Ok(Vec::from_array(alloc, [index, ticks, mark])?)
}

/// The channels of records that begin with their mark.
fn nothing_channels(alloc: Global, names: &[String]) -> Result<Vec<NewChannel>, AllocError>
    requires { length names.now ≡ 2 }
    ensures { IfOk result (λ channels. map told_channel channels.items
        ≡ front_channels Nothing (map string_bytes names.now)) }
{
    let index = index_channel(alloc, &names[0])?;
    let mark = mark_channel(alloc, &names[1], 0)?;
    Ok(Vec::from_array(alloc, [index, mark])?)
}

/// The time in seconds, by which the samples are ordered.
fn time_channel(alloc: Global, name: &str) -> Result<NewChannel, AllocError>
    ensures { IfOk result (λ channel. told_channel channel ≡ time_channel name.now) }
{
    let unit = String::from_str(alloc, "s")?;
    let place = ValuePlace {
        format: ValueFormat::Float(ByteOrder::MsbLast),
        byte_offset: 0,
        bit_offset: 0,
        bit_count: 64,
    };
    channel_at(
        alloc,
        name,
        Some(unit),
        None,
        ChannelKind::Master(Axis::Time),
        place,
    )
}

/// The number of the sample, by which they are ordered if no time is known in seconds.
fn index_channel(alloc: Global, name: &str) -> Result<NewChannel, AllocError>
    ensures { IfOk result (λ channel. told_channel channel ≡ index_channel name.now) }
{
    channel_at(
        alloc,
        name,
        None,
        None,
        ChannelKind::VirtualMaster(Axis::Index),
        integer_place(0, 0),
    )
}

fn ticks_channel(alloc: Global, name: &str) -> Result<NewChannel, AllocError>
    ensures { IfOk result (λ channel. told_channel channel ≡ ticks_channel name.now) }
{
    channel_at(
        alloc,
        name,
        None,
        None,
        ChannelKind::Value,
        integer_place(0, 64),
    )
}

/// The mark of a record, behind a front of so many bytes.
fn mark_channel(alloc: Global, name: &str, front: u32) -> Result<NewChannel, AllocError>
    ensures { IfOk result (λ channel. told_channel channel ≡ mark_channel front name.now) }
{
    let marks = marks(alloc)?;
    channel_at(
        alloc,
        name,
        None,
        Some(marks),
        ChannelKind::Value,
        integer_place(front, 8),
    )
}

/// The place of an unsigned number of so many bits.
fn integer_place(byte_offset: u32, bit_count: u32) -> ValuePlace
    ensures { result ≡ integer_place byte_offset bit_count }
{
    ValuePlace {
        format: ValueFormat::Unsigned(ByteOrder::MsbLast),
        byte_offset,
        bit_offset: 0,
        bit_count,
    }
}

/// What the marks say.
fn marks(alloc: Global) -> Result<NewConversion, AllocError>
    ensures { IfOk result (λ conversion. told_conversion conversion ≡ marks) }
{
    let values = Vec::from_array(alloc, [key(0), key(1), key(2), key(3)])?;
    let none = String::from_str(alloc, "none")?;
    let overload = String::from_str(alloc, "overload")?;
    let gap = String::from_str(alloc, "gap")?;
    let both = String::from_str(alloc, "overload and gap")?;
    let texts = Vec::from_array(
        alloc,
        [Some(none), Some(overload), Some(gap), Some(both), None],
    )?;
    Ok(NewConversion {
        kind: ConversionKind::ValuesToTexts,
        values,
        texts,
    })
}

fn key(mark: u64) -> f64
    ensures { result ≡ key mark }
{
    nearest_u64_to_f64(mark)
}
