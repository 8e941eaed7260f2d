//! A channel of a group.
ghost use Rattle.std.specs.Prelude.{◌≡◌, IfOk, Some, codes, string_bytes};
ghost use Rattle.std.specs.Option.{option_map};
ghost use Rattle.mdf_file.specs.Describing.{told_channel, told_conversion};
ghost use Rattle.mdf_groups.specs.Channels.{channel_at};

use mdf_blocks::{ChannelKind, ValuePlace};
use mdf_file::{NewChannel, NewConversion};
use std::alloc::{AllocError, Global};

/// A channel whose values stand at a place.
pub fn channel_at(
    alloc: Global,
    name: &str,
    unit: Option<String>,
    conversion: Option<NewConversion>,
    kind: ChannelKind,
    place: ValuePlace,
) -> Result<NewChannel, AllocError>
    ensures { IfOk result (λ channel. told_channel channel
        ≡ channel_at name.now (option_map string_bytes unit)
        (option_map told_conversion conversion) kind place) }
{
    let name = String::from_str(alloc, name)?;
    Ok(NewChannel {
        name,
        unit,
        comment: None,
        conversion,
        kind,
        format: place.format,
        bit_offset: place.bit_offset,
        byte_offset: place.byte_offset,
        bit_count: place.bit_count,
        limits: None,
    })
}
