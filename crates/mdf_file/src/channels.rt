//! Channels that a file is to have.
ghost use Rattle.std.specs.Prelude.{◌≡◌, ◌≢◌, ◌+◌, ◌%◌, ◌^◌, ◌<◌, IfOk, codes, length, map};
ghost use Rattle.mdf_blocks.specs.Blocks.{IsBlockAt};
ghost use Rattle.mdf_blocks.specs.Ranges.{FitsChannel};
ghost use Rattle.mdf_blocks.specs.Tables.{cn_body, cn_links};
ghost use Rattle.mdf_blocks.specs.Told.{IsChannelAt, TellsChannels};
ghost use Rattle.mdf_file.specs.Adding.{Adds};
ghost use Rattle.mdf_file.specs.Describing.{told_channel};

use crate::conversions::add_conversion;
use crate::mdf_fault::MdfFault;
use crate::new_channel::NewChannel;
use crate::next_place::next_place;
use crate::texts::{add_optional, add_text};
use mdf_blocks::{Channel, push_channel};
use std::alloc::Global;

/// Adds the channels of a group, and gives the place of the first, or 0.
pub fn add_channels(
    alloc: Global,
    out: &mut Vec<u8>,
    base: u64,
    channels: &[NewChannel],
) -> Result<u64, MdfFault>
    requires some { 0 < base }
    requires aligned { (base + length out.old.items) % 8 ≡ 0 }
    ensures { IfOk result (λ link. Adds base out.old.items out.new.items
        (λ bytes. TellsChannels bytes link (map told_channel channels.now))) }
{
    let mut next = 0;
    for behind in 0..channels.len() {
        let channel = &channels[channels.len() - 1 - behind];
        next = add_channel(alloc, out, base, channel, next)?;
    }
    Ok(next)
}

/// Adds a channel with its texts and its conversion, and gives its place.
fn add_channel(
    alloc: Global,
    out: &mut Vec<u8>,
    base: u64,
    channel: &NewChannel,
    next: u64,
) -> Result<u64, MdfFault>
    requires some { 0 < base }
    requires aligned { (base + length out.old.items) % 8 ≡ 0 }
    ensures { IfOk result (λ link. Adds base out.old.items out.new.items
        (λ bytes. (link ≢ 0) × IsChannelAt bytes link (told_channel channel.now) next)) }
{
    let name = add_text(out, base, &channel.name)?;
    let unit = add_optional(out, base, &channel.unit)?;
    let comment = add_optional(out, base, &channel.comment)?;
    let conversion = add_conversion(alloc, out, base, &channel.conversion)?;
    let block = Channel {
        next,
        name,
        conversion,
        unit,
        comment,
        kind: channel.kind,
        format: channel.format,
        bit_offset: channel.bit_offset,
        byte_offset: channel.byte_offset,
        bit_count: channel.bit_count,
        limits: channel.limits,
    };
    add_block(out, base, &block)
}

/// Adds the block of a channel.
fn add_block(out: &mut Vec<u8>, base: u64, block: &Channel) -> Result<u64, MdfFault>
    requires some { 0 < base }
    requires aligned { (base + length out.old.items) % 8 ≡ 0 }
    ensures { IfOk result (λ link. FitsChannel block.now × Adds base out.old.items out.new.items
        (λ bytes. (link ≢ 0) × IsBlockAt bytes link (codes "##CN") (cn_links block.now)
        (cn_body block.now))) }
{
    read(*block);
    let place = next_place(base, out)?;
    push_channel(out, block)?;
    Ok(place)
}

/// What each channel's numbers fit.
fn read(block: Channel)
    ensures links { (block.next < 2 ^ 64) × (block.name < 2 ^ 64) × (block.conversion < 2 ^ 64)
        × (block.unit < 2 ^ 64) × (block.comment < 2 ^ 64) }
    ensures fits { FitsChannel block }
{
    let _ = [
        block.next,
        block.name,
        block.conversion,
        block.unit,
        block.comment,
    ];
    let _ = [block.byte_offset, block.bit_count];
    if let Some(limits) = block.limits {
        let _ = [limits.least, limits.greatest];
    }
}
