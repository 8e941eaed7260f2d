//! Groups that a file is to have.
ghost use Rattle.std.specs.Prelude.{◌≡◌, ◌≢◌, ◌+◌, ◌*◌, ◌%◌, ◌^◌, ◌<◌, List, ℕ, IfOk, Some, codes};
ghost use Rattle.std.specs.Prelude.{◌++◌, OnOk, length};
ghost use Rattle.mdf_blocks.specs.Blocks.{IsBlockAt};
ghost use Rattle.mdf_blocks.specs.Ranges.{FitsGroup};
ghost use Rattle.mdf_blocks.specs.Tables.{cg_body, cg_links, dg_body, dg_links};
ghost use Rattle.mdf_blocks.specs.Told.{AreListed, IsGroupAt, TellsChannels, TellsGroups};
ghost use Rattle.mdf_blocks.specs.Told.{TellsRecords, TellsText, ToldChannel, ToldGroup};
ghost use Rattle.mdf_file.specs.Adding.{Adds, AreSmall};
ghost use Rattle.mdf_file.specs.Ending.{AreOf, HoldRecords, told_group};

use crate::channels::add_channels;
use crate::mdf_fault::MdfFault;
use crate::next_place::next_place;
use crate::records::add_list;
use crate::streamed_group::StreamedGroup;
use crate::texts::add_text;
use mdf_blocks::{ChannelGroup, DataGroup, ListedData, push_channel_group, push_data_group};
use std::alloc::Global;

/// Adds groups whose records stand before them, and gives the place of the first, or 0.
pub fn add_groups(
    alloc: Global,
    out: &mut Vec<u8>,
    base: u64,
    groups: &[StreamedGroup],
) -> Result<u64, MdfFault>
    requires some { 0 < base }
    requires aligned { (base + length out.old.items) % 8 ≡ 0 }
    ensures aligned { OnOk result ((base + length out.new.items) % 8 ≡ 0) }
    ensures told { IfOk result (λ link. (place : ℕ) (before : List ℕ) (told : List ToldGroup)
        → place + length before ≡ base → AreOf groups.now told
        → Adds place (before ++ out.old.items) (before ++ out.old.items)
        (λ bytes. HoldRecords bytes groups.now told)
        → Adds place (before ++ out.old.items) (before ++ out.new.items)
        (λ bytes. TellsGroups bytes link told)) }
{
    let mut next = 0;
    for behind in 0..groups.len() {
        let group = &groups[groups.len() - 1 - behind];
        next = add_group(alloc, out, base, group, next)?;
    }
    Ok(next)
}

/// Adds a group whose records stand before it, and gives its place.
fn add_group(
    alloc: Global,
    out: &mut Vec<u8>,
    base: u64,
    group: &StreamedGroup,
    next: u64,
) -> Result<u64, MdfFault>
    requires some { 0 < base }
    requires aligned { (base + length out.old.items) % 8 ≡ 0 }
    ensures aligned { OnOk result ((base + length out.new.items) % 8 ≡ 0) }
    ensures told { IfOk result (λ link. (place : ℕ) (before records : List ℕ)
        → place + length before ≡ base → length records ≡ group.now.len
        → Adds place (before ++ out.old.items) (before ++ out.old.items)
        (λ bytes. AreListed bytes 0 group.now.blocks.items records)
        → Adds place (before ++ out.old.items) (before ++ out.new.items)
        (λ bytes. (link ≢ 0) × IsGroupAt bytes link (told_group group.now records) next)) }
{
    read_blocks(&group.blocks);
    let records = add_list(out, base, &group.blocks)?;
    let name = add_text(out, base, &group.name)?;
    let first_channel = add_channels(alloc, out, base, &group.channels)?;
    let cycles = cycles_of(group.len, group.record_bytes)?;
    let inner = ChannelGroup {
        first_channel,
        acquisition_name: name,
        comment: 0,
        cycles,
        record_bytes: group.record_bytes,
    };
    add_blocks(out, base, &inner, records, next)
}

/// What the numbers of each list fit.
fn read_blocks(blocks: &[ListedData])
    ensures { AreSmall blocks.now }
{
    for block in blocks {
        read_block(*block);
    }
}

/// What the numbers of each entry of a list fit.
fn read_block(block: ListedData)
    ensures { (block.place < 2 ^ 64) × (block.offset < 2 ^ 64) }
{
    let _ = [block.place, block.offset];
}

/// How many records so many bytes are.
pub fn cycles_of(len: u64, record_bytes: u32) -> Result<u64, MdfFault>
    ensures { IfOk result (λ cycles. len ≡ cycles * record_bytes) }
{
    if record_bytes == 0 {
        return Err(MdfFault::NoRecordBytes);
    }
    let size = record_bytes as u64;
    if len % size != 0 {
        return Err(MdfFault::PartOfRecord);
    }
    Ok(len / size)
}

/// Adds the blocks of a group, whose name, channels and records stand before them.
pub fn add_blocks(
    out: &mut Vec<u8>,
    base: u64,
    inner: &ChannelGroup,
    records: u64,
    next: u64,
) -> Result<u64, MdfFault>
    requires some { 0 < base }
    requires aligned { (base + length out.old.items) % 8 ≡ 0 }
    ensures aligned { OnOk result ((base + length out.new.items) % 8 ≡ 0) }
    ensures told { IfOk result (λ link. (place : ℕ) (before name : List ℕ)
        (channels : List ToldChannel) (all : List ℕ) → place + length before ≡ base
        → length all ≡ inner.now.cycles * inner.now.record_bytes
        → Adds place (before ++ out.old.items) (before ++ out.old.items) (λ bytes.
        TellsText bytes (codes "##TX") inner.now.acquisition_name (Some name)
        × TellsChannels bytes inner.now.first_channel channels × TellsRecords bytes records all)
        → Adds place (before ++ out.old.items) (before ++ out.new.items) (λ bytes. (link ≢ 0)
        × IsGroupAt bytes link (record {
          name = Some name;
          channels = channels;
          record_bytes = inner.now.record_bytes;
          records = all;
        }) next)) }
{
    let group = add_inner(out, base, *inner)?;
    add_outer(
        out,
        base,
        DataGroup {
            next,
            channel_group: group,
            records,
            comment: 0,
        },
    )
}

/// Adds the block of a channel group.
fn add_inner(out: &mut Vec<u8>, base: u64, inner: ChannelGroup) -> Result<u64, MdfFault>
    requires some { 0 < base }
    requires aligned { (base + length out.old.items) % 8 ≡ 0 }
    ensures { IfOk result (λ link. FitsGroup inner × Adds base out.old.items out.new.items
        (λ bytes. IsBlockAt bytes link (codes "##CG") (cg_links inner) (cg_body inner))) }
{
    read_inner(inner);
    let place = next_place(base, out)?;
    push_channel_group(out, &inner)?;
    Ok(place)
}

/// Adds the block of a data group.
fn add_outer(out: &mut Vec<u8>, base: u64, group: DataGroup) -> Result<u64, MdfFault>
    requires some { 0 < base }
    requires aligned { (base + length out.old.items) % 8 ≡ 0 }
    ensures { IfOk result (λ link. Adds base out.old.items out.new.items
        (λ bytes. (link ≢ 0) × IsBlockAt bytes link (codes "##DG") (dg_links group) dg_body)) }
{
    read_outer(group);
    let place = next_place(base, out)?;
    push_data_group(out, &group)?;
    Ok(place)
}

/// What each channel group's numbers fit.
fn read_inner(inner: ChannelGroup)
    ensures links { (inner.first_channel < 2 ^ 64) × (inner.acquisition_name < 2 ^ 64)
        × (inner.comment < 2 ^ 64) }
    ensures fits { FitsGroup inner }
{
    let _ = [
        inner.first_channel,
        inner.acquisition_name,
        inner.comment,
        inner.cycles,
    ];
    let _ = [inner.record_bytes];
}

/// What each data group's numbers fit.
fn read_outer(group: DataGroup)
    ensures links { (group.next < 2 ^ 64) × (group.channel_group < 2 ^ 64)
        × (group.records < 2 ^ 64) × (group.comment < 2 ^ 64) }
{
    let _ = [
        group.next,
        group.channel_group,
        group.records,
        group.comment,
    ];
}
