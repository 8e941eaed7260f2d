//! The blocks whose length is fixed.
ghost use Rattle.std.specs.Prelude.{◌≡◌, ◌++◌, OnErr, OnOk};
ghost use Rattle.mdf_blocks.specs.Tables.{cg_block, cg_body, cg_links, cn_block, dg_block};
ghost use Rattle.mdf_blocks.specs.Tables.{dg_body, dg_links, fh_block, fh_body, fh_links};
ghost use Rattle.mdf_blocks.specs.Tables.{hd_block, hd_body, hd_links};

use crate::block::push_block;
use crate::channel::Channel;
use crate::channel_body::{channel_body, channel_links};
use crate::channel_group::ChannelGroup;
use crate::data_group::DataGroup;
use crate::file_header::FileHeader;
use crate::file_history::FileHistory;
use crate::time_bytes::{daylight_minutes, time_flags, zone_minutes};
use std::alloc::AllocError;

/// Appends the header of a file (ASAM MDF 4.1, HD). If memory is out, nothing is appended.
pub fn push_file_header(out: &mut Vec<u8>, header: &FileHeader) -> Result<(), AllocError>
    ensures ok { OnOk result (out.new.items ≡ out.old.items ++ hd_block header.now) }
    ensures err { OnErr result (out.new.items ≡ out.old.items) }
{
    push_block(out, b"##HD", &header_links(header), &header_body(header))
}

fn header_links(header: &FileHeader) -> [u64; 6]
    ensures { result ≡ hd_links header.now }
{
    let FileHeader {
        first_group,
        first_history,
        comment,
        ..
    } = *header;
    [first_group, first_history, 0, 0, 0, comment]
}

fn header_body(header: &FileHeader) -> [u8; 32]
    ensures { result ≡ hd_body header.now }
{
    let start = header.start;
    let [a, b, c, d, e, f, g, h] = start.nanoseconds.to_le_bytes();
    let [z0, z1] = zone_minutes(start.zone).to_le_bytes();
    let [d0, d1] = daylight_minutes(start.zone).to_le_bytes();
    let flags = time_flags(start.zone);
    [
        a, b, c, d, e, f, g, h, z0, z1, d0, d1, flags, 0, 0, 0, //
        0, 0, 0, 0, 0, 0, 0, 0, 0, 0, 0, 0, 0, 0, 0, 0,
    ]
}

/// Appends an entry of a file's history (ASAM MDF 4.1, FH). If memory is out, nothing is appended.
pub fn push_file_history(out: &mut Vec<u8>, history: &FileHistory) -> Result<(), AllocError>
    ensures ok { OnOk result (out.new.items ≡ out.old.items ++ fh_block history.now) }
    ensures err { OnErr result (out.new.items ≡ out.old.items) }
{
    let links = [history.next, history.comment];
    push_block(out, b"##FH", &links, &history_body(history))
}

fn history_body(history: &FileHistory) -> [u8; 16]
    ensures { result ≡ fh_body history.now }
{
    let time = history.time;
    let [a, b, c, d, e, f, g, h] = time.nanoseconds.to_le_bytes();
    let [z0, z1] = zone_minutes(time.zone).to_le_bytes();
    let [d0, d1] = daylight_minutes(time.zone).to_le_bytes();
    let flags = time_flags(time.zone);
    [a, b, c, d, e, f, g, h, z0, z1, d0, d1, flags, 0, 0, 0]
}

/// Appends a data group (ASAM MDF 4.1, DG). If memory is out, nothing is appended.
pub fn push_data_group(out: &mut Vec<u8>, group: &DataGroup) -> Result<(), AllocError>
    ensures ok { OnOk result (out.new.items ≡ out.old.items ++ dg_block group.now) }
    ensures err { OnErr result (out.new.items ≡ out.old.items) }
{
    let links = [
        group.next,
        group.channel_group,
        group.records,
        group.comment,
    ];
    push_block(out, b"##DG", &links, &[0; 8])
}

/// Appends a channel group (ASAM MDF 4.1, CG). If memory is out, nothing is appended.
pub fn push_channel_group(out: &mut Vec<u8>, group: &ChannelGroup) -> Result<(), AllocError>
    ensures ok { OnOk result (out.new.items ≡ out.old.items ++ cg_block group.now) }
    ensures err { OnErr result (out.new.items ≡ out.old.items) }
{
    push_block(out, b"##CG", &group_links(group), &group_body(group))
}

fn group_links(group: &ChannelGroup) -> [u64; 6]
    ensures { result ≡ cg_links group.now }
{
    let ChannelGroup {
        first_channel,
        acquisition_name,
        comment,
        ..
    } = *group;
    [0, first_channel, acquisition_name, 0, 0, comment]
}

fn group_body(group: &ChannelGroup) -> [u8; 32]
    ensures { result ≡ cg_body group.now }
{
    let [a, b, c, d, e, f, g, h] = group.cycles.to_le_bytes();
    let [n0, n1, n2, n3] = group.record_bytes.to_le_bytes();
    [
        0, 0, 0, 0, 0, 0, 0, 0, a, b, c, d, e, f, g, h, //
        0, 0, 0, 0, 0, 0, 0, 0, n0, n1, n2, n3, 0, 0, 0, 0,
    ]
}

/// Appends a channel (ASAM MDF 4.1, CN). If memory is out, nothing is appended.
pub fn push_channel(out: &mut Vec<u8>, channel: &Channel) -> Result<(), AllocError>
    ensures ok { OnOk result (out.new.items ≡ out.old.items ++ cn_block channel.now) }
    ensures err { OnErr result (out.new.items ≡ out.old.items) }
{
    push_block(
        out,
        b"##CN",
        &channel_links(channel),
        &channel_body(channel),
    )
}
