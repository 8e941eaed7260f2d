//! The links and the data section of a channel.
ghost use Rattle.std.specs.Prelude.{◌≡◌};
ghost use Rattle.mdf_blocks.specs.Tables.{cn_body, cn_data_type, cn_flags, cn_links};
ghost use Rattle.mdf_blocks.specs.Tables.{by_order, cn_sync_type, cn_type, limit_bytes, sync_of};

use crate::axis::Axis;
use crate::channel::Channel;
use crate::channel_kind::ChannelKind;
use crate::value_format::ValueFormat;
use measured_values::{ByteOrder, ValueLimits};
use std::num::f64_to_bits_with_nan;

/// The links of a channel.
pub fn channel_links(channel: &Channel) -> [u64; 8]
    ensures { result ≡ cn_links channel.now }
{
    let Channel {
        next,
        name,
        conversion,
        unit,
        comment,
        ..
    } = *channel;
    [next, 0, name, 0, conversion, 0, unit, comment]
}

/// The data section of a channel.
pub fn channel_body(channel: &Channel) -> [u8; 72]
    ensures { result ≡ cn_body channel.now }
{
    let kind = cn_type(channel.kind);
    let sync = cn_sync_type(channel.kind);
    let format = cn_data_type(channel.format);
    let bit = channel.bit_offset;
    let [b0, b1, b2, b3] = channel.byte_offset.to_le_bytes();
    let [n0, n1, n2, n3] = channel.bit_count.to_le_bytes();
    let [f0, f1, f2, f3] = cn_flags(channel.limits).to_le_bytes();
    let [
        l0,
        l1,
        l2,
        l3,
        l4,
        l5,
        l6,
        l7,
        g0,
        g1,
        g2,
        g3,
        g4,
        g5,
        g6,
        g7,
    ] = limit_bytes(channel.limits);
    [
        kind, sync, format, bit, b0, b1, b2, b3, n0, n1, n2, n3, f0, f1, f2, f3, //
        0, 0, 0, 0, 0, 0, 0, 0, 0, 0, 0, 0, 0, 0, 0, 0, //
        0, 0, 0, 0, 0, 0, 0, 0, l0, l1, l2, l3, l4, l5, l6, l7, //
        g0, g1, g2, g3, g4, g5, g6, g7, 0, 0, 0, 0, 0, 0, 0, 0, //
        0, 0, 0, 0, 0, 0, 0, 0,
    ]
}

fn cn_type(kind: ChannelKind) -> u8
    ensures { result ≡ cn_type kind }
{
    match kind {
        ChannelKind::Value => 0,
        ChannelKind::Master(_) => 2,
        ChannelKind::VirtualMaster(_) => 3,
    }
}

fn cn_sync_type(kind: ChannelKind) -> u8
    ensures { result ≡ cn_sync_type kind }
{
    match kind {
        ChannelKind::Value => 0,
        ChannelKind::Master(axis) => sync_of(axis),
        ChannelKind::VirtualMaster(axis) => sync_of(axis),
    }
}

fn sync_of(axis: Axis) -> u8
    ensures { result ≡ sync_of axis }
{
    match axis {
        Axis::Time => 1,
        Axis::Index => 4,
    }
}

fn cn_data_type(format: ValueFormat) -> u8
    ensures { result ≡ cn_data_type format }
{
    match format {
        ValueFormat::Unsigned(order) => by_order(order, 0, 1),
        ValueFormat::Signed(order) => by_order(order, 2, 3),
        ValueFormat::Float(order) => by_order(order, 4, 5),
    }
}

/// The number for values of a byte order.
fn by_order(order: ByteOrder, intel: u8, motorola: u8) -> u8
    ensures { result ≡ by_order order intel motorola }
{
    match order {
        ByteOrder::MsbLast => intel,
        ByteOrder::MsbFirst => motorola,
    }
}

fn cn_flags(limits: Option<ValueLimits>) -> u32
    ensures { result ≡ cn_flags limits }
{
    match limits {
        Some(_) => 16,
        None => 0,
    }
}

/// Both limits, if there are any.
fn limit_bytes(limits: Option<ValueLimits>) -> [u8; 16]
    ensures { result ≡ limit_bytes limits }
{
    let Some(ValueLimits { least, greatest }) = limits else {
        return [0; 16];
    };
    let [a, b, c, d, e, f, g, h] = f64_to_bits_with_nan(least).to_le_bytes();
    let [i, j, k, l, m, n, o, p] = f64_to_bits_with_nan(greatest).to_le_bytes();
    [a, b, c, d, e, f, g, h, i, j, k, l, m, n, o, p]
}
