//! The blocks of a pcapng file.
ghost use Rattle.std.specs.Prelude.{◌≡◌, ◌≤◌, ◌↔◌, ◌%◌, length, IfErr, IfOk, IsErr};
ghost use Rattle.std.specs.Prelude.{IfSome, IsNone, IsTrue, Some, slice_get};
ghost use Rattle.capture.specs.Blocks.{IsEnhanced, IsSectionHeader, IsSimple, begins_section};
ghost use Rattle.capture.specs.Blocks.{kept_of, order_told, time_at};
ghost use Rattle.capture.specs.Blocks.{kind_of as kind_of_type};
ghost use Rattle.capture.specs.Inner.{IsNoBlock, IsWhole};
ghost use Rattle.capture.specs.Numbers.{field};
ghost use Rattle.capture.specs.Packets.{PacketOf, packet_of};
ghost use Rattle.capture.specs.declared.interface.Interface.{Interface as InterfaceOf};

use crate::block_kind::BlockKind;
use crate::capture_fault::CaptureFault;
use crate::capture_time::CaptureTime;
use crate::captured::Captured;
use crate::interface::Interface;
use crate::limits::MAX_UNIT;
use crate::numbers::number_at;
use measured_values::ByteOrder;

/// The shortest block, in bytes.
pub const SHORTEST: usize = 12;

/// The type of a section header block. It reads the same in both byte orders.
const SECTION_HEADER: u64 = 0x0A0D_0D0A;

/// By this number a section header block tells the byte order of its section.
const BYTE_ORDER_MAGIC: u64 = 0x1A2B_3C4D;

/// Whether a section header block begins here.
pub fn is_section_header(bytes: &[u8]) -> bool
    requires { 4 ≤ length bytes.now }
    ensures { result ≡ begins_section bytes.now }
{
    number_at(ByteOrder::MsbLast, bytes, 0, 4) == SECTION_HEADER
}

/// The byte order that a section header block tells.
pub fn order_of(bytes: &[u8]) -> ByteOrder
    requires { 12 ≤ length bytes.now }
    ensures { result ≡ order_told bytes.now }
{
    if number_at(ByteOrder::MsbFirst, bytes, 8, 4) == BYTE_ORDER_MAGIC {
        ByteOrder::MsbFirst
    } else {
        ByteOrder::MsbLast
    }
}

/// Whether this block is the header of a section of version 1.
pub fn is_of_version_1(order: ByteOrder, block: &[u8]) -> bool
    requires { 12 ≤ length block.now }
    ensures { IsTrue result ↔ IsSectionHeader order block.now }
{
    block.len() >= 28
        && number_at(order, block, 8, 4) == BYTE_ORDER_MAGIC
        && number_at(order, block, 12, 2) == 1
}

/// What kind a block is.
pub fn kind_of(order: ByteOrder, block: &[u8]) -> BlockKind
    requires { 4 ≤ length block.now }
    ensures { result ≡ kind_of_type (field order 4 0 block.now) }
{
    match number_at(order, block, 0, 4) {
        SECTION_HEADER => BlockKind::SectionHeader,
        1 => BlockKind::InterfaceDescription,
        3 => BlockKind::SimplePacket,
        6 => BlockKind::EnhancedPacket,
        _ => BlockKind::Other,
    }
}

/// Whether a block is there whole.
#[derive(Clone, Copy)]
pub enum Whole {
    /// It is, and has so many bytes.
    Block(usize),
    /// So many bytes are wanted at least.
    Wants(usize),
}

/// Whether the block is there whole that begins here. Refused if none does, or it is too long.
pub fn whole_block(order: ByteOrder, bytes: &[u8]) -> Result<Whole, CaptureFault>
    requires { 12 ≤ length bytes.now }
    ensures ok { IfOk result (IsWhole order bytes.now) }
    ensures err { IfErr result (IsNoBlock order bytes.now) }
{
    let len = block_len(order, bytes)?;
    if bytes.len() < len {
        return Ok(Whole::Wants(len));
    }
    if number_at(order, bytes, len - 4, 4) != len as u64 {
        return Err(CaptureFault::Bad);
    }
    Ok(Whole::Block(len))
}

/// How long the block is whose first bytes these are. Refused if it can't be one, or is too long.
fn block_len(order: ByteOrder, bytes: &[u8]) -> Result<usize, CaptureFault>
    requires { 12 ≤ length bytes.now }
    ensures ok { IfOk result (λ len. (len ≡ field order 4 4 bytes.now)
        × (12 ≤ len) × (len % 4 ≡ 0) × (len ≤ MAX_UNIT)) }
    ensures err { IfErr result (IsNoBlock order bytes.now) }
{
    let len = number_at(order, bytes, 4, 4) as usize;
    if len < SHORTEST {
        return Err(CaptureFault::Bad);
    }
    if len % 4 != 0 {
        return Err(CaptureFault::Bad);
    }
    if len > MAX_UNIT {
        return Err(CaptureFault::Long);
    }
    Ok(len)
}

/// The packet of an enhanced packet block. Refused if it is none, or its interface isn't there.
pub fn enhanced_in<'b>(
    order: ByteOrder,
    block: &'b [u8],
    interfaces: &[Interface],
) -> Result<Captured<'b>, CaptureFault>
    ensures ok { IfOk result (λ p. (i : InterfaceOf)
        × (slice_get interfaces.now (field order 4 8 block.now) ≡ Some i)
        × IsEnhanced order block.now i (packet_of p)) }
    ensures err { IfErr result (λ fault. fault ≡ CaptureFault.Bad) }
    ensures none { IsErr result → (i : InterfaceOf) (p : PacketOf)
        → slice_get interfaces.now (field order 4 8 block.now) ≡ Some i
        → IsEnhanced order block.now i p → ⊥ }
{
    if block.len() < 32 {
        return Err(CaptureFault::Bad);
    }
    let Some(interface) = interface_of(order, block, interfaces) else {
        return Err(CaptureFault::Bad);
    };
    match enhanced_of(order, block, interface) {
        Some(packet) => Ok(packet),
        None => Err(CaptureFault::Bad),
    }
}

/// The interface that an enhanced packet block names, if it is there.
fn interface_of(order: ByteOrder, block: &[u8], interfaces: &[Interface]) -> Option<Interface>
    requires { 12 ≤ length block.now }
    ensures { result ≡ slice_get interfaces.now (field order 4 8 block.now) }
{
    let number = number_at(order, block, 8, 4) as usize;
    interfaces.get(number).copied()
}

/// The packet of an enhanced packet block that this interface received, if it is one.
fn enhanced_of<'b>(order: ByteOrder, block: &'b [u8], interface: Interface) -> Option<Captured<'b>>
    requires { 32 ≤ length block.now }
    ensures some { IfSome result (λ p. IsEnhanced order block.now interface (packet_of p)) }
    ensures none { IsNone result → (p : PacketOf) → IsEnhanced order block.now interface p → ⊥ }
{
    let kept = number_at(order, block, 20, 4) as usize;
    if block.len() < 32 + kept {
        return None;
    }
    Some(Captured {
        link: interface.link,
        time: Some(time_in(order, block, interface)),
        original: number_at(order, block, 24, 4) as u32,
        bytes: &block[28..28 + kept],
    })
}

/// When the packet of an enhanced packet block was captured.
fn time_in(order: ByteOrder, block: &[u8], interface: Interface) -> CaptureTime
    requires { 20 ≤ length block.now }
    ensures { result ≡ time_at order block.now interface }
{
    let high = number_at(order, block, 12, 4);
    let low = number_at(order, block, 16, 4);
    CaptureTime {
        ticks: high * 4_294_967_296 + low,
        resolution: interface.resolution,
        offset: interface.offset,
    }
}

/// The packet of a simple packet block. Refused if it is none, or no interface is there.
pub fn simple_in<'b>(
    order: ByteOrder,
    block: &'b [u8],
    interfaces: &[Interface],
) -> Result<Captured<'b>, CaptureFault>
    ensures ok { IfOk result (λ p. (i : InterfaceOf) × (slice_get interfaces.now 0 ≡ Some i)
        × IsSimple order block.now i (packet_of p)) }
    ensures err { IfErr result (λ fault. fault ≡ CaptureFault.Bad) }
    ensures none { IsErr result → (i : InterfaceOf) (p : PacketOf)
        → slice_get interfaces.now 0 ≡ Some i → IsSimple order block.now i p → ⊥ }
{
    let Some(interface) = interfaces.first() else {
        return Err(CaptureFault::Bad);
    };
    if block.len() < 16 {
        return Err(CaptureFault::Bad);
    }
    let original = number_at(order, block, 8, 4) as u32;
    let kept = kept_bytes(interface.snap_len, original) as usize;
    if block.len() < 16 + kept {
        return Err(CaptureFault::Bad);
    }
    Ok(Captured {
        link: interface.link,
        time: None,
        original,
        bytes: &block[12..12 + kept],
    })
}

/// How many bytes are kept of a packet of `original` bytes.
fn kept_bytes(snap_len: u32, original: u32) -> u32
    ensures { result ≡ kept_of snap_len original }
{
    if snap_len == 0 || original <= snap_len {
        original
    } else {
        snap_len
    }
}
