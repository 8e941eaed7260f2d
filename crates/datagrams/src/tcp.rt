//! TCP segments.
ghost use Rattle.std.specs.Prelude.{◌≡◌, ◌≤◌, if◌then◌else◌, length, IfSome, IsNone, None, Some};
ghost use Rattle.measured_values.specs.declared.byte_order.ByteOrder.TheVariants.{MsbFirst};
ghost use Rattle.capture.specs.Numbers.{field};
ghost use Rattle.datagrams.specs.Tcp.{IsTcp, has_flag, segment_of, tcp_segment};

use crate::segment::Segment;
use capture::number_at;
use measured_values::ByteOrder;

/// The TCP segment in front of these bytes, which are what an IP packet carries, if one stands
/// there (RFC 9293).
pub fn tcp_in(bytes: &[u8]) -> Option<Segment<'_>>
    ensures some { IfSome result (λ segment. segment_of segment ≡ tcp_segment bytes.now) }
    ensures is { IfSome result (λ _. IsTcp bytes.now) }
    ensures none { IsNone result → IsTcp bytes.now → ⊥ }
{
    if bytes.len() < 20 {
        return None;
    }
    let header = (bytes[12] / 16) as usize * 4;
    if header < 20 || header > bytes.len() {
        return None;
    }
    Some(Segment {
        from_port: number_at(ByteOrder::MsbFirst, bytes, 0, 2) as u16,
        to_port: number_at(ByteOrder::MsbFirst, bytes, 2, 2) as u16,
        number: number_at(ByteOrder::MsbFirst, bytes, 4, 4) as u32,
        acknowledged: acknowledged_in(bytes),
        begins: is_flagged(bytes, 2),
        ends: is_flagged(bytes, 1),
        breaks_off: is_flagged(bytes, 4),
        payload: &bytes[header..],
    })
}

/// The number of the byte that its sender waits for, if a header tells one.
fn acknowledged_in(bytes: &[u8]) -> Option<u32>
    requires head { 20 ≤ length bytes.now }
    ensures { result ≡ (if has_flag 16 bytes.now then Some (field MsbFirst 4 8 bytes.now)
        else None) }
{
    if !is_flagged(bytes, 16) {
        return None;
    }
    Some(number_at(ByteOrder::MsbFirst, bytes, 8, 4) as u32)
}

/// Whether a header has the flag that is worth so much.
fn is_flagged(bytes: &[u8], worth: u8) -> bool
    requires head { 20 ≤ length bytes.now }
    requires some { 1 ≤ worth }
    ensures { result ≡ has_flag worth bytes.now }
{
    bytes[13] / worth % 2 == 1
}
