//! IP packets of version 4.
ghost use Rattle.std.specs.Prelude.{◌≡◌, ◌≤◌, length, IfSome, IsNone};
ghost use Rattle.datagrams.specs.Ip.{IsIpv4, end_of, ip_of, ipv4_packet, part_of};

use crate::ip_packet::{IpPacket, Part};
use capture::number_at;
use measured_values::ByteOrder;

/// The IP packet of version 4 in front of these bytes, if one stands there (RFC 791).
pub fn ipv4_in(bytes: &[u8]) -> Option<IpPacket<'_>>
    ensures some { IfSome result (λ packet. ip_of packet ≡ ipv4_packet bytes.now) }
    ensures is { IfSome result (λ _. IsIpv4 bytes.now) }
    ensures none { IsNone result → IsIpv4 bytes.now → ⊥ }
{
    if bytes.len() < 20 {
        return None;
    }
    let header = (bytes[0] % 16) as usize * 4;
    let total = number_at(ByteOrder::MsbFirst, bytes, 2, 2) as usize;
    if bytes[0] / 16 != 4 || header < 20 || header > bytes.len() {
        return None;
    }
    if total != 0 && total < header {
        return None;
    }
    Some(IpPacket {
        from: &bytes[12..16],
        to: &bytes[16..20],
        protocol: bytes[9],
        part: part_in(bytes),
        payload: &bytes[header..end_in(total, bytes.len())],
        is_cut: bytes.len() < total,
    })
}

/// Where something ends that tells its length, in `len` bytes.
pub fn end_in(told: usize, len: usize) -> usize
    ensures { result ≡ end_of told len }
{
    if told == 0 { len } else { told.min(len) }
}

/// Which part of a datagram it is, if it isn't a whole one.
fn part_in(bytes: &[u8]) -> Option<Part>
    requires { 20 ≤ length bytes.now }
    ensures { result ≡ part_of bytes.now }
{
    let flags = number_at(ByteOrder::MsbFirst, bytes, 6, 2);
    if flags % 16384 == 0 {
        return None;
    }
    Some(Part {
        id: number_at(ByteOrder::MsbFirst, bytes, 4, 2) as u32,
        at: (flags % 8192 * 8) as u32,
        is_last: flags / 8192 % 2 == 0,
    })
}
