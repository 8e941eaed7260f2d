//! IP packets of version 6.
ghost use Rattle.std.specs.Prelude.{◌≡◌, ◌+◌, ◌≤◌, ◌↔◌, ℕ, List, length, IfSome, IsNone, IsTrue};
ghost use Rattle.std.specs.Prelude.{[]};
ghost use Rattle.datagrams.specs.Ip.{IpOf, ip_of};
ghost use Rattle.datagrams.specs.Ipv6.{CarriedOf, HasExtension, IsChain, IsExtension, IsIpv6};
ghost use Rattle.datagrams.specs.Ipv6.{carried_of, part_told, payload_end};

use crate::ip_packet::{IpPacket, Part};
use capture::number_at;
use measured_values::ByteOrder;

/// The bytes of the header.
const HEADER: usize = 40;

/// The kind of a header that tells which part of a datagram follows.
const FRAGMENT: u8 = 44;

/// What is carried behind the headers that extend that of a packet.
#[derive(Clone, Copy)]
pub struct Carried<'b> {
    /// The protocol of what is carried.
    pub protocol: u8,
    /// Which part of a datagram that is, if it isn't a whole one.
    pub part: Option<Part>,
    /// What is carried, as far as it was captured.
    pub payload: &'b [u8],
}

/// The IP packet of version 6 in front of these bytes, if one stands there (RFC 8200).
pub fn ipv6_in(bytes: &[u8]) -> Option<IpPacket<'_>>
    ensures some { IfSome result (λ packet. IsIpv6 bytes.now (ip_of packet)) }
    ensures none { IsNone result → (packet : IpOf) → IsIpv6 bytes.now packet → ⊥ }
{
    if bytes.len() < HEADER {
        return None;
    }
    if bytes[0] / 16 != 6 {
        return None;
    }
    let told = number_at(ByteOrder::MsbFirst, bytes, 4, 2) as usize;
    let end = end_behind(told, bytes.len());
    let carried = carried_in(bytes[6], &bytes[HEADER..end])?;
    Some(IpPacket {
        from: &bytes[8..24],
        to: &bytes[24..40],
        protocol: carried.protocol,
        part: carried.part,
        payload: carried.payload,
        is_cut: bytes.len() < HEADER + told,
    })
}

/// Where what is behind the header ends, in `len` bytes.
fn end_behind(told: usize, len: usize) -> usize
    requires { told ≤ 65535 }
    ensures { result ≡ payload_end told len }
{
    if told == 0 {
        len
    } else {
        len.min(HEADER + told)
    }
}

/// What is carried behind the headers in front of these bytes, of which the first is of this kind
/// (RFC 8200): it is itself carried if this is no kind of such headers.
pub fn carried_in(first: u8, bytes: &[u8]) -> Option<Carried<'_>>
    ensures some { IfSome result (λ carried. (lens : List ℕ)
        × IsChain first bytes.now lens (carried_of carried)) }
    ensures none { IsNone result → (lens : List ℕ) (carried : CarriedOf)
        → IsChain first bytes.now lens carried → ⊥ }
{
    let mut next = first;
    let mut at = 0;
    while is_extension(next) {
        let len = extension_len(next, &bytes[at..])?;
        next = bytes[at];
        at += len;
    }
    last_in(next, &bytes[at..])
}

/// Whether a header of this kind extends another, and tells its length.
fn is_extension(next: u8) -> bool
    ensures { IsTrue result ↔ IsExtension next }
{
    next == 0 || next == 43 || next == 60
}

/// How long the header is in front of these bytes, if it is there whole.
fn extension_len(next: u8, bytes: &[u8]) -> Option<usize>
    requires { IsExtension next }
    ensures some { IfSome result (λ len. HasExtension next bytes.now len) }
    ensures none { IsNone result → (len : ℕ) → HasExtension next bytes.now len → ⊥ }
{
    if bytes.len() < 2 {
        return None;
    }
    let len = 8 * (bytes[1] as usize + 1);
    if bytes.len() < len {
        return None;
    }
    Some(len)
}

/// What is carried in these bytes, behind a header that tells which part it is, if one stands
/// there.
fn last_in(next: u8, bytes: &[u8]) -> Option<Carried<'_>>
    requires { IsExtension next → ⊥ }
    ensures some { IfSome result (λ carried. IsChain next bytes.now [] (carried_of carried)) }
    ensures none { IsNone result → (carried : CarriedOf)
        → IsChain next bytes.now [] carried → ⊥ }
{
    if next != FRAGMENT {
        return Some(Carried {
            protocol: next,
            part: None,
            payload: bytes,
        });
    }
    if bytes.len() < 8 {
        return None;
    }
    Some(Carried {
        protocol: bytes[0],
        part: part_in(bytes),
        payload: &bytes[8..],
    })
}

/// Which part of a datagram it is, if it isn't a whole one.
fn part_in(bytes: &[u8]) -> Option<Part>
    requires { 8 ≤ length bytes.now }
    ensures { result ≡ part_told bytes.now }
{
    let told = number_at(ByteOrder::MsbFirst, bytes, 2, 2);
    if told / 8 + told % 2 == 0 {
        return None;
    }
    Some(Part {
        id: number_at(ByteOrder::MsbFirst, bytes, 4, 4) as u32,
        at: (told / 8 * 8) as u32,
        is_last: told % 2 == 0,
    })
}
