//! The IP packet in a frame of a link.
ghost use Rattle.std.specs.Prelude.{◌≡◌, ◌+◌, ◌*◌, ◌≤◌, ◌↔◌, ◌⊎◌, ℕ, List, length, IfSome, IsNone};
ghost use Rattle.std.specs.Prelude.{IsTrue, IsSome};
ghost use Rattle.datagrams.specs.Links.{CarriesIp, HasFamily, HasFamilyInEither, HasHead};
ghost use Rattle.datagrams.specs.Links.{IsEthernet, IsIpFamily, IsIpType, IsLoop, IsTagType};

use crate::link::Link;
use capture::number_at;
use measured_values::ByteOrder;

/// The IP packet in a frame of a link, if it carries one.
pub fn ip_in(link: Link, frame: &[u8]) -> Option<&[u8]>
    ensures some { IfSome result (λ packet. CarriesIp link frame.now packet.now) }
    ensures none { IsNone result → (packet : List ℕ) → CarriesIp link frame.now packet → ⊥ }
{
    match link {
        Link::Ethernet => in_ethernet(frame),
        Link::Cooked1 => behind_head(frame, 16, 14),
        Link::Cooked2 => behind_head(frame, 20, 0),
        Link::Raw => Some(frame),
        Link::Null => in_null(frame),
        Link::Loop => in_loop(frame),
        Link::Other => None,
    }
}

/// Whether an EtherType is that of IPv4 or IPv6.
fn is_ip(ether_type: u64) -> bool
    ensures { IsTrue result ↔ IsIpType ether_type }
{
    ether_type == 0x0800 || ether_type == 0x86DD
}

/// Whether an EtherType is that of a VLAN tag.
fn is_tag(ether_type: u64) -> bool
    ensures { IsTrue result ↔ IsTagType ether_type }
{
    ether_type == 0x8100 || ether_type == 0x88A8
}

/// Whether a number is that of a protocol family of IPv4 or IPv6.
fn is_family(number: u64) -> bool
    ensures { IsTrue result ↔ IsIpFamily number }
{
    number == 2 || number == 10 || number == 24 || number == 28 || number == 30
}

/// The packet in a frame of Ethernet.
fn in_ethernet(frame: &[u8]) -> Option<&[u8]>
    ensures some { IfSome result (λ packet. IsEthernet frame.now packet.now) }
    ensures none { IsNone result → (packet : List ℕ) → IsEthernet frame.now packet → ⊥ }
{
    let mut tags = 0;
    while 14 + 4 * tags <= frame.len() {
        let ether_type = number_at(ByteOrder::MsbFirst, frame, 12 + 4 * tags, 2);
        if is_ip(ether_type) {
            return Some(&frame[14 + 4 * tags..]);
        }
        if !is_tag(ether_type) {
            return None;
        }
        tags += 1;
    }
    None
}

/// The packet behind a head of so many bytes, with an EtherType at a place.
fn behind_head(frame: &[u8], head: usize, at: usize) -> Option<&[u8]>
    requires { at + 2 ≤ head }
    ensures some { IfSome result (λ packet. HasHead head at frame.now packet.now) }
    ensures none { IsNone result → (packet : List ℕ) → HasHead head at frame.now packet → ⊥ }
{
    if frame.len() < head {
        return None;
    }
    if !is_ip(number_at(ByteOrder::MsbFirst, frame, at, 2)) {
        return None;
    }
    Some(&frame[head..])
}

/// Whether a frame begins with the number of such a family, in either byte order.
fn has_family(frame: &[u8]) -> bool
    requires { 4 ≤ length frame.now }
    ensures { IsTrue result ↔ HasFamilyInEither frame.now }
{
    is_family(number_at(ByteOrder::MsbLast, frame, 0, 4))
        || is_family(number_at(ByteOrder::MsbFirst, frame, 0, 4))
}

/// The packet of a loopback interface, behind a number in either byte order.
fn in_null(frame: &[u8]) -> Option<&[u8]>
    ensures some { IfSome result (λ packet. IsLoop HasFamilyInEither frame.now packet.now) }
    ensures none { IsNone result
        → (packet : List ℕ) → IsLoop HasFamilyInEither frame.now packet → ⊥ }
{
    if frame.len() < 4 {
        return None;
    }
    if !has_family(frame) {
        return None;
    }
    Some(&frame[4..])
}

/// The packet of a loopback interface, behind a number with the most significant byte first.
fn in_loop(frame: &[u8]) -> Option<&[u8]>
    ensures some { IfSome result (λ packet. IsLoop HasFamily frame.now packet.now) }
    ensures none { IsNone result → (packet : List ℕ) → IsLoop HasFamily frame.now packet → ⊥ }
{
    if frame.len() < 4 {
        return None;
    }
    if !is_family(number_at(ByteOrder::MsbFirst, frame, 0, 4)) {
        return None;
    }
    Some(&frame[4..])
}
