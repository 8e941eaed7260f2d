//! IP packets of either version.
ghost use Rattle.std.specs.Prelude.{◌≡◌, IfSome, IsNone};
ghost use Rattle.datagrams.specs.Ip.{IpOf, ip_of};
ghost use Rattle.datagrams.specs.Versions.{IsIp};

use crate::ip_packet::IpPacket;
use crate::ipv4::ipv4_in;
use crate::ipv6::ipv6_in;

/// The IP packet in front of these bytes, of version 4 or 6, if one stands there.
pub fn packet_in(bytes: &[u8]) -> Option<IpPacket<'_>>
    ensures some { IfSome result (λ packet. IsIp bytes.now (ip_of packet)) }
    ensures none { IsNone result → (packet : IpOf) → IsIp bytes.now packet → ⊥ }
{
    if let Some(packet) = ipv4_in(bytes) {
        return Some(packet);
    }
    ipv6_in(bytes)
}
