//! UDP datagrams.
ghost use Rattle.std.specs.Prelude.{◌≡◌, IfSome, IsNone};
ghost use Rattle.datagrams.specs.Udp.{IsUdp, datagram_of, udp_datagram};

use crate::datagram::Datagram;
use crate::ipv4::end_in;
use capture::number_at;
use measured_values::ByteOrder;

/// The bytes of a header.
const HEADER: usize = 8;

/// The UDP datagram in front of these bytes, if one stands there (RFC 768).
pub fn udp_in(bytes: &[u8]) -> Option<Datagram<'_>>
    ensures some { IfSome result (λ datagram. datagram_of datagram ≡ udp_datagram bytes.now) }
    ensures is { IfSome result (λ _. IsUdp bytes.now) }
    ensures none { IsNone result → IsUdp bytes.now → ⊥ }
{
    if bytes.len() < HEADER {
        return None;
    }
    let len = number_at(ByteOrder::MsbFirst, bytes, 4, 2) as usize;
    if len != 0 && len < HEADER {
        return None;
    }
    Some(Datagram {
        from_port: number_at(ByteOrder::MsbFirst, bytes, 0, 2) as u16,
        to_port: number_at(ByteOrder::MsbFirst, bytes, 2, 2) as u16,
        payload: &bytes[HEADER..end_in(len, bytes.len())],
        is_cut: bytes.len() < len,
    })
}
