//! The header and the records of a file of libpcap.
ghost use Rattle.std.specs.Prelude.{◌≡◌, ◌+◌, ◌<◌, ◌≤◌, IfOk, IfSome, IsNone, length};
ghost use Rattle.capture.specs.Numbers.{field};
ghost use Rattle.capture.specs.Packets.{packet_of};
ghost use Rattle.capture.specs.Pcap.{IsHeader, IsRecord, magic_number, record_packet};
ghost use Rattle.capture.specs.declared.pcap_header.Fraction.{Fraction as FractionOf};
ghost use Rattle.measured_values.specs.declared.byte_order.ByteOrder.{ByteOrder as OrderOf};
ghost use Rattle.capture.specs.declared.pcap_header.PcapHeader.{PcapHeader as HeaderOf};

use crate::capture_time::CaptureTime;
use crate::captured::Captured;
use crate::numbers::number_at;
use crate::pcap_header::{Fraction, PcapHeader};
use measured_values::ByteOrder;

/// The bytes of the header.
pub const HEADER: usize = 24;

/// The bytes of a record before its packet's.
pub const RECORD_HEAD: usize = 16;

/// What the header of a file says; `None` if these bytes are none.
pub fn header_in(bytes: &[u8]) -> Option<PcapHeader>
    requires long { length bytes.now ≡ HEADER }
    ensures some { IfSome result (λ h. IsHeader h bytes.now) }
    ensures none { IsNone result → (h : HeaderOf) → IsHeader h bytes.now → ⊥ }
{
    let (order, fraction) = magic_in(bytes)?;
    let major = number_at(order, bytes, 4, 2);
    let minor = number_at(order, bytes, 6, 2);
    if major != 2 || minor != 4 {
        return None;
    }
    let link = (number_at(order, bytes, 20, 4) % 65536) as u16;
    Some(PcapHeader {
        order,
        fraction,
        link,
    })
}

/// The byte order and the parts of a second that the magic number of a file tells.
fn magic_in(bytes: &[u8]) -> Option<(ByteOrder, Fraction)>
    requires long { 4 ≤ length bytes.now }
    ensures some { IfSome result (λ it. field it.0 4 0 bytes.now ≡ magic_number it.1) }
    ensures none { IsNone result → (order : OrderOf) (fraction : FractionOf)
        → field order 4 0 bytes.now ≡ magic_number fraction → ⊥ }
{
    if let Some(fraction) = fraction_of(number_at(ByteOrder::MsbFirst, bytes, 0, 4)) {
        return Some((ByteOrder::MsbFirst, fraction));
    }
    let fraction = fraction_of(number_at(ByteOrder::MsbLast, bytes, 0, 4))?;
    Some((ByteOrder::MsbLast, fraction))
}

/// The parts of a second of a magic number.
fn fraction_of(magic: u64) -> Option<Fraction>
    ensures some { IfSome result (λ fraction. magic ≡ magic_number fraction) }
    ensures none { IsNone result → (fraction : FractionOf) → magic ≡ magic_number fraction → ⊥ }
{
    match magic {
        0xA1B2_C3D4 => Some(Fraction::Micro),
        0xA1B2_3C4D => Some(Fraction::Nano),
        _ => None,
    }
}

/// The packet of a record.
pub fn packet_in<'b>(header: PcapHeader, found: &'b [u8]) -> Captured<'b>
    requires { IsRecord header found.now }
    ensures { packet_of result ≡ record_packet header found.now }
{
    let (resolution, parts) = match header.fraction {
        Fraction::Micro => (6, 1_000_000),
        Fraction::Nano => (9, 1_000_000_000),
    };
    let seconds = number_at(header.order, found, 0, 4);
    let time = CaptureTime {
        ticks: seconds * parts + number_at(header.order, found, 4, 4),
        resolution,
        offset: 0,
    };
    Captured {
        link: header.link,
        time: Some(time),
        original: number_at(header.order, found, 12, 4) as u32,
        bytes: &found[RECORD_HEAD..],
    }
}
