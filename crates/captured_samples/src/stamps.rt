//! The timestamp in the first packet of a sample.
ghost use Rattle.std.specs.Prelude.{◌≡◌, drop};
ghost use Rattle.captured_samples.specs.Samples.{byte_in, dword_in, number_in, ticks_in, word_in};

use crate::places::field_len;
use captured_session::{CapturedList, dword, word};
use measured_values::ByteOrder;

/// The timestamp of a first packet.
pub fn ticks_in(list: &CapturedList, packet: &[u8]) -> Option<u32>
    ensures { result ≡ ticks_in list.now packet.now }
{
    let bytes = behind_field(packet, field_len(list.form().field));
    number_in(list.form().order, list.stamp_len(), bytes)
}

/// What stands behind so many bytes.
fn behind_field(packet: &[u8], n: usize) -> &[u8]
    ensures { result.now ≡ drop n packet.now }
{
    packet.get(n..).unwrap_or(&[])
}

/// The number of so many bytes in front.
fn number_in(order: ByteOrder, n: usize, bytes: &[u8]) -> Option<u32>
    ensures { result ≡ number_in order n bytes.now }
{
    match n {
        1 => byte_in(bytes),
        2 => word_in(order, bytes),
        4 => dword_in(order, bytes),
        _ => None,
    }
}

/// Of one byte.
fn byte_in(bytes: &[u8]) -> Option<u32>
    ensures { result ≡ byte_in bytes.now }
{
    match bytes {
        [a, ..] => Some(*a as u32),
        _ => None,
    }
}

/// Of two bytes.
fn word_in(order: ByteOrder, bytes: &[u8]) -> Option<u32>
    ensures { result ≡ word_in order bytes.now }
{
    match bytes {
        [a, b, ..] => Some(word(order, *a, *b) as u32),
        _ => None,
    }
}

/// Of four bytes.
fn dword_in(order: ByteOrder, bytes: &[u8]) -> Option<u32>
    ensures { result ≡ dword_in order bytes.now }
{
    match bytes {
        [a, b, c, d, ..] => Some(dword(order, *a, *b, *c, *d)),
        _ => None,
    }
}
