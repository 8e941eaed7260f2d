//! How long a record is, told from its first bytes.
ghost use Rattle.std.specs.Prelude.{◌≡◌, ℕ, ◌+◌, ◌-◌, ◌≤◌, drop};
ghost use Rattle.byte_ring.specs.Held.{least, least_body};

use crate::record::{HEAD, MARKER_LEN, MAX_RECORD, SAMPLE};

/// The bytes of the shortest record of a sample: one packet of one byte.
const LEAST_SAMPLE: usize = HEAD + LEAST_PACKET;

/// The bytes of the shortest packet behind its length.
const LEAST_PACKET: usize = 2;

/// Where a packet ends at the earliest that begins at `start`, behind its length.
fn packet_end(bytes: &[u8], start: usize) -> usize
    requires { start ≤ 65536 }
    ensures more { (n : ℕ) → result + least_body n (drop result bytes.now)
        ≡ start + least_body (n + 1) (drop start bytes.now) }
    ensures bound { result ≤ start + 256 }
{
    if start < bytes.len() {
        start + 1 + bytes[start] as usize
    } else {
        start + LEAST_PACKET
    }
}

/// Where the packets of a sample's record end at the earliest, of which there are `count`.
fn body_end(bytes: &[u8], count: u8) -> usize
    ensures { result ≡ HEAD + least_body count (drop HEAD bytes.now) }
{
    let mut end = HEAD;
    for _ in 0..count {
        end = packet_end(bytes, end);
    }
    end
}

/// The least length of a record that begins with these bytes, within that of the longest; if a
/// whole record stands in front, its length.
pub(crate) fn least_len(bytes: &[u8]) -> usize
    ensures value { result ≡ least bytes.now }
    ensures limit { result ≤ MAX_RECORD }
{
    if bytes.is_empty() {
        return MARKER_LEN;
    }
    if bytes[0] != SAMPLE {
        return MARKER_LEN;
    }
    if bytes.len() < HEAD {
        return LEAST_SAMPLE;
    }
    body_end(bytes, bytes[11]).min(MAX_RECORD)
}
