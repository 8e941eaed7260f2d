//! Numbers in the bytes of a capture.
ghost use Rattle.std.specs.Prelude.{◌≡◌, ◌+◌, ◌^◌, ◌<◌, ◌≤◌, length};
ghost use Rattle.measured_values.specs.Raws.{IsSize};
ghost use Rattle.capture.specs.Numbers.{field};

use measured_values::{ByteOrder, number_in};

/// The number that `size` bytes are which stand at a place.
pub fn number_at(order: ByteOrder, bytes: &[u8], at: usize, size: usize) -> u64
    requires size { IsSize size }
    requires within { at + size ≤ length bytes.now }
    ensures value { result ≡ field order size at bytes.now }
    ensures fits { result < 256 ^ size }
{
    match number_in(order, &bytes[at..at + size]) {
        Some(number) => number,
        None => unreachable!(),
    }
}
