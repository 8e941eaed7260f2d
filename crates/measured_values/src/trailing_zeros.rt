//! The zeros that a number ends in.
ghost use Rattle.std.specs.Prelude.{◌≡◌, ◌≢◌, ◌*◌, ◌<◌, ◌≤◌, ◌%◌, ◌^◌};

/// A number without the decimal zeros that it ends in, at most `most` of them, and how many those
/// were.
pub(crate) fn without_zeros(number: u128, most: u8) -> (u128, u8)
    ensures worth { number ≡ result.0 * 10 ^ result.1 }
    ensures most { result.1 ≤ most }
    ensures done { result.1 < most → result.0 % 10 ≢ 0 }
{
    let mut rest = number;
    for zeros in 0..most {
        if rest % 10 != 0 {
            return (rest, zeros);
        }
        rest /= 10;
    }
    (rest, most)
}
