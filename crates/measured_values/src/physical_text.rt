//! Physical values are written as texts.
ghost use Rattle.std.specs.Prelude.{◌≡◌, OnErr, OnOk, string_bytes};
ghost use Rattle.measured_values.specs.Physicals.{shown_of};
ghost use Rattle.measured_values.specs.Texts.{GrowsBy, IsTextOf};

use crate::physical::Physical;
use std::alloc::AllocError;

/// Appends a physical value: an integer in decimal digits; a float as a short decimal that reads
/// back as the same float, but NaN and infinities as `NaN`, `inf` or `-inf`; a text as it is. If
/// memory is out, `out` is unchanged.
pub fn push_physical(out: &mut String, value: &Physical<'_>) -> Result<(), AllocError>
    ensures ok { OnOk result (GrowsBy (IsTextOf (shown_of value.now))
        (string_bytes out.old) (string_bytes out.new)) }
    ensures err { OnErr result (string_bytes out.new ≡ string_bytes out.old) }
{
    match *value {
        Physical::Unsigned(number) => out.push_str(itoa::Buffer::new().format(number)),
        Physical::Signed(number) => out.push_str(itoa::Buffer::new().format(number)),
        Physical::Single(number) => out.push_str(ryu::Buffer::new().format(number)),
        Physical::Double(number) => out.push_str(ryu::Buffer::new().format(number)),
        Physical::Text(text) => out.push_str(text),
    }
}
