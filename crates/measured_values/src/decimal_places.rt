//! Digits with a decimal point among them.
ghost use Rattle.std.specs.Prelude.{◌≡◌, ◌+◌, ◌++◌, ◌<◌, ◌≤◌, OnErr, OnOk, length, string_bytes};
ghost use Rattle.std.specs.Prelude.{◌∷◌, drop, replicate, take};
ghost use Rattle.std.specs.Str.{IsAscii};
ghost use Rattle.measured_values.specs.Decimals.{placed};
ghost use Rattle.measured_values.specs.Texts.{Keeps};

use std::alloc::AllocError;

/// Appends digits with a point before the last `places` of them, and zeros in front if there
/// are too few. If memory is out, a part of them may have been appended.
pub(crate) fn push_placed(out: &mut String, digits: &str, places: usize) -> Result<(), AllocError>
    requires { IsAscii digits.now }
    ensures ok { OnOk result (string_bytes out.new
        ≡ string_bytes out.old ++ placed digits.now places) }
    ensures err { OnErr result (Keeps (string_bytes out.old) (string_bytes out.new)) }
{
    if places == 0 {
        return out.push_str(digits);
    }
    if places < digits.len() {
        return push_split(out, digits, digits.len() - places);
    }
    out.push_str("0.")?;
    push_zeros(out, places - digits.len())?;
    out.push_str(digits)
}

/// Appends digits with a point behind the first `whole` of them.
fn push_split(out: &mut String, digits: &str, whole: usize) -> Result<(), AllocError>
    requires ascii { IsAscii digits.now }
    requires whole { whole ≤ length digits.now }
    ensures ok { OnOk result (string_bytes out.new ≡ string_bytes out.old
        ++ (take whole digits.now ++ 46 ∷ drop whole digits.now)) }
    ensures err { OnErr result (Keeps (string_bytes out.old) (string_bytes out.new)) }
{
    out.push_str(&digits[..whole])?;
    out.push_str(".")?;
    out.push_str(&digits[whole..])
}

/// Appends zeros.
pub(crate) fn push_zeros(out: &mut String, count: usize) -> Result<(), AllocError>
    ensures ok { OnOk result (string_bytes out.new
        ≡ string_bytes out.old ++ replicate count 48) }
    ensures err { OnErr result (Keeps (string_bytes out.old) (string_bytes out.new)) }
{
    for _zero in 0..count {
        out.push('0')?;
    }
    Ok(())
}
