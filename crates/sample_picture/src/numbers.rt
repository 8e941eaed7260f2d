//! Numbers as the picture prints them.
ghost use Rattle.std.specs.Prelude.{◌≤◌};

use std::alloc::AllocError;

/// The groups of three digits of a number, the highest first.
const GROUPS: [u64; 7] = [
    1000000000000000000,
    1000000000000000,
    1000000000000,
    1000000000,
    1000000,
    1000,
    1,
];

/// Writes a number with a comma before each three digits, as 12,345.
pub fn push_number(text: &mut String, number: u64) -> Result<(), AllocError> {
    let mut begun = false;
    for group in GROUPS {
        if group == 0 {
            continue;
        }
        let digits = number / group % 1000;
        if begun {
            write!(text, ",{digits:03}")?;
        } else if digits > 0 || group == 1 {
            write!(text, "{digits}")?;
            begun = true;
        }
    }
    Ok(())
}

/// How many characters `push_number` writes: at most 26.
pub fn characters(number: u64) -> u64
    ensures { result ≤ 26 }
{
    let mut count = 1;
    let mut rest = number / 10;
    for place in 1..20u64 {
        if rest > 0 {
            count += 1;
            if place % 3 == 0 {
                count += 1;
            }
        }
        rest /= 10;
    }
    count
}

/// Writes tenths of a unit as a decimal number, as 12.5.
pub fn push_tenths(text: &mut String, tenths: u64) -> Result<(), AllocError> {
    let whole = tenths / 10;
    let part = tenths % 10;
    if part == 0 {
        write!(text, "{whole}")
    } else {
        write!(text, "{whole}.{part}")
    }
}
