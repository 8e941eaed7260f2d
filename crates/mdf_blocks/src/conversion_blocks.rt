//! The blocks of conversions.
ghost use Rattle.std.specs.Prelude.{◌≡◌, ◌^◌, ◌<◌, ◌++◌, OnErr, OnOk, length, take};
ghost use Rattle.mdf_blocks.specs.Conversions.{cc_block, cc_front, cc_type};
ghost use Rattle.mdf_blocks.specs.Numbers.{reals};

use crate::block::{block_head, push_numbers};
use crate::conversion_kind::ConversionKind;
use std::alloc::AllocError;
use std::num::f64_to_bits_with_nan;

/// Appends a conversion, with the place of its unit, or 0, the places of its texts, and its numbers
/// (ASAM MDF 4.1, CC). If memory is out, nothing is appended.
pub fn push_conversion(
    out: &mut Vec<u8>,
    kind: ConversionKind,
    unit: u64,
    references: &[u64],
    values: &[f64],
) -> Result<(), AllocError>
    requires references { length references.now < 2 ^ 16 }
    requires values { length values.now < 2 ^ 16 }
    ensures ok { OnOk result (out.new.items
        ≡ out.old.items ++ cc_block kind unit references.now values.now) }
    ensures err { OnErr result (out.new.items ≡ out.old.items) }
{
    let start = out.len();
    if let Err(fault) = push_parts(out, kind, unit, references, values) {
        out.truncate(start);
        return Err(fault);
    }
    Ok(())
}

/// The same, but if memory is out, a part may have been appended.
fn push_parts(
    out: &mut Vec<u8>,
    kind: ConversionKind,
    unit: u64,
    references: &[u64],
    values: &[f64],
) -> Result<(), AllocError>
    requires references { length references.now < 2 ^ 16 }
    requires values { length values.now < 2 ^ 16 }
    ensures ok { OnOk result (out.new.items
        ≡ out.old.items ++ cc_block kind unit references.now values.now) }
    ensures err { OnErr result (take (length out.old.items) out.new.items ≡ out.old.items) }
{
    let (links, numbers) = (references.len() as u64, values.len() as u64);
    out.extend_from_slice(&block_head(b"##CC", 80 + 8 * links + 8 * numbers, 4 + links))?;
    push_numbers(out, &[0, unit, 0, 0])?;
    push_numbers(out, references)?;
    out.extend_from_slice(&conversion_front(kind, links as u16, numbers as u16))?;
    push_reals(out, values)
}

/// What stands in front of the numbers of a conversion.
fn conversion_front(kind: ConversionKind, references: u16, values: u16) -> [u8; 24]
    ensures { result ≡ cc_front kind references values }
{
    let kind = cc_type(kind);
    let [r0, r1] = references.to_le_bytes();
    let [v0, v1] = values.to_le_bytes();
    [
        kind, 0, 0, 0, r0, r1, v0, v1, //
        0, 0, 0, 0, 0, 0, 0, 0, 0, 0, 0, 0, 0, 0, 0, 0,
    ]
}

fn cc_type(kind: ConversionKind) -> u8
    ensures { result ≡ cc_type kind }
{
    match kind {
        ConversionKind::Linear => 1,
        ConversionKind::Rational => 2,
        ConversionKind::ValuesToTexts => 7,
        ConversionKind::RangesToTexts => 8,
    }
}

/// Appends floats one behind another. If memory is out, some of them may have been appended.
fn push_reals(out: &mut Vec<u8>, values: &[f64]) -> Result<(), AllocError>
    ensures ok { OnOk result (out.new.items ≡ out.old.items ++ reals values.now) }
    ensures err { OnErr result (take (length out.old.items) out.new.items ≡ out.old.items) }
{
    for value in values {
        out.extend_from_slice(&f64_to_bits_with_nan(*value).to_le_bytes())?;
    }
    Ok(())
}
