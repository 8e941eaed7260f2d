//! Conversions that a file is to have.
ghost use Rattle.std.specs.Prelude.{◌≡◌, ◌+◌, ◌%◌, ◌<◌, List, ℕ, IfOk, Option, Some, length};
ghost use Rattle.std.specs.Option.{option_map};
ghost use Rattle.mdf_blocks.specs.Told.{TellsConversion, TellsTexts};
ghost use Rattle.mdf_file.specs.Adding.{Adds};
ghost use Rattle.mdf_file.specs.Describing.{told_conversion};

use crate::mdf_fault::MdfFault;
use crate::new_conversion::NewConversion;
use crate::next_place::next_place;
use crate::texts::add_texts;
use mdf_blocks::{ConversionKind, push_conversion};
use std::alloc::Global;

/// Adds a conversion with its texts, or nothing, and gives its place, or 0.
pub fn add_conversion(
    alloc: Global,
    out: &mut Vec<u8>,
    base: u64,
    conversion: &Option<NewConversion>,
) -> Result<u64, MdfFault>
    requires some { 0 < base }
    requires aligned { (base + length out.old.items) % 8 ≡ 0 }
    ensures { IfOk result (λ link. Adds base out.old.items out.new.items
        (λ bytes. TellsConversion bytes link (option_map told_conversion conversion.now))) }
{
    match conversion {
        Some(conversion) => add_some(alloc, out, base, conversion),
        None => Ok(0),
    }
}

fn add_some(
    alloc: Global,
    out: &mut Vec<u8>,
    base: u64,
    conversion: &NewConversion,
) -> Result<u64, MdfFault>
    requires some { 0 < base }
    requires aligned { (base + length out.old.items) % 8 ≡ 0 }
    ensures { IfOk result (λ link. Adds base out.old.items out.new.items
        (λ bytes. TellsConversion bytes link (Some (told_conversion conversion.now)))) }
{
    let links = add_texts(alloc, out, base, &conversion.texts)?;
    add_block(out, base, conversion.kind, &links, &conversion.values)
}

/// Adds the block of a conversion, whose texts stand before it.
fn add_block(
    out: &mut Vec<u8>,
    base: u64,
    kind: ConversionKind,
    links: &[u64],
    values: &[f64],
) -> Result<u64, MdfFault>
    requires some { 0 < base }
    requires aligned { (base + length out.old.items) % 8 ≡ 0 }
    ensures { IfOk result (λ link. (texts : List (Option (List ℕ)))
        → Adds base out.old.items out.old.items (λ bytes. TellsTexts bytes links.now texts)
        → Adds base out.old.items out.new.items (λ bytes. TellsConversion bytes link
        (Some (record { kind = kind; values = values.now; texts = texts })))) }
{
    if links.len() > 65_535 {
        return Err(MdfFault::LongConversion);
    }
    if values.len() > 65_535 {
        return Err(MdfFault::LongConversion);
    }
    let place = next_place(base, out)?;
    push_conversion(out, kind, 0, links, values)?;
    Ok(place)
}
