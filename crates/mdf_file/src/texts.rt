//! Texts that a file is to have.
ghost use Rattle.std.specs.Prelude.{◌≡◌, ◌≢◌, ◌+◌, ◌%◌, ◌^◌, ◌<◌, All, IfOk};
ghost use Rattle.std.specs.Prelude.{Some, codes, length, map, string_bytes};
ghost use Rattle.std.specs.Option.{option_map};
ghost use Rattle.mdf_blocks.specs.Told.{TellsText, TellsTexts};
ghost use Rattle.mdf_file.specs.Adding.{Adds};

use crate::mdf_fault::MdfFault;
use crate::next_place::next_place;
use mdf_blocks::{push_comment, push_text};
use std::alloc::Global;

/// Adds a plain text, and gives its place.
pub fn add_text(out: &mut Vec<u8>, base: u64, text: &str) -> Result<u64, MdfFault>
    requires some { 0 < base }
    requires aligned { (base + length out.old.items) % 8 ≡ 0 }
    ensures { IfOk result (λ link. Adds base out.old.items out.new.items
        (λ bytes. TellsText bytes (codes "##TX") link (Some text.now))) }
{
    check(text)?;
    let place = next_place(base, out)?;
    push_text(out, text)?;
    Ok(place)
}

/// Adds a text in XML, and gives its place.
pub fn add_comment(out: &mut Vec<u8>, base: u64, text: &str) -> Result<u64, MdfFault>
    requires some { 0 < base }
    requires aligned { (base + length out.old.items) % 8 ≡ 0 }
    ensures { IfOk result (λ link. Adds base out.old.items out.new.items
        (λ bytes. TellsText bytes (codes "##MD") link (Some text.now))) }
{
    check(text)?;
    let place = next_place(base, out)?;
    push_comment(out, text)?;
    Ok(place)
}

/// That a text has no byte of 0.
pub fn check(text: &str) -> Result<(), MdfFault>
    ensures { IfOk result (λ it. All (λ b. b ≢ 0) text.now) }
{
    for byte in text.as_bytes() {
        if *byte == 0 {
            return Err(MdfFault::ZeroInText);
        }
    }
    Ok(())
}

/// The same, or nothing.
pub fn add_optional(out: &mut Vec<u8>, base: u64, text: &Option<String>) -> Result<u64, MdfFault>
    requires some { 0 < base }
    requires aligned { (base + length out.old.items) % 8 ≡ 0 }
    ensures { IfOk result (λ link. Adds base out.old.items out.new.items
        (λ bytes. TellsText bytes (codes "##TX") link (option_map string_bytes text.now))) }
{
    match text {
        Some(text) => add_text(out, base, text),
        None => Ok(0),
    }
}

/// Adds texts, and gives their places.
pub fn add_texts(
    alloc: Global,
    out: &mut Vec<u8>,
    base: u64,
    texts: &[Option<String>],
) -> Result<Vec<u64>, MdfFault>
    requires some { 0 < base }
    requires aligned { (base + length out.old.items) % 8 ≡ 0 }
    ensures { IfOk result (λ links. Adds base out.old.items out.new.items
        (λ bytes. TellsTexts bytes links.items (map (option_map string_bytes) texts.now))
        × All (λ n. n < 2 ^ 64) links.items) }
{
    let mut links = Vec::new(alloc);
    for text in texts {
        let link = add_optional(out, base, text)?;
        links.push(link)?;
    }
    Ok(links)
}
