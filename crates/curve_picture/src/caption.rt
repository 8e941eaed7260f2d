//! The name and the unit of a row, and how they stand above its curve.

use std::alloc::{AllocError, Global};

/// So many letters of a name are shown; a longer one is cut.
const NAME: usize = 48;
/// So many of a unit.
const UNIT: usize = 12;

/// The name of a measurement and its unit.
#[derive(Drop)]
pub struct Caption {
    pub name: String,
    pub unit: String,
}

impl Caption {
    ghost use Rattle.std.specs.Prelude.{◌≡◌, IfOk};
    ghost use Rattle.curve_picture.specs.Shown.{name_of};

    /// A name and a unit.
    pub fn new(alloc: Global, name: &str, unit: &str) -> Result<Caption, AllocError>
        ensures { IfOk result (λ caption. name_of caption ≡ (name.now, unit.now)) }
    {
        let name = String::from_str(alloc, name)?;
        let unit = String::from_str(alloc, unit)?;
        Ok(Caption { name, unit })
    }

    /// Writes the name and the unit above the curve, at its left; the whole name is the title of
    /// the row.
    pub fn push_words(&self, text: &mut String) -> Result<(), AllocError> {
        text.push_str("<title>")?;
        push_cut(text, self.name.as_str(), usize::MAX)?;
        text.push_str("</title>\n")?;
        text.push_str("<text class=\"n\" x=\"0\" y=\"-12\">")?;
        push_cut(text, self.name.as_str(), NAME)?;
        if !self.unit.is_empty() {
            text.push_str("<tspan class=\"m\" dx=\"8\">")?;
            push_cut(text, self.unit.as_str(), UNIT)?;
            text.push_str("</tspan>")?;
        }
        text.push_str("</text>\n")
    }
}

/// Writes the front of some words, with three dots if they are longer.
pub fn push_cut(text: &mut String, words: &str, room: usize) -> Result<(), AllocError> {
    for (place, letter) in words.chars().enumerate() {
        if place >= room {
            return text.push_str("\u{2026}");
        }
        push_letter(text, letter)?;
    }
    Ok(())
}

/// Writes a letter as XML has it: a control character, which XML doesn't allow, is a space.
fn push_letter(text: &mut String, letter: char) -> Result<(), AllocError> {
    match letter {
        '&' => text.push_str("&amp;"),
        '<' => text.push_str("&lt;"),
        '>' => text.push_str("&gt;"),
        '\0'..='\x1f' | '\u{fffe}' | '\u{ffff}' => text.push_str(" "),
        _ => text.push(letter),
    }
}
