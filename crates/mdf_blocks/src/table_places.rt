//! The rows of a table of texts, in the order that MDF asks for.
ghost use Rattle.std.specs.Prelude.{◌≡◌, ◌<◌, IfOk, MatchOption, length, true};
ghost use Rattle.mdf_blocks.specs.Placing.{IsFirstReached, IsOf, Placing, is_inside};
ghost use Rattle.std.specs.Float.Ieee.{le};
ghost use Rattle.mdf_blocks.specs.TextPlaces.{ArePlaces, IsRising, SomeCross};

use crate::placed_text::PlacedText;
use measured_values::TextRow;
use std::alloc::{AllocError, Global};

/// The rows of a table, rising, each number with the row that the table gives it first; a row that
/// gives none is left out. `None` if a row and a later one have numbers in common, and the later
/// one has others too.
pub fn text_places(alloc: Global, rows: &[TextRow]) -> Result<Option<Vec<PlacedText>>, AllocError>
    ensures { IfOk result (λ it. MatchOption it (SomeCross rows.now)
        (λ places. ArePlaces rows.now places.items)) }
{
    let mut places = Vec::new(alloc);
    for row in 0..rows.len() {
        let text = text_of(rows, row);
        if !place(&mut places, text)? {
            return Ok(None);
        }
    }
    Ok(Some(places))
}

/// The numbers of a row.
fn text_of(rows: &[TextRow], row: usize) -> PlacedText
    requires { row < length rows.now }
    ensures { IsOf rows.now result × (result.row ≡ row) }
{
    let TextRow {
        least,
        greatest,
        ..
    } = &rows[row];
    PlacedText {
        least: *least,
        greatest: *greatest,
        row,
    }
}

/// Places a text among others, unless all its numbers have a place, or it has none; answers whether
/// that could be done.
fn place(places: &mut Vec<PlacedText>, text: PlacedText) -> Result<bool, AllocError>
    requires { IsRising places.old.items }
    ensures { IfOk result (λ done. Placing places.old.items text done places.new.items) }
{
    if !(text.least <= text.greatest) {
        return Ok(true);
    }
    let at = first_reached(places, text.least);
    if at < places.len() {
        return place_before(places, at, text);
    }
    places.push(text)?;
    Ok(true)
}

/// The same, if there is a place that it reaches.
fn place_before(
    places: &mut Vec<PlacedText>,
    at: usize,
    text: PlacedText,
) -> Result<bool, AllocError>
    requires rising { IsRising places.old.items }
    requires some { le text.least text.greatest ≡ true }
    requires first { IsFirstReached text.least places.old.items at }
    requires within { at < length places.old.items }
    ensures { IfOk result (λ done. Placing places.old.items text done places.new.items) }
{
    let next = places[at];
    if is_inside(text, next) {
        return Ok(true);
    }
    if next.least <= text.greatest {
        return Ok(false);
    }
    places.insert(at, text)?;
    Ok(true)
}

/// Whether all numbers of a text are those of a place.
fn is_inside(text: PlacedText, place: PlacedText) -> bool
    ensures { result ≡ is_inside text place }
{
    place.least <= text.least && text.greatest <= place.greatest
}

/// The first place that doesn't end below a number, or the number of places.
fn first_reached(places: &[PlacedText], least: f64) -> usize
    ensures { IsFirstReached least places.now result }
{
    for (i, place) in places.iter().enumerate() {
        if least <= place.greatest {
            return i;
        }
    }
    places.len()
}
