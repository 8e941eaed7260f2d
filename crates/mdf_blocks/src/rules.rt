//! From a conversion to the rule that MDF has for it.
ghost use Rattle.std.specs.Prelude.{◌≡◌, IfOk};
ghost use Rattle.std.specs.List.{list_all};
ghost use Rattle.mdf_blocks.specs.Rules.{IsRule, IsTextRule, bounds_of, is_key, keys_of};

use crate::placed_text::PlacedText;
use crate::rule::{MAX_TEXTS, Rule};
use crate::table_places::text_places;
use measured_values::{Conversion, TextRow};
use std::alloc::{AllocError, Global};

/// The rule of a conversion. `whole` tells whether the raw values are integers: only then can MDF
/// say ranges that have their greatest number too.
pub fn rule_of(alloc: Global, conversion: &Conversion, whole: bool) -> Result<Rule, AllocError>
    ensures { IfOk result (IsRule conversion.now whole) }
{
    match conversion {
        Conversion::Identical => Ok(Rule::Identical),
        Conversion::Linear { factor, offset } => Ok(Rule::Linear([*offset, *factor])),
        Conversion::Rational { b, c, f } => Ok(Rule::Rational([0.0, *f, -*c, 0.0, 0.0, *b])),
        Conversion::Texts(table) => text_rule(alloc, &table.rows, whole),
        Conversion::Other => Ok(Rule::Lost),
    }
}

/// The rule of a table of texts.
fn text_rule(alloc: Global, rows: &[TextRow], whole: bool) -> Result<Rule, AllocError>
    ensures { IfOk result (IsTextRule rows.now whole) }
{
    let Some(places) = text_places(alloc, rows)? else {
        return Ok(Rule::Lost);
    };
    if places.len() > MAX_TEXTS {
        return Ok(Rule::Lost);
    }
    if are_keys(&places) {
        return Ok(Rule::Values(places));
    }
    if whole {
        return Ok(Rule::Ranges(places));
    }
    Ok(Rule::Lost)
}

/// Whether each place is one number.
fn are_keys(places: &[PlacedText]) -> bool
    ensures { result ≡ list_all is_key places.now }
{
    places.iter().all(|place| place.least == place.greatest)
}

/// The numbers of texts, as a conversion of values to texts has them.
pub fn keys_of(alloc: Global, places: &[PlacedText]) -> Result<Vec<f64>, AllocError>
    ensures { IfOk result (λ keys. keys.items ≡ keys_of places.now) }
{
    places.iter().map(|place| place.least).collect(alloc)
}

/// The numbers of texts, as a conversion of ranges to texts has them.
pub fn bounds_of(alloc: Global, places: &[PlacedText]) -> Result<Vec<f64>, AllocError>
    ensures { IfOk result (λ bounds. bounds.items ≡ bounds_of places.now) }
{
    let mut bounds = Vec::new(alloc);
    for place in places {
        bounds.push(place.least)?;
        bounds.push(place.greatest)?;
    }
    Ok(bounds)
}
