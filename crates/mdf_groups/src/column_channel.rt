//! The channel of a column.
ghost use Rattle.std.specs.Prelude.{◌≡◌, IfOk, Some, [], map, string_bytes};
ghost use Rattle.std.specs.Option.{option_copied, option_map};
ghost use Rattle.mdf_blocks.specs.Rules.{IsRule};
ghost use Rattle.mdf_file.specs.Describing.{told_channel, told_conversion};
ghost use Rattle.value_tables.specs.Values.{conversion_of, or_identical};
ghost use Rattle.mdf_groups.specs.Channels.{IsColumnChannel, SaysLost, conversion_by, is_whole};
ghost use Rattle.mdf_groups.specs.Channels.{limits_by, row_text, table_texts, text_or_none};
ghost use Rattle.mdf_groups.specs.Channels.{texts_by, unit_by};

use crate::channel::channel_at;
use mdf_blocks::{
    ChannelKind, ConversionKind, PlacedText, Rule, ValuePlace, bounds_of, keys_of, rule_of,
};
use mdf_file::{NewChannel, NewConversion};
use measured_values::{Conversion, DataType, TextTable, ValueLimits};
use std::alloc::{AllocError, Global};
use value_tables::Column;

/// Whether MDF has no conversion like that of a column: its channel has the raw values then.
pub fn is_lost(alloc: Global, column: &Column<'_>) -> Result<bool, AllocError>
    ensures { IfOk result (SaysLost column.now) }
{
    let rule = column_rule(alloc, column)?;
    Ok(matches!(rule, Rule::Lost))
}

/// The channel of a column, by the place of its values and by its name.
pub fn column_channel(
    alloc: Global,
    column: &Column<'_>,
    place: ValuePlace,
    name: &str,
) -> Result<NewChannel, AllocError>
    ensures { IfOk result (λ channel. IsColumnChannel column.now place name.now
        (told_channel channel)) }
{
    let rule = column_rule(alloc, column)?;
    let unit = unit_of(alloc, column.unit, &rule)?;
    let comment = text_or_none(alloc, column.identifier)?;
    let conversion = conversion_of(alloc, column, &rule)?;
    let mut channel = channel_at(alloc, name, unit, conversion, ChannelKind::Value, place)?;
    channel.comment = comment;
    channel.limits = limits_of(column.limits, &rule);
    Ok(channel)
}

/// How MDF has the conversion of a column.
fn column_rule(alloc: Global, column: &Column<'_>) -> Result<Rule, AllocError>
    ensures { IfOk result (IsRule (conversion_of column.now)
        (is_whole column.now.encoding.data_type)) }
{
    match column.conversion {
        Some(conversion) => rule_of(alloc, conversion, is_whole(column.encoding.data_type)),
        None => Ok(Rule::Identical),
    }
}

/// Whether the raw values of a data type are integers.
fn is_whole(data_type: DataType) -> bool
    ensures { result ≡ is_whole data_type }
{
    match data_type {
        DataType::Float16 | DataType::Float32 | DataType::Float64 => false,
        _ => true,
    }
}

/// The unit of a channel: that of the physical values, if it has these.
fn unit_of(alloc: Global, unit: &str, rule: &Rule) -> Result<Option<String>, AllocError>
    ensures { IfOk result (λ it. option_map string_bytes it ≡ unit_by unit.now rule.now) }
{
    if let Rule::Lost = rule {
        return Ok(Some(String::from_str(alloc, "raw")?));
    }
    text_or_none(alloc, unit)
}

/// A text, unless it is empty.
fn text_or_none(alloc: Global, text: &str) -> Result<Option<String>, AllocError>
    ensures { IfOk result (λ it. option_map string_bytes it ≡ text_or_none text.now) }
{
    if text.is_empty() {
        return Ok(None);
    }
    Ok(Some(String::from_str(alloc, text)?))
}

/// The limits of a channel: those of the physical values, if it has these.
fn limits_of(limits: Option<ValueLimits>, rule: &Rule) -> Option<ValueLimits>
    ensures { result ≡ limits_by limits rule.now }
{
    match rule {
        Rule::Lost => None,
        _ => limits,
    }
}

/// The conversion of a channel, by its rule.
fn conversion_of(
    alloc: Global,
    column: &Column<'_>,
    rule: &Rule,
) -> Result<Option<NewConversion>, AllocError>
    ensures { IfOk result (λ it. option_map told_conversion it
        ≡ conversion_by (conversion_of column.now) rule.now) }
{
    match rule {
        Rule::Identical | Rule::Lost => Ok(None),
        Rule::Linear(numbers) => formula(alloc, ConversionKind::Linear, numbers),
        Rule::Rational(numbers) => formula(alloc, ConversionKind::Rational, numbers),
        Rule::Values(places) => {
            let keys = keys_of(alloc, places)?;
            texts(alloc, ConversionKind::ValuesToTexts, keys, column, places)
        }
        Rule::Ranges(places) => {
            let bounds = bounds_of(alloc, places)?;
            texts(alloc, ConversionKind::RangesToTexts, bounds, column, places)
        }
    }
}

/// A conversion by numbers.
fn formula(
    alloc: Global,
    kind: ConversionKind,
    numbers: &[f64],
) -> Result<Option<NewConversion>, AllocError>
    ensures { IfOk result (λ it. option_map told_conversion it
        ≡ Some (record { kind = kind; values = numbers.now; texts = [] })) }
{
    let values = Vec::from_slice(alloc, numbers)?;
    Ok(Some(NewConversion {
        kind,
        values,
        texts: Vec::new(alloc),
    }))
}

/// A conversion by the texts of a column.
fn texts(
    alloc: Global,
    kind: ConversionKind,
    values: Vec<f64>,
    column: &Column<'_>,
    places: &[PlacedText],
) -> Result<Option<NewConversion>, AllocError>
    ensures { IfOk result (λ it. option_map told_conversion it ≡ Some (record {
      kind = kind;
      values = values.items;
      texts = texts_by (conversion_of column.now) places.now;
    })) }
{
    let texts = texts_of(alloc, column.conversion, places)?;
    Ok(Some(NewConversion {
        kind,
        values,
        texts,
    }))
}

/// The texts of the places, and the one of all other values.
fn texts_of(
    alloc: Global,
    conversion: Option<&Conversion>,
    places: &[PlacedText],
) -> Result<Vec<Option<String>>, AllocError>
    ensures { IfOk result (λ texts. map (option_map string_bytes) texts.items
        ≡ texts_by (or_identical (option_copied conversion.entry)) places.now) }
{
    match conversion {
        Some(Conversion::Texts(table)) => table_texts(alloc, table, places),
        _ => Ok(Vec::new(alloc)),
    }
}

fn table_texts(
    alloc: Global,
    table: &TextTable,
    places: &[PlacedText],
) -> Result<Vec<Option<String>>, AllocError>
    ensures { IfOk result (λ texts. map (option_map string_bytes) texts.items
        ≡ table_texts table.now places.now) }
{
    let mut texts = Vec::new(alloc);
    for place in places {
        let text = row_text(table, place.row)?;
        texts.push(text)?;
    }
    let other = default_text(&table.other)?;
    texts.push(other)?;
    Ok(texts)
}

/// The text of a row.
fn row_text(table: &TextTable, row: usize) -> Result<Option<String>, AllocError>
    ensures { IfOk result (λ text. option_map string_bytes text ≡ row_text table.now row) }
{
    match table.rows.get(row) {
        Some(row) => Ok(Some(row.text.clone()?)),
        None => Ok(None),
    }
}

/// The text of all other values.
fn default_text(text: &Option<String>) -> Result<Option<String>, AllocError>
    ensures { IfOk result (λ it. option_map string_bytes it ≡ option_map string_bytes text.now) }
{
    match text {
        Some(text) => Ok(Some(text.clone()?)),
        None => Ok(None),
    }
}
