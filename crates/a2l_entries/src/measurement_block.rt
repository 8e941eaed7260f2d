//! The words of a MEASUREMENT are read, and the name of an INSTANCE.
ghost use Rattle.std.specs.Prelude.{◌≡◌, option_map, string_bytes};
ghost use Rattle.a2l_entries.specs.Gives.{Gives};
ghost use Rattle.a2l_entries.specs.Said.{tokens_of};
ghost use Rattle.a2l_entries.specs.MeasurementSaid.{measurement_seen, measurement_said};
ghost use Rattle.a2l_entries.specs.MeasurementSaid.{method_first, limits_first, limits_of};
ghost use Rattle.a2l_entries.specs.MeasurementSaid.{instance_said, name_of};

use crate::awaited::Awaited;
use crate::entry_fault::EntryFault;
use crate::keywords::{data_type_in, is_keyword};
use crate::left::Left;
use crate::measurement_options::{MeasurementOptions, measurement_options};
use crate::said::{Reference, name_in};
use measured_values::{DataType, ValueLimits};
use std::alloc::Global;

/// What a block MEASUREMENT says (ASAM MCD-2 MC, MEASUREMENT).
#[derive(Drop)]
pub struct MeasurementBlock {
    pub name: String,
    /// Its long identifier: empty, if that has more than 1024 bytes.
    pub identifier: String,
    pub data_type: DataType,
    /// Its method, if it has one.
    pub method: Option<Reference>,
    /// LowerLimit and UpperLimit, if the first is less than the second.
    pub limits: Option<ValueLimits>,
    pub options: MeasurementOptions,
}

/// What the words directly in a MEASUREMENT say.
#[tactic(auto, unfolding(crate::specs::MeasurementSaid::measurement_said))]
pub fn measurement_of(alloc: Global, words: Left<'_, '_>) -> Result<MeasurementBlock, EntryFault>
    ensures { Gives measurement_seen result (measurement_said (tokens_of words.entry)) }
{
    let (name, left) = words.name(alloc)?;
    let (identifier, left) = left.identifier(alloc)?;
    let (word, left) = left.first(Awaited::DataType)?;
    let data_type = data_type_in(word)?;
    let (method, left) = method_name(alloc, left)?;
    let (limits, left) = limits_in(left)?;
    let options = measurement_options(alloc, left)?;
    Ok(MeasurementBlock {
        name,
        identifier,
        data_type,
        method,
        limits,
        options,
    })
}

/// The name that the words directly in an INSTANCE begin with (ASAM MCD-2 MC, INSTANCE).
#[tactic(auto, unfolding(crate::specs::MeasurementSaid::instance_said))]
pub fn instance_of(alloc: Global, words: Left<'_, '_>) -> Result<String, EntryFault>
    ensures { Gives (λ s. string_bytes s) result (instance_said (tokens_of words.entry)) }
{
    let (name, _) = words.name(alloc)?;
    Ok(name)
}

/// The name of a method, or NO_COMPU_METHOD, and what is behind it.
#[tactic(auto, unfolding(crate::specs::MeasurementSaid::method_first))]
fn method_name<'w, 'a>(
    alloc: Global,
    left: Left<'w, 'a>,
) -> Result<(Option<Reference>, Left<'w, 'a>), EntryFault>
    ensures { Gives (λ x. (option_map name_of x.0, tokens_of x.1)) result
        (method_first (tokens_of left.entry)) }
{
    let (word, left) = left.first(Awaited::Name)?;
    if is_keyword(word, "NO_COMPU_METHOD") {
        return Ok((None, left));
    }
    let name = name_in(alloc, word)?;
    Ok((Some(Reference { name, at: word.at }), left))
}

/// The limits, which stand behind the resolution and the accuracy, and what is behind them.
#[tactic(auto, unfolding(crate::specs::MeasurementSaid::limits_first))]
fn limits_in<'w, 'a>(left: Left<'w, 'a>) -> Result<(Option<ValueLimits>, Left<'w, 'a>), EntryFault>
    ensures { Gives (λ x. (x.0, tokens_of x.1)) result (limits_first (tokens_of left.entry)) }
{
    let (_, left) = left.number()?;
    let (_, left) = left.number()?;
    let (least, left) = left.number()?;
    let (greatest, left) = left.number()?;
    Ok((limits_of(least, greatest), left))
}

/// The limits, if the lower one is less than the upper one: `0 0`, as many files have it, says
/// nothing.
fn limits_of(least: f64, greatest: f64) -> Option<ValueLimits>
    ensures { result ≡ limits_of least greatest }
{
    if least < greatest {
        return Some(ValueLimits { least, greatest });
    }
    None
}
