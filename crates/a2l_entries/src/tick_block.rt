//! The words of a TIMESTAMP_SUPPORTED are read: how long a tick is.
ghost use Rattle.std.specs.Prelude.{◌≡◌, ◌≤◌, IfOk};
ghost use Rattle.a2l_entries.specs.Gives.{Gives};
ghost use Rattle.a2l_entries.specs.Said.{token_at, tokens_of};
ghost use Rattle.a2l_entries.specs.TickSaid.{tick_said, tick_with, ticks_of, ticks_said, unit_said};

use crate::awaited::Awaited;
use crate::entry_fault::EntryFault;
use crate::left::Left;
use crate::said::{integer_in, plain_in};
use a2l_text::{Located, meaning};
use measured_values::Tick;

/// The greatest number of ticks, which has 16 bits.
pub const MAX_TICKS: u64 = 65535;

/// What the words directly in a TIMESTAMP_SUPPORTED say (ASAM MCD-1 XCP, TIMESTAMP_SUPPORTED).
#[tactic(auto, unfolding(crate::specs::TickSaid::tick_said))]
pub fn tick_of(words: Left<'_, '_>) -> Result<Tick, EntryFault>
    ensures { Gives (λ x. x) result (tick_said (tokens_of words.entry)) }
{
    let (word, left) = words.first(Awaited::Ticks)?;
    let ticks = ticks_in(word)?;
    let (_, left) = left.first(Awaited::Argument)?;
    let (word, _) = left.first(Awaited::TickUnit)?;
    let (times, exponent) = unit_in(word)?;
    Ok(Tick {
        mantissa: ticks * times as u32,
        exponent,
    })
}

#[tactic(auto, unfolding(crate::specs::TickSaid::ticks_said))]
fn ticks_in(word: Located<'_>) -> Result<u32, EntryFault>
    ensures value { Gives (λ x. x) result (ticks_said (token_at word.entry)) }
    ensures limit { IfOk result (λ x. x ≤ 65535) }
{
    match ticks_of(integer_in(word)?) {
        Some(ticks) => Ok(ticks as u32),
        None => Err(EntryFault::Awaited(word.at, Awaited::Ticks)),
    }
}

/// A number of ticks, if it has 16 bits and isn't 0.
pub fn ticks_of(number: u64) -> Option<u16>
    ensures { result ≡ ticks_of number }
{
    if number == 0 || number > MAX_TICKS {
        return None;
    }
    Some(number as u16)
}

/// The unit that a word names: so many times 10 to the power of an exponent, in seconds.
#[tactic(auto, unfolding(crate::specs::TickSaid::unit_said))]
fn unit_in(word: Located<'_>) -> Result<(u8, i8), EntryFault>
    ensures { Gives (λ unit. tick_with unit.0 unit.1) result (unit_said (token_at word.entry)) }
{
    let bytes = plain_in(word, Awaited::TickUnit)?;
    match meaning(bytes, &UNITS) {
        Some(unit) => Ok(unit),
        None => Err(EntryFault::Awaited(word.at, Awaited::TickUnit)),
    }
}

/// The units of a timestamp.
const UNITS: [(&str, (u8, i8)); 13] = [
    ("UNIT_1PS", (1, -12)),
    ("UNIT_10PS", (10, -12)),
    ("UNIT_100PS", (100, -12)),
    ("UNIT_1NS", (1, -9)),
    ("UNIT_10NS", (10, -9)),
    ("UNIT_100NS", (100, -9)),
    ("UNIT_1US", (1, -6)),
    ("UNIT_10US", (10, -6)),
    ("UNIT_100US", (100, -6)),
    ("UNIT_1MS", (1, -3)),
    ("UNIT_10MS", (10, -3)),
    ("UNIT_100MS", (100, -3)),
    ("UNIT_1S", (1, 0)),
];
