//! The words of a PROTOCOL_LAYER, a DAQ or a TIMESTAMP_SUPPORTED are read: how packets look.
ghost use Rattle.std.specs.Prelude.{◌≡◌};
ghost use Rattle.a2l_entries.specs.Said.{token_at, tokens_of};
ghost use Rattle.a2l_entries.specs.FormSaid.{form_keyword, form_with, is_fixed, mode_with};
ghost use Rattle.a2l_entries.specs.FormSaid.{size_said, stamp_by, stamp_said, stamps_said, tells};
ghost use Rattle.a2l_entries.specs.FormSaid.{told_by, unit_number};
ghost use Rattle.a2l_entries.specs.TickSaid.{ticks_said};

use crate::keywords::{behind_keyword, is_keyword};
use crate::left::Left;
use crate::packet_form::PacketForm;
use crate::said::{plain_bytes, whole_number};
use crate::tick_block::ticks_of;
use crate::told::Told;
use a2l_text::{Located, meaning};

/// A keyword of a PROTOCOL_LAYER or a DAQ, and the number that it tells.
#[derive(Clone, Copy)]
pub enum FormKeyword {
    Order(u16),
    Granularity(u16),
    Field(u16),
    Overload(u16),
}

/// How packets look, by what was told before and the words directly in a PROTOCOL_LAYER or a DAQ,
/// those of a TIMESTAMP_SUPPORTED behind its name (ASAM MCD-1 XCP, IF_DATA).
pub fn form_with(form: PacketForm, words: Left<'_, '_>) -> PacketForm
    ensures { result ≡ form_with form (tokens_of words.entry) }
{
    let mut form = form;
    let mut rest = words;
    while let Some((word, behind)) = rest.words.split_first() {
        rest = Left {
            words: behind,
            end: rest.end,
        };
        form = form.and(told_by(*word, rest));
    }
    form
}

/// What a word tells, with the words behind it.
fn told_by(word: Located<'_>, behind: Left<'_, '_>) -> PacketForm
    ensures { result ≡ told_by (token_at word.entry) (tokens_of behind.entry) }
{
    if is_keyword(word, "TIMESTAMP_SUPPORTED") {
        return stamps_in(behind);
    }
    tells(form_keyword(word))
}

/// Which keyword a word is.
#[tactic(auto, unfolding(crate::specs::FormSaid::form_keyword))]
fn form_keyword(word: Located<'_>) -> Option<FormKeyword>
    ensures { result ≡ form_keyword (token_at word.entry) }
{
    let bytes = plain_bytes(word)?;
    meaning(bytes, &FORM_KEYWORDS)
}

/// The keywords of a PROTOCOL_LAYER and a DAQ that tell how packets look.
const FORM_KEYWORDS: [(&str, FormKeyword); 12] = [
    ("BYTE_ORDER_MSB_LAST", FormKeyword::Order(0)),
    ("BYTE_ORDER_MSB_FIRST", FormKeyword::Order(1)),
    ("ADDRESS_GRANULARITY_BYTE", FormKeyword::Granularity(0)),
    ("ADDRESS_GRANULARITY_WORD", FormKeyword::Granularity(1)),
    ("ADDRESS_GRANULARITY_DWORD", FormKeyword::Granularity(2)),
    ("IDENTIFICATION_FIELD_TYPE_ABSOLUTE", FormKeyword::Field(0)),
    (
        "IDENTIFICATION_FIELD_TYPE_RELATIVE_BYTE",
        FormKeyword::Field(1),
    ),
    (
        "IDENTIFICATION_FIELD_TYPE_RELATIVE_WORD",
        FormKeyword::Field(2),
    ),
    (
        "IDENTIFICATION_FIELD_TYPE_RELATIVE_WORD_ALIGNED",
        FormKeyword::Field(3),
    ),
    ("NO_OVERLOAD_INDICATION", FormKeyword::Overload(0)),
    ("OVERLOAD_INDICATION_PID", FormKeyword::Overload(1)),
    ("OVERLOAD_INDICATION_EVENT", FormKeyword::Overload(2)),
];

/// What a keyword tells.
fn tells(keyword: Option<FormKeyword>) -> PacketForm
    ensures { result ≡ tells keyword }
{
    let nothing = PacketForm::nothing();
    match keyword {
        Some(FormKeyword::Order(number)) => PacketForm {
            order: Told::Number(number),
            ..nothing
        },
        Some(FormKeyword::Granularity(number)) => PacketForm {
            granularity: Told::Number(number),
            ..nothing
        },
        Some(FormKeyword::Field(number)) => PacketForm {
            field: Told::Number(number),
            ..nothing
        },
        Some(FormKeyword::Overload(number)) => PacketForm {
            overload: Told::Number(number),
            ..nothing
        },
        None => nothing,
    }
}

/// What the words of a TIMESTAMP_SUPPORTED tell.
pub fn stamps_in(words: Left<'_, '_>) -> PacketForm
    ensures { result ≡ stamps_said (tokens_of words.entry) }
{
    let nothing = PacketForm::nothing();
    match stamp_of(words) {
        Some((stamp, ticks)) => PacketForm {
            stamp: Told::Number(stamp),
            ticks: Told::Number(ticks),
            ..nothing
        },
        None => PacketForm {
            stamp: Told::Unclear,
            ticks: Told::Unclear,
            ..nothing
        },
    }
}

/// TIMESTAMP_MODE and TIMESTAMP_TICKS, by the ticks, the size, the unit and what is behind them.
#[tactic(auto, unfolding(crate::specs::FormSaid::stamp_said))]
fn stamp_of(words: Left<'_, '_>) -> Option<(u16, u16)>
    ensures { result ≡ stamp_said (tokens_of words.entry) }
{
    let (ticks, left) = words.words.split_first()?;
    let (size, left) = left.split_first()?;
    let (unit, left) = left.split_first()?;
    let behind = Left {
        words: left,
        end: words.end,
    };
    stamp_by(*ticks, size_in(*size)?, *unit, is_fixed(behind))
}

/// The same, by how many bytes a timestamp has, and whether every list has one.
#[tactic(auto, unfolding(crate::specs::FormSaid::stamp_by))]
fn stamp_by(ticks: Located<'_>, size: u8, unit: Located<'_>, is_fixed: bool) -> Option<(u16, u16)>
    ensures { result ≡ stamp_by (token_at ticks.entry) size (token_at unit.entry) is_fixed }
{
    if size == 0 {
        return Some((0, 0));
    }
    let ticks = ticks_in(ticks)?;
    let unit = unit_in(unit)?;
    Some((mode_with(size, is_fixed, unit), ticks))
}

/// A number of ticks.
#[tactic(auto, unfolding(crate::specs::TickSaid::ticks_said))]
fn ticks_in(word: Located<'_>) -> Option<u16>
    ensures { result ≡ ticks_said (token_at word.entry) }
{
    let number = whole_number(word)?;
    ticks_of(number)
}

/// TIMESTAMP_MODE.
fn mode_with(size: u8, is_fixed: bool, unit: u8) -> u16
    ensures { result ≡ mode_with size is_fixed unit }
{
    let fixed = if is_fixed { 8 } else { 0 };
    size as u16 + fixed + 16 * unit as u16
}

/// Whether TIMESTAMP_FIXED is among the words.
fn is_fixed(words: Left<'_, '_>) -> bool
    ensures { result ≡ is_fixed (tokens_of words.entry) }
{
    match behind_keyword(words, "TIMESTAMP_FIXED") {
        Some(_) => true,
        None => false,
    }
}

/// How many bytes a timestamp has.
#[tactic(auto, unfolding(crate::specs::FormSaid::size_said))]
fn size_in(word: Located<'_>) -> Option<u8>
    ensures { result ≡ size_said (token_at word.entry) }
{
    let bytes = plain_bytes(word)?;
    meaning(bytes, &SIZES)
}

/// The sizes of a timestamp.
const SIZES: [(&str, u8); 4] = [
    ("NO_TIME_STAMP", 0),
    ("SIZE_BYTE", 1),
    ("SIZE_WORD", 2),
    ("SIZE_DWORD", 4),
];

/// The number of a unit.
#[tactic(auto, unfolding(crate::specs::FormSaid::unit_number))]
fn unit_in(word: Located<'_>) -> Option<u8>
    ensures { result ≡ unit_number (token_at word.entry) }
{
    let bytes = plain_bytes(word)?;
    meaning(bytes, &UNITS)
}

/// The numbers of the units (ASAM MCD-1 XCP, protocol layer, GET_DAQ_RESOLUTION_INFO).
const UNITS: [(&str, u8); 13] = [
    ("UNIT_1NS", 0),
    ("UNIT_10NS", 1),
    ("UNIT_100NS", 2),
    ("UNIT_1US", 3),
    ("UNIT_10US", 4),
    ("UNIT_100US", 5),
    ("UNIT_1MS", 6),
    ("UNIT_10MS", 7),
    ("UNIT_100MS", 8),
    ("UNIT_1S", 9),
    ("UNIT_1PS", 10),
    ("UNIT_10PS", 11),
    ("UNIT_100PS", 12),
];
