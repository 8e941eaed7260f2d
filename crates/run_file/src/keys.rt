//! The keys of a run file, and their values.
ghost use Rattle.std.specs.Prelude.{◌≡◌, ◌≤◌, IfOk, IfSome, MatchBool, None, Some, map, option_map};
ghost use Rattle.std.specs.Prelude.{vec_items};
ghost use Rattle.toml.specs.Data.{as_array, as_str};
ghost use Rattle.toml.specs.View.{items_view, table_view, view};
ghost use Rattle.run_file.specs.Keys.{all_of, are_keys, at_key, cap_in, caps_in, drain_of};
ghost use Rattle.run_file.specs.Keys.{id_in, id_named, id_of, keys, number_in, packet_form};
ghost use Rattle.run_file.specs.Keys.{is_among, ring_in, ring_named, ring_of, stamp_in, stamp_of};
ghost use Rattle.run_file.specs.Keys.{texts_at, texts_in};
ghost use Rattle.run_file.specs.Inner.{text_in};

use std::alloc::{AllocError, Global};
use toml::{Table, Value};
use xcp_base::limits::{MAX_DTO, MAX_STAMP};
use xcp_base::{IdKind, PacketForm, RingKind, StampSize};

/// Whether each key of a table is one of a run file.
pub fn are_keys(table: &Table) -> bool
    ensures { result ≡ are_keys (table_view table.now) }
{
    table.keys().all(|key| is_key(key.as_str()))
}

/// Whether a word is a key of a run file.
pub fn is_key(word: &str) -> bool
    ensures { result ≡ is_among keys word.now }
{
    word == "channels"
        || word == "image_len"
        || word == "caps"
        || word == "setup"
        || word == "steps"
        || word == "drain"
        || word == "ring"
        || word == "id"
        || word == "stamp_size"
}

/// The integer of a key, if it is within bounds.
pub fn number_at(table: &Table, key: &str, least: usize, most: usize) -> Option<usize>
    ensures value { result ≡ at_key (number_in least most) key.now (table_view table.now) }
    ensures within { IfSome result (λ n. (least ≤ n) × (n ≤ most)) }
{
    number_in(table.get(key)?, least, most)
}

/// The integer of a value, if it is within bounds.
pub fn number_in(value: &Value, least: usize, most: usize) -> Option<usize>
    ensures value { result ≡ number_in least most (view value.now) }
    ensures within { IfSome result (λ n. (least ≤ n) × (n ≤ most)) }
{
    let Some(integer) = value.as_integer() else {
        return None;
    };
    let Ok(number) = usize::try_from(integer) else {
        return None;
    };
    if least <= number && number <= most {
        Some(number)
    } else {
        None
    }
}

/// The values of the array of a key.
pub fn array_at<'a>(table: &'a Table, key: &str) -> Option<&'a [Value]>
    ensures { option_map (λ values. items_view values.now) result
        ≡ at_key as_array key.now (table_view table.now) }
{
    items_in(table.get(key)?)
}

/// The values of the array of a key, if they are strings and no more than `most`.
pub fn texts_at<'a>(table: &'a Table, key: &str, most: usize) -> Option<&'a [Value]>
    ensures { option_map (λ values. map text_in values.now) result
        ≡ texts_at most key.now (table_view table.now) }
{
    let Some(values) = array_at(table, key) else {
        return None;
    };
    if are_texts(values, most) {
        Some(values)
    } else {
        None
    }
}

/// The values of an array.
fn items_in(value: &Value) -> Option<&[Value]>
    ensures { option_map (λ values. items_view values.now) result ≡ as_array (view value.now) }
{
    Some(value.as_array()?.as_slice())
}

/// Whether values are strings, and no more than `most`.
fn are_texts(values: &[Value], most: usize) -> bool
    ensures { MatchBool result
        (texts_in most (items_view values.now) ≡ Some (map text_in values.now))
        (texts_in most (items_view values.now) ≡ None) }
{
    if !are_strings(values) {
        return false;
    }
    values.len() <= most
}

/// Whether values are strings.
fn are_strings(values: &[Value]) -> bool
    ensures { MatchBool result
        (all_of as_str (items_view values.now) ≡ Some (map text_in values.now))
        (all_of as_str (items_view values.now) ≡ None) }
{
    values.iter().all(|value| value.is_str())
}

/// The capacities, if there is one for each event channel and each is within bounds.
pub fn caps_in(
    alloc: Global,
    kind: RingKind,
    channels: usize,
    values: &[Value],
) -> Result<Option<Vec<usize>>, AllocError>
    ensures { IfOk result (λ caps.
        option_map vec_items caps ≡ caps_in kind channels (items_view values.now)) }
{
    let Some(caps) = numbers_in(alloc, kind, values)? else {
        return Ok(None);
    };
    if caps.len() == channels {
        Ok(Some(caps))
    } else {
        Ok(None)
    }
}

/// The capacities, if each is within bounds.
fn numbers_in(
    alloc: Global,
    kind: RingKind,
    values: &[Value],
) -> Result<Option<Vec<usize>>, AllocError>
    ensures { IfOk result (λ caps. option_map vec_items caps
        ≡ all_of (cap_in kind) (items_view values.now)) }
{
    let mut caps = Vec::with_capacity(alloc, values.len())?;
    for value in values {
        let Some(cap) = number_in(value, kind.least_cap(), kind.most_cap()) else {
            return Ok(None);
        };
        let Ok(()) = caps.push(cap) else {
            return Err(AllocError);
        };
    }
    Ok(Some(caps))
}

/// The boolean of `drain`; true if the key is absent.
pub fn drain_of(table: &Table) -> Option<bool>
    ensures { result ≡ drain_of (table_view table.now) }
{
    match table.get("drain") {
        Some(value) => value.as_bool(),
        None => Some(true),
    }
}

/// The kind of ring that `ring` names; that of samples if the key is absent.
pub fn ring_of(table: &Table) -> Option<RingKind>
    ensures { result ≡ ring_of (table_view table.now) }
{
    match table.get("ring") {
        Some(value) => ring_in(value),
        None => Some(RingKind::Samples),
    }
}

/// The kind of ring that a value names.
fn ring_in(value: &Value) -> Option<RingKind>
    ensures { result ≡ ring_in (view value.now) }
{
    ring_named(value.as_str()?)
}

/// The kind of ring that a word names.
fn ring_named(word: &str) -> Option<RingKind>
    ensures { result ≡ ring_named word.now }
{
    if word == "samples" {
        return Some(RingKind::Samples);
    }
    if word == "bytes" {
        return Some(RingKind::Bytes);
    }
    None
}

/// The form of the packets, by `id` and `stamp_size`.
pub fn form_of(table: &Table) -> Option<PacketForm>
    ensures { result ≡ packet_form (table_view table.now) }
{
    let Some(id) = id_of(table) else {
        return None;
    };
    let Some(stamp) = stamp_of(table) else {
        return None;
    };
    Some(PacketForm {
        id,
        stamp,
        max_dto: MAX_DTO as u16,
    })
}

/// The identification field that `id` names; an absolute ODT number if the key is absent.
pub fn id_of(table: &Table) -> Option<IdKind>
    ensures { result ≡ id_of (table_view table.now) }
{
    match table.get("id") {
        Some(value) => id_in(value),
        None => Some(IdKind::Absolute),
    }
}

/// The identification field that a value names.
fn id_in(value: &Value) -> Option<IdKind>
    ensures { result ≡ id_in (view value.now) }
{
    id_named(value.as_str()?)
}

/// The identification field that a word names.
fn id_named(word: &str) -> Option<IdKind>
    ensures { result ≡ id_named word.now }
{
    if word == "absolute" {
        return Some(IdKind::Absolute);
    }
    if word == "byte" {
        return Some(IdKind::RelativeByte);
    }
    if word == "word" {
        return Some(IdKind::RelativeWord);
    }
    None
}

/// The size of timestamps by `stamp_size`; 4 bytes if the key is absent.
pub fn stamp_of(table: &Table) -> Option<StampSize>
    ensures { result ≡ stamp_of (table_view table.now) }
{
    match table.get("stamp_size") {
        Some(value) => stamp_in(value),
        None => Some(StampSize::Four),
    }
}

/// The size of timestamps of a value.
fn stamp_in(value: &Value) -> Option<StampSize>
    ensures { result ≡ stamp_in (view value.now) }
{
    let Some(bytes) = number_in(value, 1, MAX_STAMP as usize) else {
        return None;
    };
    StampSize::of(bytes as u8)
}
