//! Values of keys, with their defaults.
ghost use Rattle.std.specs.Prelude.{◌≡◌, ◌≤◌, IfOk, IfSome, map, option_copied};
ghost use Rattle.toml.specs.View.{table_view};
ghost use Rattle.session_file.specs.Keys.{event_keys, has_key, keys, number_or_0, only_keys};
ghost use Rattle.session_file.specs.Keys.{packet_limit, text_or_empty};
ghost use Rattle.session_file.specs.declared.limits.TheConstants.{USUAL_PACKET};
ghost use Rattle.session_file.specs.Memory.{segment_keys};
ghost use Rattle.run_file.specs.Keys.{is_among};

use crate::limits::USUAL_PACKET;
use run_file::number_in;
use std::alloc::{AllocError, Global};
use toml::Table;

/// Whether each key of a table is one of a session file.
pub fn has_file_keys(table: &Table) -> bool
    ensures { result ≡ only_keys keys (table_view table.now) }
{
    table.keys().all(|key| is_file_key(key.as_str()))
}

/// Whether a word is a key of a session file.
pub fn is_file_key(word: &str) -> bool
    ensures { result ≡ is_among keys word.now }
{
    is_among(word, &FILE_KEYS)
}

/// The keys of a session file.
pub const FILE_KEYS: [&str; 15] = [
    "image_len",
    "id",
    "stamp_size",
    "unit",
    "ticks",
    "max_cto",
    "max_dto",
    "base",
    "name",
    "a2l_name",
    "epk",
    "a2l",
    "segments",
    "events",
    "script",
];

/// Whether each key of a table is one of an event channel.
pub fn has_event_keys(table: &Table) -> bool
    ensures { result ≡ only_keys event_keys (table_view table.now) }
{
    table.keys().all(|key| is_event_key(key.as_str()))
}

/// Whether a word is a key of an event channel.
fn is_event_key(word: &str) -> bool
    ensures { result ≡ is_among event_keys word.now }
{
    is_among(word, &EVENT_KEYS)
}

/// The keys of an event channel.
const EVENT_KEYS: [&str; 5] = ["capacity", "name", "cycle", "cycle_unit", "priority"];

/// Whether each key of a table is one of a segment.
pub fn has_segment_keys(table: &Table) -> bool
    ensures { result ≡ only_keys segment_keys (table_view table.now) }
{
    table.keys().all(|key| is_segment_key(key.as_str()))
}

/// Whether a word is a key of a segment.
fn is_segment_key(word: &str) -> bool
    ensures { result ≡ is_among segment_keys word.now }
{
    is_among(word, &SEGMENT_KEYS)
}

/// The keys of a segment.
const SEGMENT_KEYS: [&str; 4] = ["extension", "base", "len", "events"];

/// Whether a word is one of these.
fn is_among(word: &str, words: &[&str]) -> bool
    ensures { result ≡ is_among (map (λ w. w.now) words.now) word.now }
{
    for one in words {
        if word == *one {
            return true;
        }
    }
    false
}

/// Whether a table has a key.
pub fn has_key(table: &Table, key: &str) -> bool
    ensures { result ≡ has_key key.now (table_view table.now) }
{
    match table.get(key) {
        Some(_) => true,
        None => false,
    }
}

/// The integer of a key, if it is no more than `most`; 0 if the key is absent.
pub fn number_or_0(table: &Table, key: &str, most: usize) -> Option<usize>
    ensures value { result ≡ number_or_0 most key.now (table_view table.now) }
    ensures within { IfSome result (λ n. n ≤ most) }
{
    match table.get(key) {
        Some(value) => number_in(value, 0, most),
        None => Some(0),
    }
}

/// The most bytes of a packet, from `least` to `most`; `USUAL_PACKET` if its key is absent.
pub fn packet_limit(table: &Table, key: &str, least: usize, most: usize) -> Option<usize>
    requires usual { USUAL_PACKET ≤ most }
    ensures value { result ≡ packet_limit least most key.now (table_view table.now) }
    ensures within { IfSome result (λ n. n ≤ most) }
{
    match table.get(key) {
        Some(value) => number_in(value, least, most),
        None => Some(USUAL_PACKET),
    }
}

/// The string of a key; the empty one if the key is absent.
pub fn text_or_empty<'a>(table: &'a Table, key: &str) -> Option<&'a str>
    ensures { option_copied result ≡ text_or_empty key.now (table_view table.now) }
{
    match table.get(key) {
        Some(value) => value.as_str(),
        None => Some(""),
    }
}

/// The bytes of a text.
pub fn bytes_in(alloc: Global, text: &str) -> Result<Vec<u8>, AllocError>
    ensures { IfOk result (λ bytes. bytes.items ≡ text.now) }
{
    let mut bytes = Vec::new(alloc);
    bytes.extend_from_slice(text.as_bytes())?;
    Ok(bytes)
}
