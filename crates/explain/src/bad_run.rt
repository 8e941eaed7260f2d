//! Why a text is no run.
use crate::alike::near_key;
use crate::expected::write_expected;
use crate::place_in_text::{line_of_key, line_of_string};
use run_file::{BadKey, RunFault, is_key};
use std::alloc::{AllocError, Global};
use toml::{Table, Value};

/// The keys of a run file.
const KEYS: [&str; 9] = [
    "channels",
    "image_len",
    "caps",
    "setup",
    "steps",
    "drain",
    "ring",
    "id",
    "stamp_size",
];

/// Why a text, which has this name and this fault, is no run: where it stands, what stands there,
/// and what was expected.
pub fn why_no_run(
    alloc: Global,
    name: &str,
    text: &str,
    fault: RunFault,
) -> Result<String, AllocError> {
    let mut why = String::new(alloc);
    match toml::table_from_str(alloc, text) {
        Ok(table) => write_fault(alloc, &mut why, name, text, &table, fault)?,
        Err(error) => write!(why, "{name}: {error}")?,
    }
    Ok(why)
}

/// Writes why a table is no run.
fn write_fault(
    alloc: Global,
    why: &mut String,
    name: &str,
    text: &str,
    table: &Table,
    fault: RunFault,
) -> Result<(), AllocError> {
    match fault {
        RunFault::BadKey => write_key(alloc, why, name, text, table),
        RunFault::BadSetup(i) => {
            write_string(why, name, text, table, "setup", i)?;
            why.push_str(
                "expected: 0 to 255 bytes, each as two hexadecimal digits, without spaces\n",
            )
        }
        RunFault::BadStep(i) => {
            write_string(why, name, text, table, "steps", i)?;
            why.push_str("expected: trigger C STAMP IMAGE, start C L, stop C L or pump; ")?;
            write_channels(why, table)
        }
        RunFault::NotToml | RunFault::Memory => Ok(()),
    }
}

/// Writes what a step's numbers are.
fn write_channels(why: &mut String, table: &Table) -> Result<(), AllocError> {
    let channels = table.get("channels").and_then(|value| value.as_integer());
    writeln!(
        why,
        "one space between words, C below {}, L 0 to 255, STAMP 0 to 4294967295, IMAGE hexadecimal",
        channels.unwrap_or(0)
    )
}

/// Writes which key is bad, and why.
fn write_key(
    alloc: Global,
    why: &mut String,
    name: &str,
    text: &str,
    table: &Table,
) -> Result<(), AllocError> {
    let Some(bad) = BadKey::of(alloc, table)? else {
        return Ok(());
    };
    let Some(key) = key_of(bad) else {
        return write_unknown(alloc, why, name, text, table);
    };
    match table.get(key) {
        Some(value) => {
            write_place(why, name, line_of_key(text, key))?;
            write_value(why, key, value)?;
        }
        None => writeln!(why, "{name}: there is no key {key}")?,
    }
    write_expected(why, bad, table)
}

/// Writes a key with its value, or if that is an array of strings how many there are.
pub fn write_value(why: &mut String, key: &str, value: &Value) -> Result<(), AllocError> {
    match value.as_array() {
        Some(array) if array.as_slice().len() > 16 => {
            writeln!(why, "{key} has {} values", array.as_slice().len())
        }
        _ => writeln!(why, "{key} = {value}"),
    }
}

/// Writes the first key that is none of a run file, and the nearest one that is.
fn write_unknown(
    alloc: Global,
    why: &mut String,
    name: &str,
    text: &str,
    table: &Table,
) -> Result<(), AllocError> {
    if table.get("script").is_some() {
        return writeln!(why, "{name}: this is a session file: try ./xcpslave");
    }
    let Some(key) = unknown_key(table) else {
        return Ok(());
    };
    write_place(why, name, line_of_key(text, key))?;
    write_near(why, key, near_key(alloc, key, &KEYS)?)
}

/// Writes a key that is none of a run file, and the nearest one that is.
fn write_near(why: &mut String, key: &str, near: &str) -> Result<(), AllocError> {
    writeln!(why, "{key} is no key of a run file")?;
    writeln!(why, "the nearest key is {near}")
}

/// The first key of a table that is none of a run file.
fn unknown_key(table: &Table) -> Option<&str> {
    for key in table.keys() {
        if !is_key(key.as_str()) {
            return Some(key.as_str());
        }
    }
    None
}

/// Writes the string at a place of an array, and where it stands.
pub fn write_string(
    why: &mut String,
    name: &str,
    text: &str,
    table: &Table,
    key: &str,
    i: usize,
) -> Result<(), AllocError> {
    let Some(value) = value_at(table, key, i) else {
        return Ok(());
    };
    let Some(string) = value.as_str() else {
        return Ok(());
    };
    write_place(why, name, line_of_string(text, string))?;
    writeln!(why, "string {i} of {key} is {value}")
}

/// The value at a place of the array that a key has.
fn value_at<'t>(table: &'t Table, key: &str, i: usize) -> Option<&'t Value> {
    let Some(Value::Array(array)) = table.get(key) else {
        return None;
    };
    array.as_slice().get(i)
}

/// Writes the name of a text and the number of a line, if it was found.
pub fn write_place(why: &mut String, name: &str, line: Option<usize>) -> Result<(), AllocError> {
    match line {
        Some(line) => write!(why, "{name}, line {line}: "),
        None => write!(why, "{name}: "),
    }
}

/// The name of a bad key, if it is one of a run file.
fn key_of(bad: BadKey) -> Option<&'static str> {
    match bad {
        BadKey::Unknown => None,
        BadKey::Channels => Some("channels"),
        BadKey::ImageLen => Some("image_len"),
        BadKey::Drain => Some("drain"),
        BadKey::Setup => Some("setup"),
        BadKey::Steps => Some("steps"),
        BadKey::Id => Some("id"),
        BadKey::StampSize => Some("stamp_size"),
        BadKey::Ring => Some("ring"),
        BadKey::Caps => Some("caps"),
    }
}
