//! Why a text is no session.
use crate::expected::{key_of, write_expected};
use explain::{line_of_key, near_key, write_place, write_string, write_value};
use session_file::{BadKey, FILE_KEYS, FileFault, is_file_key};
use std::alloc::{AllocError, Global};
use toml::Table;

/// What an item of `segments` should be.
const SEGMENT: &str = "expected: a table with len, an integer of 0 or more, and at will extension, \
an integer from 0 to 255, base, an integer from 0 to 4294967295, and events, an array of integers \
from 0 to 15\n";

/// What an item of `events` should be.
const EVENT: &str = "expected: a table with capacity, an integer of 0 or more, and at will name, \
a string, and cycle, cycle_unit and priority, integers from 0 to 255\n";

/// What a string of `script` should be.
const LINE: &str = "expected: master, master HEX, trigger C STAMP SLICE .., memory SLICE .., send, \
lose or hang_up; one space between words, HEX 1 to 255 bytes, C 0 to 255, STAMP 0 to 4294967295, \
SLICE hexadecimal or -, for each segment\n";

/// Why a text, which has this name and this fault, is no session: where it stands, what stands
/// there, and what was expected.
pub fn why_no_session(
    alloc: Global,
    name: &str,
    text: &str,
    fault: FileFault,
) -> Result<String, AllocError> {
    let mut why = String::new(alloc);
    match toml::table_from_str(alloc, text) {
        Ok(table) => write_fault(alloc, &mut why, name, text, &table, fault)?,
        Err(error) => write!(why, "{name}: {error}")?,
    }
    Ok(why)
}

/// Writes why a table is no session.
fn write_fault(
    alloc: Global,
    why: &mut String,
    name: &str,
    text: &str,
    table: &Table,
    fault: FileFault,
) -> Result<(), AllocError> {
    match fault {
        FileFault::BadKey => write_key(alloc, why, name, text, table),
        FileFault::BadSegment(i) => {
            write_item(why, name, text, table, "segments", i)?;
            why.push_str(SEGMENT)
        }
        FileFault::BadEvent(i) => {
            write_item(why, name, text, table, "events", i)?;
            why.push_str(EVENT)
        }
        FileFault::BadLine(i) => {
            write_string(why, name, text, table, "script", i)?;
            why.push_str(LINE)
        }
        FileFault::NotToml | FileFault::Memory => Ok(()),
    }
}

/// Writes which key is bad, and why.
fn write_key(
    alloc: Global,
    why: &mut String,
    name: &str,
    text: &str,
    table: &Table,
) -> Result<(), AllocError> {
    let Some(bad) = BadKey::of(table) else {
        return Ok(());
    };
    let Some(key) = key_of(bad) else {
        return write_unknown(alloc, why, name, text, table);
    };
    match table.get(key) {
        Some(value) => {
            write_place(why, name, line_of_key(text, key))?;
            write_value(why, key, value)?;
        }
        None => writeln!(why, "{name}: there is no key {key}")?,
    }
    write_expected(why, bad)
}

/// Writes the first key that is none of a session file, and the nearest one that is; or that the
/// text is a run file.
fn write_unknown(
    alloc: Global,
    why: &mut String,
    name: &str,
    text: &str,
    table: &Table,
) -> Result<(), AllocError> {
    if table.get("steps").is_some() {
        return writeln!(why, "{name}: this is a run file: try ./xcpdaq");
    }
    for key in table.keys() {
        let key = key.as_str();
        if !is_file_key(key) {
            write_place(why, name, line_of_key(text, key))?;
            writeln!(why, "{key} is no key of a session file")?;
            return writeln!(
                why,
                "the nearest key is {}",
                near_key(alloc, key, &FILE_KEYS)?
            );
        }
    }
    Ok(())
}

/// Writes an item of the array of a key, and where the array stands.
fn write_item(
    why: &mut String,
    name: &str,
    text: &str,
    table: &Table,
    key: &str,
    i: usize,
) -> Result<(), AllocError> {
    let Some(value) = table.get(key) else {
        return Ok(());
    };
    let Some(array) = value.as_array() else {
        return Ok(());
    };
    let Some(value) = array.as_slice().get(i) else {
        return Ok(());
    };
    write_place(why, name, line_of_key(text, key))?;
    writeln!(why, "item {i} of {key} is {value}")
}
