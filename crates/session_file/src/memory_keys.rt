//! What a session file tells of memory: an image or segments, of which the tables are read later.
ghost use Rattle.std.specs.Prelude.{◌≡◌, option_map};
ghost use Rattle.toml.specs.View.{table_view};
ghost use Rattle.session_file.specs.Inner.{memory_data};
ghost use Rattle.session_file.specs.Keys.{image_at, memory_of, segments_at};

use crate::keys::{has_key, number_or_0};
use run_file::{array_at, number_at};
use toml::{Table, Value};
use xcp_base::limits::MAX_IMAGE_LEN;

/// The memory of a slave, as the keys of a session file have it.
#[derive(Clone, Copy)]
pub enum MemoryKeys<'a> {
    /// One image, which all event channels may read.
    Image { len: usize, base: u32 },
    /// The items of `segments`.
    Segments(&'a [Value]),
}

/// What a table tells of memory: an image or segments, and not both.
pub fn memory_of(table: &Table) -> Option<MemoryKeys<'_>>
    ensures { option_map memory_data result ≡ memory_of (table_view table.now) }
{
    if has_key(table, "segments") {
        return segments_at(table);
    }
    image_at(table)
}

/// The image of a table.
fn image_at(table: &Table) -> Option<MemoryKeys<'_>>
    ensures { option_map memory_data result ≡ image_at (table_view table.now) }
{
    let Some(len) = number_at(table, "image_len", 1, MAX_IMAGE_LEN) else {
        return None;
    };
    let Some(base) = number_or_0(table, "base", u32::MAX as usize) else {
        return None;
    };
    Some(MemoryKeys::Image {
        len,
        base: base as u32,
    })
}

/// The segments of a table, beside which no key of an image may be there.
fn segments_at(table: &Table) -> Option<MemoryKeys<'_>>
    ensures { option_map memory_data result ≡ segments_at (table_view table.now) }
{
    if has_key(table, "image_len") || has_key(table, "base") {
        return None;
    }
    let Some(values) = array_at(table, "segments") else {
        return None;
    };
    Some(MemoryKeys::Segments(values))
}
