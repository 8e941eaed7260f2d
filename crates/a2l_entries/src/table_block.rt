//! The words of a COMPU_VTAB or a COMPU_VTAB_RANGE are read, row by row.
ghost use Rattle.std.specs.Prelude.{map, option_map, string_bytes};
ghost use Rattle.a2l_entries.specs.Gives.{Gives};
ghost use Rattle.a2l_entries.specs.Said.{tokens_of};
ghost use Rattle.a2l_entries.specs.TableSaid.{table_seen, table_said, ranges_said, count_first};
ghost use Rattle.a2l_entries.specs.TableSaid.{row_said, row_seen};
ghost use Rattle.a2l_entries.specs.TableSaid.{range_row_said, default_value_said};
ghost use Rattle.a2l_entries.specs.Scans.{many};

use crate::awaited::Awaited;
use crate::entry_fault::EntryFault;
use crate::keywords::{behind_keyword, is_keyword};
use crate::left::Left;
use crate::said::integer_in;
use measured_values::{TextRow, TextTable};
use std::alloc::Global;

/// What a block COMPU_VTAB or COMPU_VTAB_RANGE says (ASAM MCD-2 MC, COMPU_VTAB).
#[derive(Drop)]
pub struct TableBlock {
    pub name: String,
    pub table: TextTable,
}

/// What the words directly in a COMPU_VTAB say.
#[tactic(auto, unfolding(crate::specs::TableSaid::table_said))]
pub fn table_of(alloc: Global, words: Left<'_, '_>) -> Result<TableBlock, EntryFault>
    ensures { Gives table_seen result (table_said (tokens_of words.entry)) }
{
    let (name, left) = words.name(alloc)?;
    let left = left.behind_text()?;
    let (word, left) = left.first(Awaited::Verbal)?;
    if !is_keyword(word, "TAB_VERB") {
        return Err(EntryFault::Awaited(word.at, Awaited::Verbal));
    }
    let (count, left) = count_of(left)?;
    let (rows, left) = rows_of(alloc, count, left)?;
    let other = default_value(alloc, left)?;
    Ok(TableBlock {
        name,
        table: TextTable { rows, other },
    })
}

/// What the words directly in a COMPU_VTAB_RANGE say.
#[tactic(auto, unfolding(crate::specs::TableSaid::ranges_said))]
pub fn ranges_of(alloc: Global, words: Left<'_, '_>) -> Result<TableBlock, EntryFault>
    ensures { Gives table_seen result (ranges_said (tokens_of words.entry)) }
{
    let (name, left) = words.name(alloc)?;
    let left = left.behind_text()?;
    let (count, left) = count_of(left)?;
    let (rows, left) = range_rows_of(alloc, count, left)?;
    let other = default_value(alloc, left)?;
    Ok(TableBlock {
        name,
        table: TextTable { rows, other },
    })
}

/// The number of a table's rows.
#[tactic(auto, unfolding(crate::specs::TableSaid::count_first))]
fn count_of<'w, 'a>(left: Left<'w, 'a>) -> Result<(u64, Left<'w, 'a>), EntryFault>
    ensures { Gives (λ x. (x.0, tokens_of x.1)) result (count_first (tokens_of left.entry)) }
{
    let (word, left) = left.first(Awaited::Integer)?;
    Ok((integer_in(word)?, left))
}

fn rows_of<'w, 'a>(
    alloc: Global,
    count: u64,
    left: Left<'w, 'a>,
) -> Result<(Vec<TextRow>, Left<'w, 'a>), EntryFault>
    ensures { Gives (λ x. (map row_seen x.0.items, tokens_of x.1)) result
        (many row_said count (tokens_of left.entry)) }
{
    let mut rows = Vec::new(alloc);
    let mut rest = left;
    for _ in 0..count {
        let (row, behind) = row_of(alloc, rest)?;
        rows.push(row)?;
        rest = behind;
    }
    Ok((rows, rest))
}

#[tactic(auto, unfolding(crate::specs::TableSaid::row_said))]
fn row_of<'w, 'a>(alloc: Global, left: Left<'w, 'a>) -> Result<(TextRow, Left<'w, 'a>), EntryFault>
    ensures { Gives (λ x. (row_seen x.0, tokens_of x.1)) result (row_said (tokens_of left.entry)) }
{
    let (value, left) = left.number()?;
    let (text, left) = left.text(alloc)?;
    Ok((
        TextRow {
            least: value,
            greatest: value,
            text,
        },
        left,
    ))
}

fn range_rows_of<'w, 'a>(
    alloc: Global,
    count: u64,
    left: Left<'w, 'a>,
) -> Result<(Vec<TextRow>, Left<'w, 'a>), EntryFault>
    ensures { Gives (λ x. (map row_seen x.0.items, tokens_of x.1)) result
        (many range_row_said count (tokens_of left.entry)) }
{
    let mut rows = Vec::new(alloc);
    let mut rest = left;
    for _ in 0..count {
        let (row, behind) = range_row_of(alloc, rest)?;
        rows.push(row)?;
        rest = behind;
    }
    Ok((rows, rest))
}

#[tactic(auto, unfolding(crate::specs::TableSaid::range_row_said))]
fn range_row_of<'w, 'a>(
    alloc: Global,
    left: Left<'w, 'a>,
) -> Result<(TextRow, Left<'w, 'a>), EntryFault>
    ensures { Gives (λ x. (row_seen x.0, tokens_of x.1)) result
        (range_row_said (tokens_of left.entry)) }
{
    let (least, left) = left.number()?;
    let (greatest, left) = left.number()?;
    let (text, left) = left.text(alloc)?;
    Ok((
        TextRow {
            least,
            greatest,
            text,
        },
        left,
    ))
}

/// The text of a value that no row takes in, if there is one.
#[tactic(auto, unfolding(crate::specs::TableSaid::default_value_said))]
fn default_value(alloc: Global, left: Left<'_, '_>) -> Result<Option<String>, EntryFault>
    ensures { Gives (λ x. option_map (λ s. string_bytes s) x) result
        (default_value_said (tokens_of left.entry)) }
{
    match behind_keyword(left, "DEFAULT_VALUE") {
        None => Ok(None),
        Some(left) => {
            let (text, _) = left.text(alloc)?;
            Ok(Some(text))
        }
    }
}
