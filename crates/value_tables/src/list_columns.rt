//! The columns that are shown, as they stand in the samples of DAQ lists.
ghost use Rattle.std.specs.Prelude.{◌≡◌, All, IfOk, slice_get};
ghost use Rattle.std.specs.Option.{option_copied};
ghost use Rattle.value_tables.specs.Lists.{HasSources, plans_of};
ghost use Rattle.value_tables.specs.Values.{source_for, sources_for};

use crate::column::Column;
use crate::source::{Source, source_of};
use daq_reader::ListShape;
use std::alloc::{AllocError, Global};

/// A DAQ list, and where its samples have the value of each column.
#[derive(Drop)]
pub struct ListColumns {
    pub shape: ListShape,
    pub sources: Vec<Option<Source>>,
}

/// The columns in each of several DAQ lists. Lack of memory is the only fault.
pub fn lists_of(
    alloc: Global,
    shapes: Vec<ListShape>,
    columns: &[Column<'_>],
) -> Result<Vec<ListColumns>, AllocError>
    ensures plans { IfOk result (λ lists. plans_of lists.items ≡ shapes.items) }
    ensures sources { IfOk result (λ lists. All (HasSources columns.now) lists.items) }
{
    let mut lists = Vec::with_capacity(alloc, shapes.len())?;
    for shape in shapes {
        let sources = sources_for(alloc, &shape, columns)?;
        lists.push(ListColumns { shape, sources })?;
    }
    Ok(lists)
}

/// Where the samples of a DAQ list have the value of each column.
fn sources_for(
    alloc: Global,
    shape: &ListShape,
    columns: &[Column<'_>],
) -> Result<Vec<Option<Source>>, AllocError>
    ensures { IfOk result (λ sources. sources.items ≡ sources_for columns.now shape.now) }
{
    let mut sources = Vec::with_capacity(alloc, columns.len())?;
    for c in 0..columns.len() {
        sources.push(source_for(shape, &columns[c]))?;
    }
    Ok(sources)
}

/// Where the samples of a DAQ list have the value of a column, if they have it.
fn source_for(shape: &ListShape, column: &Column<'_>) -> Option<Source>
    ensures { result ≡ source_for shape.now column.now }
{
    source_of(shape, column.address, column.encoding.data_type)
}

/// The list at a place; `None` exactly if there is none.
pub fn list_at(lists: &[ListColumns], place: usize) -> Option<&ListColumns>
    ensures { option_copied result ≡ slice_get lists.now place }
{
    lists.get(place)
}
