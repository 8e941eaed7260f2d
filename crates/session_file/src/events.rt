//! Reads the event channels of a session file.
ghost use Rattle.std.specs.Prelude.{◌≡◌, ◌⊎◌, ℕ, IfErr, IfOk, Some, map, option_map};
ghost use Rattle.toml.specs.View.{items_view, table_view, view};
ghost use Rattle.run_file.specs.Keys.{all_of};
ghost use Rattle.session_file.specs.declared.file_fault.FileFault.TheVariants.{BadEvent, Memory};
ghost use Rattle.session_file.specs.Events.{event_data, event_in, event_of};
ghost use Rattle.session_file.specs.Keys.{first_none};

use crate::file_fault::FileFault;
use crate::keys::{bytes_in, has_event_keys, number_or_0, text_or_empty};
use crate::limits::MAX_INTEGER;
use run_file::number_at;
use session::EventChannel;
use std::alloc::{AllocError, Global};
use toml::{Table, Value};

/// The event channels of some values.
pub fn events_of(alloc: Global, values: &[Value]) -> Result<Vec<EventChannel>, FileFault>
    ensures ok { IfOk result (λ events.
        all_of event_in (items_view values.now) ≡ Some (map event_data events.items)) }
    ensures err { IfErr result (λ e. (e ≡ Memory) ⊎ ((i : ℕ) × (e ≡ BadEvent i)
        × (first_none event_in (items_view values.now) ≡ Some i))) }
{
    let mut events = Vec::new(alloc);
    for value in values {
        let Ok(read) = event_in(alloc, value) else {
            return Err(FileFault::Memory);
        };
        let Some(event) = read else {
            return Err(FileFault::BadEvent(events.len()));
        };
        let Ok(()) = events.push(event) else {
            return Err(FileFault::Memory);
        };
    }
    Ok(events)
}

/// The event channel of a value; none if it is none.
fn event_in(alloc: Global, value: &Value) -> Result<Option<EventChannel>, AllocError>
    ensures { IfOk result (λ event. option_map event_data event ≡ event_in (view value.now)) }
{
    match value.as_table() {
        Some(table) => event_of(alloc, table),
        None => Ok(None),
    }
}

/// The event channel of a table; none if it is none.
fn event_of(alloc: Global, table: &Table) -> Result<Option<EventChannel>, AllocError>
    ensures { IfOk result (λ event. option_map event_data event ≡ event_of (table_view table.now)) }
{
    if !has_event_keys(table) {
        return Ok(None);
    }
    let Some(capacity) = number_at(table, "capacity", 0, MAX_INTEGER) else {
        return Ok(None);
    };
    let Some(name) = text_or_empty(table, "name") else {
        return Ok(None);
    };
    let Some(cycle) = number_or_0(table, "cycle", 255) else {
        return Ok(None);
    };
    let Some(cycle_unit) = number_or_0(table, "cycle_unit", 255) else {
        return Ok(None);
    };
    let Some(priority) = number_or_0(table, "priority", 255) else {
        return Ok(None);
    };
    Ok(Some(EventChannel {
        capacity,
        name: bytes_in(alloc, name)?,
        cycle: cycle as u8,
        cycle_unit: cycle_unit as u8,
        priority: priority as u8,
    }))
}
