//! The blocks of a MODULE become measurements and methods: names are looked up, tables copied.
ghost use Rattle.std.specs.Prelude.{◌≡◌, IfOk, map, option_map, string_bytes};
ghost use Rattle.std.specs.BTreeMap.{get_by_text};
ghost use Rattle.a2l_entries.specs.Gives.{Gives};
ghost use Rattle.a2l.specs.Names.{ArePlaces};
ghost use Rattle.a2l_entries.specs.MeasurementSaid.{measurement_seen, name_of};
ghost use Rattle.a2l_entries.specs.MethodSaid.{method_seen, rule_seen};
ghost use Rattle.a2l_entries.specs.TableSaid.{table_seen, texts_seen, row_seen};
ghost use Rattle.a2l.specs.Resolved.{described_method, conversion_seen, table_named, rule_of};
ghost use Rattle.a2l.specs.Resolved.{method_of, methods_of, described_measurement, kept_address};
ghost use Rattle.a2l.specs.Resolved.{method_place, value_at, value_of, values_of, with_front};
ghost use Rattle.a2l.specs.Resolved.{kept_behind};

use crate::description::{Measurement, Method};
use crate::names::{Places, note, place_of};
use a2l_entries::{
    EntryFault, MeasurementBlock, MethodBlock, Reference, Refused, Rule, TableBlock,
};
use measured_values::{ByteOrder, Conversion, Encoding, TextRow, TextTable};
use std::alloc::{AllocError, Global};
use std::collections::BTreeMap;

/// A row of a table takes no more bytes, but for those of its text.
const ROW: usize = 64;

/// The places of the methods' names.
fn method_places(alloc: Global, methods: &[MethodBlock]) -> Result<Places, AllocError>
    ensures { IfOk result
        (λ places. ArePlaces (map (λ m. string_bytes m.name) methods.now) places) }
{
    let mut places = BTreeMap::new(alloc);
    for (place, method) in methods.iter().enumerate() {
        note(alloc, &mut places, method.name.as_str(), place)?;
    }
    Ok(places)
}

/// The places of the tables' names.
fn table_places(alloc: Global, tables: &[TableBlock]) -> Result<Places, AllocError>
    ensures { IfOk result (λ places. ArePlaces (map (λ t. string_bytes t.name) tables.now) places) }
{
    let mut places = BTreeMap::new(alloc);
    for (place, table) in tables.iter().enumerate() {
        note(alloc, &mut places, table.name.as_str(), place)?;
    }
    Ok(places)
}

/// Appends the methods of a MODULE, each with a copy of the table that it names. `room` is how many
/// bytes the copies may still take: more of them count as a lack of memory.
pub fn add_methods(
    alloc: Global,
    out: &mut Vec<Method>,
    methods: &[MethodBlock],
    tables: &[TableBlock],
    room: &mut usize,
) -> Result<(), EntryFault>
    ensures { Gives (λ _. map described_method out.new.items) result
        (with_front (map described_method out.old.items) (methods_of (map table_seen tables.now)
        (map method_seen methods.now))) }
{
    let places = table_places(alloc, tables)?;
    for method in methods {
        let method = method_within(alloc, method, tables, &places, room)?;
        out.push(method)?;
    }
    Ok(())
}

/// A method with a copy of the table that it names, of which the bytes are taken off `room`.
fn method_within(
    alloc: Global,
    method: &MethodBlock,
    tables: &[TableBlock],
    places: &Places,
    room: &mut usize,
) -> Result<Method, EntryFault>
    requires { ArePlaces (map (λ t. string_bytes t.name) tables.now) places.now }
    ensures { Gives described_method result
        (method_of (map table_seen tables.now) (method_seen method.now)) }
{
    let method = described_method(alloc, method, tables, places)?;
    let bytes = bytes_of(&method.conversion);
    if bytes > *room {
        return Err(EntryFault::Memory);
    }
    *room -= bytes;
    Ok(method)
}

/// How many bytes the rows of a conversion's table take, with those of their texts.
fn bytes_of(conversion: &Conversion) -> usize {
    let mut bytes = 0usize;
    if let Conversion::Texts(table) = conversion {
        for row in &table.rows {
            bytes = bytes.saturating_add(row.text.len()).saturating_add(ROW);
        }
    }
    bytes
}

#[tactic(auto, unfolding(crate::specs::Resolved::method_of))]
fn described_method(
    alloc: Global,
    method: &MethodBlock,
    tables: &[TableBlock],
    places: &Places,
) -> Result<Method, EntryFault>
    requires { ArePlaces (map (λ t. string_bytes t.name) tables.now) places.now }
    ensures { Gives described_method result
        (method_of (map table_seen tables.now) (method_seen method.now)) }
{
    let conversion = conversion_of(alloc, &method.rule, tables, places)?;
    let name = method.name.clone()?;
    let unit = method.unit.clone()?;
    Ok(Method {
        name,
        unit,
        conversion,
    })
}

#[tactic(auto, unfolding(crate::specs::Resolved::rule_of))]
fn conversion_of(
    alloc: Global,
    rule: &Rule,
    tables: &[TableBlock],
    places: &Places,
) -> Result<Conversion, EntryFault>
    requires { ArePlaces (map (λ t. string_bytes t.name) tables.now) places.now }
    ensures { Gives conversion_seen result
        (rule_of (map table_seen tables.now) (rule_seen rule.now)) }
{
    match rule {
        Rule::Identical => Ok(Conversion::Identical),
        Rule::Linear { factor, offset } => {
            let (factor, offset) = (*factor, *offset);
            Ok(Conversion::Linear { factor, offset })
        }
        Rule::Rational { b, c, f } => Ok(Conversion::Rational {
            b: *b,
            c: *c,
            f: *f,
        }),
        Rule::Texts(reference) => {
            let table = texts_of(alloc, reference, tables, places)?;
            Ok(Conversion::Texts(table))
        }
        Rule::Other => Ok(Conversion::Other),
    }
}

/// A copy of the first table of this name.
fn texts_of(
    alloc: Global,
    reference: &Reference,
    tables: &[TableBlock],
    places: &Places,
) -> Result<TextTable, EntryFault>
    requires { ArePlaces (map (λ t. string_bytes t.name) tables.now) places.now }
    ensures { Gives texts_seen result
        (table_named (name_of reference.now) (map table_seen tables.now)) }
{
    match place_of(places, reference.name.as_str()) {
        None => Err(EntryFault::Refused(reference.at, Refused::NoTable)),
        Some(place) => match tables.get(place) {
            None => Err(EntryFault::Refused(reference.at, Refused::NoTable)),
            Some(table) => Ok(copy_of(alloc, &table.table)?),
        },
    }
}

fn copy_of(alloc: Global, table: &TextTable) -> Result<TextTable, AllocError>
    ensures { IfOk result (λ copy. texts_seen copy ≡ texts_seen table.now) }
{
    let rows = copy_of_rows(alloc, &table.rows)?;
    let other = copy_of_text(&table.other)?;
    Ok(TextTable { rows, other })
}

fn copy_of_rows(alloc: Global, rows: &[TextRow]) -> Result<Vec<TextRow>, AllocError>
    ensures { IfOk result (λ copy. map row_seen copy.items ≡ map row_seen rows.now) }
{
    let mut copies = Vec::with_capacity(alloc, rows.len())?;
    for row in rows {
        let copy = copy_of_row(row)?;
        copies.push(copy)?;
    }
    Ok(copies)
}

/// A copy of a row.
fn copy_of_row(row: &TextRow) -> Result<TextRow, AllocError>
    ensures { IfOk result (λ copy. row_seen copy ≡ row_seen row.now) }
{
    let text = row.text.clone()?;
    Ok(TextRow {
        least: row.least,
        greatest: row.greatest,
        text,
    })
}

/// A copy of a text, if there is one.
pub fn copy_of_text(text: &Option<String>) -> Result<Option<String>, AllocError>
    ensures { IfOk result
        (λ copy. option_map (λ s. string_bytes s) copy ≡ option_map
        (λ s. string_bytes s) text.now) }
{
    match text {
        Some(text) => Ok(Some(text.clone()?)),
        None => Ok(None),
    }
}

/// What is the same for all measurements of a MODULE.
#[derive(Clone, Copy)]
struct Setting<'m> {
    /// The byte order of those that have none of their own.
    order: ByteOrder,
    places: &'m Places,
    /// How many methods stand before those of the MODULE.
    before: usize,
}

/// Appends the measurements of a MODULE that are kept. `order` is the byte order of those that have
/// none of their own, `before` how many methods stand before the MODULE's.
pub fn add_measurements(
    alloc: Global,
    out: &mut Vec<Measurement>,
    measurements: &[MeasurementBlock],
    methods: &[MethodBlock],
    order: ByteOrder,
    before: usize,
) -> Result<(), EntryFault>
    ensures { Gives (λ _. map described_measurement out.new.items) result
        (with_front (map described_measurement out.old.items)
        (values_of order before (map method_seen methods.now)
        (map measurement_seen measurements.now))) }
{
    let places = method_places(alloc, methods)?;
    let setting = Setting {
        order,
        places: &places,
        before,
    };
    for measurement in measurements {
        add_measurement(alloc, out, measurement, setting)?;
    }
    Ok(())
}

/// Appends a measurement, if it is kept.
#[tactic(auto, unfolding(crate::specs::Resolved::value_of))]
fn add_measurement(
    alloc: Global,
    out: &mut Vec<Measurement>,
    measurement: &MeasurementBlock,
    setting: Setting<'_>,
) -> Result<(), EntryFault>
    ensures { Gives (λ _. map described_measurement out.new.items) result
        (kept_behind (map described_measurement out.old.items)
        (value_of setting.entry.order setting.entry.before
        (get_by_text setting.entry.places.now) (measurement_seen measurement.now))) }
{
    let method = method_place(&measurement.method, setting)?;
    match address_of(measurement) {
        None => Ok(()),
        Some(address) => {
            let measurement = measured(alloc, measurement, address, method, setting.order)?;
            out.push(measurement)?;
            Ok(())
        }
    }
}

/// The place of a method in the description.
fn method_place(
    method: &Option<Reference>,
    setting: Setting<'_>,
) -> Result<Option<usize>, EntryFault>
    ensures { Gives (λ x. x) result
        (method_place setting.entry.before (get_by_text setting.entry.places.now)
        (option_map name_of method.now)) }
{
    let Some(reference) = method else {
        return Ok(None);
    };
    match place_of(setting.places, reference.name.as_str()) {
        // So many methods can't be in memory that their number doesn't fit.
        Some(place) => match setting.before.checked_add(place) {
            Some(place) => Ok(Some(place)),
            None => Err(EntryFault::Memory),
        },
        None => Err(EntryFault::Refused(reference.at, Refused::NoMethod)),
    }
}

/// The address of a measurement that is kept: that has one, without an extension, and, if it is an
/// array, elements in an order that is known.
pub fn address_of(measurement: &MeasurementBlock) -> Option<u32>
    ensures { result ≡ kept_address (measurement_seen measurement.now) }
{
    if measurement.options.apart {
        return None;
    }
    if !measurement.options.has_shape() {
        return None;
    }
    measurement.options.address
}

fn measured(
    alloc: Global,
    block: &MeasurementBlock,
    address: u32,
    method: Option<usize>,
    order: ByteOrder,
) -> Result<Measurement, AllocError>
    ensures { IfOk result
        (λ m. described_measurement m ≡ value_at order
        (measurement_seen block.now) method address) }
{
    let name = block.name.clone()?;
    let identifier = block.identifier.clone()?;
    let unit = copy_of_text(&block.options.unit)?;
    let dims = Vec::from_slice(alloc, block.options.dims())?;
    let encoding = Encoding {
        data_type: block.data_type,
        order: block.options.order.unwrap_or(order),
        mask: block.options.mask,
        operation: block.options.operation(),
    };
    Ok(Measurement {
        name,
        identifier,
        encoding,
        address,
        method,
        unit,
        limits: block.limits,
        dims,
        layout: block.options.layout(),
    })
}
