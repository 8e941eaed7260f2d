//! Which measurements of a description are shown.
ghost use Rattle.std.specs.Prelude.{◌≡◌, ◌&&◌, IfOk, bytes_eq, string_bytes};
ghost use Rattle.std.specs.Option.{option_copied};
ghost use Rattle.value_tables.specs.Columns.{AreColumns, IsColumnOf, conversion_in, is_chosen};
ghost use Rattle.value_tables.specs.Columns.{is_held, is_known, is_shown, method_at, unit_shown};
ghost use Rattle.value_tables.specs.Columns.{unknown_in};

use crate::column::Column;
use crate::holder::Holder;
use a2l::{Description, Measurement, Method};
use measured_values::Conversion;
use std::alloc::{AllocError, Global};

/// The measurements of a description that are shown, in its order: those whose bytes are there, and
/// of these, if `only` has names with commas between them, those that are named. Lack of memory is
/// the only fault.
pub fn columns_of<'a, H: Holder>(
    alloc: Global,
    description: &'a Description,
    holder: &H,
    only: Option<&str>,
) -> Result<Vec<Column<'a>>, AllocError>
    ensures all { IfOk result (λ columns. AreColumns description.now (H.held holder.now)
        (option_copied only.entry) columns.items) }
{
    let mut columns = Vec::new(alloc);
    for i in 0..description.measurements.len() {
        let measurement = &description.measurements[i];
        if is_shown(measurement, holder, only) {
            columns.push(column_of(description, measurement))?;
        }
    }
    Ok(columns)
}

/// The first of the names with commas between them, if there are any, that no measurement has whose
/// bytes are there.
pub fn unknown_name<'a, H: Holder>(
    description: &Description,
    holder: &H,
    only: Option<&'a str>,
) -> Option<&'a str>
    ensures { option_copied result
        ≡ unknown_in description.now (H.held holder.now) (option_copied only.entry) }
{
    let mut names = only?.split(',');
    names.find(|name| !is_known(description, holder, name))
}

/// Whether a measurement of this name has its bytes there.
fn is_known<H: Holder>(description: &Description, holder: &H, name: &str) -> bool
    ensures { result ≡ is_known description.now (H.held holder.now) name.now }
{
    description
        .measurements
        .iter()
        .any(|measurement| is_known_by(measurement, holder, name))
}

/// Whether a measurement has this name, and its bytes are there.
fn is_known_by<H: Holder>(measurement: &Measurement, holder: &H, name: &str) -> bool
    ensures { result ≡ (bytes_eq (string_bytes measurement.now.name) name.now
        && is_held (H.held holder.now) measurement.now) }
{
    if measurement.name.as_str() != name {
        return false;
    }
    is_held(measurement, holder)
}

/// The column of a measurement.
fn column_of<'a>(description: &'a Description, measurement: &'a Measurement) -> Column<'a>
    ensures { IsColumnOf description.now measurement.now result }
{
    Column {
        name: &measurement.name,
        identifier: &measurement.identifier,
        unit: unit_of(description, measurement),
        encoding: measurement.encoding,
        address: measurement.address,
        conversion: conversion_of(description, measurement),
        limits: measurement.limits,
    }
}

/// The unit that is shown: that of the physical values, or `raw` if the method isn't carried out.
fn unit_of<'a>(description: &'a Description, measurement: &'a Measurement) -> &'a str
    ensures { result.now ≡ unit_shown description.now measurement.now }
{
    match conversion_of(description, measurement) {
        Some(Conversion::Other) => "raw",
        _ => description.unit_of(measurement),
    }
}

/// What is made of the raw values of a measurement, if it has a method.
fn conversion_of<'a>(
    description: &'a Description,
    measurement: &Measurement,
) -> Option<&'a Conversion>
    ensures { option_copied result ≡ conversion_in description.now measurement.now }
{
    let method = method_at(&description.methods, measurement.method)?;
    Some(&method.conversion)
}

/// The method at a place, if there is one.
fn method_at(methods: &[Method], place: Option<usize>) -> Option<&Method>
    ensures { option_copied result ≡ method_at methods.now place }
{
    methods.get(place?)
}

/// Whether a measurement is shown.
fn is_shown<H: Holder>(measurement: &Measurement, holder: &H, only: Option<&str>) -> bool
    ensures { result ≡ is_shown (option_copied only.entry) (H.held holder.now) measurement.now }
{
    if !is_chosen(&measurement.name, only) {
        return false;
    }
    is_held(measurement, holder)
}

/// Whether a name is among those with commas between them, if there are any.
fn is_chosen(name: &str, only: Option<&str>) -> bool
    ensures { result ≡ is_chosen (option_copied only.entry) name.now }
{
    match only {
        Some(only) => only.split(',').any(|word| word == name),
        None => true,
    }
}

/// Whether all bytes of a measurement are there.
pub fn is_held<H: Holder>(measurement: &Measurement, holder: &H) -> bool
    ensures { result ≡ is_held (H.held holder.now) measurement.now }
{
    holder.holds(measurement.address, measurement.encoding.data_type)
}
