//! The elements of arrays, in their places.
ghost use Rattle.std.specs.Prelude.{◌≡◌, ◌++◌, IfOk, OnOk, map, string_bytes};
ghost use Rattle.std.specs.List.{flat_map};
ghost use Rattle.a2l.specs.Described.{description_seen};
ghost use Rattle.a2l.specs.Elements.{element_address, elements_in};
ghost use Rattle.a2l.specs.Resolved.{described_measurement};
ghost use Rattle.value_tables.specs.Elements.{element_if, elements_below, name_if_none, parts_of};
ghost use Rattle.value_tables.specs.Elements.{name_unless, with_elements};

use crate::holder::Holder;
use a2l::{Description, Measurement};
use std::alloc::{AllocError, Global};

/// A description in which the elements of arrays that are there stand in the places of the arrays,
/// as measurements of their own. An array of which no element is there is left out. Lack of memory
/// is the only fault.
pub fn with_elements<H: Holder>(
    alloc: Global,
    description: Description,
    holder: &H,
) -> Result<Description, AllocError>
    ensures { IfOk result (λ expanded. description_seen expanded
        ≡ with_elements (H.held holder.now) (description_seen description)) }
{
    let Description {
        measurements,
        methods,
        left_out,
        tick,
        form,
    } = description;
    let mut left_out = left_out;
    let mut parts = Vec::new(alloc);
    add_all(alloc, &mut parts, &mut left_out, measurements, holder)?;
    Ok(Description {
        measurements: parts,
        methods,
        left_out,
        tick,
        form,
    })
}

/// Appends what stands in the places of measurements, and the names of those for which that is
/// nothing.
fn add_all<H: Holder>(
    alloc: Global,
    parts: &mut Vec<Measurement>,
    left_out: &mut Vec<String>,
    measurements: Vec<Measurement>,
    holder: &H,
) -> Result<(), AllocError>
    ensures parts { OnOk result (map described_measurement parts.new.items
        ≡ map described_measurement parts.old.items
        ++ flat_map (parts_of (H.held holder.now))
        (map described_measurement measurements.items)) }
    ensures left_out { OnOk result (map (λ s. string_bytes s) left_out.new.items
        ≡ map (λ s. string_bytes s) left_out.old.items
        ++ flat_map (name_if_none (H.held holder.now))
        (map described_measurement measurements.items)) }
{
    for measurement in measurements {
        add_parts(alloc, parts, left_out, measurement, holder)?;
    }
    Ok(())
}

/// Appends what stands in the place of a measurement, or its name if that is nothing.
fn add_parts<H: Holder>(
    alloc: Global,
    parts: &mut Vec<Measurement>,
    left_out: &mut Vec<String>,
    measurement: Measurement,
    holder: &H,
) -> Result<(), AllocError>
    ensures parts { OnOk result (map described_measurement parts.new.items
        ≡ map described_measurement parts.old.items
        ++ parts_of (H.held holder.now) (described_measurement measurement)) }
    ensures left_out { OnOk result (map (λ s. string_bytes s) left_out.new.items
        ≡ map (λ s. string_bytes s) left_out.old.items
        ++ name_if_none (H.held holder.now) (described_measurement measurement)) }
{
    if measurement.dims.is_empty() {
        parts.push(measurement)?;
        return Ok(());
    }
    add_array(alloc, parts, left_out, measurement, holder)
}

/// Appends the elements of an array that are there, or its name if there are none.
fn add_array<H: Holder>(
    alloc: Global,
    parts: &mut Vec<Measurement>,
    left_out: &mut Vec<String>,
    array: Measurement,
    holder: &H,
) -> Result<(), AllocError>
    ensures parts { OnOk result (map described_measurement parts.new.items
        ≡ map described_measurement parts.old.items
        ++ elements_below (H.held holder.now) (described_measurement array)
        (elements_in (described_measurement array))) }
    ensures left_out { OnOk result (map (λ s. string_bytes s) left_out.new.items
        ≡ map (λ s. string_bytes s) left_out.old.items
        ++ name_unless (described_measurement array)
        (elements_below (H.held holder.now) (described_measurement array)
        (elements_in (described_measurement array)))) }
{
    let before = parts.len();
    add_elements(alloc, parts, &array, holder)?;
    if parts.len() == before {
        left_out.push(array.name)?;
    }
    Ok(())
}

/// Appends the elements of an array that are there.
fn add_elements<H: Holder>(
    alloc: Global,
    parts: &mut Vec<Measurement>,
    array: &Measurement,
    holder: &H,
) -> Result<(), AllocError>
    ensures { OnOk result (map described_measurement parts.new.items
        ≡ map described_measurement parts.old.items
        ++ elements_below (H.held holder.now) (described_measurement array.now)
        (elements_in (described_measurement array.now))) }
{
    for index in 0..array.elements() {
        add_element(alloc, parts, array, index, holder)?;
    }
    Ok(())
}

/// Appends an element, if it is there.
fn add_element<H: Holder>(
    alloc: Global,
    parts: &mut Vec<Measurement>,
    array: &Measurement,
    index: usize,
    holder: &H,
) -> Result<(), AllocError>
    ensures { OnOk result (map described_measurement parts.new.items
        ≡ map described_measurement parts.old.items
        ++ element_if (H.held holder.now) (described_measurement array.now) index
        (element_address (described_measurement array.now) index)) }
{
    let Some(address) = array.element_address(index) else {
        return Ok(());
    };
    if !holder.holds(address, array.encoding.data_type) {
        return Ok(());
    }
    let element = array.element(alloc, index, address)?;
    parts.push(element)?;
    Ok(())
}
