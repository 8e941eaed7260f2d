//! The elements of an array.
ghost use Rattle.std.specs.Prelude.{◌≡◌, ◌++◌, ◌∷◌, [], IfOk, OnOk, string_bytes};
ghost use Rattle.a2l.specs.Resolved.{described_measurement};
ghost use Rattle.a2l.specs.Elements.{element_address, element_at, elements_in, index_in};
ghost use Rattle.a2l.specs.Elements.{indices_by_rows, indices_of, indices_text, row_of};

use crate::description::Measurement;
use crate::resolving::copy_of_text;
use a2l_entries::{Layout, element_count};
use itoa::Buffer;
use std::alloc::{AllocError, Global};

impl Measurement {
    /// How many elements an array has: none, if they would be more than 65,536. A single value has
    /// one, itself.
    pub fn elements(&self) -> usize
        ensures { result ≡ elements_in (described_measurement self.now) }
    {
        match element_count(&self.dims) {
            Some(count) => count as usize,
            None => 0,
        }
    }

    /// The address of an element, if there is one of 32 bits.
    pub fn element_address(&self, index: usize) -> Option<u32>
        ensures { result ≡ element_address (described_measurement self.now) index }
    {
        let size = self.encoding.data_type.size();
        let address = (self.address as usize).checked_add(index.checked_mul(size)?)?;
        u32::try_from(address).ok()
    }

    /// An element as a value of its own, at its address: the array's, but for its name, which has
    /// its indices behind that of the array, in the order of the dimensions: `name[x][y]`.
    pub fn element(
        &self,
        alloc: Global,
        index: usize,
        address: u32,
    ) -> Result<Measurement, AllocError>
        ensures { IfOk result (λ element. described_measurement element
            ≡ element_at (described_measurement self.now) index address) }
    {
        let mut name = self.name.clone()?;
        push_indices(&mut name, self.layout, index as u64, &self.dims)?;
        let identifier = self.identifier.clone()?;
        let unit = copy_of_text(&self.unit)?;
        Ok(Measurement {
            name,
            identifier,
            encoding: self.encoding,
            address,
            method: self.method,
            unit,
            limits: self.limits,
            dims: Vec::new(alloc),
            layout: self.layout,
        })
    }
}

/// Appends the indices of an element.
fn push_indices(
    name: &mut String,
    layout: Layout,
    index: u64,
    dims: &[u64],
) -> Result<(), AllocError>
    ensures { OnOk result (string_bytes name.new
        ≡ string_bytes name.old ++ indices_text (indices_of layout index dims.now)) }
{
    match (layout, dims) {
        (Layout::Columns, [_, second, ..]) => {
            push_index(name, row_of(index, *second))?;
            push_index(name, index_in(index, *second))
        }
        _ => push_by_rows(name, index, dims),
    }
}

/// Appends the indices of an element along dimensions, of which the first runs fastest.
fn push_by_rows(name: &mut String, index: u64, dims: &[u64]) -> Result<(), AllocError>
    ensures { OnOk result (string_bytes name.new
        ≡ string_bytes name.old ++ indices_text (indices_by_rows index dims.now)) }
{
    let mut left = index;
    for dim in dims {
        push_index(name, index_in(left, *dim))?;
        left = row_of(left, *dim);
    }
    Ok(())
}

/// Appends an index.
fn push_index(name: &mut String, index: u64) -> Result<(), AllocError>
    ensures { OnOk result (string_bytes name.new
        ≡ string_bytes name.old ++ indices_text (index ∷ [])) }
{
    name.push_str("[")?;
    name.push_str(Buffer::new().format(index))?;
    name.push_str("]")
}

/// The index of an element along a dimension that runs fastest; along one of 0 there is none.
fn index_in(index: u64, dim: u64) -> u64
    ensures { result ≡ index_in index dim }
{
    if dim == 0 { 0 } else { index % dim }
}

/// The index of the row of an element among the rows along such a dimension.
fn row_of(index: u64, dim: u64) -> u64
    ensures { result ≡ row_of index dim }
{
    if dim == 0 { 0 } else { index / dim }
}
