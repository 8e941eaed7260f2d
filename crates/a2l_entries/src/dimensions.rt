//! The dimensions of an array.
ghost use Rattle.std.specs.Prelude.{◌≡◌, ◌∷◌, [], IfOk};
ghost use Rattle.a2l_entries.specs.Said.{tokens_of};
ghost use Rattle.a2l_entries.specs.Dimensions.{count_with, dimensions_said, element_count};
ghost use Rattle.a2l_entries.specs.Dimensions.{numbers_said, trimmed};

use crate::left::Left;
use crate::said::whole_number;
use std::alloc::{AllocError, Global};

/// How many elements an array may have.
pub const MAX_ELEMENTS: u64 = 65_536;

/// The dimensions that the whole numbers in front are, without those of 1 at their end.
pub fn dimensions_in(alloc: Global, left: Left<'_, '_>) -> Result<Vec<u64>, AllocError>
    ensures { IfOk result (λ dims. dims.items ≡ dimensions_said (tokens_of left.entry)) }
{
    trimmed(numbers_in(alloc, left)?)
}

/// The dimension that a number is, unless it is 1.
pub fn dimension_of(alloc: Global, size: u64) -> Result<Vec<u64>, AllocError>
    ensures { IfOk result (λ dims. dims.items ≡ trimmed (size ∷ [])) }
{
    let mut dims = Vec::new(alloc);
    dims.push(size)?;
    trimmed(dims)
}

/// The whole numbers in front.
fn numbers_in(alloc: Global, left: Left<'_, '_>) -> Result<Vec<u64>, AllocError>
    ensures { IfOk result (λ numbers. numbers.items ≡ numbers_said (tokens_of left.entry)) }
{
    let mut numbers = Vec::new(alloc);
    for word in left.words {
        let Some(number) = whole_number(*word) else {
            return Ok(numbers);
        };
        numbers.push(number)?;
    }
    Ok(numbers)
}

/// Dimensions without those of 1 at their end.
fn trimmed(dims: Vec<u64>) -> Result<Vec<u64>, AllocError>
    ensures { IfOk result (λ dims_left. dims_left.items ≡ trimmed dims.items) }
{
    let mut left = dims;
    while let Some(last) = left.pop() {
        if last != 1 {
            left.push(last)?;
            return Ok(left);
        }
    }
    Ok(left)
}

/// How many elements an array of these dimensions has, if they are from 1 to 65,536.
pub fn element_count(dims: &[u64]) -> Option<u64>
    ensures { result ≡ element_count dims.now }
{
    let mut count = 1;
    for dim in dims {
        count = count_with(count, *dim)?;
    }
    Some(count)
}

/// The product of two numbers, if it is from 1 to 65,536.
fn count_with(count: u64, dim: u64) -> Option<u64>
    ensures { result ≡ count_with count dim }
{
    match count.checked_mul(dim) {
        Some(product) if 0 < product && product <= MAX_ELEMENTS => Some(product),
        _ => None,
    }
}
