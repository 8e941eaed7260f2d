//! Values as the picture prints them.

use ryu::Buffer;
use std::alloc::{AllocError, Global};

/// How many characters a value has at most.
const ROOM: usize = 10;
/// Values of this size and above have an exponent if they don't fit otherwise.
const LARGE: f64 = 1e8;
/// So have values below this size.
const SMALL: f64 = 1e-3;

/// A value in some ten characters at most: the shortest decimals that read back as the same value
/// or, if these are too long, fewer of them.
pub fn label_of(alloc: Global, value: f64) -> Result<String, AllocError> {
    if !value.is_finite() {
        return String::from_str(alloc, "-");
    }
    let mut buffer = Buffer::new();
    let shortest = buffer.format_finite(value);
    let whole = shortest.strip_suffix(".0").unwrap_or(shortest);
    if whole.len() <= ROOM {
        return String::from_str(alloc, whole);
    }
    let size = value.abs();
    if size >= LARGE || size < SMALL {
        return with_exponent(alloc, value);
    }
    with_point(alloc, value)
}

/// A value with as many decimals as there is room for.
fn with_point(alloc: Global, value: f64) -> Result<String, AllocError> {
    let size = value.abs();
    let text = if size >= 1e5 {
        format!(in alloc; "{value:.1}")?
    } else if size >= 1e3 {
        format!(in alloc; "{value:.4}")?
    } else {
        format!(in alloc; "{value:.6}")?
    };
    String::from_str(alloc, without_zeros(text.as_str()))
}

/// A value with an exponent, and four digits before it at most.
fn with_exponent(alloc: Global, value: f64) -> Result<String, AllocError> {
    let text = format!(in alloc; "{value:.3e}")?;
    let Some((front, exponent)) = text.as_str().split_once('e') else {
        return Ok(text);
    };
    let digits = without_zeros(front);
    format!(in alloc; "{digits}e{exponent}")
}

/// Decimals without the zeros at their end.
fn without_zeros(decimals: &str) -> &str {
    decimals.trim_end_matches('0').trim_end_matches('.')
}
