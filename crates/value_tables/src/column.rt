//! A measurement as it is shown: its name, its unit, its bytes in the image, its conversion.
use measured_values::{Conversion, Encoding, ValueLimits};

/// A measurement that is shown (ASAM MCD-2 MC, MEASUREMENT): what it is called, where and how its
/// value stands in a memory image, and what is made of it.
#[derive(Clone, Copy)]
pub struct Column<'a> {
    /// Its name.
    pub name: &'a str,
    /// Its long identifier, or nothing.
    pub identifier: &'a str,
    /// The unit of its physical values, or nothing.
    pub unit: &'a str,
    /// How its value stands in its bytes.
    pub encoding: Encoding,
    /// Where these stand in the memory image.
    pub address: u32,
    /// What is made of the raw value; `None`: it is shown as it is.
    pub conversion: Option<&'a Conversion>,
    /// The least and the greatest physical value that is to be expected.
    pub limits: Option<ValueLimits>,
}
