//! The columns that are shown of a capture, and where each list has them.

use crate::values_at::{place_in, raw_at};
use captured_session::CapturedList;
use measured_values::Raw;
use std::alloc::{AllocError, Global};
use value_tables::Column;

/// The columns that are shown, and for each set-up of a list where its samples have them.
#[derive(Drop)]
pub struct CaptureColumns<'a> {
    alloc: Global,
    columns: Vec<Column<'a>>,
    places: Vec<Vec<Option<usize>>>,
}

impl<'a> CaptureColumns<'a> {
    /// These columns, and no list yet.
    pub fn new(alloc: Global, columns: Vec<Column<'a>>) -> CaptureColumns<'a> {
        CaptureColumns {
            alloc,
            columns,
            places: Vec::new(alloc),
        }
    }

    /// The columns.
    pub fn columns(&self) -> &[Column<'a>] {
        &self.columns
    }

    /// The next set-up of a list.
    pub fn add(&mut self, list: &CapturedList) -> Result<(), AllocError> {
        let mut places = Vec::new(self.alloc);
        for column in &self.columns {
            places.push(place_in(list, column.address, column.encoding.data_type))?;
        }
        self.places.push(places)?;
        Ok(())
    }

    /// The raw value of a column in the bytes of a sample of the list of this number, if it has
    /// one.
    pub fn raw(&self, number: usize, column: usize, bytes: &[u8]) -> Option<Raw> {
        let place = *self.places.get(number)?.get(column)?;
        raw_at(bytes, place, self.columns.get(column)?.encoding)
    }
}
