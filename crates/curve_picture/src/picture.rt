//! A picture of what was measured.
ghost use Rattle.std.specs.Prelude.{◌≡◌, ◌<◌, ◌≤◌, ◌+◌, ◌/◌, ◌^◌, ◌++◌, ◌∷◌, ℕ, List, []};
ghost use Rattle.std.specs.Prelude.{OnErr, OnOk, length, map, min, max};
ghost use Rattle.std.specs.Io.KnownBytes.{Appends};
ghost use Rattle.sample_picture.specs.Shown.{IsClosed};
ghost use Rattle.curve_picture.specs.Curves.{AreRowsOf, IsCurveOf};
ghost use Rattle.curve_picture.specs.Values.{AreWithin, Given, given_at};
ghost use Rattle.curve_picture.specs.Inner.{doubled_row};

use crate::axis::CurveAxis;
use crate::caption::Caption;
use crate::drawing::text_of;
use crate::point::Point;
use crate::row::Row;
use measured_values::TextTable;
use sample_picture::{BINS, Grid, Losses, double_losses};
use std::alloc::{AllocError, Global};
use std::io::{self, Write};
use std::marker::Model;

/// The curves of what was measured over one axis, in a row for each measurement.
///
/// It takes some 66 kilobytes for each row, however many values there are. Contracts see the rows
/// with their names and units, how many places a bin has, and the least and the greatest place.
#[derive(Drop)]
pub struct CurvePicture {
    alloc: Global,
    rows: Vec<Row>,
    captions: Vec<Caption>,
    losses: Vec<Losses>,
    grid: Grid,
}

impl Model for CurvePicture {
    ghost use Rattle.std.specs.Prelude.{map};
    ghost use Rattle.curve_picture.specs.Shown.{Gathered, name_of};

    ghost Value = { Gathered };

    ghost view = { λ a. record {
      rows = a.rows.items;
      names = map name_of a.captions.items;
      width = a.grid.width;
      first = a.grid.first;
      last = a.grid.last;
    } };
}

impl CurvePicture {
    /// A picture of no row.
    pub fn new(alloc: Global) -> CurvePicture
        ensures names { result.names ≡ [] }
        ensures stands { IsCurveOf result [] }
    {
        CurvePicture {
            alloc,
            rows: Vec::new(alloc),
            captions: Vec::new(alloc),
            losses: Vec::new(alloc),
            grid: Grid::new(),
        }
    }

    /// One more row: a measurement with its name and its unit, which is empty if it has none. Lack
    /// of memory is the only fault.
    pub fn add_row(&mut self, name: &str, unit: &str) -> Result<(), AllocError>
        ensures names { OnOk result
            (self.new.names ≡ self.old.names ++ (name.now, unit.now) ∷ []) }
        ensures stands { OnOk result ((given : List Given) → IsCurveOf self.old given
            → IsCurveOf self.new given) }
        ensures err { OnErr result (self.new ≡ self.old) }
    {
        let caption = Caption::new(self.alloc, name, unit)?;
        self.captions.reserve(1)?;
        self.losses.reserve(1)?;
        self.rows.push(Row::new())?;
        self.captions.push_reserved(caption);
        self.losses.push_reserved(Losses::NONE);
        Ok(())
    }

    /// A value of the row's measurement, at a place of the axis; `lost`: samples of its DAQ list
    /// were dropped before it. A value that is NaN or infinite isn't drawn, but its place counts.
    /// A row that isn't there: nothing.
    pub fn value(&mut self, row: usize, at: u64, value: f64, lost: bool)
        ensures names { self.new.names ≡ self.old.names }
        ensures stands { row < length self.old.rows → (given : List Given)
            → IsCurveOf self.old given
            → IsCurveOf self.new (given_at row at value lost ∷ given) }
        ensures no_row { length self.old.rows ≤ row → self.new ≡ self.old }
    {
        if row >= self.rows.len() {
            return;
        }
        self.grid = reach(&mut self.rows, &mut self.losses, self.grid, at);
        let slot = self.grid.slot(at);
        lose(&mut self.losses, row, &self.rows[row], &self.grid, at, lost);
        self.rows[row].note(slot, Point { at, value }, lost);
    }

    /// Writes the picture as SVG. The values of a row that has a table, of the tables in the order
    /// of the rows, are drawn as steps, with their texts at the left. What is written is at most
    /// some 50 kilobytes for each row; the faults are those of `out`, and lack of memory.
    pub fn print<W: Write>(
        &self,
        out: &mut W,
        tables: &[Option<&TextTable>],
        axis: CurveAxis,
    ) -> io::Result<()>
        ensures { OnOk result ((text : List ℕ) × IsClosed text
            × Appends (W.contents out.old) (W.contents out.new) text) }
    {
        let text = text_of(
            self.alloc,
            &self.captions,
            &self.rows,
            &self.losses,
            tables,
            &self.grid,
            axis,
        )?;
        out.write_all(text.as_bytes())
    }
}

/// If samples were dropped before a value, they were lost from the last value of its row on, if
/// there is one, to its place.
fn lose(losses: &mut [Losses], place: usize, row: &Row, grid: &Grid, at: u64, lost: bool) {
    if row.values == 0 || !lost {
        return;
    }
    if let Some(losses) = losses.get_mut(place) {
        losses.note(grid, row.last, at);
    }
}

/// Widens the grid to a place: the bins double until those of all values are near enough.
fn reach(rows: &mut [Row], losses: &mut [Losses], grid: Grid, at: u64) -> Grid
    ensures first { result.first ≡ min at grid.first }
    ensures last { result.last ≡ max at grid.last }
    ensures rows { (given : List Given) → AreWithin grid.first grid.last given
        → AreRowsOf grid.width rows.old given → AreRowsOf result.width rows.new given }
{
    let first = at.min(grid.first);
    let last = at.max(grid.last);
    let mut width = grid.width;
    while last / width - first / width >= BINS {
        let from = grid.first / width;
        let count = (grid.last / width).saturating_sub(from) + 1;
        double_all(rows, from, count);
        double_losses(losses, from, count);
        width *= 2;
    }
    Grid { width, first, last }
}

/// Doubles the bins of each row.
fn double_all(rows: &mut [Row], from: u64, count: u64)
    requires { from + count ≤ 2 ^ 64 }
    ensures { rows.new ≡ map (doubled_row from count) rows.old }
{
    for row in rows.iter_mut() {
        row.double(from, count);
    }
}
