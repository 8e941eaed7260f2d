//! A picture of the samples of DAQ lists.
ghost use Rattle.std.specs.Prelude.{◌≡◌, ◌<◌, ◌≤◌, ◌+◌, ◌/◌, ◌^◌, ◌∷◌, ℕ, List, []};
ghost use Rattle.std.specs.Prelude.{OnErr, OnOk, length, map, min, max};
ghost use Rattle.std.specs.Io.KnownBytes.{Appends};
ghost use Rattle.sample_picture.specs.Gathered.{AreRowsOf, Given, IsPictureOf};
ghost use Rattle.sample_picture.specs.Inner.{AreWithin, doubled_row, given_at, name_of, with_row};
ghost use Rattle.sample_picture.specs.Shown.{IsClosed};

use crate::axis::Axis;
use crate::drawing::text_of;
use crate::grid::Grid;
use crate::losses::{Losses, double_losses};
use crate::row::{BINS, Row};
use std::alloc::{AllocError, Global};
use std::io::{self, Write};
use std::marker::Model;

/// Where the samples of DAQ lists stand on one axis, in a row for each list.
///
/// It takes some kilobytes for each row, however many samples there are. Contracts see the rows,
/// how many places a bin has, and the least and the greatest place.
#[derive(Drop)]
pub struct Picture {
    alloc: Global,
    rows: Vec<Row>,
    losses: Vec<Losses>,
    grid: Grid,
}

impl Model for Picture {
    ghost use Rattle.sample_picture.specs.Shown.{Gathered};

    ghost Value = { Gathered };

    ghost view = { λ a. record {
      rows = a.rows.items;
      width = a.grid.width;
      first = a.grid.first;
      last = a.grid.last;
    } };
}

impl Picture {
    /// A picture of no row.
    pub fn new(alloc: Global) -> Picture
        ensures rows { result.rows ≡ [] }
        ensures stands { IsPictureOf result [] }
    {
        Picture {
            alloc,
            rows: Vec::new(alloc),
            losses: Vec::new(alloc),
            grid: Grid::new(),
        }
    }

    /// One more row, for a DAQ list of an event channel. Lack of memory is the only fault.
    pub fn add_row(&mut self, list: u8, channel: u8) -> Result<(), AllocError>
        ensures ok { OnOk result (self.new ≡ with_row list channel self.old) }
        ensures stands { OnOk result ((given : List Given) → IsPictureOf self.old given
            → IsPictureOf self.new given) }
        ensures err { OnErr result (self.new ≡ self.old) }
    {
        self.losses.reserve(1)?;
        self.rows.push(Row::new(list, channel))?;
        self.losses.push_reserved(Losses::NONE);
        Ok(())
    }

    /// A sample of the row's list, at a place of the axis. A row that isn't there: nothing.
    pub fn sample(&mut self, row: usize, at: u64, overload: bool)
        ensures names { map name_of self.new.rows ≡ map name_of self.old.rows }
        ensures stands { row < length self.old.rows → (given : List Given)
            → IsPictureOf self.old given
            → IsPictureOf self.new (given_at row at overload ∷ given) }
        ensures no_row { length self.old.rows ≤ row → self.new ≡ self.old }
    {
        if row >= self.rows.len() {
            return;
        }
        self.grid = reach(&mut self.rows, &mut self.losses, self.grid, at);
        let slot = self.grid.slot(at);
        lose(
            &mut self.losses,
            row,
            &self.rows[row],
            &self.grid,
            at,
            overload,
        );
        self.rows[row].note(slot, at, overload);
    }

    /// Writes the picture as SVG, with the axis's word below it. What is written is some
    /// kilobytes for each row; the faults are those of `out`, and lack of memory.
    pub fn print<W: Write>(&self, out: &mut W, axis: Axis) -> io::Result<()>
        ensures { OnOk result ((text : List ℕ) × IsClosed text
            × Appends (W.contents out.old) (W.contents out.new) text) }
    {
        let text = text_of(self.alloc, &self.rows, &self.losses, &self.grid, axis)?;
        out.write_all(text.as_bytes())
    }
}

/// If a sample has the overload indication, samples were lost from the last one of its row on, if
/// there is one, to its place.
fn lose(losses: &mut [Losses], place: usize, row: &Row, grid: &Grid, at: u64, overload: bool) {
    if row.samples == 0 || !overload {
        return;
    }
    if let Some(losses) = losses.get_mut(place) {
        losses.note(grid, row.last, at);
    }
}

/// Widens the grid to a place: the bins double until those of all samples are near enough.
fn reach(rows: &mut [Row], losses: &mut [Losses], grid: Grid, at: u64) -> Grid
    ensures first { result.first ≡ min at grid.first }
    ensures last { result.last ≡ max at grid.last }
    ensures names { map name_of rows.new ≡ map name_of rows.old }
    ensures rows { (given : List Given) → AreWithin grid.first grid.last given
        → AreRowsOf grid.width rows.old given → AreRowsOf result.width rows.new given }
{
    let first = at.min(grid.first);
    let last = at.max(grid.last);
    let mut width = grid.width;
    while last / width - first / width >= BINS {
        let from = grid.first / width;
        let count = (grid.last / width).saturating_sub(from) + 1;
        double_all(rows, from, count);
        double_losses(losses, from, count);
        width *= 2;
    }
    Grid { width, first, last }
}

/// Doubles the bins of each row.
fn double_all(rows: &mut [Row], from: u64, count: u64)
    requires { from + count ≤ 2 ^ 64 }
    ensures { rows.new ≡ map (doubled_row from count) rows.old }
{
    for row in rows.iter_mut() {
        row.double(from, count);
    }
}
