//! Curves of values: a sheet that a recording is printed on.
ghost use Rattle.std.specs.Prelude.{◌≡◌, [], IfOk};

use crate::sheet::Sheet;
use curve_picture::CurveAxis;
use daq_reader::{ListShape, SampleView, Samples};
use measured_values::Tick;
use sample_picture::Axis;
use sample_tables::Places;
use std::alloc::{AllocError, Global};
use std::io::{self, Write};
use std::marker::Model;
use value_tables::{Column, ValueCurves};
use xcp_base::StampSize;

/// The curves of the values of columns in the samples that it was handed.
#[derive(Drop)]
pub struct CurveSheet<'a, W: Write + Drop> {
    curves: ValueCurves<'a>,
    axis: CurveAxis,
    out: W,
}

impl<'a, W: Write + Drop> Model for CurveSheet<'a, W> {
    ghost use Rattle.recording.specs.Sheets.{PictureState};

    ghost Value = { PictureState };

    ghost view = { λ a. record { start = W.contents a.out; samples = a.curves } };
}

impl<'a, W: Write + Drop> CurveSheet<'a, W> {
    /// No values of these columns; the samples will be those of DAQ lists of these shapes. Lack of
    /// memory is the only fault.
    pub fn new(
        alloc: Global,
        tick: Option<Tick>,
        columns: Vec<Column<'a>>,
        shapes: Vec<ListShape>,
        out: W,
    ) -> Result<CurveSheet<'a, W>, AllocError>
        ensures { IfOk result (λ sheet.
            sheet ≡ record { start = W.contents out; samples = [] }) }
    {
        let places = places_of(alloc, &shapes)?;
        let axis = axis_of(places.axis(), tick);
        let curves = ValueCurves::new(alloc, columns, shapes, places)?;
        Ok(CurveSheet { curves, axis, out })
    }
}

impl<'a, W: Write + Drop> Samples for CurveSheet<'a, W> {
    ghost use Rattle.std.specs.Prelude.{ℕ, List, Option};

    ghost handed = { λ a. a.samples };

    ghost Kept = { Option (List ℕ) };

    ghost kept = { λ a. a.start };

    /// The values of the sample stand in the rows of their columns.
    fn hand(&mut self, place: usize, sample: &SampleView<'_>) {
        self.curves.hand(place, sample);
    }
}

impl<'a, W: Write + Drop> Sheet for CurveSheet<'a, W> {
    ghost use Rattle.std.proofs.Common.{subst};
    ghost use Rattle.std.specs.Prelude.{ℕ, List};
    ghost use Rattle.std.specs.Io.KnownBytes.{Appends};
    ghost use Rattle.sample_picture.specs.Shown.{IsClosed};

    type Out = W;

    ghost IsPrinted = { λ a samples out.
        (text : List ℕ) × IsClosed text × Appends a.start (W.contents out) text };

    ghost by_kept = { λ a b samples out same.
        subst (λ start.
        (text : List ℕ) × IsClosed text × Appends start (W.contents out) text) same };

    fn print(self) -> io::Result<W> {
        let CurveSheet { curves, axis, out } = self;
        let mut out = out;
        curves.print(&mut out, axis)?;
        Ok(out)
    }
}

/// The places of samples of lists of these shapes: their times if each of them is stamped, else
/// their numbers in the recording.
fn places_of(alloc: Global, shapes: &[ListShape]) -> Result<Places, AllocError> {
    let mut axis = Axis::Ticks;
    let mut size = StampSize::Four;
    for shape in shapes {
        size = shape.form().stamp;
        if !shape.stamped() {
            axis = Axis::Samples;
        }
    }
    Places::new(alloc, axis, size, shapes.len())
}

/// What the axis of curves counts.
fn axis_of(axis: Axis, tick: Option<Tick>) -> CurveAxis {
    match (axis, tick) {
        (Axis::Samples, _) => CurveAxis::Samples,
        (Axis::Ticks, Some(tick)) => CurveAxis::Seconds(tick),
        (Axis::Ticks, None) => CurveAxis::Ticks,
    }
}
