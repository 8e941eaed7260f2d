//! The curve of a row.
ghost use Rattle.std.specs.Prelude.{◌≡◌, ◌<◌, ◌≤◌, ◌-◌, ◌↔◌, IsTrue, MatchOption, false, true};

use crate::bin::Bin;
use crate::heights::Heights;
use crate::point::Point;
use crate::row::Row;
use crate::stretch::Stretch;
use sample_picture::{BINS, Grid, Ruler, push_tenths};
use std::alloc::{AllocError, Global};

/// Where the values of a row stand, and how far apart two of them may be, to be joined.
#[derive(Clone, Copy)]
pub struct Plot {
    pub ruler: Ruler,
    pub heights: Heights,
    pub reach: u64,
    /// Whether a value stands until the next one: the curve goes in steps.
    pub stepped: bool,
}

/// The values of a bin, and whether samples were dropped before one of them.
#[derive(Clone, Copy)]
pub struct Piece {
    pub stretch: Stretch,
    pub lost: bool,
}

impl Plot {
    /// Whether a piece is joined with what stands before it, if there is something: not if samples
    /// were dropped between them.
    fn joins(&self, before: Option<u64>, piece: &Piece) -> bool
        ensures lost { piece.now.lost ≡ true → result ≡ false }
        ensures near { piece.now.lost ≡ false → MatchOption before (result ≡ false)
            (λ place. IsTrue result ↔ (piece.now.stretch.first.at - place ≤ self.now.reach)) }
    {
        if piece.lost {
            return false;
        }
        match before {
            None => false,
            Some(place) => piece.stretch.first.at.saturating_sub(place) <= self.reach,
        }
    }

    /// Writes a command of a path with the place of a value.
    fn push_point(&self, text: &mut String, letter: &str, point: Point) -> Result<(), AllocError> {
        text.push_str(letter)?;
        push_tenths(text, self.ruler.x(point.at))?;
        text.push_str(" ")?;
        push_tenths(text, self.heights.y(point.value))
    }

    /// Goes on to a value: straight or, in steps, first to its place and then to its height.
    fn push_on(&self, text: &mut String, point: Point) -> Result<(), AllocError> {
        if !self.stepped {
            return self.push_point(text, "L", point);
        }
        text.push_str("H")?;
        push_tenths(text, self.ruler.x(point.at))?;
        text.push_str("V")?;
        push_tenths(text, self.heights.y(point.value))
    }

    /// Writes a stretch as a part of a path: from its first value over its least and its greatest
    /// one to its last one; `joined`: the curve goes on to its first value.
    fn push_stretch(
        &self,
        text: &mut String,
        joined: bool,
        stretch: &Stretch,
    ) -> Result<(), AllocError> {
        if joined {
            self.push_on(text, stretch.first)?;
        } else {
            self.push_point(text, "M", stretch.first)?;
        }
        if stretch.first.at == stretch.last.at && stretch.greatest <= stretch.least {
            return Ok(());
        }
        let first = self.heights.y(stretch.first.value);
        let last = self.heights.y(stretch.last.value);
        let low = self.heights.y(stretch.least);
        let high = self.heights.y(stretch.greatest);
        if low > first.max(last) {
            text.push_str("V")?;
            push_tenths(text, low)?;
        }
        if high < first.min(last) {
            text.push_str("V")?;
            push_tenths(text, high)?;
        }
        self.push_on(text, stretch.last)
    }
}

/// What is drawn of a row, in the order of the bins.
pub fn pieces_of(alloc: Global, row: &Row, grid: &Grid) -> Result<Vec<Piece>, AllocError> {
    let mut pieces = Vec::new(alloc);
    for bin in grid.first / grid.width..=grid.last / grid.width {
        let Bin { curve, lost } = row.bins[(bin % BINS) as usize];
        if let Some(stretch) = curve {
            pieces.push(Piece { stretch, lost })?;
        }
    }
    Ok(pieces)
}

/// Writes the curve as one path, which is broken where the list stood still, and where samples were
/// dropped.
pub fn push_curve(text: &mut String, pieces: &[Piece], plot: &Plot) -> Result<(), AllocError> {
    text.push_str("<path class=\"v\" d=\"")?;
    let mut before = None;
    for piece in pieces {
        plot.push_stretch(text, plot.joins(before, piece), &piece.stretch)?;
        before = Some(piece.stretch.last.at);
    }
    text.push_str("\"/>\n")
}

/// Writes a dot for each value that is joined with none.
pub fn push_dots(
    alloc: Global,
    text: &mut String,
    pieces: &[Piece],
    plot: &Plot,
) -> Result<(), AllocError> {
    let mut dots = String::new(alloc);
    let mut before = None;
    for (place, piece) in pieces.iter().enumerate() {
        let last = piece.stretch.last;
        let is_led_on = match pieces.get(place.saturating_add(1)) {
            None => false,
            Some(next) => plot.joins(Some(last.at), next),
        };
        if !is_led_on && !plot.joins(before, piece) {
            plot.push_point(&mut dots, "M", last)?;
            dots.push_str("h.1")?;
        }
        before = Some(last.at);
    }
    if dots.is_empty() {
        return Ok(());
    }
    writeln!(text, "<path class=\"p\" d=\"{dots}\"/>")
}
