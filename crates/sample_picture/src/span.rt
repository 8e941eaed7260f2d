//! A part of a row that is drawn in one stroke.
ghost use Rattle.std.specs.Prelude.{◌<◌, ◌≤◌};

use crate::numbers::push_tenths;
use std::alloc::AllocError;

/// From where to where, in tenths of a unit from the left of the plot.
#[derive(Clone, Copy, Debug)]
pub struct Span {
    pub from: u64,
    pub to: u64,
    pub ghost ordered: { from ≤ to },
    pub ghost within: { to < 10000 },
}

impl Span {
    /// Writes the stroke as a part of a path.
    pub fn push_stroke(&self, text: &mut String) -> Result<(), AllocError> {
        text.push_str("M")?;
        push_tenths(text, self.from)?;
        text.push_str(" 0h")?;
        push_tenths(text, self.to - self.from)
    }

    /// The middle.
    pub fn middle(&self) -> u64 {
        self.from + (self.to - self.from) / 2
    }
}
