//! A value at its place.
ghost use Rattle.std.specs.Prelude.{◌≡◌};
ghost use Rattle.curve_picture.specs.Inner.{earlier, later};

/// A value that is drawn, and its place on the axis.
#[derive(Clone, Copy)]
pub struct Point {
    pub at: u64,
    pub value: f64,
}

impl Point {
    /// The one of two that has the lesser place.
    pub fn earlier(self, other: Point) -> Point
        ensures { result ≡ earlier self other }
    {
        if other.at < self.at { other } else { self }
    }

    /// The one of two that has the greater place.
    pub fn later(self, other: Point) -> Point
        ensures { result ≡ later self other }
    {
        if self.at < other.at { other } else { self }
    }
}
