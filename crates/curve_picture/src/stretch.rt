//! What is kept of the values of one bin.
ghost use Rattle.std.specs.Prelude.{◌≡◌};
ghost use Rattle.curve_picture.specs.Inner.{greater, joined, lesser, stretch_of};

use crate::point::Point;

/// The least and the greatest of some values, and those at their first and their last place. No
/// value is NaN or infinite.
#[derive(Clone, Copy)]
pub struct Stretch {
    pub least: f64,
    pub greatest: f64,
    pub first: Point,
    pub last: Point,
}

impl Stretch {
    /// The stretch of one value.
    pub fn of(point: Point) -> Stretch
        ensures { result ≡ stretch_of point }
    {
        Stretch {
            least: point.value,
            greatest: point.value,
            first: point,
            last: point,
        }
    }

    /// The stretch of the values of two.
    pub fn with(self, other: Stretch) -> Stretch
        ensures { result ≡ joined self other }
    {
        Stretch {
            least: lesser(self.least, other.least),
            greatest: greater(self.greatest, other.greatest),
            first: self.first.earlier(other.first),
            last: self.last.later(other.last),
        }
    }
}

/// The lesser of two numbers.
fn lesser(left: f64, right: f64) -> f64
    ensures { result ≡ lesser left right }
{
    if right < left { right } else { left }
}

/// The greater of two numbers.
fn greater(left: f64, right: f64) -> f64
    ensures { result ≡ greater left right }
{
    if left < right { right } else { left }
}
