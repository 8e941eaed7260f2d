//! What a bin shows of its values.
ghost use Rattle.std.specs.Prelude.{◌≡◌};
ghost use Rattle.curve_picture.specs.Inner.{bin_of, joined_bin, joined_curve};

use crate::point::Point;
use crate::stretch::Stretch;

/// What is kept of the values whose places are in one bin.
#[derive(Clone, Copy)]
pub struct Bin {
    /// The values that are drawn, if there are any.
    pub curve: Option<Stretch>,
    /// Whether samples were dropped before one of them.
    pub lost: bool,
}

impl Bin {
    /// The bin of no value.
    pub const EMPTY: Bin = Bin {
        curve: None,
        lost: false,
    };

    /// The bin of one value, which isn't drawn if it is NaN or infinite.
    pub fn of(point: Point, lost: bool) -> Bin
        ensures { result ≡ bin_of point lost }
    {
        if point.value.is_finite() {
            return Bin {
                curve: Some(Stretch::of(point)),
                lost,
            };
        }
        Bin { curve: None, lost }
    }

    /// The bin of the values of two.
    pub fn with(self, other: Bin) -> Bin
        ensures { result ≡ joined_bin self other }
    {
        Bin {
            curve: joined(self.curve, other.curve),
            lost: self.lost || other.lost,
        }
    }
}

/// What is drawn of two bins.
pub fn joined(curve: Option<Stretch>, other: Option<Stretch>) -> Option<Stretch>
    ensures { result ≡ joined_curve curve other }
{
    let Some(left) = curve else {
        return other;
    };
    let Some(right) = other else {
        return curve;
    };
    Some(left.with(right))
}
