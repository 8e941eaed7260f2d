//! Count, least, greatest and mean of the values of one measurement.
ghost use Rattle.std.specs.Prelude.{◌≡◌, ◌∷◌, [], List, length};
ghost use Rattle.std.specs.Float.{Float};
ghost use Rattle.measured_values.specs.Tallies.{IsAbove, IsBelow, IsBestIfAny, IsBetter, IsTally};
ghost use Rattle.measured_values.specs.Tallies.{counted, mean_of};

use std::num::nearest_u64_to_f64;

/// How many values there were, the least and the greatest of them, and their mean.
///
/// A NaN counts as a value, but for nothing else: the least, the greatest and the mean are those
/// of the numbers among the values, and there are none if no value is a number. An infinity is a
/// number. Of -0 and 0, which compare equal, the first that was noted stays.
#[derive(Clone, Copy, Debug)]
pub struct Tally {
    count: u64,
    numbers: u64,
    least: Option<f64>,
    greatest: Option<f64>,
    sum: f64,
}

impl Tally {
    /// No values.
    pub fn new() -> Tally
        ensures { IsTally result [] }
    {
        Tally {
            count: 0,
            numbers: 0,
            least: None,
            greatest: None,
            sum: 0.0,
        }
    }

    /// Notes a value.
    pub fn note(&mut self, value: f64)
        ensures { (values : List Float) → IsTally self.old values
            → IsTally self.new (value ∷ values) }
    {
        self.count = self.count.saturating_add(1);
        if value.is_nan() {
            return;
        }
        self.numbers = self.numbers.saturating_add(1);
        self.least = Some(lower(self.least, value));
        self.greatest = Some(higher(self.greatest, value));
        self.sum += value;
    }

    /// How many values were noted; `u64::MAX` if there were more.
    pub fn count(&self) -> u64
        ensures { (values : List Float) → IsTally self.now values
            → result ≡ counted (length values) }
    {
        self.count
    }

    /// The least number.
    pub fn least(&self) -> Option<f64>
        ensures { (values : List Float) → IsTally self.now values
            → IsBestIfAny IsBelow values result }
    {
        self.least
    }

    /// The greatest number.
    pub fn greatest(&self) -> Option<f64>
        ensures { (values : List Float) → IsTally self.now values
            → IsBestIfAny IsAbove values result }
    {
        self.greatest
    }

    /// The mean of the numbers: their sum, in the order in which they were noted, divided by how
    /// many they are, both in `f64`.
    pub fn mean(&self) -> Option<f64>
        ensures { (values : List Float) → IsTally self.now values → result ≡ mean_of values }
    {
        if self.numbers == 0 {
            return None;
        }
        Some(self.sum / nearest_u64_to_f64(self.numbers))
    }
}

/// The lower of a number, if there is one, and another; the first if they are equal.
fn lower(least: Option<f64>, value: f64) -> f64
    ensures { IsBetter IsBelow least value result }
{
    match least {
        Some(least) => if value < least { value } else { least },
        None => value,
    }
}

/// The higher of a number, if there is one, and another; the first if they are equal.
fn higher(greatest: Option<f64>, value: f64) -> f64
    ensures { IsBetter IsAbove greatest value result }
{
    match greatest {
        Some(greatest) => if greatest < value { value } else { greatest },
        None => value,
    }
}
