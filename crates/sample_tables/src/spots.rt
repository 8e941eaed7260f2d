//! Where the samples of several DAQ lists stand, one after another.
ghost use Rattle.std.specs.Prelude.{◌≡◌, ◌<◌, ◌∷◌, ◌%◌, ◌^◌, [], ℕ, List, IfOk, IsSome, Some};
ghost use Rattle.std.specs.Prelude.{length, replicate, slice_get};
ghost use Rattle.std.specs.Option.{option_copied};
ghost use Rattle.copy_plan.specs.Config.{ListPlan};
ghost use Rattle.daq_reader.specs.Lists.{given};
ghost use Rattle.daq_reader.specs.Recorded.{Recorded};
ghost use Rattle.sample_tables.specs.Spots.{AreNumbers, KnowsSpots, spot_of};

use crate::spot::Spot;
use crate::times::Times;
use daq_reader::ListShape;
use std::alloc::{AllocError, Global};

/// How many samples of each DAQ list came, modulo 2^64, and their last times.
#[derive(Drop)]
pub struct Spots {
    numbers: Vec<u64>,
    times: Times,
}

impl Spots {
    /// Before the first sample of so many lists. Lack of memory is the only fault.
    pub fn new(alloc: Global, lists: usize) -> Result<Spots, AllocError>
        ensures { IfOk result (λ spots. (plans : List ListPlan) → length plans ≡ lists
            → KnowsSpots spots plans []) }
    {
        let numbers = no_numbers(alloc, lists)?;
        let times = Times::new(alloc, lists)?;
        Ok(Spots { numbers, times })
    }

    /// Where the next sample stands, which is of the list at a place, of this shape, if there is
    /// one.
    pub fn next(&mut self, shape: Option<&ListShape>, place: usize, stamp: Option<u32>) -> Spot
        requires numbers { IsSome (option_copied shape) → place < length self.old.numbers.items }
        requires times { IsSome (option_copied shape) → place < length self.old.times.lists.items }
        ensures spot { (plans : List ListPlan) (plan : ListPlan) (earlier : List (ℕ × Recorded))
            (r : Recorded) → KnowsSpots self.old plans earlier
            → option_copied shape.entry ≡ slice_get plans place → slice_get plans place ≡ Some plan
            → stamp ≡ r.stamp → result ≡ spot_of plans earlier place r }
        ensures knows { (plans : List ListPlan) (earlier : List (ℕ × Recorded)) (r : Recorded)
            → KnowsSpots self.old plans earlier
            → option_copied shape.entry ≡ slice_get plans place
            → stamp ≡ r.stamp → KnowsSpots self.new plans ((place, r) ∷ earlier) }
    {
        let Some(shape) = shape else {
            return Spot::FIRST;
        };
        let number = next_number(&mut self.numbers, place);
        let time = self.times.next(place, shape.form().stamp, stamp);
        Spot { number, time }
    }
}

/// So many lists of which no sample came.
fn no_numbers(alloc: Global, lists: usize) -> Result<Vec<u64>, AllocError>
    ensures { IfOk result (λ numbers. numbers.items ≡ replicate lists 0) }
{
    let mut numbers = Vec::with_capacity(alloc, lists)?;
    for _ in 0..lists {
        numbers.push_reserved(0);
    }
    Ok(numbers)
}

/// The number of the next sample of the list at a place.
fn next_number(numbers: &mut Vec<u64>, place: usize) -> u64
    requires { place < length numbers.old.items }
    ensures number { (earlier : List (ℕ × Recorded)) → AreNumbers numbers.old.items earlier
        → result ≡ length (given place earlier) % 2 ^ 64 }
    ensures numbers { (earlier : List (ℕ × Recorded)) (r : Recorded)
        → AreNumbers numbers.old.items earlier
        → AreNumbers numbers.new.items ((place, r) ∷ earlier) }
    ensures lists { length numbers.new.items ≡ length numbers.old.items }
{
    let number = numbers[place];
    numbers[place] = number.wrapping_add(1);
    number
}
