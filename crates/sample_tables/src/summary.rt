//! The samples of a recording are counted, list by list.
ghost use Rattle.std.specs.Prelude.{◌≡◌, ◌<◌, ◌++◌, ◌∷◌, [], ℕ, List, IfOk, length, replicate};
ghost use Rattle.std.specs.Prelude.{None};
ghost use Rattle.daq_reader.specs.Lists.{given};
ghost use Rattle.daq_reader.specs.Recorded.{Recorded};
ghost use Rattle.sample_tables.specs.Tallies.{AreTallies, tally_of};

use crate::tally::Tally;
use daq_reader::{SampleLog, SampleView, Samples};
use std::alloc::{AllocError, Global};
use std::marker::Model;

/// A tally of each DAQ list, of the samples that it was handed.
#[derive(Drop)]
pub struct Summary {
    tallies: Vec<Tally>,
    log: SampleLog,
}

impl Model for Summary {
    ghost use Rattle.std.specs.Prelude.{length};
    ghost use Rattle.sample_tables.specs.Tallies.{AreTallies, SummaryState};

    ghost Value = { SummaryState };

    ghost view = { λ a. record {
      lists = length a.tallies.items;
      samples = a.log.samples;
    } };

    ghost invariant = { λ a. AreTallies a.tallies.items a.log.samples };
}

impl Summary {
    /// No samples of so many lists. Lack of memory is the only fault.
    pub fn new(alloc: Global, lists: usize) -> Result<Summary, AllocError>
        ensures lists { IfOk result (λ summary. summary.lists ≡ lists) }
        ensures samples { IfOk result (λ summary. summary.samples ≡ []) }
    {
        let tallies = no_tallies(alloc, lists)?;
        Ok(Summary {
            tallies,
            log: SampleLog::new(),
        })
    }

    /// The tally of the list at a place.
    pub fn tally(&self, place: usize) -> Tally
        ensures { place < self.now.lists → result ≡ tally_of (given place self.now.samples) }
    {
        match self.tallies.get(place) {
            Some(tally) => *tally,
            None => Tally::NONE,
        }
    }
}

impl Samples for Summary {
    ghost use Rattle.std.specs.Prelude.{ℕ};

    ghost handed = { λ a. a.samples };

    ghost Kept = { ℕ };

    ghost kept = { λ a. a.lists };

    /// Counts the sample for the list at the place; it is counted for none if there is no such
    /// list.
    fn hand(&mut self, place: usize, sample: &SampleView<'_>)
        ensures handed { self.new.samples ≡ self.old.samples ++ (place, sample.now.sample) ∷ [] }
        ensures kept { self.new.lists ≡ self.old.lists }
    {
        count(&mut self.tallies, place, sample.overload(), sample.stamp());
        // for the proof: clauses speak of the samples that were handed over
        self.log.note(place, sample);
    }
}

/// So many tallies of no samples.
fn no_tallies(alloc: Global, lists: usize) -> Result<Vec<Tally>, AllocError>
    ensures none { IfOk result (λ tallies. tallies.items ≡ replicate lists (tally_of [])) }
    ensures tallies { IfOk result (λ tallies. AreTallies tallies.items []) }
    ensures lists { IfOk result (λ tallies. length tallies.items ≡ lists) }
{
    let mut tallies = Vec::with_capacity(alloc, lists)?;
    for _ in 0..lists {
        tallies.push_reserved(Tally::NONE);
    }
    Ok(tallies)
}

/// Counts a sample for the list at a place, if there is one.
fn count(tallies: &mut Vec<Tally>, place: usize, overload: bool, stamp: Option<u32>)
    ensures tallies { (samples : List (ℕ × Recorded)) (r : Recorded)
        → AreTallies tallies.old.items samples → overload ≡ r.overload → stamp ≡ r.stamp
        → AreTallies tallies.new.items (samples ++ (place, r) ∷ []) }
    ensures lists { length tallies.new.items ≡ length tallies.old.items }
{
    if place >= tallies.len() {
        return;
    }
    let tally = tallies[place];
    tallies[place] = tally.with(overload, stamp);
}
