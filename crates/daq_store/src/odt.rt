//! The entries of one ODT: allocated, written, cleared, and checked against the segments.
ghost use Rattle.std.specs.Prelude.{◌≡◌, ◌*◌, ◌<◌, ◌≤◌, [], None, Some, IfOk, length};
ghost use Rattle.std.specs.Prelude.{option_and_then, replicate, slice_get, slice_set, sum_by};
ghost use Rattle.std.specs.List.{list_all};
ghost use Rattle.daq_store.specs.Configuration.{entry_len, is_filled, is_within};
ghost use Rattle.daq_store.specs.Inner.Effects.{unwritten};

use crate::entry::{Entry, is_within};
use segments::Segments;
use segments::limits::MAX_READERS;
use std::alloc::{AllocError, Global};
use std::marker::Model;
use xcp_base::limits::{MAX_ENTRIES, MAX_ENTRY_SIZE};

/// An ODT: its entries, of which some may be unwritten.
#[derive(Drop)]
pub struct Odt {
    entries: Vec<Option<Entry>>,
}

impl Model for Odt {
    ghost use Rattle.std.specs.Prelude.{List, Option};
    ghost use Rattle.daq_store.specs.declared.entry.Entry.{Entry};

    ghost Value = { List (Option Entry) };

    ghost use Rattle.daq_store.specs.Configuration.{IsOdt};

    ghost view = { λ a. a.entries.items };

    ghost invariant = { λ a. IsOdt a.entries.items };
}

impl Odt {
    /// An ODT without entries.
    pub fn new(alloc: Global) -> Odt
        ensures { result ≡ [] }
    {
        Odt {
            entries: Vec::new(alloc),
        }
    }

    /// An ODT with so many unwritten entries.
    pub fn unwritten(alloc: Global, count: usize) -> Result<Odt, AllocError>
        requires { count ≤ MAX_ENTRIES }
        ensures { IfOk result (λ odt. odt ≡ replicate count None) }
    {
        let entries = vec![in alloc; None; count]?;
        Ok(Odt { entries })
    }

    /// The number of entries.
    pub fn entries(&self) -> usize
        ensures count { result ≡ length self.now }
        ensures limit { result ≤ MAX_ENTRIES }
    {
        self.entries.len()
    }

    /// An entry, where it is there and written.
    pub fn entry(&self, entry: usize) -> Option<Entry>
        ensures { result ≡ option_and_then (λ x. x) (slice_get self.now entry) }
    {
        *self.entries.get(entry)?
    }

    /// Writes an entry.
    pub fn write(&mut self, entry: usize, value: Entry)
        requires entry { entry < length self.old }
        requires size { (0 < value.size) × (value.size ≤ MAX_ENTRY_SIZE) }
        ensures { self.new ≡ slice_set self.old entry (Some value) }
    {
        self.entries[entry] = Some(value);
    }

    /// Makes the entries unwritten.
    pub fn clear(&mut self)
        ensures { self.new ≡ unwritten self.old }
    {
        self.entries.fill(None);
    }

    /// Whether there is an entry, and each is written and lies in a segment that an event channel
    /// may read.
    pub fn is_filled(&self, channel: u8, segments: &Segments) -> bool
        requires { channel < MAX_READERS }
        ensures { result ≡ is_filled channel segments.now self.now }
    {
        !self.entries.is_empty() && self.are_within(channel, segments)
    }

    /// Whether each entry is written and lies in a segment that an event channel may read.
    fn are_within(&self, channel: u8, segments: &Segments) -> bool
        requires { channel < MAX_READERS }
        ensures { result ≡ list_all (is_within channel segments.now) self.now }
    {
        self.entries
            .iter()
            .all(|entry| is_within(channel, segments, entry))
    }

    /// The bytes of the entries.
    pub fn bytes(&self) -> usize
        ensures value { result ≡ sum_by entry_len self.now }
        ensures limit { result ≤ MAX_ENTRIES * MAX_ENTRY_SIZE }
    {
        let mut bytes = 0;
        for entry in &self.entries {
            if let Some(entry) = entry {
                bytes += entry.size as usize;
            }
        }
        bytes
    }
}
