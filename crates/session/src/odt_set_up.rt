//! The entries of an ODT, kept to be compared with later ones.
ghost use Rattle.std.specs.Prelude.{◌≡◌, ◌↔◌, true, IfOk};
ghost use Rattle.daq_store.specs.Configuration.{odt_entries};

use daq_store::{Entry, ListConf};
use std::alloc::{AllocError, Global};
use std::marker::Model;

/// The entries of an ODT, as they were, each of them written or not.
#[derive(Drop)]
pub struct OdtSetUp {
    entries: Vec<Option<Entry>>,
}

impl Model for OdtSetUp {
    ghost use Rattle.std.specs.Prelude.{List, Option};
    ghost use Rattle.daq_store.specs.declared.entry.Entry.{Entry};

    ghost Value = { List (Option Entry) };

    ghost view = { λ a. a.entries.items };
}

impl OdtSetUp {
    /// Those of an ODT of a list.
    pub fn of(alloc: Global, conf: &ListConf, odt: usize) -> Result<OdtSetUp, AllocError>
        ensures value { IfOk result (λ s. s ≡ odt_entries conf.now odt) }
    {
        let mut entries = Vec::new(alloc);
        for entry in 0..conf.entries(odt) {
            entries.push(conf.written(odt, entry))?;
        }
        Ok(OdtSetUp { entries })
    }

    /// Whether the ODT of a list has these entries.
    pub fn stands(&self, conf: &ListConf, odt: usize) -> bool
        ensures value { (result ≡ true) ↔ (self.now ≡ odt_entries conf.now odt) }
    {
        if conf.entries(odt) != self.entries.len() {
            return false;
        }
        for entry in 0..self.entries.len() {
            if !is_same_entry(self.entries[entry], conf.written(odt, entry)) {
                return false;
            }
        }
        true
    }
}

/// Whether two entries are the same.
fn is_same_entry(a: Option<Entry>, b: Option<Entry>) -> bool
    ensures value { (result ≡ true) ↔ (a ≡ b) }
{
    a == b
}
