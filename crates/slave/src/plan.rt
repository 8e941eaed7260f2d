//! The set-up that a measurement was opened with: a DAQ list that has changed can't join it.
ghost use Rattle.std.specs.Prelude.{◌≡◌, ℕ, ◌<◌, ◌↔◌, [], true, false, IfOk};
ghost use Rattle.xcp_base.specs.declared.limits.TheConstants.{MAX_LISTS};
ghost use Rattle.xcp_base.specs.Lists.{has_list};
ghost use Rattle.slave.specs.Plans.{IsSame, plan_of};

use daq_store::Store;
use session::SetUp;
use std::alloc::{AllocError, Global};
use std::marker::Model;
use xcp_base::limits::MAX_LISTS;
use xcp_base::{ListId, ListSet};

/// How the DAQ lists were set up where a measurement was opened.
#[derive(Drop)]
pub struct Plan {
    lists: Vec<SetUp>,
}

impl Model for Plan {
    ghost use Rattle.std.specs.Prelude.{List};
    ghost use Rattle.daq_store.specs.Configuration.{Configuration};

    ghost Value = { List Configuration };

    ghost view = { λ p. p.lists.items };
}

impl Plan {
    /// That of no measurement.
    pub fn none(alloc: Global) -> Plan
        ensures { result ≡ [] }
    {
        Plan {
            lists: Vec::new(alloc),
        }
    }

    /// That of a measurement that is opened over a store.
    pub fn of(alloc: Global, store: &Store) -> Result<Plan, AllocError>
        ensures value { IfOk result (λ p. p ≡ plan_of store.now) }
    {
        let mut lists = Vec::new(alloc);
        for l in 0..store.lists() {
            let Some(conf) = store.conf(l) else {
                unreachable!()
            };
            lists.push(SetUp::of(alloc, conf)?)?;
        }
        Ok(Plan { lists })
    }

    /// Whether each of these lists is there and set up as it was.
    pub fn stands(&self, store: &Store, lists: ListSet) -> bool
        ensures yes { result ≡ true → (l : ℕ) → l < MAX_LISTS → has_list lists l ≡ true
            → IsSame self.now store.now l }
        ensures no { result ≡ false → (l : ℕ) × (l < MAX_LISTS) × (has_list lists l ≡ true)
            × (¬ IsSame self.now store.now l) }
    {
        for l in 0..MAX_LISTS {
            if !self.stands_if(store, lists, ListId::at(l)) {
                return false;
            }
        }
        true
    }

    /// Whether a list is there and set up as it was, if it is one of these.
    fn stands_if(&self, store: &Store, lists: ListSet, l: ListId) -> bool
        ensures yes { result ≡ true → has_list lists l ≡ true → IsSame self.now store.now l }
        ensures no { result ≡ false → (has_list lists l ≡ true)
            × (¬ IsSame self.now store.now l) }
    {
        if !lists.has_list(l) {
            return true;
        }
        self.is_same(store, l)
    }

    /// Whether a list is there and set up as it was.
    fn is_same(&self, store: &Store, l: ListId) -> bool
        ensures value { (result ≡ true) ↔ IsSame self.now store.now l }
    {
        let Some(set_up) = self.lists.get(l.index()) else {
            return false;
        };
        let Some(conf) = store.conf(l.number()) else {
            return false;
        };
        set_up.stands(conf)
    }
}
