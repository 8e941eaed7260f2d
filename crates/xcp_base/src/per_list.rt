//! A table with a value for each DAQ list.
ghost use Rattle.std.specs.Prelude.{◌≡◌, ◌≢◌, ℕ, List, Some, length, replicate, slice_get};
ghost use Rattle.xcp_base.specs.declared.limits.TheConstants.{MAX_LISTS};

use crate::ListId;
use crate::limits::MAX_LISTS;
use std::marker::Model;

/// A value for each DAQ list that there may be. A contract sees the values in the order of the
/// lists' numbers.
#[derive(Debug, Drop)]
pub struct PerList<T> {
    items: [T; MAX_LISTS as usize],
}

impl<T> Model for PerList<T> {
    ghost Value = { List T };

    ghost view = { λ table. table.items };

    ghost invariant = { λ table. length table.items ≡ MAX_LISTS };
}

impl<T: Copy> PerList<T> {
    /// The same value for each list.
    pub fn of(item: T) -> PerList<T>
        ensures { result ≡ replicate MAX_LISTS item }
    {
        PerList {
            items: [item; MAX_LISTS as usize],
        }
    }

    /// The value of a list.
    pub fn get(&self, l: ListId) -> T
        ensures { slice_get self.now l ≡ Some result }
    {
        self.items[l.index()]
    }

    /// Gives a list another value.
    pub fn set(&mut self, l: ListId, item: T)
        ensures here { slice_get self.new l ≡ Some item }
        ensures others { (k : ℕ) → k ≢ l → slice_get self.new k ≡ slice_get self.old k }
    {
        self.items[l.index()] = item;
    }
}
