//! Sets of DAQ lists: a type, and numbers in which bit `l` stands for list `l`, for calls whose
//! sets are numbers.
ghost use Rattle.std.specs.Prelude.{◌≡◌, ◌≢◌, ◌^◌, ℕ, ◌<◌, ◌≤◌, ◌&&◌, ◌||◌, not, nat_eq};
ghost use Rattle.std.specs.Prelude.{true, false};
ghost use Rattle.xcp_base.specs.declared.limits.TheConstants.{MAX_LISTS};
ghost use Rattle.xcp_base.specs.Lists.{has_list};
ghost use Rattle.xcp_base.specs.Counts.{how_many, one_if};

use crate::ListId;
use crate::limits::MAX_LISTS;
use std::marker::Model;

/// A set of DAQ lists. A contract sees it as the number in which bit `l` stands for list `l`.
#[derive(Clone, Copy, Debug)]
pub struct ListSet {
    bits: u16,
}

impl Model for ListSet {
    ghost Value = { ℕ };

    ghost view = { λ s. s.bits };

    ghost invariant = { λ s. s.bits < 2 ^ 16 };

    ghost inverse = { λ n. record { bits = n } };
}

impl ListSet {
    /// The set of no list.
    pub fn none() -> ListSet
        ensures { result ≡ 0 }
    {
        ListSet { bits: 0 }
    }

    /// The set of the lists whose bits a number has.
    pub fn from_bits(bits: u16) -> ListSet
        ensures { result ≡ bits }
    {
        ListSet { bits }
    }

    /// The set of all lists.
    pub fn all() -> ListSet
        ensures { (l : ℕ) → l < MAX_LISTS → has_list result l ≡ true }
    {
        ListSet { bits: u16::MAX }
    }

    /// Whether a list is in the set.
    pub fn has_list(self, l: ListId) -> bool
        ensures { result ≡ has_list self l }
    {
        has_list(self.bits, l.byte())
    }

    /// The set with this list, beside those that are in it.
    pub fn with_list(self, l: ListId) -> ListSet
        ensures { (k : ℕ) → has_list result k ≡ (has_list self k || nat_eq l k) }
    {
        ListSet {
            bits: with_list(self.bits, l.byte()),
        }
    }

    /// The set with this list beside those that are in it, if the list is wanted; else the set.
    pub fn with_list_if(self, l: ListId, wanted: bool) -> ListSet
        ensures { (k : ℕ) → has_list result k ≡ (has_list self k || (wanted && nat_eq l k)) }
    {
        ListSet {
            bits: with_list_if(self.bits, l.byte(), wanted),
        }
    }

    /// The set without this list.
    pub fn without_list(self, l: ListId) -> ListSet
        ensures { (k : ℕ) → k < MAX_LISTS
            → has_list result k ≡ (has_list self k && not (nat_eq l k)) }
    {
        ListSet {
            bits: self.bits & !(1 << l.byte()),
        }
    }

    /// The lists that are in one of the two sets or in both.
    pub fn union(self, other: ListSet) -> ListSet
        ensures { (k : ℕ) → has_list result k ≡ (has_list self k || has_list other k) }
    {
        ListSet {
            bits: self.bits | other.bits,
        }
    }

    /// The lists that are in both sets.
    pub fn intersection(self, other: ListSet) -> ListSet
        ensures { (k : ℕ) → has_list result k ≡ (has_list self k && has_list other k) }
    {
        ListSet {
            bits: self.bits & other.bits,
        }
    }

    /// The lists that are in the set and not in the other one.
    pub fn difference(self, other: ListSet) -> ListSet
        ensures { (k : ℕ) → k < MAX_LISTS
            → has_list result k ≡ (has_list self k && not (has_list other k)) }
    {
        ListSet {
            bits: self.bits & !other.bits,
        }
    }

    /// Whether no list is in the set.
    pub fn is_empty(self) -> bool
        ensures zero { result ≡ true → self ≡ 0 }
        ensures not_zero { result ≡ false → self ≢ 0 }
        ensures none { result ≡ true → (l : ℕ) → l < MAX_LISTS → has_list self l ≡ false }
        ensures some { result ≡ false → (l : ℕ) × (l < MAX_LISTS) × (has_list self l ≡ true) }
    {
        self.bits == 0
    }

    /// How many lists are in the set.
    pub fn len(self) -> usize
        ensures value { result ≡ how_many MAX_LISTS (has_list self) }
        ensures few { result ≤ MAX_LISTS }
    {
        let mut found = 0;
        for l in 0..MAX_LISTS {
            found += self.counted(ListId::at(l));
        }
        found
    }

    /// What a list adds to the number of those in the set.
    fn counted(self, l: ListId) -> usize
        ensures { result ≡ one_if (has_list self l) }
    {
        if self.has_list(l) { 1 } else { 0 }
    }
}

/// The DAQ list is in the set that a number stands for.
pub fn has_list(set: u16, l: u8) -> bool
    requires { l < MAX_LISTS }
    ensures { result ≡ has_list set l }
{
    set >> l & 1 == 1
}

/// The same set with this DAQ list, beside those that are in it.
pub fn with_list(set: u16, l: u8) -> u16
    requires { l < MAX_LISTS }
    ensures { (k : ℕ) → has_list result k ≡ (has_list set k || nat_eq l k) }
{
    set | 1 << l
}

/// The same set with this DAQ list beside those that are in it, if it is wanted; else the set.
pub fn with_list_if(set: u16, l: u8, wanted: bool) -> u16
    requires { l < MAX_LISTS }
    ensures { (k : ℕ) → has_list result k ≡ (has_list set k || (wanted && nat_eq l k)) }
{
    if wanted { with_list(set, l) } else { set }
}
