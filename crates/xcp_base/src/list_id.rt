//! The number of a DAQ list.
ghost use Rattle.std.specs.Prelude.{◌≡◌, ℕ, ◌<◌, ◌↔◌, IfSome, IsSome};
ghost use Rattle.xcp_base.specs.declared.limits.TheConstants.{MAX_LISTS};

use crate::limits::MAX_LISTS;
use std::marker::Model;

/// The number of a DAQ list that there may be: it is below `MAX_LISTS`. A contract sees it as this
/// number.
#[derive(Clone, Copy, Debug, PartialEq, Eq)]
pub struct ListId {
    number: u8,
}

impl Model for ListId {
    ghost Value = { ℕ };

    ghost view = { λ l. l.number };

    ghost invariant = { λ l. l.number < MAX_LISTS };

    ghost inverse = { λ n. record { number = n } };
}

impl ListId {
    /// The DAQ list of this number, if there may be one.
    pub fn new(number: u8) -> Option<ListId>
        ensures there { IsSome result ↔ (number < MAX_LISTS) }
        ensures value { IfSome result (λ l. l ≡ number) }
    {
        if (number as u16) < MAX_LISTS {
            Some(ListId { number })
        } else {
            None
        }
    }

    /// The DAQ list of this number, of which there is one.
    pub fn at(number: u16) -> ListId
        requires { number < MAX_LISTS }
        ensures { result ≡ number }
    {
        ListId {
            number: number as u8,
        }
    }

    /// Its number in a WORD, as commands have it.
    pub fn number(self) -> u16
        ensures { result ≡ self }
    {
        self.number as u16
    }

    /// Its number in a byte, as samples, orders and accounts have it.
    pub fn byte(self) -> u8
        ensures value { result ≡ self }
        ensures below { result < MAX_LISTS }
    {
        self.number
    }

    /// Its place in a table of all DAQ lists.
    pub fn index(self) -> usize
        ensures value { result ≡ self }
        ensures below { result < MAX_LISTS }
    {
        self.number as usize
    }
}
