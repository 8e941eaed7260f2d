//! What is known of the set-up of a slave, fact by fact.

use crate::element::Element;
use crate::list_mode::ListMode;

/// A fact of the set-up of DAQ lists. A later one takes the place of those before that speak of the
/// same.
#[derive(Clone, Copy, Debug, PartialEq, Eq)]
pub enum Fact {
    /// The list has so many ODTs, without entries.
    Odts {
        list: u16,
        count: u8,
    },
    /// The ODT has so many entries, of which none is written.
    Entries {
        list: u16,
        odt: u8,
        count: u8,
    },
    /// The entry is this one; or it isn't known which.
    Entry {
        list: u16,
        odt: u8,
        entry: u8,
        element: Option<Element>,
    },
    /// No entry of the list is written.
    Cleared {
        list: u16,
    },
    /// The list has this mode; or it isn't known which.
    Mode {
        list: u16,
        mode: Option<ListMode>,
    },
    /// The PIDs of the list begin with this one.
    FirstPid {
        list: u16,
        pid: u8,
    },
    /// It isn't known which of the ODT's entries are written.
    LostOdt {
        list: u16,
        odt: u8,
    },
    /// It isn't known which ODTs and entries the list has.
    LostList {
        list: u16,
    },
    /// It isn't known which ODTs and entries any list has.
    LostAll,
}
