//! What a fact says of a DAQ list.
ghost use Rattle.std.specs.Prelude.{◌≡◌};
ghost use Rattle.captured_session.specs.Lists.{entries_said, entry_is, entry_said, first_pid_said};
ghost use Rattle.captured_session.specs.Lists.{mode_said, odts_said};

use crate::element::Element;
use crate::entry::Entry;
use crate::fact::Fact;
use crate::list_mode::ListMode;

/// How many ODTs a list has; `Some(None)`: that isn't known.
pub fn odts_said(list: u16, fact: Fact) -> Option<Option<u8>>
    ensures { result ≡ odts_said list fact }
{
    match fact {
        Fact::Odts { list: of, count } if of == list => Some(Some(count)),
        Fact::LostList { list: of } if of == list => Some(None),
        Fact::LostAll => Some(None),
        _ => None,
    }
}

/// How many entries an ODT has; `Some(None)`: that isn't known.
pub fn entries_said(list: u16, odt: u8, fact: Fact) -> Option<Option<u8>>
    ensures { result ≡ entries_said list odt fact }
{
    match fact {
        Fact::Entries {
            list: of,
            odt: within,
            count,
        } if of == list && within == odt => Some(Some(count)),
        Fact::Odts { list: of, .. } if of == list => Some(Some(0)),
        Fact::LostList { list: of } if of == list => Some(None),
        Fact::LostAll => Some(None),
        _ => None,
    }
}

/// What an entry is.
pub fn entry_said(list: u16, odt: u8, entry: u8, fact: Fact) -> Option<Entry>
    ensures { result ≡ entry_said list odt entry fact }
{
    match fact {
        Fact::Entry {
            list: of,
            odt: within,
            entry: at,
            element,
        } if of == list && within == odt && at == entry => Some(entry_is(element)),
        Fact::Entries {
            list: of,
            odt: within,
            ..
        } if of == list && within == odt => Some(Entry::Unwritten),
        Fact::Odts { list: of, .. } | Fact::Cleared { list: of } if of == list => {
            Some(Entry::Unwritten)
        }
        Fact::LostOdt {
            list: of,
            odt: within,
        } if of == list && within == odt => Some(Entry::Open),
        Fact::LostList { list: of } if of == list => Some(Entry::Open),
        Fact::LostAll => Some(Entry::Open),
        _ => None,
    }
}

/// What an entry is that was written so.
fn entry_is(element: Option<Element>) -> Entry
    ensures { result ≡ entry_is element }
{
    match element {
        Some(element) => Entry::Is(element),
        None => Entry::Open,
    }
}

/// The mode of a list; `Some(None)`: that isn't known.
pub fn mode_said(list: u16, fact: Fact) -> Option<Option<ListMode>>
    ensures { result ≡ mode_said list fact }
{
    match fact {
        Fact::Mode { list: of, mode } if of == list => Some(mode),
        _ => None,
    }
}

/// With which PID those of a list begin.
pub fn first_pid_said(list: u16, fact: Fact) -> Option<u8>
    ensures { result ≡ first_pid_said list fact }
{
    match fact {
        Fact::FirstPid { list: of, pid } if of == list => Some(pid),
        _ => None,
    }
}
