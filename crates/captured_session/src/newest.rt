//! What the newest fact says of something.
ghost use Rattle.std.specs.Prelude.{◌≡◌};
ghost use Rattle.captured_session.specs.Lists.{entries_said, entry_at, entry_said, first_pid_said};
ghost use Rattle.captured_session.specs.Lists.{known, mode_said, newest, odts_said};

use crate::entry::Entry;
use crate::fact::Fact;
use crate::list_mode::ListMode;
use crate::said::{entries_said, entry_said, first_pid_said, mode_said, odts_said};

/// How many ODTs a list has, if that is known.
pub fn odts_in(facts: &[Fact], list: u16) -> Option<u8>
    ensures { result ≡ known (newest (odts_said list) facts.now) }
{
    let mut said = None;
    for fact in facts {
        said = odts_said(list, *fact).or(said);
    }
    said.flatten()
}

/// How many entries an ODT has, if that is known.
pub fn entries_in(facts: &[Fact], list: u16, odt: u8) -> Option<u8>
    ensures { result ≡ known (newest (entries_said list odt) facts.now) }
{
    let mut said = None;
    for fact in facts {
        said = entries_said(list, odt, *fact).or(said);
    }
    said.flatten()
}

/// What is known of an entry.
pub fn entry_in(facts: &[Fact], list: u16, odt: u8, entry: u8) -> Entry
    ensures { result ≡ entry_at facts.now list odt entry }
{
    let mut said = None;
    for fact in facts {
        said = entry_said(list, odt, entry, *fact).or(said);
    }
    said.unwrap_or(Entry::Open)
}

/// The mode of a list, if that is known.
pub fn mode_in(facts: &[Fact], list: u16) -> Option<ListMode>
    ensures { result ≡ known (newest (mode_said list) facts.now) }
{
    let mut said = None;
    for fact in facts {
        said = mode_said(list, *fact).or(said);
    }
    said.flatten()
}

/// With which PID those of a list begin, if that was told.
pub fn first_pid_in(facts: &[Fact], list: u16) -> Option<u8>
    ensures { result ≡ newest (first_pid_said list) facts.now }
{
    let mut said = None;
    for fact in facts {
        said = first_pid_said(list, *fact).or(said);
    }
    said
}
