//! What came of a step is written in words.
use crate::list_set_text::ListSetText;
use daq_run::Came;
use std::fmt::{self, Display};

/// What came of a step: of a trigger the lists, of a pump what was taken, or why it was refused.
#[derive(Clone, Copy)]
pub struct CameText {
    pub came: Came,
}

impl Display for CameText {
    fn fmt<W: fmt::Write>(&self, f: &mut fmt::Formatter<W>) -> fmt::Result {
        match self.came {
            Came::Taken(taken) => {
                write_lists(f, "lists due", taken.due)?;
                write_lists(f, ", accepted", taken.accepted)?;
                write_lists(f, ", dropped", taken.dropped)
            }
            Came::Switched => f.write_str("done"),
            Came::Refused(cause) => write!(f, "{cause}"),
            Came::Pumped(pumped) => {
                write_count(f, "items taken ", pumped.taken)?;
                write_count(f, ", frames written ", pumped.frames)?;
                write_lists(f, ", lists stopped", pumped.stopped)
            }
            Came::Stuck(fault) => write!(f, "{fault}"),
        }
    }
}

/// Writes what became of some DAQ lists, and which they are.
fn write_lists<W: fmt::Write>(f: &mut fmt::Formatter<W>, what: &str, set: u16) -> fmt::Result {
    f.write_str(what)?;
    write!(f, "{}", ListSetText { set })
}

/// Writes how many there are of something.
fn write_count<W: fmt::Write>(f: &mut fmt::Formatter<W>, what: &str, count: u8) -> fmt::Result {
    write!(f, "{what}{count}")
}
