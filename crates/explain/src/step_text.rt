//! Steps are written as in a run file, but for their images.
use run_file::Step;
use std::fmt::{self, Display};

/// A step in the words of a run file; of an image its length alone.
#[derive(Clone, Copy)]
pub struct StepText<'a> {
    pub step: Step<'a>,
}

impl<'a> Display for StepText<'a> {
    fn fmt<W: fmt::Write>(&self, f: &mut fmt::Formatter<W>) -> fmt::Result {
        match self.step {
            Step::Trigger {
                channel,
                stamp,
                image,
            } => write_trigger(f, channel, stamp, image.len()),
            Step::Start { channel, list } => write_switch(f, "start", channel, list),
            Step::Stop { channel, list } => write_switch(f, "stop", channel, list),
            Step::Pump => f.write_str("pump"),
        }
    }
}

/// Writes a trigger with an image of this length.
fn write_trigger<W: fmt::Write>(
    f: &mut fmt::Formatter<W>,
    channel: u8,
    stamp: u32,
    len: usize,
) -> fmt::Result {
    write!(f, "trigger {channel} {stamp}, image length {len}")
}

/// Writes a step that starts or stops a DAQ list.
fn write_switch<W: fmt::Write>(
    f: &mut fmt::Formatter<W>,
    word: &str,
    channel: u8,
    list: u8,
) -> fmt::Result {
    write!(f, "{word} {channel} {list}")
}
