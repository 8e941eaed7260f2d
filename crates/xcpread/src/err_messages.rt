//! What `xcpread` prints to standard error: its progress, and a fault with its reason.
ghost use Rattle.std.specs.Prelude.{◌≡◌};
ghost use Rattle.xcpread.specs.Progress.{is_next_step};

use crate::program_fault::ProgramFault;
use explain::Why;
use recording::Messages;
use std::alloc::Global;
use std::fmt::Display;
use std::io::Write;
use std::net::IpAddr;

/// So many bytes of a recording are read between two notes of its progress.
const STEP: u64 = 10_000_000;

/// What standard error is told: how far a recording is read, if that is wanted, and a fault with
/// its reason.
#[derive(Drop)]
pub struct ErrMessages<E: Write + Drop> {
    err: E,
    tells_progress: bool,
    told: u64,
    /// The reason of the fault that is still to be told.
    pub why: Why,
    /// What stands behind a fault in its line.
    detail: String,
}

impl<E: Write + Drop> ErrMessages<E> {
    /// Nothing is told yet, and progress isn't wanted.
    pub fn new(alloc: Global, err: E, why: Why) -> ErrMessages<E> {
        ErrMessages {
            err,
            tells_progress: false,
            told: 0,
            why,
            detail: String::new(alloc),
        }
    }

    /// The line of the fault that is still to be told goes on with this, behind a colon. If memory
    /// for it is refused, it doesn't.
    pub fn detail<D: Display + Drop>(&mut self, detail: D) {
        let _ = write!(self.detail, ": {detail}");
    }

    /// Tells so many of something, in a line of its own, if there are any.
    pub fn tell_count(&mut self, count: u64, what: &str) {
        if count > 0 {
            let _ = writeln!(self.err, "xcpread: capture: {count} {what}");
        }
    }

    /// Tells how many of all measurements are written without their conversion, in a line of its
    /// own, if there are any.
    pub fn tell_raw(&mut self, raw: usize, all: usize) {
        if raw > 0 {
            let _ = writeln!(
                self.err,
                "xcpread: raw in the mf4: {raw} of {all} measurements"
            );
        }
    }

    /// Tells of a slave, in a line of its own.
    pub fn tell_slave(&mut self, address: IpAddr) {
        let _ = writeln!(self.err, "xcpread: slave {address}");
    }

    /// From now on progress is told.
    pub fn want_progress(&mut self) {
        self.tells_progress = true;
    }

    /// Tells a fault, in a line of its own, and its reason behind it.
    pub fn tell_fault(&mut self, fault: ProgramFault) {
        let _ = writeln!(self.err, "{fault}{}", self.detail);
        let _ = self.err.write_all(self.why.text().as_bytes());
    }
}

impl<E: Write + Drop> Messages for ErrMessages<E> {
    /// Tells that the recording is read up to a byte, where that is wanted and another 10 MB are
    /// read; each note stands in the place of the one before.
    fn read_to(&mut self, byte: u64) {
        if !self.tells_progress || !is_next_step(self.told, byte) {
            return;
        }
        self.told = byte;
        let _ = write!(self.err, "\rxcpread: {} MB read", byte / 1_000_000);
        let _ = self.err.flush();
    }

    /// Ends the line of the notes, if there were any.
    fn end_progress(&mut self) {
        if self.told > 0 {
            let _ = writeln!(self.err);
        }
    }

    /// In a line of its own.
    fn tell_not_shown(&mut self, hidden: usize, all: usize) {
        let _ = writeln!(
            self.err,
            "xcpread: not shown of the a2l: {hidden} of {all} measurements and instances"
        );
    }

    /// In a line of its own.
    fn tell_hidden(&mut self, name: &str) {
        let _ = writeln!(self.err, "xcpread: not shown: {name}");
    }

    /// The line of the fault goes on with the name.
    fn tell_unknown(&mut self, name: &str) {
        self.detail(name);
    }

    /// The reason of the fault is still to be told.
    fn tell_reason(&mut self, text: &str) {
        self.why.tell(text);
    }
}

/// Whether another step ends between two places.
fn is_next_step(told: u64, byte: u64) -> bool
    ensures { result ≡ is_next_step told byte }
{
    told / STEP < byte / STEP
}
