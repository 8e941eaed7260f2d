//! A session in words, line by line.

use crate::command_words::CommandWords;
use crate::event_words::EventWords;
use crate::exchange::{Exchange, ended_by};
use crate::frame_kind::{FrameKind, kind_of};
use crate::reply_words::ReplyWords;
use crate::seconds::Seconds;
use capture_recording::CaptureSink;
use captured_samples::{ListSamples, Mark, SampleSink};
use captured_session::{CapturedList, CapturedSession, Form, Side};
use std::alloc::{AllocError, Global};
use std::io::{self, ErrorKind, Write};

/// Writes a line for each command with its reply, and for each event and service request; packets
/// of DAQ lists are counted. The lines of a command stand where it was sent.
///
/// After the first line that can't be written there is no more.
#[derive(Drop)]
pub struct Story<W: Write + Drop> {
    out: W,
    session: CapturedSession,
    /// When the first packet came, when the command that waits, and when the newest one.
    first: Option<i64>,
    asked: Option<i64>,
    now: Option<i64>,
    /// How many packets of DAQ lists, and of STIM, came since the last line.
    samples: u64,
    stimulations: u64,
    /// Lines that are still to be written.
    lines: String,
    /// The lines behind that of the command that waits.
    behind: String,
    failed: Option<ErrorKind>,
}

impl<W: Write + Drop> Story<W> {
    /// No line yet. Packets look like this until the slave says otherwise.
    pub fn new(alloc: Global, form: Form, out: W) -> Story<W> {
        Story {
            out,
            session: CapturedSession::new(alloc, form),
            first: None,
            asked: None,
            now: None,
            samples: 0,
            stimulations: 0,
            lines: String::new(alloc),
            behind: String::new(alloc),
            failed: None,
        }
    }

    /// Writes out what is left, and gives the writer back; refused if that, or a line, couldn't be
    /// written.
    pub fn finish(self) -> io::Result<W> {
        let mut story = self;
        if story.failed.is_none() {
            story.failed = story.tell_rest().err();
        }
        let Story { out, failed, .. } = story;
        match failed {
            Some(kind) => Err(io::Error::from(kind)),
            None => Ok(out),
        }
    }

    /// Tells the command that waits, and what came behind it.
    fn tell_rest(&mut self) -> Result<(), ErrorKind> {
        if self.tell_end().is_err() {
            return Err(ErrorKind::OutOfMemory);
        }
        self.put()?;
        self.out.flush().map_err(|error| error.kind())
    }

    /// The same, as lines.
    fn tell_end(&mut self) -> Result<(), AllocError> {
        if let Some(command) = self.session.waiting() {
            let exchange = Exchange {
                command,
                reply: None,
            };
            let form = self.session.set_up().form();
            let at = Seconds::between(self.first, self.asked);
            write_exchange(&mut self.lines, form, exchange, at, Seconds::UNKNOWN)?;
        }
        self.take_behind()?;
        self.tell_counts()
    }

    /// Tells what a packet brings, and hears it.
    fn tell(&mut self, side: Side, packet: &[u8]) -> Result<(), ErrorKind> {
        if self.tell_packet(side, packet).is_err() || self.session.hear(side, packet).is_err() {
            return Err(ErrorKind::OutOfMemory);
        }
        self.put()
    }

    /// Tells what a packet brings.
    fn tell_packet(&mut self, side: Side, packet: &[u8]) -> Result<(), AllocError> {
        match kind_of(side, packet) {
            FrameKind::Command => {
                self.tell_exchange(side, packet)?;
                self.asked = self.now;
                self.tell_counts()
            }
            FrameKind::Reply if self.session.waiting().is_some() => {
                self.tell_exchange(side, packet)
            }
            FrameKind::Reply | FrameKind::Event | FrameKind::Service => self.tell_alone(packet),
            FrameKind::Samples => {
                self.samples = self.samples.saturating_add(1);
                Ok(())
            }
            FrameKind::Stim => {
                self.stimulations = self.stimulations.saturating_add(1);
                Ok(())
            }
        }
    }

    /// Tells the exchange that ends with a packet, if one does.
    fn tell_exchange(&mut self, side: Side, packet: &[u8]) -> Result<(), AllocError> {
        if let Some(exchange) = ended_by(&self.session, side, packet) {
            let form = self.session.set_up().form();
            let at = Seconds::between(self.first, self.asked);
            let took = Seconds::between(self.asked, self.now);
            write_exchange(&mut self.lines, form, exchange, at, took)?;
        }
        self.take_behind()
    }

    /// The lines behind that of a command are the next ones.
    fn take_behind(&mut self) -> Result<(), AllocError> {
        self.lines.push_str(&self.behind)?;
        self.behind.clear();
        Ok(())
    }

    /// Tells a packet of the slave that answers no command, behind the command that waits.
    fn tell_alone(&mut self, packet: &[u8]) -> Result<(), AllocError> {
        let at = Seconds::between(self.first, self.now);
        let (samples, stimulations) = self.take_counts();
        if self.session.waiting().is_some() {
            write_counts(&mut self.behind, samples, stimulations)?;
            return write_unasked(&mut self.behind, packet, at);
        }
        write_counts(&mut self.lines, samples, stimulations)?;
        write_alone(&mut self.lines, &self.session, packet, at)
    }

    /// Tells how many packets of samples and of STIM came since the last line.
    fn tell_counts(&mut self) -> Result<(), AllocError> {
        let (samples, stimulations) = self.take_counts();
        write_counts(&mut self.lines, samples, stimulations)
    }

    /// How many packets of samples and of STIM came since the last line; they are counted anew.
    fn take_counts(&mut self) -> (u64, u64) {
        let counts = (self.samples, self.stimulations);
        self.samples = 0;
        self.stimulations = 0;
        counts
    }

    /// Writes the lines out.
    fn put(&mut self) -> Result<(), ErrorKind> {
        if self.lines.is_empty() {
            return Ok(());
        }
        let writing = self.out.write_all(self.lines.as_bytes());
        self.lines.clear();
        writing.map_err(|error| error.kind())
    }
}

/// Writes the line of a command and its reply, which came so long after it.
fn write_exchange(
    text: &mut String,
    form: Form,
    exchange: Exchange<'_>,
    at: Seconds,
    took: Seconds,
) -> Result<(), AllocError> {
    let Exchange { command, reply } = exchange;
    let words = CommandWords {
        form,
        packet: command,
    };
    write!(text, "{at} master {words}: ")?;
    let Some(packet) = reply else {
        return text.push_str("no reply\n");
    };
    let words = ReplyWords {
        form,
        command,
        packet,
    };
    writeln!(text, "{words}, after {took}")
}

/// Writes the line of a packet of the slave for which no command waits.
fn write_alone(
    text: &mut String,
    session: &CapturedSession,
    packet: &[u8],
    at: Seconds,
) -> Result<(), AllocError> {
    if kind_of(Side::Slave, packet) != FrameKind::Reply {
        return write_unasked(text, packet, at);
    }
    let words = ReplyWords {
        form: session.set_up().form(),
        command: &[],
        packet,
    };
    if session.to_come() > 0 {
        return writeln!(text, "{at} slave {words}: more of an UPLOAD");
    }
    writeln!(text, "{at} slave {words}: no command waits")
}

/// Writes the line of an event or a service request.
fn write_unasked(text: &mut String, packet: &[u8], at: Seconds) -> Result<(), AllocError> {
    let words = EventWords { packet };
    writeln!(text, "{at} slave {words}")
}

/// Writes how many packets of samples and of STIM came, if any did.
fn write_counts(text: &mut String, samples: u64, stimulations: u64) -> Result<(), AllocError> {
    if samples > 0 {
        writeln!(text, "{samples} DAQ packets")?;
    }
    if stimulations > 0 {
        writeln!(text, "{stimulations} STIM packets")?;
    }
    Ok(())
}

impl<W: Write + Drop> SampleSink for Story<W> {
    fn begin(&mut self, _number: usize, _list: &CapturedList) -> Result<(), AllocError> {
        Ok(())
    }

    fn hand(&mut self, _number: usize, _sample: &ListSamples, _mark: Mark) {}
}

impl<W: Write + Drop> CaptureSink for Story<W> {
    fn set_time(&mut self, nanoseconds: Option<i64>) {
        self.now = nanoseconds;
    }

    fn frame(&mut self, is_of_master: bool, _counter: u16, packet: &[u8]) {
        if self.first.is_none() {
            self.first = self.now;
        }
        let side = if is_of_master {
            Side::Master
        } else {
            Side::Slave
        };
        if self.failed.is_none() {
            self.failed = self.tell(side, packet).err();
        }
    }
}
