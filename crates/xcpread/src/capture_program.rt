//! Captures: from their file to what is shown.
ghost use Rattle.std.specs.Prelude.{◌≡◌, ◌≤◌, ◌↔◌, ⊤, IfOk, IsTrue, MatchOption};

use crate::capture_bytes::CaptureBytes;
use crate::capture_output::{CaptureOutput, write_columns};
use crate::capture_views::{show_columns, show_lists, show_story};
use crate::command_line::CaptureOptions;
use crate::err_messages::ErrMessages;
use crate::held_capture::held_from;
use crate::one_sink::OneSink;
use crate::program_fault::ProgramFault;
use crate::told_form::form_by;
use crate::whole_program::description_of;
use a2l::Description;
use capture_recording::{
    CaptureReadFault, CaptureSink, Sinks, Slave, Slaves, is_same_address, read_capture,
};
use capture_tables::ElementSurvey;
use captured_samples::Tallies;
use captured_session::Form;
use recording::{Values, chosen_columns, tell_not_shown};
use std::alloc::Global;
use std::fs;
use std::io::{Read, Write};
use std::net::IpAddr;
use std::rt::Files;
use value_tables::{Column, with_elements};

/// A capture that is read, and how.
#[derive(Clone, Copy)]
pub struct CaptureSource<'a> {
    /// Its bytes.
    pub bytes: CaptureBytes<'a>,
    /// The port of the slave.
    pub port: u16,
    /// The slave's address.
    pub slave: IpAddr,
    /// How its packets look until it says so itself.
    pub form: Form,
}

/// A slave of a capture, and how it is shown.
#[derive(Clone, Copy)]
struct Shown<'a> {
    source: CaptureSource<'a>,
    options: CaptureOptions<'a>,
    /// What its lists have.
    survey: &'a ElementSurvey,
}

/// A survey of each slave, or of the one that is chosen.
#[derive(Drop)]
struct Surveys {
    alloc: Global,
    chosen: Option<IpAddr>,
}

impl Sinks for Surveys {
    ghost use Rattle.std.specs.Prelude.{◌≡◌, ⊤, MatchOption};

    type Sink = ElementSurvey;

    ghost reads = { λ all address. MatchOption all.chosen ⊤ (λ chosen. address ≡ chosen) };

    fn sink_of(&mut self, address: IpAddr) -> Option<ElementSurvey> {
        if !is_chosen(self.chosen, address) {
            return None;
        }
        Some(ElementSurvey::new(self.alloc))
    }
}

/// Whether the slave at an address is meant.
fn is_chosen(chosen: Option<IpAddr>, address: IpAddr) -> bool
    ensures { IsTrue result ↔ MatchOption chosen ⊤ (λ a. address ≡ a) }
{
    match chosen {
        Some(chosen) => is_same_address(address, chosen),
        None => true,
    }
}

/// The name of standard input.
const INPUT: &str = "-";

/// Reads the capture that the arguments name, and prints the samples of its slave. It reads the
/// capture twice: first what there is, then the samples.
pub fn show_capture<R: Files, I: Read + Drop, W: Write + Drop, E: Write + Drop>(
    rt: &R,
    alloc: Global,
    options: CaptureOptions<'_>,
    input: I,
    out: W,
    messages: &mut ErrMessages<E>,
) -> Result<u8, ProgramFault>
    ensures { IfOk result (λ status. status ≤ 1) }
{
    let description = description_of(rt, alloc, options.a2l, messages)?;
    let held = held_if_named(alloc, options.path, input)?;
    let bytes = match &held {
        Some(held) => CaptureBytes::Held(held),
        None => CaptureBytes::File(options.path),
    };
    show_bytes(rt, alloc, options, bytes, description, out, messages)?;
    Ok(0)
}

/// The same, of the capture's bytes, with a description of its values if there is one.
fn show_bytes<R: Files, W: Write + Drop, E: Write + Drop>(
    rt: &R,
    alloc: Global,
    options: CaptureOptions<'_>,
    bytes: CaptureBytes<'_>,
    description: Option<Description>,
    out: W,
    messages: &mut ErrMessages<E>,
) -> Result<(), ProgramFault> {
    let form = form_of(description.as_ref());
    let slave = survey(rt, alloc, options, form, bytes, messages)?;
    let source = CaptureSource {
        bytes,
        port: options.port,
        slave: slave.address,
        form,
    };
    let shown = Shown {
        source,
        options,
        survey: &slave.sink,
    };
    show_slave(rt, alloc, shown, description, out, messages)
}

/// Shows the session, the values or the elements of a slave.
fn show_slave<R: Files, W: Write + Drop, E: Write + Drop>(
    rt: &R,
    alloc: Global,
    shown: Shown<'_>,
    description: Option<Description>,
    out: W,
    messages: &mut ErrMessages<E>,
) -> Result<(), ProgramFault> {
    let options = shown.options;
    if options.explain {
        return show_story(rt, alloc, shown.source, out, messages);
    }
    let values = if options.long { None } else { description };
    match values {
        Some(description) => show_values(rt, alloc, shown, description, out, messages),
        None => show_lists(rt, alloc, shown.source, options, out, messages),
    }
}

/// Shows the values of a slave.
fn show_values<R: Files, W: Write + Drop, E: Write + Drop>(
    rt: &R,
    alloc: Global,
    shown: Shown<'_>,
    description: Description,
    out: W,
    messages: &mut ErrMessages<E>,
) -> Result<(), ProgramFault> {
    let description = with_elements(alloc, description, shown.survey)?;
    let columns = columns_of(alloc, &description, shown.survey, shown.options, messages)?;
    show_chosen(rt, alloc, shown, columns, out, messages)
}

/// Shows columns, or writes them to a measurement file.
fn show_chosen<R: Files, W: Write + Drop, E: Write + Drop>(
    rt: &R,
    alloc: Global,
    shown: Shown<'_>,
    columns: Vec<Column<'_>>,
    out: W,
    messages: &mut ErrMessages<E>,
) -> Result<(), ProgramFault> {
    let (source, options) = (shown.source, shown.options);
    match options.mf4 {
        Some(path) => {
            let start = shown.survey.first();
            let output = CaptureOutput { path, start };
            write_columns(rt, alloc, source, options, output, columns, messages)
        }
        None => show_columns(rt, alloc, source, options, columns, out, messages),
    }
}

/// How packets look until their slave says so itself.
fn form_of(description: Option<&Description>) -> Form {
    match description {
        Some(description) => form_by(description.form),
        None => Form::UNTOLD,
    }
}

/// What standard input has, if it is named in place of a file.
fn held_if_named<I: Read + Drop>(
    alloc: Global,
    path: &str,
    input: I,
) -> Result<Option<Vec<u8>>, ProgramFault> {
    if path != INPUT {
        return Ok(None);
    }
    let mut input = input;
    Ok(Some(held_from(alloc, &mut input)?))
}

/// The columns that are shown; what isn't is told.
fn columns_of<'a, E: Write + Drop>(
    alloc: Global,
    description: &'a Description,
    survey: &ElementSurvey,
    options: CaptureOptions<'a>,
    messages: &mut ErrMessages<E>,
) -> Result<Vec<Column<'a>>, ProgramFault> {
    let values = Values {
        description,
        only: options.only,
        tick: None,
        mode: options.mode,
    };
    let columns = chosen_columns(alloc, values, survey, messages)?;
    tell_not_shown(values, survey, messages);
    Ok(columns)
}

/// The slave that is meant, with what its lists have.
fn survey<R: Files, E: Write + Drop>(
    rt: &R,
    alloc: Global,
    options: CaptureOptions<'_>,
    form: Form,
    bytes: CaptureBytes<'_>,
    messages: &mut ErrMessages<E>,
) -> Result<Slave<ElementSurvey>, ProgramFault> {
    let surveys = Surveys {
        alloc,
        chosen: options.slave,
    };
    let mut slaves = Slaves::new(alloc, options.port, form, surveys);
    // what breaks the capture off is told when its samples are read
    let _ = read_bytes(rt, alloc, bytes, &mut slaves, messages)?;
    let mut met = slaves.into_met();
    if met.len() > 1 {
        for slave in &met {
            messages.tell_slave(slave.address);
        }
        return Err(ProgramFault::SeveralSlaves);
    }
    match met.pop() {
        Some(slave) => Ok(slave),
        None => Err(ProgramFault::NoSlave),
    }
}

/// Hands the samples of a capture's slave over, and tells what isn't shown. The sink is given back,
/// with the fault that broke the capture off, if one did.
pub fn read_samples<R: Files, S: CaptureSink + Drop, E: Write + Drop>(
    rt: &R,
    alloc: Global,
    source: CaptureSource<'_>,
    sink: S,
    messages: &mut ErrMessages<E>,
) -> Result<(S, Option<CaptureReadFault>), ProgramFault> {
    let one = OneSink::new(source.slave, sink);
    let mut slaves = Slaves::new(alloc, source.port, source.form, one);
    let broken = read_bytes(rt, alloc, source.bytes, &mut slaves, messages)?;
    tell_captured(&slaves, messages);
    let Some(slave) = slaves.into_met().pop() else {
        return Err(ProgramFault::NoSlave);
    };
    tell_tallies(slave.samples.tallies(), messages);
    Ok((slave.sink.sink, broken))
}

/// Reads a capture. A fault in it is given back, since what stands before it was read.
fn read_bytes<R: Files, K: Sinks + Drop, E: Write + Drop>(
    rt: &R,
    alloc: Global,
    bytes: CaptureBytes<'_>,
    slaves: &mut Slaves<K>,
    messages: &mut ErrMessages<E>,
) -> Result<Option<CaptureReadFault>, ProgramFault> {
    let path = match bytes {
        CaptureBytes::Held(held) => {
            let mut rest = held;
            return read_to_end(alloc, &mut rest, slaves);
        }
        CaptureBytes::File(path) => path,
    };
    match fs::open(rt, path) {
        Ok(mut file) => read_to_end(alloc, &mut file, slaves),
        Err(error) => {
            messages.why.tell_file(path, error);
            Err(ProgramFault::Capture(CaptureReadFault::Unreadable))
        }
    }
}

/// The same, of bytes that are there.
fn read_to_end<I: Read, K: Sinks + Drop>(
    alloc: Global,
    input: &mut I,
    slaves: &mut Slaves<K>,
) -> Result<Option<CaptureReadFault>, ProgramFault> {
    match read_capture(alloc, input, slaves) {
        Ok(()) => Ok(None),
        Err(CaptureReadFault::Memory) => Err(ProgramFault::MEMORY),
        Err(fault) if slaves.met().is_empty() => Err(ProgramFault::Capture(fault)),
        Err(fault) => Ok(Some(fault)),
    }
}

/// Tells of packets that weren't captured whole, and of datagrams that weren't put together.
fn tell_captured<K: Sinks + Drop, E: Write + Drop>(
    slaves: &Slaves<K>,
    messages: &mut ErrMessages<E>,
) {
    messages.tell_count(slaves.cut(), "packets that weren't captured whole");
    messages.tell_count(
        slaves.let_go(),
        "datagrams in parts, of which too many waited for others",
    );
}

/// Tells what became of the frames that aren't shown.
fn tell_tallies<E: Write + Drop>(tallies: Tallies, messages: &mut ErrMessages<E>) {
    if tallies.counts_otherwise() {
        messages.tell_count(
            tallies.frames,
            "frames of a slave that doesn't count them one by one (CTR)",
        );
    }
    messages.tell_count(tallies.gaps, "gaps, behind which samples are marked");
    messages.tell_count(tallies.behind, "frames that are late, or copies");
    messages.tell_count(tallies.left_out, "packets of samples that aren't whole");
    messages.tell_count(
        tallies.unknown,
        "packets of lists of which not all is known",
    );
}
