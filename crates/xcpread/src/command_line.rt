//! The command line of `xcpread`: its options, and what they ask for.
ghost use Rattle.std.specs.Prelude.{◌≡◌, ◌≢◌, ◌⊎◌, IfErr, Ok, false, map, string_bytes, true};
ghost use Rattle.program_input.specs.Versions.{asks_version};
ghost use Rattle.xcpread.specs.Faults.{want_of_memory};
ghost use Rattle.xcpread.specs.declared.command_line.CommandLine.TheVariants as line;
ghost use Rattle.xcpread.specs.declared.program_fault.ProgramFault.TheVariants as fault;

use crate::program_fault::ProgramFault;
use capture_tables::Clocks;
use clap::error::ErrorKind;
use clap::{Arg, ArgAction, ArgMatches, Command, Error};
use explain::Why;
use measured_values::{Tick, tick_of};
use program_input::asks_version;
use recording::{Mode, View};
use std::alloc::{AllocError, Global};
use std::net::IpAddr;

/// What the command line asks for.
#[derive(Drop)]
pub enum CommandLine<'a> {
    /// The help, which is the error's text.
    Help(Error),
    /// The version.
    Version,
    /// A recording.
    Recording(Options<'a>),
    /// A capture.
    Capture(CaptureOptions<'a>),
}

/// Which recording is read, and how it is shown.
#[derive(Clone, Copy)]
pub struct Options<'a> {
    /// How it is shown.
    pub view: View<'a>,
    /// The run file that the recording was made of.
    pub run: &'a str,
    /// The file of the recording.
    pub frames: &'a str,
    /// Whether standard error is told how far it is read.
    pub progress: bool,
    /// The A2L file that says which values are shown, if there is one.
    pub a2l: Option<&'a str>,
    /// The measurement file that they are written to, in place of being shown.
    pub mf4: Option<&'a str>,
}

/// Which capture is read, and how it is shown.
#[derive(Clone, Copy)]
pub struct CaptureOptions<'a> {
    /// The file; `-` is standard input.
    pub path: &'a str,
    /// How it is shown.
    pub mode: Mode,
    /// The A2L file that says which values are shown, and how packets look, if there is one.
    pub a2l: Option<&'a str>,
    /// The measurement file that values are written to, in place of being shown.
    pub mf4: Option<&'a str>,
    /// Whether elements are shown, and not values.
    pub long: bool,
    /// Whether the session is told in words, and no samples are shown.
    pub explain: bool,
    /// The measurements that are shown, with commas between them, if not all are.
    pub only: Option<&'a str>,
    /// The port of the slave.
    pub port: u16,
    /// The address of the slave, if it is said.
    pub slave: Option<IpAddr>,
    /// Which times rows have.
    pub clocks: Clocks,
}

/// The port of slaves where none is said (ASAM MCD-1 XCP, transport layer for Ethernet).
const PORT: u16 = 5555;

/// Reads the arguments, without the program's name.
pub fn read_command_line<'a>(
    alloc: Global,
    words: &'a [String],
    why: &mut Why,
) -> Result<CommandLine<'a>, ProgramFault>
    ensures faults { IfErr result (λ f. (f ≡ fault.CommandLine) ⊎ (f ≡ want_of_memory)) }
    ensures version { asks_version (map string_bytes words.now) ≡ true
        → result ≡ Ok line.Version }
    ensures other { asks_version (map string_bytes words.now) ≡ false
        → result ≢ Ok line.Version }
{
    if asks_version(words) {
        return Ok(CommandLine::Version);
    }
    match command(alloc)?.try_get_matches_from(words) {
        Ok(matches) => file_of(&matches, why),
        Err(error) => match error.kind() {
            ErrorKind::DisplayHelp => Ok(CommandLine::Help(error)),
            ErrorKind::OutOfMemory => Err(ProgramFault::MEMORY),
            _ => {
                why.tell_words(error);
                Err(ProgramFault::CommandLine)
            }
        },
    }
}

/// An option of the command line.
#[derive(Clone, Copy)]
struct Choice<'a> {
    name: &'a str,
    /// The name of its value, if it has one.
    value: Option<&'a str>,
    /// The options that it doesn't stand with.
    without: &'a [&'a str],
    help: &'a str,
}

/// The options: the ways to show samples, what is shown by name, and whether progress is told.
const CHOICES: &[Choice] = &[
    Choice {
        name: "summary",
        value: None,
        without: &[],
        help: "Print a table with a line for each DAQ list [default]",
    },
    Choice {
        name: "csv",
        value: None,
        without: &["summary"],
        help: "Print CSV with a row for each element of each sample, with its time and number",
    },
    Choice {
        name: "svg",
        value: None,
        without: &["summary", "csv"],
        help: "Print a picture with a row for each DAQ list, as SVG",
    },
    Choice {
        name: "explain",
        value: None,
        without: &["summary", "csv", "svg"],
        help: "Print replies and frames in words, then a table; of a capture the session in words",
    },
    Choice {
        name: "mf4",
        value: Some("FILE"),
        without: &["summary", "csv", "svg", "explain"],
        help: "With --a2l: write the measurements to a file, after ASAM MDF 4.1",
    },
    Choice {
        name: "a2l",
        value: Some("FILE"),
        without: &["explain"],
        help: "Show the measurements of this A2L file, by name and as physical values",
    },
    Choice {
        name: "only",
        value: Some("NAMES"),
        without: &[],
        help: "With --a2l: show these measurements alone; commas between their names",
    },
    Choice {
        name: "tick",
        value: Some("SECONDS"),
        without: &[],
        help: "With --a2l: how long a tick of a timestamp is, if the file doesn't say it",
    },
    Choice {
        name: "long",
        value: None,
        without: &[],
        help: "Only with --csv: print a row for each element, in spite of --a2l",
    },
    Choice {
        name: "port",
        value: Some("N"),
        without: &[],
        help: "Of a capture: the port of the slave [default: 5555]",
    },
    Choice {
        name: "slave",
        value: Some("ADDRESS"),
        without: &[],
        help: "Of a capture: the address of the slave, if there are several",
    },
    Choice {
        name: "clock",
        value: Some("CLOCK"),
        without: &["mf4"],
        help: "Of a capture, with --csv: capture adds a column with the times of the capture",
    },
    Choice {
        name: "progress",
        value: None,
        without: &[],
        help: "Say on standard error how far a long recording is read",
    },
    // for the help alone: `asks_version` finds it first
    Choice {
        name: "version",
        value: None,
        without: &[],
        help: "Print the version",
    },
];

/// The arguments that the program takes.
fn command<'a>(alloc: Global) -> Result<Command<'a>, AllocError> {
    let mut command = Command::new(alloc, "xcpread")
        .about("Reads a recording or a capture back, and prints its samples")
        .no_binary_name(true);
    for choice in CHOICES {
        let option = option_of(alloc, *choice)?;
        command = command.arg(option)?;
    }
    let run = "A capture (pcap, pcapng; - is standard input), or the run file of a recording";
    let command = with_file(alloc, command, "run", "FILE", run, true)?;
    let frames = "The recording, as xcpdaq --out wrote it";
    with_file(alloc, command, "frames", "FRAMES", frames, false)
}

/// An option of the command.
fn option_of<'a>(alloc: Global, choice: Choice<'a>) -> Result<Arg<'a>, AllocError> {
    let option = Arg::new(alloc, choice.name)
        .long(choice.name)
        .help(choice.help)
        .conflicts_with_all(choice.without)?;
    Ok(match choice.value {
        Some(value) => option.value_name(value).action(ArgAction::Set),
        None => option.action(ArgAction::SetTrue),
    })
}

/// A command that also takes a file, which may have to be named.
fn with_file<'a>(
    alloc: Global,
    command: Command<'a>,
    name: &'a str,
    value: &'a str,
    help: &'a str,
    is_wanted: bool,
) -> Result<Command<'a>, AllocError> {
    let file = Arg::new(alloc, name)
        .value_name(value)
        .required(is_wanted)
        .action(ArgAction::Set)
        .help(help);
    command.arg(file)
}

/// What matched: a recording, or, if one file alone is named, a capture.
fn file_of<'a>(matches: &ArgMatches<'a>, why: &mut Why) -> Result<CommandLine<'a>, ProgramFault>
    ensures fault { IfErr result (λ f. f ≡ fault.CommandLine) }
    ensures other { result ≢ Ok line.Version }
{
    let Some(file) = matches.get_str("run") else {
        return Err(ProgramFault::CommandLine);
    };
    match matches.get_str("frames") {
        Some(frames) => recording_of(matches, file, frames, why),
        None => capture_of(matches, file, why),
    }
}

/// The capture that is meant.
fn capture_of<'a>(
    matches: &ArgMatches<'a>,
    path: &'a str,
    why: &mut Why,
) -> Result<CommandLine<'a>, ProgramFault>
    ensures fault { IfErr result (λ f. f ≡ fault.CommandLine) }
    ensures other { result ≢ Ok line.Version }
{
    if matches.get_str("tick").is_some() {
        why.tell_words("--tick wants FRAMES\n");
        return Err(ProgramFault::CommandLine);
    }
    let a2l = a2l_of(matches, why)?;
    let mode = mode_of(matches);
    if a2l.is_none() && is_picture(mode) {
        why.tell_words("--svg of a capture wants --a2l\n");
        return Err(ProgramFault::CommandLine);
    }
    Ok(CommandLine::Capture(CaptureOptions {
        path,
        mode,
        a2l: matches.get_str("a2l"),
        mf4: matches.get_str("mf4"),
        long: matches.get_flag("long"),
        explain: matches.get_flag("explain"),
        only: matches.get_str("only"),
        port: port_in(matches, why)?,
        slave: slave_in(matches, why)?,
        clocks: clocks_in(matches, mode, why)?,
    }))
}

/// Whether a picture is asked for.
fn is_picture(mode: Mode) -> bool {
    match mode {
        Mode::Svg => true,
        _ => false,
    }
}

/// The port of the slave.
fn port_in(matches: &ArgMatches<'_>, why: &mut Why) -> Result<u16, ProgramFault>
    ensures { IfErr result (λ f. f ≡ fault.CommandLine) }
{
    let Some(text) = matches.get_str("port") else {
        return Ok(PORT);
    };
    match text.parse::<u16>() {
        Ok(port) => Ok(port),
        Err(_) => {
            why.tell_words("--port wants a number from 0 to 65535\n");
            Err(ProgramFault::CommandLine)
        }
    }
}

/// The address of the slave, if it is said.
fn slave_in(matches: &ArgMatches<'_>, why: &mut Why) -> Result<Option<IpAddr>, ProgramFault>
    ensures { IfErr result (λ f. f ≡ fault.CommandLine) }
{
    let Some(text) = matches.get_str("slave") else {
        return Ok(None);
    };
    match IpAddr::parse_ascii(text.as_bytes()) {
        Ok(address) => Ok(Some(address)),
        Err(_) => {
            why.tell_words("--slave wants an address, such as 192.168.0.1 or fe80::1\n");
            Err(ProgramFault::CommandLine)
        }
    }
}

/// Which times rows have.
fn clocks_in(matches: &ArgMatches<'_>, mode: Mode, why: &mut Why) -> Result<Clocks, ProgramFault>
    ensures { IfErr result (λ f. f ≡ fault.CommandLine) }
{
    let Some(clock) = matches.get_str("clock") else {
        return Ok(Clocks::Slave);
    };
    if clock != "capture" {
        why.tell_words("--clock wants capture\n");
        return Err(ProgramFault::CommandLine);
    }
    match mode {
        Mode::Csv => Ok(Clocks::SlaveAndCapture),
        _ => {
            why.tell_words("--clock wants --csv\n");
            Err(ProgramFault::CommandLine)
        }
    }
}

/// The recording that is meant.
fn recording_of<'a>(
    matches: &ArgMatches<'a>,
    run: &'a str,
    frames: &'a str,
    why: &mut Why,
) -> Result<CommandLine<'a>, ProgramFault>
    ensures fault { IfErr result (λ f. f ≡ fault.CommandLine) }
    ensures other { result ≢ Ok line.Version }
{
    if is_of_capture(matches) {
        why.tell_words("--port, --slave and --clock want a capture\n");
        return Err(ProgramFault::CommandLine);
    }
    let a2l = a2l_of(matches, why)?;
    let view = View {
        mode: mode_of(matches),
        explain: matches.get_flag("explain"),
        only: matches.get_str("only"),
        tick: tick_in(matches, why)?,
    };
    Ok(CommandLine::Recording(Options {
        view,
        run,
        frames,
        progress: matches.get_flag("progress"),
        a2l,
        mf4: matches.get_str("mf4"),
    }))
}

/// The A2L file by which values are shown; none if rows of elements are asked for.
fn a2l_of<'a>(matches: &ArgMatches<'a>, why: &mut Why) -> Result<Option<&'a str>, ProgramFault>
    ensures { IfErr result (λ f. f ≡ fault.CommandLine) }
{
    let a2l = matches.get_str("a2l");
    if a2l.is_none() && is_of_values(matches) {
        why.tell_words("--only, --tick and --mf4 want --a2l\n");
        return Err(ProgramFault::CommandLine);
    }
    if !matches.get_flag("long") {
        return Ok(a2l);
    }
    if !matches.get_flag("csv") {
        why.tell_words("--long wants --csv\n");
        return Err(ProgramFault::CommandLine);
    }
    Ok(None)
}

/// Whether an option stands there that speaks of captures.
fn is_of_capture(matches: &ArgMatches<'_>) -> bool {
    let mut names = ["port", "slave", "clock"].iter();
    names.any(|name| matches.get_str(name).is_some())
}

/// Whether an option stands there that speaks of values.
fn is_of_values(matches: &ArgMatches<'_>) -> bool {
    let mut names = ["only", "tick", "mf4"].iter();
    names.any(|name| matches.get_str(name).is_some())
}

/// How long a tick is, if that is said.
fn tick_in(matches: &ArgMatches<'_>, why: &mut Why) -> Result<Option<Tick>, ProgramFault>
    ensures { IfErr result (λ f. f ≡ fault.CommandLine) }
{
    let Some(text) = matches.get_str("tick") else {
        return Ok(None);
    };
    match tick_of(text) {
        Some(tick) => Ok(Some(tick)),
        None => {
            why.tell_words("--tick wants a number of seconds, such as 0.001 or 1e-6\n");
            Err(ProgramFault::CommandLine)
        }
    }
}

/// How the samples are shown; a table where no mode is asked for. What goes to a measurement file
/// is what CSV has.
fn mode_of(matches: &ArgMatches<'_>) -> Mode {
    if matches.get_flag("csv") || matches.get_str("mf4").is_some() {
        return Mode::Csv;
    }
    if matches.get_flag("svg") {
        return Mode::Svg;
    }
    Mode::Summary
}
