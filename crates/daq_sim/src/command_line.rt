//! The command line of `xcpdaq`: its options, and what they ask for.
ghost use Rattle.std.specs.Prelude.{◌≡◌, ◌≢◌, ◌⊎◌, IfErr, Ok, false, map, string_bytes, true};
ghost use Rattle.program_input.specs.Versions.{asks_version};
ghost use Rattle.daq_sim.specs.Faults.{want_of_memory};
ghost use Rattle.daq_sim.specs.declared.command_line.CommandLine.TheVariants as line;
ghost use Rattle.daq_sim.specs.declared.program_fault.ProgramFault.TheVariants as fault;

use crate::program_fault::ProgramFault;
use clap::error::ErrorKind;
use clap::{Arg, ArgAction, ArgMatches, Command, Error};
use explain::Why;
use program_input::asks_version;
use std::alloc::{AllocError, Global};

/// What the command line asks for.
#[derive(Drop)]
pub enum CommandLine<'a> {
    /// The help, which is the error's text.
    Help(Error),
    /// The version.
    Version,
    /// A run.
    Run(Options<'a>),
}

/// Where a run is read from, and where its frames go.
#[derive(Clone, Copy)]
pub struct Options<'a> {
    /// The file of the run; standard input if there is none.
    pub run: Option<&'a str>,
    /// The file for the frames; they are kept and printed if there is none.
    pub out: Option<&'a str>,
    /// Whether each event channel has a thread of its own.
    pub threads: bool,
    /// Whether the story of the run is printed in the place of its frames.
    pub explain: bool,
}

/// Reads the arguments, without the program's name.
pub fn read_command_line<'a>(
    alloc: Global,
    words: &'a [String],
    why: &mut Why,
) -> Result<CommandLine<'a>, ProgramFault>
    ensures faults { IfErr result (λ f. (f ≡ fault.CommandLine) ⊎ (f ≡ want_of_memory)) }
    ensures version { asks_version (map string_bytes words.now) ≡ true
        → result ≡ Ok line.Version }
    ensures other { asks_version (map string_bytes words.now) ≡ false
        → result ≢ Ok line.Version }
{
    if asks_version(words) {
        return Ok(CommandLine::Version);
    }
    match command(alloc)?.try_get_matches_from(words) {
        Ok(matches) => Ok(CommandLine::Run(options_of(&matches))),
        Err(error) => match error.kind() {
            ErrorKind::DisplayHelp => Ok(CommandLine::Help(error)),
            ErrorKind::OutOfMemory => Err(ProgramFault::MEMORY),
            _ => {
                why.tell_words(error);
                Err(ProgramFault::CommandLine)
            }
        },
    }
}

/// The arguments that the program takes.
fn command<'a>(alloc: Global) -> Result<Command<'a>, AllocError> {
    let command = Command::new(alloc, "xcpdaq")
        .about("Carries out a run file, and prints its frames and its account")
        .no_binary_name(true);
    let command = with_threads(alloc, with_out(alloc, command)?)?;
    let command = with_version(alloc, with_explain(alloc, command)?)?;
    with_run(alloc, command)
}

/// A command that also takes the file for the frames.
fn with_out<'a>(alloc: Global, command: Command<'a>) -> Result<Command<'a>, AllocError> {
    let out = Arg::new(alloc, "out")
        .long("out")
        .value_name("FILE")
        .action(ArgAction::Set)
        .help("Write the frames to FILE, for one run at a time, and print the account alone");
    command.arg(out)
}

/// A command that also takes whether each event channel has a thread of its own.
fn with_threads<'a>(alloc: Global, command: Command<'a>) -> Result<Command<'a>, AllocError> {
    let threads = Arg::new(alloc, "threads")
        .long("threads")
        .action(ArgAction::SetTrue)
        .help("Sample each event channel in a thread of its own: a stress test, with drops");
    command.arg(threads)
}

/// A command that also takes whether the story of the run is printed.
fn with_explain<'a>(alloc: Global, command: Command<'a>) -> Result<Command<'a>, AllocError> {
    let explain = Arg::new(alloc, "explain")
        .long("explain")
        .action(ArgAction::SetTrue)
        .help("Print each reply, step and frame in words, and the reason behind a fault");
    command.arg(explain)
}

/// A command whose help also tells of the version, which `asks_version` finds first.
fn with_version<'a>(alloc: Global, command: Command<'a>) -> Result<Command<'a>, AllocError> {
    let version = Arg::new(alloc, "version")
        .long("version")
        .action(ArgAction::SetTrue)
        .help("Print the version");
    command.arg(version)
}

/// A command that also takes the file of the run.
fn with_run<'a>(alloc: Global, command: Command<'a>) -> Result<Command<'a>, AllocError> {
    let run = Arg::new(alloc, "run")
        .value_name("RUN")
        .action(ArgAction::Set)
        .help("The run file [default: standard input]");
    command.arg(run)
}

/// The options that were read.
fn options_of<'a>(matches: &ArgMatches<'a>) -> Options<'a> {
    Options {
        run: matches.get_str("run"),
        out: matches.get_str("out"),
        threads: matches.get_flag("threads"),
        explain: matches.get_flag("explain"),
    }
}
