//! The command line of `xcpslave`: its options, and what they ask for.
ghost use Rattle.std.specs.Prelude.{◌≡◌, ◌≢◌, Ok, false, map, string_bytes, true};
ghost use Rattle.program_input.specs.Versions.{asks_version};
ghost use Rattle.xcpslave.specs.declared.command_line.CommandLine.TheVariants as line;

use crate::session_fault::SessionFault;
use clap::error::ErrorKind;
use clap::{Arg, ArgAction, Command, Error};
use explain::Why;
use program_input::asks_version;
use std::alloc::{AllocError, Global};

/// What the command line asks for.
#[derive(Drop)]
pub enum CommandLine<'a> {
    /// The help, which is the error's text.
    Help(Error),
    /// The version.
    Version,
    /// A session.
    Session(Options<'a>),
}

/// Where a session is read from, and how it is told.
#[derive(Clone, Copy)]
pub struct Options<'a> {
    /// The file of the session; standard input if there is none.
    pub session: Option<&'a str>,
    /// Whether its lines and what is sent are printed in words.
    pub explain: bool,
}

/// Reads the arguments, without the program's name.
pub fn read_command_line<'a>(
    alloc: Global,
    words: &'a [String],
    why: &mut Why,
) -> Result<CommandLine<'a>, SessionFault>
    ensures version { asks_version (map string_bytes words.now) ≡ true
        → result ≡ Ok line.Version }
    ensures other { asks_version (map string_bytes words.now) ≡ false
        → result ≢ Ok line.Version }
{
    if asks_version(words) {
        return Ok(CommandLine::Version);
    }
    let Ok(command) = command(alloc) else {
        return Err(SessionFault::Memory);
    };
    match command.try_get_matches_from(words) {
        Ok(matches) => Ok(CommandLine::Session(Options {
            session: matches.get_str("session"),
            explain: matches.get_flag("explain"),
        })),
        Err(error) => match error.kind() {
            ErrorKind::DisplayHelp => Ok(CommandLine::Help(error)),
            ErrorKind::OutOfMemory => Err(SessionFault::Memory),
            _ => {
                why.tell(error);
                Err(SessionFault::CommandLine)
            }
        },
    }
}

/// The arguments that the program takes.
fn command<'a>(alloc: Global) -> Result<Command<'a>, AllocError> {
    let session = Arg::new(alloc, "session")
        .value_name("FILE")
        .action(ArgAction::Set)
        .help("The session file [default: standard input]");
    let explain = Arg::new(alloc, "explain")
        .long("explain")
        .action(ArgAction::SetTrue)
        .help("Print each line and each frame in words, and the reason behind a fault");
    // for the help alone: `asks_version` finds it first
    let version = Arg::new(alloc, "version")
        .long("version")
        .action(ArgAction::SetTrue)
        .help("Print the version");
    let command = Command::new(alloc, "xcpslave")
        .about("Plays a session of an XCP slave, and prints what the slave sent and the account")
        .no_binary_name(true);
    command.arg(explain)?.arg(version)?.arg(session)
}
