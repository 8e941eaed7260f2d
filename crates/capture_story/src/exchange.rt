//! A command, and its reply.
ghost use Rattle.std.specs.Prelude.{◌≡◌, ◌∷◌, ◌++◌, List};
ghost use Rattle.std.specs.Option.{option_copied};
ghost use Rattle.captured_session.specs.Exchanges.{Heard, answered, ends_with, exchanges};
ghost use Rattle.captured_session.specs.Exchanges.{unanswered};
ghost use Rattle.captured_session.specs.SetUps.{session_after};
ghost use Rattle.captured_session.specs.declared.form.Form.{Form};
ghost use Rattle.capture_story.specs.Told.{told};

use captured_session::{CapturedSession, Side, is_lone};

/// A command, and its reply if one came before the next command. One that is missing in the capture
/// has no bytes.
#[derive(Clone, Copy)]
pub struct Exchange<'a> {
    pub command: &'a [u8],
    pub reply: Option<&'a [u8]>,
}

/// The exchange that ends with the next packet of a session, if one does.
pub fn ended_by<'a>(
    session: &'a CapturedSession,
    side: Side,
    packet: &'a [u8],
) -> Option<Exchange<'a>>
    ensures { (given : Form) (before : List Heard) → session.now ≡ session_after given before
        → exchanges ((side, packet.now) ∷ before) ≡ told result ++ exchanges before }
{
    ended(session.waiting(), session.to_come(), side, packet)
}

/// The same, of the command that waits, or of an UPLOAD of which so many bytes are to come.
fn ended<'a>(
    waiting: Option<&'a [u8]>,
    to_come: usize,
    side: Side,
    packet: &'a [u8],
) -> Option<Exchange<'a>>
    ensures { told result ≡ ends_with (side, packet.now) (option_copied waiting.entry) to_come }
{
    match (side, packet) {
        (Side::Master, []) => Some(Exchange {
            command: &[],
            reply: None,
        }),
        (Side::Master, [0xC0..=0xFF, ..]) => unanswered(waiting),
        (Side::Slave, [0xFE..=0xFF, ..]) => answered(waiting, to_come, packet),
        _ => None,
    }
}

/// The command that waits, without a reply.
fn unanswered<'a>(waiting: Option<&'a [u8]>) -> Option<Exchange<'a>>
    ensures { told result ≡ unanswered (option_copied waiting.entry) }
{
    let command = waiting?;
    Some(Exchange {
        command,
        reply: None,
    })
}

/// The command that waits, with this reply; if there is none, one may be missing.
fn answered<'a>(waiting: Option<&'a [u8]>, to_come: usize, reply: &'a [u8]) -> Option<Exchange<'a>>
    ensures { told result ≡ answered (option_copied waiting.entry) to_come reply.now }
{
    match waiting {
        Some(command) => Some(Exchange {
            command,
            reply: Some(reply),
        }),
        None if is_lone(to_come, reply) => Some(Exchange {
            command: &[],
            reply: Some(reply),
        }),
        None => None,
    }
}
