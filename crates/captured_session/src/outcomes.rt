//! What came of a command, by its reply.
ghost use Rattle.std.specs.Prelude.{◌≡◌};
ghost use Rattle.std.specs.Option.{option_copied};
ghost use Rattle.captured_session.specs.SetUps.{outcome_of};

use crate::outcome::Outcome;

/// What came of a command, by its reply, if one came before the next command. ERR_CMD_SYNCH is the
/// reply to SYNCH alone.
pub fn outcome_of(reply: Option<&[u8]>) -> Outcome
    ensures { result ≡ outcome_of (option_copied reply.entry) }
{
    match reply {
        None => Outcome::Unanswered,
        Some([0xFF, ..]) => Outcome::Done,
        Some([0xFE, 0, ..]) => Outcome::Unanswered,
        Some(_) => Outcome::Refused,
    }
}
