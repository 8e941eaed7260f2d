//! Where the next entry is written, behind a command.
ghost use Rattle.std.specs.Prelude.{◌≡◌};
ghost use Rattle.captured_session.specs.SetUps.{astray, moved, pointer_behind};

use crate::command::Command;
use crate::outcome::Outcome;
use crate::pointer::Pointer;

/// Where the next entry is written behind a command, by what came of it.
pub fn pointer_behind(command: Command, outcome: Outcome, pointer: Pointer) -> Pointer
    ensures { result ≡ pointer_behind command outcome pointer }
{
    match (command, outcome) {
        (Command::Missing, _) => Pointer::Unknown,
        (Command::FreeDaq, Outcome::Done | Outcome::Unanswered) => Pointer::Unknown,
        (Command::SetDaqPtr { list, odt, entry }, Outcome::Done) => {
            Pointer::At { list, odt, entry }
        }
        (Command::SetDaqPtr { .. }, _) => Pointer::Unknown,
        (Command::WriteDaq { .. }, Outcome::Done) => moved(1, pointer),
        (Command::WriteDaq { .. }, Outcome::Unanswered) => astray(pointer),
        (Command::WriteDaqMultiple { count }, Outcome::Done) => moved(count, pointer),
        (Command::WriteDaqMultiple { .. }, _) => astray(pointer),
        _ => pointer,
    }
}

/// So many entries on; behind the last that an ODT can have it is known no more.
pub fn moved(n: u8, pointer: Pointer) -> Pointer
    ensures { result ≡ moved n pointer }
{
    match pointer {
        Pointer::At { list, odt, entry } => match entry.checked_add(n) {
            Some(entry) => Pointer::At { list, odt, entry },
            None => Pointer::Within { list, odt },
        },
        _ => pointer,
    }
}

/// Somewhere in the same ODT.
fn astray(pointer: Pointer) -> Pointer
    ensures { result ≡ astray pointer }
{
    match pointer {
        Pointer::At { list, odt, .. } => Pointer::Within { list, odt },
        _ => pointer,
    }
}
