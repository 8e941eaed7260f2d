//! How the packets of a slave look, behind a command and its reply.
ghost use Rattle.std.specs.Prelude.{◌≡◌};
ghost use Rattle.captured_session.specs.SetUps.{connected, field_of, form_behind, order_of};
ghost use Rattle.captured_session.specs.SetUps.{with_processor, with_resolution};

use crate::command::{Command, word};
use crate::form::Form;
use crate::id_field::IdField;
use crate::outcome::Outcome;
use measured_values::ByteOrder;

/// How packets look behind a command: as its reply tells, and else as before.
pub fn form_behind(command: Command, outcome: Outcome, reply: &[u8], form: Form) -> Form
    ensures { result ≡ form_behind command outcome reply.now form }
{
    match (command, outcome) {
        (Command::Connect, Outcome::Done) => connected(form, reply),
        (Command::ProcessorInfo, Outcome::Done) => with_processor(form, reply),
        (Command::ResolutionInfo, Outcome::Done) => with_resolution(form, reply),
        _ => form,
    }
}

/// By the reply to CONNECT.
fn connected(form: Form, reply: &[u8]) -> Form
    ensures { result ≡ connected form reply.now }
{
    match reply {
        [_, _, mode, ..] => Form {
            has_order: true,
            order: order_of(*mode as u16),
            granularity: *mode / 2 % 4,
            ..form
        },
        _ => form,
    }
}

/// By the reply to GET_DAQ_PROCESSOR_INFO.
fn with_processor(form: Form, reply: &[u8]) -> Form
    ensures { result ≡ with_processor form reply.now }
{
    match reply {
        [_, properties, _, _, _, _, _, key, ..] => Form {
            has_field: true,
            field: field_of((*key / 64 % 4) as u16),
            has_overload: *properties / 64 % 2 == 1,
            ..form
        },
        _ => form,
    }
}

/// By the reply to GET_DAQ_RESOLUTION_INFO.
fn with_resolution(form: Form, reply: &[u8]) -> Form
    ensures { result ≡ with_resolution form reply.now }
{
    match reply {
        [_, _, _, _, _, mode, a, b, ..] => Form {
            has_stamp: true,
            stamp: *mode,
            ticks: word(form.order, *a, *b),
            ..form
        },
        _ => form,
    }
}

/// The byte order that COMM_MODE_BASIC tells (ASAM MCD-1 XCP, CONNECT).
pub fn order_of(mode: u16) -> ByteOrder
    ensures { result ≡ order_of mode }
{
    if mode % 2 == 0 {
        ByteOrder::MsbLast
    } else {
        ByteOrder::MsbFirst
    }
}

/// The identification field that the upper bits of DAQ_KEY_BYTE tell, by this number (ASAM MCD-1
/// XCP, GET_DAQ_PROCESSOR_INFO).
pub fn field_of(kind: u16) -> IdField
    ensures { result ≡ field_of kind }
{
    match kind {
        0 => IdField::Absolute,
        1 => IdField::RelativeByte,
        2 => IdField::RelativeWord,
        _ => IdField::RelativeWordAligned,
    }
}
