//! The call by which the slave of a handle tells what it is about.

ghost use Rattle.std.specs.Prelude.{Some};
ghost use Rattle.c_slave.specs.States.{IsStateOf, TellsState};

use crate::content::Content;
use crate::handle::Handle;
use crate::state_out::StateOut;
use c_engine::Status;
use slave_lending::LendingSlave;

/// What a slave is about.
fn state_of(slave: &LendingSlave) -> StateOut
    ensures { IsStateOf slave.now result }
{
    StateOut {
        connected: slave.is_connected(),
        measuring: slave.is_measuring(),
        waiting: slave.waiting(),
    }
}

/// Tells what a slave is about, if this is one.
fn tell_state(content: &Content, state: &mut StateOut) -> Status
    ensures { TellsState (Some content.now) (Some content.now) state.old state.new result }
{
    match content {
        Content::Slave(slave) => *state = state_of(slave),
        _ => return Status::Empty,
    }
    Status::Ok
}

/// Tells what the slave of a handle is about.
pub fn state_by(handle: &mut Handle, state: &mut StateOut) -> Status
    ensures { TellsState handle.old.held handle.new.held state.old state.new result }
{
    let Some(content) = handle.content() else {
        return Status::Empty;
    };
    tell_state(content, state)
}
