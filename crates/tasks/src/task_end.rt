//! What goes back to the slave's thread once a task is finished.
use crate::rule::TaskLine;
use channel_ring::SendEnd;
use std::marker::Model;

/// What is left of a task that was finished: its end of its line with the slave. The slave's thread
/// frees it.
#[derive(Drop)]
pub struct TaskEnd<S: SendEnd> {
    pub(crate) line: TaskLine<S>,
}

impl<S: SendEnd> Model for TaskEnd<S> {
    ghost use Rattle.std.specs.Prelude.{◌≡◌, length, map};
    ghost use Rattle.tasks.specs.Tasks.{TaskEndState};
    ghost use Rattle.tasks.specs.Ways.{left_of};

    ghost Value = { TaskEndState S };

    ghost view = { λ t. record {
      ring = t.line.ring;
      came = t.line.fetched;
      gave = map (left_of S.End.RingEnd) t.line.gave;
    } };

    ghost invariant = { λ t. length t.line.fetched ≡ length t.line.gave };
}
