//! The rule for a task that was handed out: what comes back is of its own line.
use frame_ring::FrameSend;
use hand_over::Rule;
use tasks::{Task, TaskEnd};

/// What is left of a task is of the task's line with its slave.
#[derive(Clone, Copy)]
pub struct SameLine;

impl Rule<Task<FrameSend>, TaskEnd<FrameSend>> for SameLine {
    ghost use Rattle.std.specs.Prelude.{◌≡◌};

    ghost leaves = { λ task end. end.ring ≡ task.ring };
}
