//! A task in a thread of its own.
use crate::task::Task;
use crate::task_end::TaskEnd;
use channel_ring::SendHalf;
use std::thread::{self, Threads};

/// Finishes a task in a thread of its own, and hands what is left of it to the caller's.
pub fn finish_apart(rt: &impl Threads, task: Task<SendHalf>) -> TaskEnd<SendHalf> {
    thread::join(rt, || task.finish(), || ()).0
}
