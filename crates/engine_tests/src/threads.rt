//! Runs with a thread for each event channel.
mod answers;
mod calls;
mod faults;
mod in_order;
mod one_by_one;
mod outcomes;
mod text;
mod turns;
