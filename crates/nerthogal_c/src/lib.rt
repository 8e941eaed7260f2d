//! The engine and the slave for C: what `include/nerthogal.h` declares.
#![tactic(auto)]

mod ending_calls;
mod engine_calls;
mod sampler_calls;
mod serving;
mod store;
mod task_calls;
