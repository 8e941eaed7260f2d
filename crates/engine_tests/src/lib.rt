//! The tests of whole engines, and of what else calls alone show: the fixed run over writers that
//! fail, a send end over a list and one that can't be finished, ends that aren't an engine's,
//! orders, texts, runs with threads. As a library this crate is empty.
#![tactic(auto)]

#[cfg(test)]
mod by_value;
#[cfg(test)]
mod filled_buffer;
#[cfg(test)]
mod first_path;
#[cfg(test)]
mod frames_paged;
#[cfg(test)]
mod frames_sampled;
#[cfg(test)]
mod frames_through;
#[cfg(test)]
mod list_end;
#[cfg(test)]
mod memory_in_segments;
#[cfg(test)]
mod no_end;
#[cfg(test)]
mod orders;
#[cfg(test)]
mod orders_between;
#[cfg(test)]
mod same;
#[cfg(test)]
mod spans_copied;
#[cfg(test)]
mod stores;
#[cfg(test)]
mod texts;
#[cfg(test)]
mod threads;
#[cfg(test)]
mod whole_run;
#[cfg(test)]
mod wrong_ends;
