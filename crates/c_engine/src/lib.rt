//! What the handles of C hold, and what each call for C does to them, with a status for each
//! answer.
//!
//! A handle holds a `content`: a store, an engine (`held_engine`, `lending`) or a sampler (`lent`).
//! What is done to it: `opening`, `handing`, `carrying`, `pumping`, `filling`, `draining`,
//! `closing`. The same by handles: `store` and the `.._calls`, which `nerthogal_c` exports. Laid
//! out for C: the `.._out`, `kinds`, `status`, `hidden`.
#![tactic(auto)]

mod carrying;
mod closing;
mod content;
mod counts_out;
mod draining;
mod ending_calls;
mod engine_calls;
mod filling;
mod filling_calls;
mod given_back;
mod handing;
mod handle;
mod held_engine;
mod held_ring;
mod hidden;
mod kinds;
mod lending;
mod lent;
mod opening;
mod parts;
mod pumped_all_out;
mod pumped_out;
mod pumping;
mod report_out;
mod rule;
mod sampler_calls;
mod status;
mod store;
mod store_numbers;
mod taken_back;
mod taken_out;
mod taken_samplers;

pub use closing::{close_by, status_of_close};
pub use content::Content;
pub use counts_out::CountsOut;
pub use ending_calls::{drain_by, finish_by, status_of_finish};
pub use engine_calls::pump_by;
pub use filling_calls::pump_all_by;
pub use given_back::GivenBack;
pub use handing::give_sampler;
pub use handle::Handle;
pub use held_engine::HeldEngine;
pub use held_ring::HeldRing;
pub use hidden::Hidden;
pub use kinds::{kind_numbered, ring_numbered};
pub use lent::Lent;
pub use opening::open_into;
pub use parts::Parts;
pub use pumped_all_out::PumpedAllOut;
pub use pumped_out::PumpedOut;
pub use report_out::ReportOut;
pub use sampler_calls::{counts_by, start_by, stop_by, trigger_by};
pub use status::Status;
pub use store::{carry_packet, make_store};
pub use store_numbers::StoreNumbers;
pub use taken_back::TakenBack;
pub use taken_out::TakenOut;
pub use taken_samplers::TakenSamplers;
