//! A value goes to another thread, and what is left of it comes back, by a rule that travels with
//! it.
#![tactic(auto)]

mod borrower;
mod coming_back;
mod given;
mod going;
mod known;
mod lender;
mod line;
mod newest;
mod parcel;
mod returns;
mod rule;
mod way_back;

pub use borrower::Borrower;
pub use coming_back::ComingBack;
pub use given::Given;
pub use going::hand_over;
pub use lender::Lender;
pub use line::new_line;
pub use newest::keep_newest;
pub use rule::{AnyLeft, Rule};
pub use way_back::WayBack;
