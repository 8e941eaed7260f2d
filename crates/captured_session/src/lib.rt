//! The session of a master and a slave, learnt from the packets that were captured of it.
#![tactic(auto)]

mod captured_list;
mod captured_session;
mod command;
mod element;
mod entry;
mod fact;
mod facts;
mod form;
mod id_field;
pub mod laws;
mod limits;
mod list_mode;
mod lists;
mod newest;
mod outcome;
mod outcomes;
mod pointer;
mod pointers;
mod said;
mod session_fault;
mod set_up;
mod side;
mod stamps;
mod told_forms;

pub use captured_list::{CapturedList, is_same_form};
pub use captured_session::{CapturedSession, is_lone};
pub use command::{Command, command_in, dword, word};
pub use element::Element;
pub use fact::Fact;
pub use form::Form;
pub use id_field::IdField;
pub use list_mode::ListMode;
pub use lists::list_in;
pub use outcome::Outcome;
pub use pointer::Pointer;
pub use session_fault::SessionFault;
pub use set_up::SetUp;
pub use side::Side;
pub use told_forms::{field_of, order_of};
