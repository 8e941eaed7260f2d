//! What single blocks of an A2L file say (ASAM MCD-2 MC, the description file): measurements,
//! conversion methods, tables of texts and the unit of a timestamp, before names are looked up.
#![tactic(auto)]

mod awaited;
mod dimensions;
mod entry_fault;
mod form_block;
mod keywords;
mod layout;
mod left;
mod measurement_block;
mod measurement_options;
mod method_block;
mod method_options;
mod packet_form;
mod refused;
mod said;
mod table_block;
mod tick_block;
mod told;

pub use awaited::Awaited;
pub use dimensions::element_count;
pub use entry_fault::EntryFault;
pub use form_block::{form_with, stamps_in};
pub use keywords::{
    MeasurementKeyword, MethodKeyword, MethodKind, OperationKeyword, behind_keyword, default_order,
};
pub use layout::Layout;
pub use left::Left;
pub use measurement_block::{MeasurementBlock, instance_of, measurement_of};
pub use measurement_options::MeasurementOptions;
pub use method_block::{MethodBlock, Rule, method_of};
pub use method_options::{Coefficients, Line};
pub use packet_form::PacketForm;
pub use refused::Refused;
pub use said::Reference;
pub use table_block::{TableBlock, ranges_of, table_of};
pub use tick_block::tick_of;
pub use told::Told;
