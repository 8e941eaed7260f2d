//! DAQ lists as groups of a measurement file (ASAM MDF 4.1): channels, and the records of samples.
#![tactic(auto)]

mod channel;
mod column_channel;
mod form_fault;
mod forming;
mod front;
mod front_channels;
mod group_channels;
mod group_fault;
mod group_file;
pub mod laws;
mod names;
mod naming;
mod own_value;
mod placed_column;
mod record_fault;
mod record_form;
mod record_time;
mod times;

pub use column_channel::is_lost;
pub use form_fault::FormFault;
pub use forming::MAX_SAMPLE;
pub use front::Front;
pub use group_channels::channels_of;
pub use group_fault::GroupFault;
pub use group_file::GroupFile;
pub use naming::group_name;
pub use own_value::OwnValue;
pub use placed_column::PlacedColumn;
pub use record_fault::RecordFault;
pub use record_form::RecordForm;
pub use record_time::RecordTime;
pub use times::{risen, seconds_of};
