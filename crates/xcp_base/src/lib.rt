//! What every layer speaks of: the limits of the profile, its error codes, the form of packets,
//! packets, samples, items, the numbers of DAQ lists and event channels, and sets of DAQ lists.
#![tactic(auto)]

mod body;
mod channel_id;
mod err_code;
mod id_kind;
mod item;
pub mod limits;
mod list_id;
mod list_set;
mod memory_view;
mod packet_form;
mod packet_iter;
mod packets;
mod per_list;
mod put;
mod ring_kind;
mod sample;
mod stamp_size;
mod stop_mark;
mod stretch;

pub use channel_id::ChannelId;
pub use err_code::ErrCode;
pub use id_kind::IdKind;
pub use item::Item;
pub use list_id::ListId;
pub use list_set::{ListSet, has_list, with_list, with_list_if};
pub use memory_view::MemoryView;
pub use packet_form::PacketForm;
pub use packet_iter::PacketIter;
pub use packets::{Full, Packets};
pub use per_list::PerList;
pub use put::{put_copied, put_first, put_number};
pub use ring_kind::RingKind;
pub use sample::Sample;
pub use stamp_size::StampSize;
pub use stop_mark::StopMark;
pub use stretch::Stretch;
