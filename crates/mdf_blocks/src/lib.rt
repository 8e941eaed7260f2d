//! The blocks of a measurement file (ASAM MDF 4.1): what a file is written of, block by block.
#![tactic(auto)]

mod axis;
mod bit_run;
mod block;
mod channel;
mod channel_body;
mod channel_group;
mod channel_kind;
mod conversion_blocks;
mod conversion_kind;
mod data_blocks;
mod data_group;
mod encoding_places;
mod file_header;
mod file_history;
mod file_state;
mod fill;
mod fixed_blocks;
mod id_bytes;
pub mod laws;
mod listed_data;
mod placed_text;
mod rule;
mod rules;
mod table_places;
mod texts;
mod time;
mod time_bytes;
mod value_format;
mod value_place;
mod zone;

pub use axis::Axis;
pub use block::push_block;
pub use channel::Channel;
pub use channel_group::ChannelGroup;
pub use channel_kind::ChannelKind;
pub use conversion_blocks::push_conversion;
pub use conversion_kind::ConversionKind;
pub use data_blocks::{data_head, push_data_list};
pub use data_group::DataGroup;
pub use encoding_places::place_in_record;
pub use file_header::FileHeader;
pub use file_history::FileHistory;
pub use file_state::FileState;
pub use fill::fill_len;
pub use fixed_blocks::{
    push_channel, push_channel_group, push_data_group, push_file_header, push_file_history,
};
pub use id_bytes::identification;
pub use listed_data::ListedData;
pub use placed_text::PlacedText;
pub use rule::{MAX_TEXTS, Rule};
pub use rules::{bounds_of, keys_of, rule_of};
pub use table_places::text_places;
pub use texts::{push_comment, push_text};
pub use time::Time;
pub use value_format::ValueFormat;
pub use value_place::ValuePlace;
pub use zone::Zone;
