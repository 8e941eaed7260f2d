//! The memory that a slave's variables lie in, as segments: where bytes lie, who may read them, and
//! reading them (ASAM MCD-1 XCP, protocol layer, address extension).
#![tactic(auto)]

mod fault;
mod image;
pub mod laws;
pub mod limits;
mod place;
mod read_fault;
mod segment;
mod segments;

pub use fault::SegmentFault;
pub use image::{image_len, image_place, image_segment, image_start, segment_at};
pub use place::Place;
pub use read_fault::ReadFault;
pub use segment::{Segment, all_readers};
pub use segments::{Segments, fits};
