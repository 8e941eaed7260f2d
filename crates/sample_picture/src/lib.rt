//! A picture of where the samples of DAQ lists stand: gathered in one pass and in bounded memory,
//! and written as SVG.
//!
//! `Picture` and `Axis` are what a program needs. The rest is public for `curve_picture`, which
//! draws on the same axis and in the same style.
#![tactic(auto)]

mod axis;
mod bands;
mod drawing;
mod furniture;
mod grid;
mod losses;
mod mark;
mod numbers;
mod picture;
mod row;
mod ruler;
mod span;
mod style;

pub use axis::Axis;
pub use bands::{lost_spans, push_strokes, push_tick, push_triangles};
pub use grid::Grid;
pub use losses::{Losses, double_losses};
pub use numbers::{push_number, push_tenths};
pub use picture::Picture;
pub use row::BINS;
pub use ruler::{Ruler, round_step};
pub use span::Span;
