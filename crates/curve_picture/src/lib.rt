//! A picture of what was measured: a curve for each measurement, gathered in one pass and in
//! bounded memory, and written as SVG. `CurvePicture` keeps a row for each measurement, in which
//! the axis is divided into bins; what a bin keeps of its values is a stretch of the curve.
#![tactic(auto)]

mod axis;
mod bin;
mod caption;
mod curve;
mod drawing;
mod furniture;
mod heights;
mod label;
mod levels;
mod marks;
mod picture;
mod point;
mod row;
mod scale;
mod stretch;
mod style;

pub use axis::CurveAxis;
pub use picture::CurvePicture;
