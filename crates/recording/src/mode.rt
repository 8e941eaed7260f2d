//! The ways to show samples: summary, CSV, picture.
/// How the samples of a recording are shown.
#[derive(Clone, Copy, Debug, PartialEq, Eq)]
pub enum Mode {
    /// A table with a line for each DAQ list.
    Summary,
    /// CSV with a row for each element of each sample.
    Csv,
    /// A picture, as SVG.
    Svg,
}
