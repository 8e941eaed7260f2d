//! What a step did with the first item of a ring.
/// What came of a step at a ring.
#[derive(Clone, Copy, Debug, PartialEq, Eq)]
pub enum Step {
    /// No item was there.
    Nothing,
    /// The next sample is of a list that runs, and its frames found no room in the page. It stays
    /// in the ring.
    Full,
    /// The stop marker of this DAQ list was taken.
    Marked(u8),
    /// A sample of this DAQ list was taken, and not written: the list was stopped meanwhile.
    Skipped(u8),
    /// A sample of this DAQ list was taken, and its frames were laid out, which have so many bytes.
    Wrote(u8, usize),
}
