//! What `xcpread` tells on standard error: its progress, what isn't shown, and a fault.
/// What is told of a recording that is read, beside what is printed of its samples.
pub trait Messages {
    /// The recording is read up to a byte.
    fn read_to(&mut self, byte: u64);

    /// It is read no further.
    fn end_progress(&mut self);

    /// So many of all measurements and instances that an A2L file names aren't shown.
    fn tell_not_shown(&mut self, hidden: usize, all: usize);

    /// One of them has this name.
    fn tell_hidden(&mut self, name: &str);

    /// This name is wanted, and no measurement in the lists has it.
    fn tell_unknown(&mut self, name: &str);

    /// Why the recording breaks off, in words; nothing if it doesn't.
    fn tell_reason(&mut self, text: &str);
}
