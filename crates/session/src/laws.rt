//! Laws of the definitions: each is the contract of a function that does nothing.
ghost use Rattle.session.specs.Laws.{NowhereIsOutOfRange, RepliesFit, ShowsWhatIsWritten};

/// A write of bytes that lie in no segment is out of range.
pub fn nowhere_is_out_of_range()
    ensures { NowhereIsOutOfRange }
{}

/// An entry is read as it was written, with its address extension.
pub fn an_entry_is_read_as_written()
    ensures { ShowsWhatIsWritten }
{}

/// A reply has at most MAX_CTO bytes, as the profile says.
pub fn replies_fit()
    ensures { RepliesFit }
{}
