//! Laws of the definitions: each is the contract of a function that does nothing.
ghost use Rattle.frame_writer.specs.Split.{SplitIsUnique, SplitOfText};
ghost use Rattle.frame_writer.specs.Pieces.{OneReading};

/// Bytes are the frames of at most one list of counters and packets.
pub fn split_is_unique()
    ensures { SplitIsUnique }
{}

/// What is written of packets splits into just these packets, with counters that rise by one modulo
/// 65536.
pub fn split_of_text()
    ensures { SplitOfText }
{}

/// In whatever pieces some bytes come, a reader that took them all gave the same packets, and holds
/// the same bytes.
pub fn one_reading()
    ensures { OneReading }
{}
