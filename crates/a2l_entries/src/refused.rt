//! What an A2L text may not have, or what is missing in it.
use std::error::Error;
use std::fmt::{self, Display};

/// What is refused at a place of a text. Where something else was expected there, `Awaited` says
/// what.
#[derive(Clone, Copy, Debug, PartialEq, Eq)]
pub enum Refused {
    /// The whole text is longer than 64 MiB.
    TooLarge,
    /// `/include`, but in A2ML: other files aren't read.
    Include,
    /// More than 64 blocks stand in one another.
    TooDeep,
    /// A name or a text is longer than 1,024 bytes.
    TooLong,
    /// LITTLE_ENDIAN or BIG_ENDIAN as a byte order.
    OldByteOrder,
    /// A MEASUREMENT names a COMPU_METHOD that its MODULE doesn't have.
    NoMethod,
    /// A COMPU_METHOD names a table of texts that its MODULE doesn't have.
    NoTable,
    /// `/end`, and no block is open.
    StrayEnd,
    /// A text has no closing quote.
    OpenText,
    /// A comment that begins with `/*` has no `*/`.
    OpenComment,
}

impl Display for Refused {
    fn fmt<W: fmt::Write>(&self, f: &mut fmt::Formatter<W>) -> fmt::Result {
        f.write_str(match self {
            Refused::TooLarge => "the text is longer than 64 MiB",
            Refused::Include => "/include is not supported",
            Refused::TooDeep => "more than 64 blocks stand in one another",
            Refused::TooLong => "longer than 1024 bytes",
            Refused::OldByteOrder =>
                "LITTLE_ENDIAN and BIG_ENDIAN have two meanings: write MSB_LAST or MSB_FIRST",
            Refused::NoMethod => "no COMPU_METHOD has this name",
            Refused::NoTable => "no COMPU_VTAB and no COMPU_VTAB_RANGE has this name",
            Refused::StrayEnd => "no block is open that could end here",
            Refused::OpenText => "the text has no closing quote",
            Refused::OpenComment => "the comment has no end",
        })
    }
}

impl Error for Refused {}
