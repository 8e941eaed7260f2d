//! What a block of an A2L text should have where something else stands.
use std::error::Error;
use std::fmt::{self, Display};

/// What was awaited at a place of a text.
#[derive(Clone, Copy, Debug, PartialEq, Eq)]
pub enum Awaited {
    BlockName,
    Name,
    Text,
    Number,
    Integer,
    Address,
    Mask,
    Shift,
    DataType,
    ByteOrder,
    Layout,
    MethodKind,
    Verbal,
    Coefficients,
    Linear,
    TableName,
    Ticks,
    TickUnit,
    Argument,
}

impl Display for Awaited {
    fn fmt<W: fmt::Write>(&self, f: &mut fmt::Formatter<W>) -> fmt::Result {
        f.write_str(match self {
            Awaited::BlockName => "the name of a block",
            Awaited::Name => "a name",
            Awaited::Text => "a text in quotes",
            Awaited::Number => "a number",
            Awaited::Integer => "a whole number that is not negative",
            Awaited::Address => "an address of 32 bits",
            Awaited::Mask => "a bit mask other than 0",
            Awaited::Shift => "a shift by 0 to 63 bits",
            Awaited::DataType => "a data type, such as UBYTE",
            Awaited::ByteOrder => "a byte order, MSB_LAST or MSB_FIRST",
            Awaited::Layout => "a layout, ROW_DIR or COLUMN_DIR",
            Awaited::MethodKind => "the kind of a method, such as RAT_FUNC",
            Awaited::Verbal => "TAB_VERB",
            Awaited::Coefficients => "COEFFS, which RAT_FUNC needs",
            Awaited::Linear => "COEFFS_LINEAR, which LINEAR needs",
            Awaited::TableName => "COMPU_TAB_REF, which TAB_VERB needs",
            Awaited::Ticks => "a number of ticks from 1 to 65535",
            Awaited::TickUnit => "the unit of a timestamp, such as UNIT_1US",
            Awaited::Argument => "another word that belongs to the keyword before",
        })
    }
}

impl Error for Awaited {}
