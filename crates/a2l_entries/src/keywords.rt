//! The keywords in the blocks that are read, and how many words belong to each.
ghost use Rattle.std.specs.Prelude.{◌≡◌, option_map};
ghost use Rattle.a2l_entries.specs.Gives.{Gives};
ghost use Rattle.a2l_entries.specs.Said.{token_at, tokens_of};
ghost use Rattle.a2l_entries.specs.Keywords.{arguments_of, behind_keyword, data_type_said};
ghost use Rattle.a2l_entries.specs.Keywords.{default_said, is_keyword, kind_said, layout_said};
ghost use Rattle.a2l_entries.specs.Keywords.{measurement_keyword, method_arguments_of};
ghost use Rattle.a2l_entries.specs.Keywords.{method_keyword, operation_arguments_of, order_said};

use crate::awaited::Awaited;
use crate::entry_fault::EntryFault;
use crate::layout::Layout;
use crate::left::Left;
use crate::refused::Refused;
use crate::said::plain_in;
use a2l_text::{Located, Word, is, meaning};
use measured_values::{ByteOrder, DataType};

/// An option of a MEASUREMENT (ASAM MCD-2 MC, MEASUREMENT).
#[derive(Clone, Copy)]
pub enum MeasurementKeyword {
    Order,
    Mask,
    Operation(OperationKeyword),
    Address,
    Extension,
    Size,
    Dimensions,
    Layout,
    Unit,
    /// Another keyword to which one word belongs.
    One,
    /// Another keyword to which two words belong.
    Two,
    /// Any other word.
    Other,
}

/// A word of BIT_OPERATION (ASAM MCD-2 MC, BIT_OPERATION).
#[derive(Clone, Copy)]
pub enum OperationKeyword {
    /// The name of the block, with which it begins.
    Name,
    Left,
    Right,
    Sign,
}

/// An option of a COMPU_METHOD (ASAM MCD-2 MC, COMPU_METHOD).
#[derive(Clone, Copy)]
pub enum MethodKeyword {
    Coefficients,
    Linear,
    Table,
    /// Another keyword to which one word belongs.
    One,
    /// Any other word.
    Other,
}

/// What a COMPU_METHOD does (ASAM MCD-2 MC, conversion types).
#[derive(Clone, Copy)]
pub enum MethodKind {
    Identical,
    Linear,
    Rational,
    Verbal,
    /// FORM, TAB_INTP and TAB_NOINTP, which aren't carried out.
    Other,
}

/// Which option of a MEASUREMENT a word is.
#[tactic(auto, unfolding(crate::specs::Keywords::measurement_keyword))]
pub fn measurement_keyword(word: Located<'_>) -> MeasurementKeyword
    ensures { result ≡ measurement_keyword (token_at word.entry) }
{
    match word.word {
        Word::Plain(bytes) => {
            meaning(bytes, &MEASUREMENT_KEYWORDS).unwrap_or(MeasurementKeyword::Other)
        }
        _ => MeasurementKeyword::Other,
    }
}

/// The options of a MEASUREMENT, and of the BIT_OPERATION in it.
const MEASUREMENT_KEYWORDS: [(&str, MeasurementKeyword); 19] = [
    ("ECU_ADDRESS", MeasurementKeyword::Address),
    ("ECU_ADDRESS_EXTENSION", MeasurementKeyword::Extension),
    ("BYTE_ORDER", MeasurementKeyword::Order),
    ("BIT_MASK", MeasurementKeyword::Mask),
    ("PHYS_UNIT", MeasurementKeyword::Unit),
    ("ARRAY_SIZE", MeasurementKeyword::Size),
    ("MATRIX_DIM", MeasurementKeyword::Dimensions),
    (
        "BIT_OPERATION",
        MeasurementKeyword::Operation(OperationKeyword::Name),
    ),
    (
        "LEFT_SHIFT",
        MeasurementKeyword::Operation(OperationKeyword::Left),
    ),
    (
        "RIGHT_SHIFT",
        MeasurementKeyword::Operation(OperationKeyword::Right),
    ),
    (
        "SIGN_EXTEND",
        MeasurementKeyword::Operation(OperationKeyword::Sign),
    ),
    ("LAYOUT", MeasurementKeyword::Layout),
    ("DISPLAY_IDENTIFIER", MeasurementKeyword::One),
    ("ERROR_MASK", MeasurementKeyword::One),
    ("FORMAT", MeasurementKeyword::One),
    ("MODEL_LINK", MeasurementKeyword::One),
    ("REF_MEMORY_SEGMENT", MeasurementKeyword::One),
    ("MAX_REFRESH", MeasurementKeyword::Two),
    ("SYMBOL_LINK", MeasurementKeyword::Two),
];

impl MeasurementKeyword {
    /// How many words belong to it. The numbers of MATRIX_DIM aren't counted: they are no
    /// keywords, and passed over as such.
    pub fn arguments(self) -> usize
        ensures { result ≡ arguments_of self }
    {
        match self {
            MeasurementKeyword::Operation(keyword) => keyword.arguments(),
            MeasurementKeyword::Dimensions | MeasurementKeyword::Other => 0,
            MeasurementKeyword::Two => 2,
            _ => 1,
        }
    }
}

impl OperationKeyword {
    /// How many words belong to it.
    pub fn arguments(self) -> usize
        ensures { result ≡ operation_arguments_of self }
    {
        match self {
            OperationKeyword::Name | OperationKeyword::Sign => 0,
            OperationKeyword::Left | OperationKeyword::Right => 1,
        }
    }
}

/// Which option of a COMPU_METHOD a word is.
#[tactic(auto, unfolding(crate::specs::Keywords::method_keyword))]
pub fn method_keyword(word: Located<'_>) -> MethodKeyword
    ensures { result ≡ method_keyword (token_at word.entry) }
{
    match word.word {
        Word::Plain(bytes) => meaning(bytes, &METHOD_KEYWORDS).unwrap_or(MethodKeyword::Other),
        _ => MethodKeyword::Other,
    }
}

/// The options of a COMPU_METHOD.
const METHOD_KEYWORDS: [(&str, MethodKeyword); 5] = [
    ("COEFFS", MethodKeyword::Coefficients),
    ("COEFFS_LINEAR", MethodKeyword::Linear),
    ("COMPU_TAB_REF", MethodKeyword::Table),
    ("REF_UNIT", MethodKeyword::One),
    ("STATUS_STRING_REF", MethodKeyword::One),
];

impl MethodKeyword {
    /// How many words belong to it.
    pub fn arguments(self) -> usize
        ensures { result ≡ method_arguments_of self }
    {
        match self {
            MethodKeyword::Coefficients => 6,
            MethodKeyword::Linear => 2,
            MethodKeyword::Table | MethodKeyword::One => 1,
            MethodKeyword::Other => 0,
        }
    }
}

/// The kind of a method that a word names.
#[tactic(auto, unfolding(crate::specs::Keywords::kind_said))]
pub fn method_kind(word: Located<'_>) -> Result<MethodKind, EntryFault>
    ensures { Gives (λ x. x) result (kind_said (token_at word.entry)) }
{
    let bytes = plain_in(word, Awaited::MethodKind)?;
    match meaning(bytes, &METHOD_KINDS) {
        Some(kind) => Ok(kind),
        None => Err(EntryFault::Awaited(word.at, Awaited::MethodKind)),
    }
}

/// The kinds of a method.
const METHOD_KINDS: [(&str, MethodKind); 7] = [
    ("IDENTICAL", MethodKind::Identical),
    ("LINEAR", MethodKind::Linear),
    ("RAT_FUNC", MethodKind::Rational),
    ("TAB_VERB", MethodKind::Verbal),
    ("FORM", MethodKind::Other),
    ("TAB_INTP", MethodKind::Other),
    ("TAB_NOINTP", MethodKind::Other),
];

/// The data type that a word names.
#[tactic(auto, unfolding(crate::specs::Keywords::data_type_said))]
pub fn data_type_in(word: Located<'_>) -> Result<DataType, EntryFault>
    ensures { Gives (λ x. x) result (data_type_said (token_at word.entry)) }
{
    let bytes = plain_in(word, Awaited::DataType)?;
    match meaning(bytes, &DATA_TYPES) {
        Some(data_type) => Ok(data_type),
        None => Err(EntryFault::Awaited(word.at, Awaited::DataType)),
    }
}

/// The data types.
const DATA_TYPES: [(&str, DataType); 11] = [
    ("UBYTE", DataType::UByte),
    ("SBYTE", DataType::SByte),
    ("UWORD", DataType::UWord),
    ("SWORD", DataType::SWord),
    ("ULONG", DataType::ULong),
    ("SLONG", DataType::SLong),
    ("A_UINT64", DataType::AUint64),
    ("A_INT64", DataType::AInt64),
    ("FLOAT16_IEEE", DataType::Float16),
    ("FLOAT32_IEEE", DataType::Float32),
    ("FLOAT64_IEEE", DataType::Float64),
];

/// The byte order that a word names.
#[tactic(auto, unfolding(crate::specs::Keywords::order_said))]
pub fn order_in(word: Located<'_>) -> Result<ByteOrder, EntryFault>
    ensures { Gives (λ x. x) result (order_said (token_at word.entry)) }
{
    let bytes = plain_in(word, Awaited::ByteOrder)?;
    if let Some(order) = meaning(bytes, &BYTE_ORDERS) {
        return Ok(order);
    }
    if is(bytes, "LITTLE_ENDIAN") || is(bytes, "BIG_ENDIAN") {
        return Err(EntryFault::Refused(word.at, Refused::OldByteOrder));
    }
    Err(EntryFault::Awaited(word.at, Awaited::ByteOrder))
}

/// The byte orders.
const BYTE_ORDERS: [(&str, ByteOrder); 2] = [
    ("MSB_LAST", ByteOrder::MsbLast),
    ("MSB_FIRST", ByteOrder::MsbFirst),
];

/// The layout that a word names.
#[tactic(auto, unfolding(crate::specs::Keywords::layout_said))]
pub fn layout_in(word: Located<'_>) -> Result<Layout, EntryFault>
    ensures { Gives (λ x. x) result (layout_said (token_at word.entry)) }
{
    let bytes = plain_in(word, Awaited::Layout)?;
    match meaning(bytes, &LAYOUTS) {
        Some(layout) => Ok(layout),
        None => Err(EntryFault::Awaited(word.at, Awaited::Layout)),
    }
}

/// The layouts of an array.
const LAYOUTS: [(&str, Layout); 2] = [("ROW_DIR", Layout::Rows), ("COLUMN_DIR", Layout::Columns)];

/// Whether a word is this keyword.
pub fn is_keyword(word: Located<'_>, keyword: &str) -> bool
    ensures { result ≡ is_keyword keyword.now (token_at word.entry) }
{
    match word.word {
        Word::Plain(bytes) => is(bytes, keyword),
        _ => false,
    }
}

/// The words behind the first that is this keyword, if one is.
pub fn behind_keyword<'w, 'a>(left: Left<'w, 'a>, keyword: &str) -> Option<Left<'w, 'a>>
    ensures { option_map (λ x. tokens_of x) result
        ≡ behind_keyword keyword.now (tokens_of left.entry) }
{
    for (place, word) in left.words.iter().enumerate() {
        if is_keyword(*word, keyword) {
            let (_, words) = left.words.split_at(place + 1);
            return Some(Left {
                words,
                end: left.end,
            });
        }
    }
    None
}

/// The default byte order that the words of a MOD_COMMON give, if they do.
#[tactic(auto, unfolding(crate::specs::Keywords::default_said))]
pub fn default_order(words: Left<'_, '_>) -> Result<Option<ByteOrder>, EntryFault>
    ensures { Gives (λ x. x) result (default_said (tokens_of words.entry)) }
{
    match behind_keyword(words, "BYTE_ORDER") {
        None => Ok(None),
        Some(left) => {
            let (word, _) = left.first(Awaited::ByteOrder)?;
            Ok(Some(order_in(word)?))
        }
    }
}
