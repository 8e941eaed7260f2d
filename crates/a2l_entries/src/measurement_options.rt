//! The options of a MEASUREMENT are read: address, order, mask, shifts, unit, dimensions.
ghost use Rattle.std.specs.Prelude.{◌≡◌};
ghost use Rattle.a2l_entries.specs.declared.keywords.MeasurementKeyword.TheVariants as option;
ghost use Rattle.a2l_entries.specs.Gives.{Gives};
ghost use Rattle.a2l_entries.specs.Said.{token_at, tokens_of};
ghost use Rattle.a2l_entries.specs.MeasurementSaid.{options_seen, no_options, options_or};
ghost use Rattle.a2l_entries.specs.MeasurementSaid.{options_said, option_said, mask_said};
ghost use Rattle.a2l_entries.specs.MeasurementSaid.{operation_of, operation_said, shift_said};
ghost use Rattle.a2l_entries.specs.MeasurementSaid.{address_said, extended_said, dims_of};
ghost use Rattle.a2l_entries.specs.MeasurementSaid.{has_shape, layout_of, shift_first};

use crate::awaited::Awaited;
use crate::dimensions::{dimension_of, dimensions_in, element_count};
use crate::entry_fault::EntryFault;
use crate::keywords::{
    MeasurementKeyword, OperationKeyword, layout_in, measurement_keyword, order_in,
};
use crate::layout::Layout;
use crate::left::Left;
use crate::said::{integer_in, number_in, text_in, whole_number};
use a2l_text::Located;
use measured_values::{BitOperation, ByteOrder};
use std::alloc::Global;

/// What the options of a MEASUREMENT say (ASAM MCD-2 MC, MEASUREMENT).
#[derive(Drop)]
pub struct MeasurementOptions {
    pub order: Option<ByteOrder>,
    pub mask: Option<u64>,
    /// A BIT_OPERATION stands there.
    pub operates: bool,
    /// LEFT_SHIFT.
    pub left: Option<u8>,
    /// RIGHT_SHIFT.
    pub right: Option<u8>,
    /// SIGN_EXTEND.
    pub extends_sign: bool,
    pub address: Option<u32>,
    pub unit: Option<String>,
    /// The dimensions of an array, without those of 1 at their end (MATRIX_DIM).
    pub dimensions: Option<Vec<u64>>,
    /// The same of an array of one dimension (ARRAY_SIZE).
    pub size: Option<Vec<u64>>,
    /// In which order the elements of an array stand (LAYOUT).
    pub layout: Option<Layout>,
    /// Its address has an extension other than 0.
    pub apart: bool,
}

impl MeasurementOptions {
    fn none() -> MeasurementOptions
        ensures { options_seen result ≡ no_options }
    {
        MeasurementOptions {
            order: None,
            mask: None,
            operates: false,
            left: None,
            right: None,
            extends_sign: false,
            address: None,
            unit: None,
            dimensions: None,
            size: None,
            layout: None,
            apart: false,
        }
    }

    /// These options, and others for what these leave open.
    fn or(self, others: MeasurementOptions) -> MeasurementOptions
        ensures { options_seen result ≡ options_or (options_seen self) (options_seen others) }
    {
        MeasurementOptions {
            order: self.order.or(others.order),
            mask: self.mask.or(others.mask),
            operates: self.operates | others.operates,
            left: self.left.or(others.left),
            right: self.right.or(others.right),
            extends_sign: self.extends_sign | others.extends_sign,
            address: self.address.or(others.address),
            unit: self.unit.or(others.unit),
            dimensions: self.dimensions.or(others.dimensions),
            size: self.size.or(others.size),
            layout: self.layout.or(others.layout),
            apart: self.apart | others.apart,
        }
    }

    /// What is done behind the mask, if a BIT_OPERATION says so.
    pub fn operation(&self) -> Option<BitOperation>
        ensures { result ≡ operation_of (options_seen self.now) }
    {
        if !self.operates {
            return None;
        }
        Some(BitOperation {
            left: self.left.unwrap_or(0),
            right: self.right.unwrap_or(0),
            extends_sign: self.extends_sign,
        })
    }

    /// The dimensions of an array, without those of 1 at their end: MATRIX_DIM counts, and
    /// ARRAY_SIZE without it. A single value has none.
    pub fn dims(&self) -> &[u64]
        ensures { result.now ≡ dims_of (options_seen self.now) }
    {
        match (&self.dimensions, &self.size) {
            (Some(dims), _) => dims,
            (None, Some(dims)) => dims,
            (None, None) => &[],
        }
    }

    /// In which order the elements of an array stand: row by row, unless LAYOUT says otherwise.
    pub fn layout(&self) -> Layout
        ensures { result ≡ layout_of (options_seen self.now) }
    {
        self.layout.unwrap_or(Layout::Rows)
    }

    /// Whether its elements, if it is an array, are at most 65,536 and at least one, and stand in
    /// an order that is known: one of columns is, in two dimensions.
    pub fn has_shape(&self) -> bool
        ensures { result ≡ has_shape (options_seen self.now) }
    {
        let dims = self.dims();
        if element_count(dims).is_none() {
            return false;
        }
        match self.layout() {
            Layout::Rows => true,
            Layout::Columns => dims.len() <= 2,
        }
    }
}

/// The options that words give. Of an option that is given twice the first counts.
pub fn measurement_options(
    alloc: Global,
    left: Left<'_, '_>,
) -> Result<MeasurementOptions, EntryFault>
    ensures { Gives options_seen result (options_said (tokens_of left.entry)) }
{
    let mut options = MeasurementOptions::none();
    let mut rest = left;
    while let Some((word, words)) = rest.words.split_first() {
        let keyword = measurement_keyword(*word);
        let behind = Left {
            words,
            end: rest.end,
        };
        let one = option_of(alloc, keyword, behind)?;
        rest = behind.behind(keyword.arguments())?;
        options = options.or(one);
    }
    Ok(options)
}

/// What one option says, by the words behind its keyword.
#[tactic(auto, unfolding(crate::specs::MeasurementSaid::option_said))]
fn option_of(
    alloc: Global,
    keyword: MeasurementKeyword,
    left: Left<'_, '_>,
) -> Result<MeasurementOptions, EntryFault>
    ensures { Gives options_seen result (option_said keyword (tokens_of left.entry)) }
{
    match keyword {
        MeasurementKeyword::Order => order_option(left),
        MeasurementKeyword::Mask => mask_option(left),
        MeasurementKeyword::Operation(keyword) => operation_option(keyword, left),
        MeasurementKeyword::Address => address_option(left),
        MeasurementKeyword::Extension => extension_option(left),
        MeasurementKeyword::Unit => unit_option(alloc, left),
        MeasurementKeyword::Size => size_option(alloc, left),
        MeasurementKeyword::Dimensions => dimensions_option(alloc, left),
        MeasurementKeyword::Layout => layout_option(left),
        MeasurementKeyword::One | MeasurementKeyword::Two | MeasurementKeyword::Other => {
            Ok(MeasurementOptions::none())
        }
    }
}

/// What BYTE_ORDER says.
#[tactic(auto, unfolding(crate::specs::MeasurementSaid::option_said))]
fn order_option(left: Left<'_, '_>) -> Result<MeasurementOptions, EntryFault>
    ensures { Gives options_seen result (option_said option.Order (tokens_of left.entry)) }
{
    let (word, _) = left.first(Awaited::ByteOrder)?;
    let order = order_in(word)?;
    let mut options = MeasurementOptions::none();
    options.order = Some(order);
    Ok(options)
}

/// What BIT_MASK says.
#[tactic(auto, unfolding(crate::specs::MeasurementSaid::option_said))]
fn mask_option(left: Left<'_, '_>) -> Result<MeasurementOptions, EntryFault>
    ensures { Gives options_seen result (option_said option.Mask (tokens_of left.entry)) }
{
    let (word, _) = left.first(Awaited::Mask)?;
    let mask = mask_in(word)?;
    let mut options = MeasurementOptions::none();
    options.mask = Some(mask);
    Ok(options)
}

/// What ECU_ADDRESS says.
#[tactic(auto, unfolding(crate::specs::MeasurementSaid::option_said))]
fn address_option(left: Left<'_, '_>) -> Result<MeasurementOptions, EntryFault>
    ensures { Gives options_seen result (option_said option.Address (tokens_of left.entry)) }
{
    let (word, _) = left.first(Awaited::Address)?;
    let address = address_in(word)?;
    let mut options = MeasurementOptions::none();
    options.address = Some(address);
    Ok(options)
}

/// What ECU_ADDRESS_EXTENSION says.
#[tactic(auto, unfolding(crate::specs::MeasurementSaid::option_said))]
fn extension_option(left: Left<'_, '_>) -> Result<MeasurementOptions, EntryFault>
    ensures { Gives options_seen result (option_said option.Extension (tokens_of left.entry)) }
{
    let (word, _) = left.first(Awaited::Number)?;
    let apart = is_extended(word)?;
    let mut options = MeasurementOptions::none();
    options.apart = apart;
    Ok(options)
}

/// What PHYS_UNIT says.
#[tactic(auto, unfolding(crate::specs::MeasurementSaid::option_said))]
fn unit_option(alloc: Global, left: Left<'_, '_>) -> Result<MeasurementOptions, EntryFault>
    ensures { Gives options_seen result (option_said option.Unit (tokens_of left.entry)) }
{
    let (word, _) = left.first(Awaited::Text)?;
    let unit = text_in(alloc, word)?;
    let mut options = MeasurementOptions::none();
    options.unit = Some(unit);
    Ok(options)
}

/// What ARRAY_SIZE says.
#[tactic(auto, unfolding(crate::specs::MeasurementSaid::option_said))]
fn size_option(alloc: Global, left: Left<'_, '_>) -> Result<MeasurementOptions, EntryFault>
    ensures { Gives options_seen result (option_said option.Size (tokens_of left.entry)) }
{
    let (word, _) = left.first(Awaited::Integer)?;
    let size = integer_in(word)?;
    let dims = dimension_of(alloc, size)?;
    let mut options = MeasurementOptions::none();
    options.size = Some(dims);
    Ok(options)
}

/// What MATRIX_DIM says.
#[tactic(auto, unfolding(crate::specs::MeasurementSaid::option_said))]
fn dimensions_option(alloc: Global, left: Left<'_, '_>) -> Result<MeasurementOptions, EntryFault>
    ensures { Gives options_seen result (option_said option.Dimensions (tokens_of left.entry)) }
{
    let dims = dimensions_in(alloc, left)?;
    let mut options = MeasurementOptions::none();
    options.dimensions = Some(dims);
    Ok(options)
}

/// What LAYOUT says.
#[tactic(auto, unfolding(crate::specs::MeasurementSaid::option_said))]
fn layout_option(left: Left<'_, '_>) -> Result<MeasurementOptions, EntryFault>
    ensures { Gives options_seen result (option_said option.Layout (tokens_of left.entry)) }
{
    let (word, _) = left.first(Awaited::Layout)?;
    let layout = layout_in(word)?;
    let mut options = MeasurementOptions::none();
    options.layout = Some(layout);
    Ok(options)
}

/// What a word of BIT_OPERATION says, by the words behind it.
#[tactic(auto, unfolding(crate::specs::MeasurementSaid::operation_said))]
fn operation_option(
    keyword: OperationKeyword,
    left: Left<'_, '_>,
) -> Result<MeasurementOptions, EntryFault>
    ensures { Gives options_seen result (operation_said keyword (tokens_of left.entry)) }
{
    match keyword {
        OperationKeyword::Name => {
            let mut options = MeasurementOptions::none();
            options.operates = true;
            Ok(options)
        }
        OperationKeyword::Left => {
            let shift = first_shift(left)?;
            let mut options = MeasurementOptions::none();
            options.left = Some(shift);
            Ok(options)
        }
        OperationKeyword::Right => {
            let shift = first_shift(left)?;
            let mut options = MeasurementOptions::none();
            options.right = Some(shift);
            Ok(options)
        }
        OperationKeyword::Sign => {
            let mut options = MeasurementOptions::none();
            options.extends_sign = true;
            Ok(options)
        }
    }
}

/// By how many bits a value is moved, as the first word says.
fn first_shift(left: Left<'_, '_>) -> Result<u8, EntryFault>
    ensures { Gives (λ x. x) result (shift_first (tokens_of left.entry)) }
{
    let (word, _) = left.first(Awaited::Shift)?;
    shift_in(word)
}

/// By how many bits a value is moved: 0 to 63.
#[tactic(auto, unfolding(crate::specs::MeasurementSaid::shift_said))]
fn shift_in(word: Located<'_>) -> Result<u8, EntryFault>
    ensures { Gives (λ x. x) result (shift_said (token_at word.entry)) }
{
    let bits = integer_in(word)?;
    if bits > 63 {
        return Err(EntryFault::Awaited(word.at, Awaited::Shift));
    }
    Ok(bits as u8)
}

/// A mask, of which a bit is set.
#[tactic(auto, unfolding(crate::specs::MeasurementSaid::mask_said))]
fn mask_in(word: Located<'_>) -> Result<u64, EntryFault>
    ensures { Gives (λ x. x) result (mask_said (token_at word.entry)) }
{
    let mask = integer_in(word)?;
    if mask == 0 {
        return Err(EntryFault::Awaited(word.at, Awaited::Mask));
    }
    Ok(mask)
}

/// An address, of 32 bits.
#[tactic(auto, unfolding(crate::specs::MeasurementSaid::address_said))]
fn address_in(word: Located<'_>) -> Result<u32, EntryFault>
    ensures { Gives (λ x. x) result (address_said (token_at word.entry)) }
{
    let address = integer_in(word)?;
    match u32::try_from(address) {
        Ok(address) => Ok(address),
        Err(_) => Err(EntryFault::Awaited(word.at, Awaited::Address)),
    }
}

/// Whether a number, an extension of an address, is other than 0.
#[tactic(auto, unfolding(crate::specs::MeasurementSaid::extended_said))]
fn is_extended(word: Located<'_>) -> Result<bool, EntryFault>
    ensures { Gives (λ x. x) result (extended_said (token_at word.entry)) }
{
    number_in(word)?;
    match whole_number(word) {
        Some(extension) => Ok(extension != 0),
        None => Ok(true),
    }
}
