//! The options of a COMPU_METHOD are read: its coefficients, or the name of its table.
ghost use Rattle.std.specs.Prelude.{◌≡◌};
ghost use Rattle.a2l_entries.specs.declared.keywords.MethodKeyword.TheVariants as option;
ghost use Rattle.a2l_entries.specs.Gives.{Gives};
ghost use Rattle.a2l_entries.specs.Said.{tokens_of};
ghost use Rattle.a2l_entries.specs.MethodSaid.{method_options_seen, no_method_options};
ghost use Rattle.a2l_entries.specs.MethodSaid.{method_options_or, method_options_said};
ghost use Rattle.a2l_entries.specs.MethodSaid.{method_option_said, coefficients_said};

use crate::awaited::Awaited;
use crate::entry_fault::EntryFault;
use crate::keywords::{MethodKeyword, method_keyword};
use crate::left::Left;
use crate::said::{Reference, name_in};
use std::alloc::Global;

/// The six coefficients of a RAT_FUNC (ASAM MCD-2 MC, COEFFS): of a physical value `x` the raw
/// value is `(a * x * x + b * x + c) / (d * x * x + e * x + f)`.
#[derive(Clone, Copy)]
pub struct Coefficients {
    pub a: f64,
    pub b: f64,
    pub c: f64,
    pub d: f64,
    pub e: f64,
    pub f: f64,
}

/// The two coefficients of a LINEAR (ASAM MCD-2 MC, COEFFS_LINEAR): of a raw value `x` the physical
/// value is `factor * x + offset`.
#[derive(Clone, Copy)]
pub struct Line {
    pub factor: f64,
    pub offset: f64,
}

/// What the options of a COMPU_METHOD say (ASAM MCD-2 MC, COMPU_METHOD).
#[derive(Drop)]
pub struct MethodOptions {
    /// COEFFS.
    pub coefficients: Option<Coefficients>,
    /// COEFFS_LINEAR.
    pub line: Option<Line>,
    /// COMPU_TAB_REF: the name of a table of texts.
    pub table: Option<Reference>,
}

impl MethodOptions {
    /// No option is given.
    fn none() -> MethodOptions
        ensures { method_options_seen result ≡ no_method_options }
    {
        MethodOptions {
            coefficients: None,
            line: None,
            table: None,
        }
    }

    /// These options, and others for what these leave open.
    fn or(self, others: MethodOptions) -> MethodOptions
        ensures { method_options_seen result
            ≡ method_options_or (method_options_seen self) (method_options_seen others) }
    {
        MethodOptions {
            coefficients: self.coefficients.or(others.coefficients),
            line: self.line.or(others.line),
            table: self.table.or(others.table),
        }
    }
}

/// The options that words give. Of an option that is given twice the first counts.
pub fn method_options(alloc: Global, left: Left<'_, '_>) -> Result<MethodOptions, EntryFault>
    ensures { Gives method_options_seen result (method_options_said (tokens_of left.entry)) }
{
    let mut options = MethodOptions::none();
    let mut rest = left;
    while let Some((word, words)) = rest.words.split_first() {
        let keyword = method_keyword(*word);
        let behind = Left {
            words,
            end: rest.end,
        };
        let one = option_of(alloc, keyword, behind)?;
        rest = behind.behind(keyword.arguments())?;
        options = options.or(one);
    }
    Ok(options)
}

/// What one option says, by the words behind its keyword.
#[tactic(auto, unfolding(crate::specs::MethodSaid::method_option_said))]
fn option_of(
    alloc: Global,
    keyword: MethodKeyword,
    left: Left<'_, '_>,
) -> Result<MethodOptions, EntryFault>
    ensures { Gives method_options_seen result (method_option_said keyword (tokens_of left.entry)) }
{
    match keyword {
        MethodKeyword::Coefficients => coefficients_option(left),
        MethodKeyword::Linear => line_option(left),
        MethodKeyword::Table => table_option(alloc, left),
        MethodKeyword::One | MethodKeyword::Other => Ok(MethodOptions::none()),
    }
}

/// What COEFFS says.
#[tactic(auto, unfolding(crate::specs::MethodSaid::method_option_said))]
fn coefficients_option(left: Left<'_, '_>) -> Result<MethodOptions, EntryFault>
    ensures { Gives method_options_seen result
        (method_option_said option.Coefficients (tokens_of left.entry)) }
{
    let coefficients = coefficients_in(left)?;
    Ok(MethodOptions {
        coefficients: Some(coefficients),
        line: None,
        table: None,
    })
}

/// What COEFFS_LINEAR says.
#[tactic(auto, unfolding(crate::specs::MethodSaid::method_option_said))]
fn line_option(left: Left<'_, '_>) -> Result<MethodOptions, EntryFault>
    ensures { Gives method_options_seen result
        (method_option_said option.Linear (tokens_of left.entry)) }
{
    let (factor, left) = left.number()?;
    let (offset, _) = left.number()?;
    Ok(MethodOptions {
        coefficients: None,
        line: Some(Line { factor, offset }),
        table: None,
    })
}

/// What COMPU_TAB_REF says.
#[tactic(auto, unfolding(crate::specs::MethodSaid::method_option_said))]
fn table_option(alloc: Global, left: Left<'_, '_>) -> Result<MethodOptions, EntryFault>
    ensures { Gives method_options_seen result
        (method_option_said option.Table (tokens_of left.entry)) }
{
    let (word, _) = left.first(Awaited::Name)?;
    let name = name_in(alloc, word)?;
    let table = Reference { name, at: word.at };
    Ok(MethodOptions {
        coefficients: None,
        line: None,
        table: Some(table),
    })
}

/// The coefficients that the first six words say, from `a` to `f`.
#[tactic(auto, unfolding(crate::specs::MethodSaid::coefficients_said))]
fn coefficients_in(left: Left<'_, '_>) -> Result<Coefficients, EntryFault>
    ensures { Gives (λ x. x) result (coefficients_said (tokens_of left.entry)) }
{
    let (a, left) = left.number()?;
    let (b, left) = left.number()?;
    let (c, left) = left.number()?;
    let (d, left) = left.number()?;
    let (e, left) = left.number()?;
    let (f, _) = left.number()?;
    Ok(Coefficients { a, b, c, d, e, f })
}
