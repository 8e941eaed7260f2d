//! The words of a COMPU_METHOD are read: its name, its unit and its rule.
ghost use Rattle.std.specs.Prelude.{◌≡◌};
ghost use Rattle.a2l_entries.specs.Gives.{Gives};
ghost use Rattle.a2l_entries.specs.Said.{tokens_of};
ghost use Rattle.a2l_entries.specs.MethodSaid.{method_seen, method_said, rule_seen, rule_said};
ghost use Rattle.a2l_entries.specs.MethodSaid.{rational, is_straight, is_zero, method_options_seen};

use crate::awaited::Awaited;
use crate::entry_fault::EntryFault;
use crate::keywords::{MethodKind, method_kind};
use crate::left::Left;
use crate::method_options::{Coefficients, MethodOptions, method_options};
use crate::said::Reference;
use std::alloc::Global;

/// How physical values come of raw ones, before the tables are known.
#[derive(Drop)]
pub enum Rule {
    /// IDENTICAL.
    Identical,
    /// LINEAR, by COEFFS_LINEAR.
    Linear { factor: f64, offset: f64 },
    /// RAT_FUNC of a straight line, by COEFFS: the raw value is `(b * physical + c) / f`.
    Rational { b: f64, c: f64, f: f64 },
    /// TAB_VERB, by the table of this name.
    Texts(Reference),
    /// A method that isn't carried out.
    Other,
}

/// What a block COMPU_METHOD says (ASAM MCD-2 MC, COMPU_METHOD).
#[derive(Drop)]
pub struct MethodBlock {
    pub name: String,
    pub unit: String,
    pub rule: Rule,
}

/// What the words directly in a COMPU_METHOD say.
#[tactic(auto, unfolding(crate::specs::MethodSaid::method_said))]
pub fn method_of(alloc: Global, words: Left<'_, '_>) -> Result<MethodBlock, EntryFault>
    ensures { Gives method_seen result (method_said (tokens_of words.entry)) }
{
    let (name, left) = words.name(alloc)?;
    let left = left.behind_text()?;
    let (word, left) = left.first(Awaited::MethodKind)?;
    let kind = method_kind(word)?;
    let left = left.behind_text()?;
    let (unit, left) = left.text(alloc)?;
    let options = method_options(alloc, left)?;
    let rule = rule_of(kind, options, left.end)?;
    Ok(MethodBlock { name, unit, rule })
}

/// The rule of a method of this kind. `end` is the offset of the block's end.
#[tactic(auto, unfolding(crate::specs::MethodSaid::rule_said))]
fn rule_of(kind: MethodKind, options: MethodOptions, end: usize) -> Result<Rule, EntryFault>
    ensures { Gives rule_seen result (rule_said kind (method_options_seen options)) }
{
    match kind {
        MethodKind::Identical => Ok(Rule::Identical),
        MethodKind::Other => Ok(Rule::Other),
        MethodKind::Linear => match options.line {
            Some(line) => Ok(Rule::Linear {
                factor: line.factor,
                offset: line.offset,
            }),
            None => Err(EntryFault::Awaited(end, Awaited::Linear)),
        },
        MethodKind::Rational => match options.coefficients {
            Some(coefficients) => Ok(rational(coefficients)),
            None => Err(EntryFault::Awaited(end, Awaited::Coefficients)),
        },
        MethodKind::Verbal => match options.table {
            Some(table) => Ok(Rule::Texts(table)),
            None => Err(EntryFault::Awaited(end, Awaited::TableName)),
        },
    }
}

/// The rule of coefficients: they are carried out if they make a straight line.
fn rational(coefficients: Coefficients) -> Rule
    ensures { rule_seen result ≡ rational coefficients }
{
    if is_straight(coefficients) {
        let Coefficients { b, c, f, .. } = coefficients;
        return Rule::Rational { b, c, f };
    }
    Rule::Other
}

/// Whether the raw value is a multiple of the physical one, and a constant.
fn is_straight(coefficients: Coefficients) -> bool
    ensures { result ≡ is_straight coefficients }
{
    if !is_zero(coefficients.a) {
        return false;
    }
    if !is_zero(coefficients.d) {
        return false;
    }
    if !is_zero(coefficients.e) {
        return false;
    }
    if is_zero(coefficients.b) {
        return false;
    }
    !is_zero(coefficients.f)
}

/// Whether a coefficient is 0.
fn is_zero(number: f64) -> bool
    ensures { result ≡ is_zero number }
{
    number == 0.0
}
