//! The values of samples are counted, column by column.
ghost use Rattle.std.specs.Prelude.{◌≡◌, ◌↔◌, ◌<◌, [], All, IfOk, IfSome, IsSome, Option, Some};
ghost use Rattle.std.specs.Prelude.{length, option_map, reverse, slice_get};
ghost use Rattle.std.specs.Option.{option_copied};
ghost use Rattle.copy_plan.specs.Config.{ListPlan};
ghost use Rattle.value_tables.specs.Lists.{HasSources};
ghost use Rattle.measured_values.specs.Tallies.{IsTally};
ghost use Rattle.value_tables.specs.ValueTallies.{Notes, NotesFirst, NotesIn, numbers_of};
ghost use Rattle.value_tables.specs.declared.column.Column.{Column};

use crate::column::Column;
use crate::list_columns::{ListColumns, list_at, lists_of};
use crate::source::Source;
use crate::value::number_at;
use daq_reader::{ListShape, SampleLog, SampleView, Samples};
use measured_values::Tally;
use std::alloc::{AllocError, Global};
use std::marker::Model;

/// Counts the values of each column in the samples that it is handed.
#[derive(Drop)]
pub struct ValueTallies<'a> {
    columns: Vec<Column<'a>>,
    lists: Vec<ListColumns>,
    tallies: Vec<Tally>,
    log: SampleLog,
}

impl<'a> Model for ValueTallies<'a> {
    ghost use Rattle.std.specs.Prelude.{◌≡◌, All, length, reverse};
    ghost use Rattle.value_tables.specs.Lists.{HasSources, plans_of};
    ghost use Rattle.value_tables.specs.ValueTallies.{AreTallies, TalliesState};

    ghost Value = { TalliesState };

    ghost view = { λ a. record {
      plans = plans_of a.lists.items;
      columns = a.columns.items;
      samples = a.log.samples;
    } };

    ghost invariant = { λ a. (length a.tallies.items ≡ length a.columns.items)
        × All (HasSources a.columns.items) a.lists.items
        × AreTallies (plans_of a.lists.items) a.columns.items (reverse a.log.samples)
        a.tallies.items };
}

impl<'a> ValueTallies<'a> {
    /// No values of these columns; the samples will be those of DAQ lists of these shapes. Lack of
    /// memory is the only fault.
    pub fn new(
        alloc: Global,
        columns: Vec<Column<'a>>,
        shapes: Vec<ListShape>,
    ) -> Result<ValueTallies<'a>, AllocError>
        ensures { IfOk result (λ tallies. tallies ≡ record {
          plans = shapes.items;
          columns = columns.entry.items;
          samples = [];
        }) }
    {
        let lists = lists_of(alloc, shapes, &columns)?;
        let tallies = no_tallies(alloc, columns.len())?;
        Ok(ValueTallies {
            columns,
            lists,
            tallies,
            log: SampleLog::new(),
        })
    }

    /// The columns.
    pub fn columns(&self) -> &[Column<'a>]
        ensures { result.now ≡ self.now.columns }
    {
        &self.columns
    }

    /// The tally of the column at a place; `None` exactly if there is none.
    pub fn tally(&self, c: usize) -> Option<Tally>
        ensures some { IsSome result ↔ c < length self.now.columns }
        ensures value { IfSome result (λ tally. (column : Column)
            → slice_get self.now.columns c ≡ Some column
            → IsTally tally (numbers_of self.now.plans column (reverse self.now.samples))) }
    {
        tally_at(&self.tallies, c)
    }
}

impl<'a> Samples for ValueTallies<'a> {
    ghost use Rattle.value_tables.specs.ValueTallies.{TalliesStart};

    ghost handed = { λ a. a.samples };

    ghost Kept = { TalliesStart };

    ghost kept = { λ a. record { plans = a.plans; columns = a.columns } };

    /// Counts the values of the sample.
    fn hand(&mut self, place: usize, sample: &SampleView<'_>) {
        let list = list_at(&self.lists, place);
        note_in(&mut self.tallies, &self.columns, list, sample);
        // for the proof: clauses speak of the samples that were handed over
        self.log.note(place, sample);
    }
}

/// The tally at a place; `None` exactly if there is none.
fn tally_at(tallies: &[Tally], c: usize) -> Option<Tally>
    ensures { result ≡ slice_get tallies.now c }
{
    tallies.get(c).copied()
}

/// So many tallies of no values.
fn no_tallies(alloc: Global, columns: usize) -> Result<Vec<Tally>, AllocError>
    ensures lists { IfOk result (λ tallies. length tallies.items ≡ columns) }
    ensures none { IfOk result (λ tallies. All (λ t. IsTally t []) tallies.items) }
{
    let mut tallies = Vec::with_capacity(alloc, columns)?;
    for _ in 0..columns {
        tallies.push(Tally::new())?;
    }
    Ok(tallies)
}

/// Notes the value of each column in a sample of a list, if there is one.
fn note_in(
    tallies: &mut Vec<Tally>,
    columns: &[Column<'_>],
    list: Option<&ListColumns>,
    sample: &SampleView<'_>,
)
    requires columns { length columns.now ≡ length tallies.old.items }
    requires sources { IfSome list (λ l. HasSources columns.now l.now) }
    ensures each { (plan : Option ListPlan)
        → plan ≡ option_map (λ l. l.shape) (option_copied list.entry)
        → NotesIn sample.now.sample columns.now plan tallies.old.items tallies.new.items }
    ensures all { length tallies.new.items ≡ length tallies.old.items }
{
    if let Some(list) = list {
        note_all(tallies, columns, &list.sources, sample);
    }
}

/// Notes the value of each column in a sample.
fn note_all(
    tallies: &mut [Tally],
    columns: &[Column<'_>],
    sources: &[Option<Source>],
    sample: &SampleView<'_>,
)
    requires columns { length columns.now ≡ length tallies.old }
    requires sources { length sources.now ≡ length tallies.old }
    ensures { NotesFirst sample.now.sample columns.now sources.now (length tallies.old)
        tallies.old tallies.new }
{
    for c in 0..columns.len() {
        note_one(&mut tallies[c], &columns[c], sources[c], sample);
    }
}

/// Notes the value of a column in a sample, if it has one.
fn note_one(tally: &mut Tally, column: &Column<'_>, source: Option<Source>, sample: &SampleView<'_>)
    ensures { Notes sample.now.sample column.now source tally.old tally.new }
{
    if let Some(number) = number_at(sample, column, source) {
        tally.note(number);
    }
}
