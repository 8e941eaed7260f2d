//! The account of all measurements that came back, list by list.
ghost use Rattle.std.specs.Prelude.{◌≡◌, ◌≢◌, ℕ, ◌-◌, ◌<◌, Some, length, slice_get};
ghost use Rattle.xcp_base.specs.declared.limits.TheConstants.{MAX_LISTS};
ghost use Rattle.slave_channels.specs.Channels.{HasLine};
ghost use Rattle.slave_channels.specs.Accounts.{row, totals_in};
ghost use Rattle.slave_channels.specs.AccountInner.{AddsBelow, ChangesBelow, ChangesBy, advanced};
ghost use Rattle.slave_channels.specs.AccountInner.{changed, moved, plus};

use crate::Finished;
use crate::sums::{LAST, NO_SUMS, Sums};
use crate::totals::Totals;
use daq_engine::ListReport;
use std::marker::Model;
use xcp_base::limits::MAX_LISTS;
use xcp_base::{ListId, PerList};

/// The account of many measurements: of each DAQ list number the sums, over all parts of
/// measurements that came back, of what was due, written, dropped and left; and the sums of each
/// of the last four measurements alone. They are kept modulo 2^64.
///
/// The last four are those up to the greatest number of a measurement that a part came back of,
/// whoever fetched it. What comes back of an earlier one is of those before.
///
/// Contracts speak of its entries: of each part that was added, its measurement's number, the past
/// that its sampler came to, and what was done with its ring.
#[derive(Drop)]
pub struct Account {
    lists: PerList<Sums>,
    // behind the number of the last measurement
    end: u64,
}

impl Model for Account {
    ghost use Rattle.std.specs.Prelude.{◌≡◌, length};
    ghost use Rattle.xcp_base.specs.declared.limits.TheConstants.{MAX_LISTS};
    ghost use Rattle.slave_channels.specs.Accounts.{AccountState};

    ghost Value = { AccountState };

    ghost view = { λ a. record { lists = a.lists; end = a.end } };
}

/// The line of a list in a part that came back; of zeros, if its event channel doesn't have the
/// list.
fn line_of(finished: &Finished, l: ListId) -> ListReport
    ensures line { HasLine finished.now l result }
{
    match finished.line(l) {
        Some(line) => line,
        None => ListReport {
            list: l.byte(),
            due: 0,
            written: 0,
            dropped: 0,
            left: 0,
        },
    }
}

/// Totals as the line of a list.
fn line_from(l: ListId, totals: Totals) -> ListReport
    ensures list { result.list ≡ l }
    ensures totals { totals_in result ≡ totals }
{
    ListReport {
        list: l.byte(),
        due: totals.due,
        written: totals.written,
        dropped: totals.dropped,
        left: totals.left,
    }
}

/// Adds a line of a list, in the measurement with so many behind it.
fn add_line(lists: &mut PerList<Sums>, l: ListId, behind: u64, line: ListReport)
    ensures changes { ChangesBy lists.old lists.new l
        (changed behind (λ totals. plus totals line)) }
{
    let sums = lists.get(l);
    let totals = sums.row(behind).plus(line);
    lists.set(l, sums.with_row(behind, totals));
}

/// So many of the samples of a list that were written in that measurement are left.
fn move_some(lists: &mut PerList<Sums>, l: ListId, behind: u64, n: u64)
    ensures changes { ChangesBy lists.old lists.new l (changed behind (λ totals. moved totals n)) }
{
    let sums = lists.get(l);
    let totals = sums.row(behind).moved(n);
    lists.set(l, sums.with_row(behind, totals));
}

/// One measurement more begins in the sums of a list.
fn advance_list(lists: &mut PerList<Sums>, l: ListId)
    ensures changes { ChangesBy lists.old lists.new l advanced }
{
    let sums = lists.get(l).advanced();
    lists.set(l, sums);
}

/// One measurement more begins in the sums of all lists.
fn advance_lists(lists: &mut PerList<Sums>)
    ensures changes { ChangesBelow MAX_LISTS lists.old lists.new advanced }
{
    for l in 0..MAX_LISTS {
        advance_list(lists, ListId::at(l));
    }
}

/// Adds the lines of a part that came back, in the measurement with so many behind it.
fn add_lines(lists: &mut PerList<Sums>, behind: u64, finished: &Finished)
    ensures adds { AddsBelow finished.now behind MAX_LISTS lists.old lists.new }
{
    for l in 0..MAX_LISTS {
        let list = ListId::at(l);
        add_line(lists, list, behind, line_of(finished, list));
    }
}

impl Account {
    ghost use Rattle.std.specs.Prelude.{ℕ, [], ◌∷◌, ◌+◌, ◌-◌, ◌^◌, ◌<◌, ◌≤◌, ◌↔◌, ◌⊎◌, IfSome};
    ghost use Rattle.std.specs.Prelude.{IsNone, List, max};
    ghost use Rattle.slave_outbox.specs.Intakes.{StandsAfter};
    ghost use Rattle.slave_channels.specs.Channels.{IsPastOf};
    ghost use Rattle.slave_channels.specs.Accounts.{AccountStandsAfter, Entry, HasEntries};
    ghost use Rattle.slave_channels.specs.Accounts.{IsTotalLine, before, end_of, more_unsent};
    ghost use Rattle.slave_channels.specs.Accounts.{of_measurement, sum_before};
    ghost use Rattle.slave_channels.specs.declared.sums.TheConstants.{LAST};

    /// The account of no measurement.
    pub fn new() -> Account
        ensures stands { AccountStandsAfter result [] (λ m l. 0) }
    {
        Account {
            lists: PerList::of(NO_SUMS),
            end: 0,
        }
    }

    /// Adds a part of a measurement that came back.
    pub fn add(&mut self, finished: &Finished)
        ensures adds { (entry : Entry) → entry.number ≡ finished.now.number
            → entry.number + 1 < 2 ^ 64
            → IsPastOf finished.now entry.past
            → StandsAfter finished.now.intake entry.deeds
            → (entries : List Entry) (unsent : ℕ → ℕ → ℕ)
            → AccountStandsAfter self.old entries unsent
            → AccountStandsAfter self.new (entry ∷ entries) unsent }
    {
        let number = finished.number();
        self.reach(number.saturating_add(1));
        let behind = self.behind(number);
        add_lines(&mut self.lists, behind, finished);
    }

    /// So many samples of a list that were counted as written in parts of a measurement that came
    /// back were thrown away before they were sent: they are left.
    pub fn unsent(&mut self, number: u64, l: ListId, n: u64)
        ensures unsent { (entries : List Entry) (unsent : ℕ → ℕ → ℕ)
            → number < end_of entries → AccountStandsAfter self.old entries unsent
            → AccountStandsAfter self.new entries (more_unsent number l n unsent) }
    {
        let behind = self.behind(number);
        move_some(&mut self.lists, l, behind, n);
    }

    /// The number behind that of the last measurement.
    pub fn end(&self) -> u64
        ensures { result ≡ self.now.end }
    {
        self.end
    }

    /// The totals of a list over all measurements, as a line.
    pub fn line(&self, l: ListId) -> ListReport
        ensures line { (entries : List Entry) (unsent : ℕ → ℕ → ℕ)
            → AccountStandsAfter self.now entries unsent
            → IsTotalLine entries (sum_before (end_of entries) unsent l) l result }
    {
        line_from(l, self.lists.get(l).all())
    }

    /// The totals of a list in a measurement alone, as a line. `None` if the measurement isn't one
    /// of the last four.
    pub fn line_in(&self, number: u64, l: ListId) -> Option<ListReport>
        ensures some { IfSome result (λ line. (entries : List Entry) (unsent : ℕ → ℕ → ℕ)
            → AccountStandsAfter self.now entries unsent
            → IsTotalLine (of_measurement number entries) (unsent number l) l line) }
        ensures none { IsNone result
            ↔ ((self.now.end ≤ number) ⊎ (number + LAST < self.now.end)) }
    {
        if number >= self.end {
            return None;
        }
        let behind = self.behind(number);
        if behind >= LAST {
            return None;
        }
        Some(line_from(l, self.lists.get(l).row(behind)))
    }

    /// The totals of a list in all measurements before the last four, as a line.
    pub fn older_line(&self, l: ListId) -> ListReport
        ensures line { (entries : List Entry) (unsent : ℕ → ℕ → ℕ)
            → AccountStandsAfter self.now entries unsent
            → IsTotalLine (before (end_of entries - LAST) entries)
            (sum_before (end_of entries - LAST) unsent l) l result }
    {
        line_from(l, self.lists.get(l).older)
    }

    /// How many measurements are behind that of a number, up to the last.
    fn behind(&self, number: u64) -> u64
        ensures within { number < self.now.end → number + (result + 1) ≡ self.now.end }
    {
        self.end.saturating_sub(number).saturating_sub(1)
    }

    /// Begins measurements up to an end.
    fn reach(&mut self, end: u64)
        ensures reaches { self.new.end ≡ max self.old.end end }
        ensures keeps { (entries : List Entry) (unsent : ℕ → ℕ → ℕ)
            → HasEntries self.old entries unsent → HasEntries self.new entries unsent }
    {
        while self.end < end {
            self.advance();
        }
    }

    /// Begins one measurement more.
    fn advance(&mut self)
        requires small { self.old.end + 1 < 2 ^ 64 }
        ensures end { self.new.end ≡ self.old.end + 1 }
        ensures keeps { (entries : List Entry) (unsent : ℕ → ℕ → ℕ)
            → HasEntries self.old entries unsent → HasEntries self.new entries unsent }
    {
        advance_lists(&mut self.lists);
        self.end += 1;
    }
}
