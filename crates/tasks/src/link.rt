//! The slave's side of a task: samplers are handed out, ordered to start and stop lists,
//! ended, and taken back.
use crate::away::Away;
use crate::fault::HandFault;
use crate::handed::Handed;
use crate::rule::{Left, SlaveLine};
use crate::task::Task;
use crate::task_end::TaskEnd;
use channel_ring::{ControlRing, SendEnd};
use hand_over::{keep_newest, new_line};
use sampler::{Sampler, SamplerEnd};
use std::alloc::{AllocError, Global};
use std::marker::Model;
use std::snapshot::Snapshot;
use xcp_base::limits::MAX_CONTROL_RING;
use xcp_base::{ListId, ListSet};

/// The slave's side of a task.
///
/// At most two samplers are out: one that the task holds, and the newest. Nothing here waits for
/// the task.
#[derive(Drop)]
pub struct TaskLink<S: SendEnd> {
    line: SlaveLine<S>,
    older: Option<Away<S>>,
    newer: Option<Away<S>>,
}

impl<S: SendEnd> Model for TaskLink<S> {
    ghost use Rattle.std.specs.Prelude.{◌≡◌, ◌++◌, map};
    ghost use Rattle.tasks.specs.Inner.{out_of};
    ghost use Rattle.tasks.specs.Links.{LinkState};
    ghost use Rattle.tasks.specs.Ways.{left_of};

    ghost Value = { LinkState S };

    ghost view = { λ l. record {
      ring = l.line.ring;
      came = map (left_of S.End.RingEnd) l.line.came;
      coming = map (left_of S.End.RingEnd) l.line.coming;
      older = l.older;
      newer = l.newer;
    } };

    ghost invariant = { λ l. l.line.out ≡ out_of l.older ++ out_of l.newer };
}

ghost use Rattle.std.specs.Prelude.{◌≡◌, ◌⊎◌, ℕ, ◌<◌, ◌&&◌, ◌++◌, Bool, List, [], None, Some, true};
ghost use Rattle.std.specs.Prelude.{false, Err};
ghost use Rattle.std.specs.Prelude.{IfErr, IfOk, IfSome, IsNone, IsSome, OnErr, OnOk};
ghost use Rattle.std.specs.Option.{is_some};
ghost use Rattle.xcp_base.specs.declared.limits.TheConstants.{MAX_LISTS};
ghost use Rattle.xcp_base.specs.Lists.{has_list};
ghost use Rattle.tasks.specs.Inner.{Comes, ComesOf, IsFinishedOf, IsNextOver, IsTakenOf};
ghost use Rattle.tasks.specs.Inner.{Leaves, RecallsNewest, out_of};
ghost use Rattle.tasks.specs.Links.{AnswersHandOut, AwayState, CanStart, EndsNewest, HandsOut};
ghost use Rattle.tasks.specs.Links.{IsBackBy, LooksAtNewest, NoneIsBack, SendsToNewest};
ghost use Rattle.tasks.specs.Links.{hand_refusal, is_here, is_out, is_running, just_linked};
ghost use Rattle.tasks.specs.Links.{just_out, takes_orders, without};
ghost use Rattle.tasks.specs.Tasks.{HeldState, just_begun};
ghost use Rattle.tasks.specs.Ways.{LeavesBy};
ghost use Rattle.tasks.specs.declared.lost.Lost.{Lost};
ghost use Rattle.channel_ring.specs.declared.order.Order.TheVariants.{Start, Stop, End};

/// A sampler to be handed out, and what the slave keeps of it; or it comes back, if there is no
/// memory.
fn ready<S: SendEnd>(alloc: Global, sampler: Sampler<S>) -> Result<(Handed<S>, Away<S>), Sampler<S>>
    ensures away { IfOk result (λ made. made.1 ≡ just_out sampler made.0.orders) }
    ensures handed { IfOk result (λ made. made.0.sampler ≡ sampler) }
    ensures no_order { IfOk result (λ made. made.0.orders.received ≡ []) }
    ensures back { IfErr result (λ back. back ≡ sampler) }
{
    let Ok((send, take)) = ControlRing::with_end(alloc, MAX_CONTROL_RING) else {
        return Err(sampler);
    };
    let running = ListSet::from_bits(sampler.running());
    let handed = Handed {
        sampler,
        orders: take,
    };
    let away = Away {
        orders: send,
        went: Snapshot::of(&handed),
        running,
        ended: false,
        out: true,
        here: None,
    };
    Ok((handed, away))
}

/// Whether the newest takes orders.
fn newest_takes_orders<S: SendEnd>(newer: &Option<Away<S>>) -> bool
    ensures { result ≡ takes_orders newer.now }
{
    match newer {
        Some(away) => away.takes_orders(),
        None => false,
    }
}

/// Whether two are out.
fn are_two_out<S: SendEnd>(older: &Option<Away<S>>, newer: &Option<Away<S>>) -> bool
    ensures { result ≡ (is_some older.now && is_some newer.now) }
{
    older.is_some() && newer.is_some()
}

/// The set of the lists that run by the orders sent to the newest.
fn running_of<S: SendEnd>(newer: &Option<Away<S>>) -> ListSet
    ensures { (l : ℕ) → l < MAX_LISTS → has_list result l ≡ is_running newer.now l }
{
    match newer {
        Some(away) => away.running(),
        None => ListSet::none(),
    }
}

/// Whether starts of these lists find places at the newest.
fn newest_can_start<S: SendEnd>(newer: &mut Option<Away<S>>, lists: ListSet) -> bool
    ensures yes { result ≡ true → CanStart newer.new (has_list lists) }
    ensures no { result ≡ false → ¬ CanStart newer.new (has_list lists) }
    ensures looked { LooksAtNewest newer.old newer.new }
    ensures out_stays { out_of newer.new ≡ out_of newer.old }
{
    match newer {
        Some(away) => away.can_start(lists),
        None => false,
    }
}

/// Sends a start to the newest.
fn start_of<S: SendEnd>(newer: &mut Option<Away<S>>, l: ListId)
    requires checked { (lists : ℕ → Bool) × (lists l ≡ true) × CanStart newer.old lists }
    ensures sends { SendsToNewest newer.old newer.new (Start l) }
    ensures others { (lists : ℕ → Bool) → lists l ≡ true → CanStart newer.old lists
        → CanStart newer.new (without l lists) }
{
    if let Some(away) = newer {
        away.start(l);
    }
}

/// Sends a stop to the newest.
fn stop_of<S: SendEnd>(newer: &mut Option<Away<S>>, l: ListId)
    requires runs { is_running newer.old l ≡ true }
    ensures { SendsToNewest newer.old newer.new (Stop l) }
{
    if let Some(away) = newer {
        away.stop(l);
    }
}

/// Sends an order to end to the newest.
fn end_of<S: SendEnd>(newer: &mut Option<Away<S>>)
    requires takes_orders { takes_orders newer.old ≡ true }
    ensures { SendsToNewest newer.old newer.new End }
{
    if let Some(away) = newer {
        away.end();
    }
}

/// Ends the newest without an order.
fn end_unordered<S: SendEnd>(newer: &mut Option<Away<S>>)
    ensures none { newer.old ≡ None → newer.new ≡ None }
    ensures some { (a : AwayState S) → newer.old ≡ Some a
        → newer.new ≡ Some (record a { ended = true }) }
{
    if let Some(away) = newer {
        away.end_unordered();
    }
}

/// Whether it is out.
fn is_out<S: SendEnd>(away: &Option<Away<S>>) -> bool
    ensures { result ≡ is_out away.now }
{
    match away {
        Some(away) => away.is_out(),
        None => false,
    }
}

/// The newest was recalled.
fn recall_to<S: SendEnd>(newer: &mut Option<Away<S>>, handed: Handed<S>)
    requires { (a : AwayState S) → newer.old ≡ Some a
        → handed ≡ record { sampler = a.sampler; orders = a.went } }
    ensures none { newer.old ≡ None → newer.new ≡ None }
    ensures recalled { (a : AwayState S) → newer.old ≡ Some a
        → newer.new ≡ Some (record a { out = false; here = true }) }
{
    if let Some(away) = newer {
        away.recall(handed);
    }
}

/// What is left of a sampler that was handed out, if it was recalled.
fn finished_of<S: SendEnd>(away: &mut Option<Away<S>>) -> Option<Left<S>>
    ensures some { IfSome result (λ left. (a : AwayState S) × (away.old ≡ Some a)
        × IsFinishedOf S.SendEnd S.End.RingEnd a left) }
    ensures none { IsNone result → away.new ≡ away.old }
    ensures not_here { is_here away.new ≡ false }
    ensures leaves { Leaves away.old away.new }
    ensures out_stays { out_of away.new ≡ out_of away.old }
{
    match away {
        Some(away) => away.finish(),
        None => None,
    }
}

/// What is left of the oldest that is out, if it came back.
fn arrived_of<S: SendEnd>(line: &mut SlaveLine<S>, away: &mut Option<Away<S>>) -> Option<Left<S>>
    requires oldest { (more : List (HeldState S)) × (line.old.out ≡ out_of away.old ++ more) }
    ensures some { IfSome result (λ left. (a : AwayState S) × (away.old ≡ Some a)
        × IsNextOver S.SendEnd S.End.RingEnd line.old line.new a left) }
    ensures none { IsNone result → (line.new ≡ line.old) × (away.new ≡ away.old) }
    ensures no_more { IsNone result → is_out away.old ≡ true → line.old.coming ≡ [] }
    ensures out { (more : List (HeldState S)) → line.old.out ≡ out_of away.old ++ more
        → line.new.out ≡ out_of away.new ++ more }
    ensures leaves { Leaves away.old away.new }
    ensures not_out { IsSome result → is_out away.new ≡ false }
    ensures here_stays { is_here away.new ≡ is_here away.old }
    ensures ring_stays { line.new.ring ≡ line.old.ring }
{
    let Some(away) = away else {
        return None;
    };
    if !away.is_out() {
        return None;
    }
    let left = line.take()?;
    away.arrive();
    Some(left)
}

/// What is left of a sampler that was handed out: it was recalled; or it is the oldest that is out,
/// and came back.
fn bring<S: SendEnd>(line: &mut SlaveLine<S>, away: &mut Option<Away<S>>) -> Option<Left<S>>
    requires oldest { (more : List (HeldState S)) × (line.old.out ≡ out_of away.old ++ more) }
    ensures some { IfSome result (λ left. (a : AwayState S) × (away.old ≡ Some a)
        × ComesOf S.SendEnd S.End.RingEnd line.old line.new a left) }
    ensures none { IsNone result → (line.new ≡ line.old) × (away.new ≡ away.old) }
    ensures no_more { IsNone result → is_out away.old ≡ true → line.old.coming ≡ [] }
    ensures out { (more : List (HeldState S)) → line.old.out ≡ out_of away.old ++ more
        → line.new.out ≡ out_of away.new ++ more }
    ensures leaves { Leaves away.old away.new }
    ensures not_out { IsSome result → is_out away.new ≡ false }
    ensures not_here { is_here away.new ≡ false }
    ensures ring_stays { line.new.ring ≡ line.old.ring }
{
    if let Some(left) = finished_of(away) {
        return Some(left);
    }
    arrived_of(line, away)
}

/// The end of a sampler that was handed out in what came back of it, unless it was lost.
fn taken_of<S: SendEnd>(
    away: &mut Option<Away<S>>,
    left: Left<S>,
) -> Option<(SamplerEnd<S::End>, usize)>
    requires left { (a : AwayState S) → away.old ≡ Some a
        → LeavesBy S.SendEnd S.End.RingEnd a.sampler a.went left }
    ensures back { IfSome result (λ back. (a : AwayState S) × (away.old ≡ Some a)
        × IsTakenOf S.SendEnd S.End.RingEnd a left back) }
    ensures lost { IsNone result → IsSome away.old → (lost : Lost) × (left.0 ≡ Err lost) }
    ensures looked { LooksAtNewest away.old away.new }
    ensures out_stays { is_out away.new ≡ is_out away.old }
    ensures here_stays { is_here away.new ≡ is_here away.old }
{
    match away {
        Some(away) => away.take(left),
        None => None,
    }
}

/// What came back of a sampler that was handed out, of which nothing is kept then; unless it was
/// lost.
fn back_of<S: SendEnd>(
    away: &mut Option<Away<S>>,
    left: Left<S>,
) -> Option<(SamplerEnd<S::End>, usize)>
    requires left { (a : AwayState S) → away.old ≡ Some a
        → LeavesBy S.SendEnd S.End.RingEnd a.sampler a.went left }
    requires not_out { is_out away.old ≡ false }
    ensures back { IfSome result (λ back. (a : AwayState S) × (away.old ≡ Some a)
        × IsTakenOf S.SendEnd S.End.RingEnd a left back) }
    ensures lost { IsNone result → IsSome away.old → (lost : Lost) × (left.0 ≡ Err lost) }
    ensures some { IsSome result → away.new ≡ None }
    ensures none { IsNone result → LooksAtNewest away.old away.new }
    ensures out { is_out away.new ≡ false }
    ensures not_here { is_here away.old ≡ false → is_here away.new ≡ false }
{
    let back = taken_of(away, left)?;
    *away = None;
    Some(back)
}

impl<S: SendEnd> TaskLink<S> {
    /// A task, and the slave's side of it.
    pub fn new(alloc: Global) -> Result<(TaskLink<S>, Task<S>), AllocError>
        ensures link { IfOk result (λ made. made.0 ≡ just_linked made.1.ring) }
        ensures task { IfOk result (λ made. made.1 ≡ just_begun made.0.ring) }
    {
        let (line, theirs) = new_line(alloc)?;
        let link = TaskLink {
            line,
            older: None,
            newer: None,
        };
        let task = Task {
            line: theirs,
            held: None,
        };
        Ok((link, task))
    }

    /// Hands the sampler of a new measurement out, with rings of its own for its orders and its way
    /// back.
    ///
    /// Refused, in this order: with `NotEnded`, if the measurement before it takes orders; with
    /// `Busy`, if two are out, or if the task was at the place just then; with `Memory`. Then the
    /// sampler comes back, and nothing has changed.
    pub fn hand_out(
        &mut self,
        alloc: Global,
        sampler: Sampler<S>,
    ) -> Result<(), (HandFault, Sampler<S>)>
        ensures answer { AnswersHandOut (hand_refusal self.old) result }
        ensures ok { OnOk result (HandsOut self.old self.new sampler) }
        ensures back { IfErr result (λ e. e.1 ≡ sampler) }
        ensures err { OnErr result (self.new ≡ self.old) }
    {
        if newest_takes_orders(&self.newer) {
            return Err((HandFault::NotEnded, sampler));
        }
        if are_two_out(&self.older, &self.newer) {
            return Err((HandFault::Busy, sampler));
        }
        match ready(alloc, sampler) {
            Ok((handed, away)) => self.put(handed, away),
            Err(sampler) => Err((HandFault::Memory, sampler)),
        }
    }

    /// Puts a sampler into the place, and keeps what the slave keeps of it.
    fn put(&mut self, handed: Handed<S>, away: Away<S>) -> Result<(), (HandFault, Sampler<S>)>
        requires one { away ≡ just_out handed.sampler handed.orders }
        requires no_order { handed.orders.received ≡ [] }
        requires room { (is_some self.old.older && is_some self.old.newer) ≡ false }
        ensures ok { OnOk result (HandsOut self.old self.new handed.sampler) }
        ensures busy { IfErr result (λ e. e.0 ≡ HandFault.Busy) }
        ensures back { IfErr result (λ e. e.1 ≡ handed.sampler) }
        ensures err { OnErr result (self.new ≡ self.old) }
    {
        if let Err(handed) = self.line.lend(handed) {
            return Err((HandFault::Busy, handed.into_sampler()));
        }
        keep_newest(&mut self.older, &mut self.newer, away);
        Ok(())
    }

    /// The set of the DAQ lists that run by the orders that were sent to it.
    pub fn running(&self) -> ListSet
        ensures { (l : ℕ) → l < MAX_LISTS → has_list result l ≡ is_running self.now.newer l }
    {
        running_of(&self.newer)
    }

    /// Looks at the ring of its orders, and returns whether starts of all these lists find places,
    /// with the stops of all lists that then run and an order to end: then at most
    /// `MAX_CONTROL_RING` starts and stops wait.
    pub fn can_start(&mut self, lists: ListSet) -> bool
        ensures yes { result ≡ true → CanStart self.new.newer (has_list lists) }
        ensures no { result ≡ false → ¬ CanStart self.new.newer (has_list lists) }
        ensures looked { LooksAtNewest self.old.newer self.new.newer }
        ensures rest_stays { self.new ≡ record self.old { newer = self.new.newer } }
    {
        newest_can_start(&mut self.newer, lists)
    }

    /// Sends the start of a list that was checked by `can_start`, alone or with others, which then
    /// still find places. It takes no memory.
    pub fn start(&mut self, l: ListId)
        requires checked { (lists : ℕ → Bool) × (lists l ≡ true) × CanStart self.old.newer lists }
        ensures sends { SendsToNewest self.old.newer self.new.newer (Start l) }
        ensures others { (lists : ℕ → Bool) → lists l ≡ true → CanStart self.old.newer lists
            → CanStart self.new.newer (without l lists) }
        ensures rest_stays { self.new ≡ record self.old { newer = self.new.newer } }
    {
        start_of(&mut self.newer, l);
    }

    /// Sends the stop of a list that runs. It always finds a place, and takes no memory.
    pub fn stop(&mut self, l: ListId)
        requires runs { is_running self.old.newer l ≡ true }
        ensures sends { SendsToNewest self.old.newer self.new.newer (Stop l) }
        ensures rest_stays { self.new ≡ record self.old { newer = self.new.newer } }
    {
        stop_of(&mut self.newer, l);
    }

    /// Recalls the sampler that was handed out last, if the task has not fetched it; whether it
    /// did.
    fn recall(&mut self) -> bool
        ensures yes { result ≡ true → RecallsNewest self.old self.new }
        ensures no { result ≡ false → self.new ≡ self.old }
    {
        if !is_out(&self.newer) {
            return false;
        }
        let Some(handed) = self.line.recall() else {
            return false;
        };
        recall_to(&mut self.newer, handed);
        true
    }

    /// Ends the measurement of the sampler that was handed out last, which takes no orders from
    /// then on. If the task has not fetched it, it is recalled; else an order to end is sent, which
    /// always finds a place. If it takes no orders, nothing changes.
    pub fn end(&mut self)
        ensures none { takes_orders self.old.newer ≡ false → self.new ≡ self.old }
        ensures ends { takes_orders self.old.newer ≡ true → EndsNewest self.old self.new }
    {
        if !newest_takes_orders(&self.newer) {
            return;
        }
        if self.recall() {
            end_unordered(&mut self.newer);
        } else {
            end_of(&mut self.newer);
        }
    }

    /// Looks at all that the task gave back so far, which was finished. From then on each of it is
    /// known to come.
    pub fn beside(&mut self, end: &mut TaskEnd<S>)
        requires one_line { end.old.ring ≡ self.old.ring }
        ensures all { self.new.came ++ self.new.coming ≡ end.old.gave }
        ensures no_more { is_out self.old.older ≡ false → is_out self.old.newer ≡ false
            → self.new.coming ≡ [] }
        ensures rest_stays { self.new ≡ record self.old { coming = self.new.coming } }
        ensures end_stays { end.new ≡ end.old }
    {
        self.line.beside(&mut end.line);
    }

    /// What came back of the older sampler, with the number of orders that were not carried out.
    pub fn take_older(&mut self) -> Option<(SamplerEnd<S::End>, usize)>
        ensures back { IfSome result (λ back. (a : AwayState S) × (self.old.older ≡ Some a)
            × IsBackBy S.SendEnd S.End.RingEnd self.old self.new a back.0 back.1) }
        ensures some { IsSome result → self.new.older ≡ None }
        ensures none { IsNone result
            → NoneIsBack S.SendEnd self.old self.new false self.old.older self.new.older }
        ensures rest_stays { self.new
            ≡ record self.old {
              came = self.new.came;
              coming = self.new.coming;
              older = self.new.older;
            } }
    {
        let left = self.bring_older()?;
        back_of(&mut self.older, left)
    }

    /// What came back of the sampler that was handed out last, with the number of orders that were
    /// not carried out. It comes behind the older one. If its measurement has ended and the
    /// task has not fetched it, it is recalled.
    pub fn take_newer(&mut self) -> Option<(SamplerEnd<S::End>, usize)>
        ensures back { IfSome result (λ back. (a : AwayState S) × (self.old.newer ≡ Some a)
            × IsBackBy S.SendEnd S.End.RingEnd self.old self.new a back.0 back.1) }
        ensures some { IsSome result → self.new.newer ≡ None }
        ensures none { IsNone result
            → NoneIsBack S.SendEnd self.old self.new (is_out self.old.older)
            self.old.newer self.new.newer }
        ensures rest_stays { self.new
            ≡ record self.old {
              came = self.new.came;
              coming = self.new.coming;
              newer = self.new.newer;
            } }
    {
        self.recall_ended();
        let left = self.bring_newer()?;
        back_of(&mut self.newer, left)
    }

    /// Recalls the sampler that was handed out last, if its measurement has ended and the task has
    /// not fetched it.
    fn recall_ended(&mut self)
        ensures { (self.new ≡ self.old) ⊎ RecallsNewest self.old self.new }
    {
        if newest_takes_orders(&self.newer) {
            return;
        }
        let _ = self.recall();
    }

    /// What is left of the older sampler, if it is here or came.
    fn bring_older(&mut self) -> Option<Left<S>>
        ensures some { IfSome result (λ left. (a : AwayState S) × (self.old.older ≡ Some a)
            × Comes S.SendEnd S.End.RingEnd self.old self.new a left) }
        ensures none { IsNone result → self.new ≡ self.old }
        ensures no_more { IsNone result → is_out self.old.older ≡ true → self.old.coming ≡ [] }
        ensures leaves { Leaves self.old.older self.new.older }
        ensures not_out { IsSome result → is_out self.new.older ≡ false }
        ensures not_here { is_here self.new.older ≡ false }
        ensures rest_stays { self.new
            ≡ record self.old {
              came = self.new.came;
              coming = self.new.coming;
              older = self.new.older;
            } }
    {
        bring(&mut self.line, &mut self.older)
    }

    /// What is left of the sampler that was handed out last, as far as it came.
    fn bring_newer(&mut self) -> Option<Left<S>>
        ensures some { IfSome result (λ left. (a : AwayState S) × (self.old.newer ≡ Some a)
            × Comes S.SendEnd S.End.RingEnd self.old self.new a left) }
        ensures none { IsNone result → self.new ≡ self.old }
        ensures no_more { IsNone result → is_out self.old.older ≡ false
            → is_out self.old.newer ≡ true → self.old.coming ≡ [] }
        ensures waits { is_out self.old.older ≡ true → self.old.came ≡ self.new.came }
        ensures leaves { Leaves self.old.newer self.new.newer }
        ensures not_out { IsSome result → is_out self.new.newer ≡ false }
        ensures not_here { is_here self.new.newer ≡ false }
        ensures rest_stays { self.new
            ≡ record self.old {
              came = self.new.came;
              coming = self.new.coming;
              newer = self.new.newer;
            } }
    {
        if is_out(&self.older) {
            return finished_of(&mut self.newer);
        }
        bring(&mut self.line, &mut self.newer)
    }
}
