//! A line is opened.
ghost use Rattle.std.specs.Prelude.{◌≡◌, [], IfOk, true};
ghost use Rattle.std.specs.Arc.{arc_value};
ghost use Rattle.rtrb.specs.Ring.{IsPair, known_free, received, sent};
ghost use Rattle.crossbeam_queue.specs.Passes.{IsPassOf, ruled_capacity, view};
ghost use Rattle.hand_over.specs.Places.{known};

use crate::borrower::Borrower;
use crate::known::{InTurn, Known, Roles, Shown};
use crate::lender::Lender;
use crate::parcel::{Backs, Parcel};
use crate::rule::Rule;
use crossbeam_queue::{Pass, RuledArrayQueue};
use rtrb::{Consumer, Producer, RingBuffer};
use std::alloc::{AllocError, Global};
use std::sync::Arc;

/// The place of a line.
type Place<T> = Arc<RuledArrayQueue<T, Known<T>, InTurn>>;

/// The most values that are out at a time: one that was fetched, and one in the place. What is left
/// of both has room on its way back.
const MOST_OUT: usize = 2;

/// The two ends of a line on which nothing was lent.
pub fn new_line<T: Drop, L: Drop, R: Rule<T, L>>(
    alloc: Global,
) -> Result<(Lender<T, L, R>, Borrower<T, L, R>), AllocError>
    ensures lender { IfOk result (λ ends. ends.0
        ≡ record { ring = ends.1.ring; out = []; came = []; coming = [] }) }
    ensures borrower { IfOk result (λ ends. ends.1
        ≡ record { ring = ends.0.ring; fetched = []; gave = [] }) }
{
    let (place, theirs, pass) = shared_place(alloc)?;
    let (giving, coming) = RingBuffer::with_protocol::<Global, Backs<R>>(alloc, MOST_OUT)?;
    Ok(over(place, theirs, pass, giving, coming))
}

/// A place for each of the two ends of a line, which is one and the same, and the pass that lends
/// and fetches.
fn shared_place<T: Drop>(
    alloc: Global,
) -> Result<(Place<T>, Place<T>, Pass<T, Known<T>>), AllocError>
    ensures one_place { IfOk result (λ it. arc_value it.1 ≡ arc_value it.0) }
    ensures capacity { IfOk result (λ it. ruled_capacity (arc_value it.0) ≡ 1) }
    ensures pass { IfOk result (λ it.
        IsPassOf (arc_value it.0) it.2 × (view it.2 ≡ known true true [] [])) }
{
    let (place, pass) = RuledArrayQueue::<T, Known<T>, InTurn>::ruled(alloc, 1)?;
    let place = Arc::new(alloc, place)?;
    let theirs = Arc::try_clone(&place)?;
    Ok((place, theirs, pass))
}

/// The two ends of a line over this place and this ring, on which nothing went yet.
fn over<T: Drop, L: Drop, R: Rule<T, L>>(
    place: Place<T>,
    theirs: Place<T>,
    pass: Pass<T, Known<T>>,
    mut giving: Producer<Parcel<T, L>, Global, Backs<R>>,
    mut coming: Consumer<Parcel<T, L>, Global, Backs<R>>,
) -> (Lender<T, L, R>, Borrower<T, L, R>)
    requires one_place { arc_value theirs ≡ arc_value place }
    requires capacity { ruled_capacity (arc_value place) ≡ 1 }
    requires pass { IsPassOf (arc_value place) pass × (view pass ≡ known true true [] []) }
    requires pair { IsPair giving coming }
    requires room { known_free giving ≡ 2 }
    requires nothing_sent { sent giving ≡ [] }
    requires nothing_received { received coming ≡ [] }
    ensures lender { result.0 ≡ record { ring = result.1.ring; out = []; came = []; coming = [] } }
    ensures borrower { result.1 ≡ record { ring = result.0.ring; fetched = []; gave = [] } }
{
    let mut lends = pass;
    let mut fetches = place.another::<Roles>(&mut lends);
    let shown = place.another::<Shown>(&mut fetches);
    // for the proof: pushed and popped at once, so that both ends of the ring know the place
    giving.push_reserved(Parcel::Begun(shown));
    let _ = coming.slots_beside(&mut giving);
    let _ = coming.pop_known();
    let lender = Lender {
        place,
        pass: lends,
        coming,
    };
    let borrower = Borrower {
        place: theirs,
        pass: fetches,
        giving,
    };
    (lender, borrower)
}
