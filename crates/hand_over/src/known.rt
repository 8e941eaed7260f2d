//! What passes of a line's place know.
ghost use Rattle.std.specs.Prelude.{◌≡◌, [], ◌∷◌, ◌++◌};

use crossbeam_queue::protocol::{Join, Lesson, Outcome, Protocol, Split};
use std::collections::LinkedList;

// What a pass may do, lend or fetch, what was lent through it and not recalled, and what it knows
// to have been fetched. In a clause a `LinkedList` is a list. No value of it is made.
pub struct Known<T> {
    pub lends: bool,
    pub fetches: bool,
    pub lent: LinkedList<T>,
    pub fetched: LinkedList<T>,
}

/// What was lent and not recalled is what was fetched, and then what lies in the place.
pub struct InTurn;

impl<T> Protocol<T, Known<T>> for InTurn {
    ghost use Rattle.std.specs.Prelude.{true, []};
    ghost use Rattle.hand_over.specs.Places.{IsInTurn, known};

    ghost holds = { IsInTurn };

    ghost first = { known true true [] [] };
}

/// The pass of the lender, and that of the borrower.
pub struct Roles;

impl<T> Split<Known<T>> for Roles {
    ghost use Rattle.std.specs.Prelude.{true, false, []};
    ghost use Rattle.hand_over.specs.Places.{known};

    ghost left = { λ v. known true false v.lent [] };

    ghost right = { λ v. known false true [] v.fetched };
}

/// A pass that shows what was fetched so far, and the pass that it is made of.
pub struct Shown;

impl<T> Split<Known<T>> for Shown {
    ghost use Rattle.std.specs.Prelude.{false, []};
    ghost use Rattle.hand_over.specs.Places.{known};

    ghost left = { λ v. v };

    ghost right = { λ v. known false false [] v.fetched };
}

/// The lender sees what a pass shows.
impl<T> Join<Known<T>> for Shown {
    ghost use Rattle.std.specs.Prelude.{true, false, []};
    ghost use Rattle.hand_over.specs.Places.{known};

    ghost both = { λ v w. known true false v.lent w.fetched };

    ghost spent = { known false false [] [] };
}

/// What was fetched is the first of what was lent.
impl<T> Lesson<T, Known<T>> for Shown {
    ghost use mathlib.Core.List.{IsPrefix};

    ghost fact = { λ v items. IsPrefix v.fetched v.lent };
}

/// A value was lent.
pub struct Lent;

impl<T> Outcome<T, Known<T>> for Lent {
    ghost use Rattle.std.specs.Prelude.{◌≡◌, ◌++◌, ◌∷◌, [], true, false};
    ghost use Rattle.hand_over.specs.Places.{known};

    ghost then = { λ v x w. w ≡ known true false (v.lent ++ x ∷ []) v.fetched };
}

/// The value that was lent last was recalled.
pub struct Recalled;

impl<T> Outcome<T, Known<T>> for Recalled {
    ghost use Rattle.hand_over.specs.Places.{IsRecalled};

    ghost then = { λ v x w. IsRecalled v x w };
}

/// A value was fetched.
pub struct Fetched;

impl<T> Outcome<T, Known<T>> for Fetched {
    ghost use Rattle.std.specs.Prelude.{◌≡◌, ◌++◌, ◌∷◌, [], true, false};
    ghost use Rattle.hand_over.specs.Places.{known};

    ghost then = { λ v x w. w ≡ known false true [] (v.fetched ++ x ∷ []) };
}
