// The rule of the floor, and the names of its steps.
use crate::cell::Cell;
use crate::station::Station;
use crate::view::{SeatView, Setup};
use atomic_table::{Join, Play, Split, TableRule};
use std::marker::PhantomData;

// What holds between any two steps.
pub struct FloorRule<S> {
    of: PhantomData<S>,
}

impl<S: Station> TableRule<Cell<S>, SeatView<S>, Setup<S>> for FloorRule<S> {
    ghost use Rattle.bs_floor.specs.FloorRules.{IsFloor};
    ghost use Rattle.bs_floor.specs.SeatViews.{first_view};

    ghost holds = { λ setup s. IsFloor S.Station setup s };

    ghost first = { λ setup. first_view setup };
}

// The compare and exchange of a turn from 0 to the seat's number plus 1, by which the cell comes
// into the hand.
pub struct TakeTurn<S> {
    of: PhantomData<S>,
}

impl<S: Station> Play<Cell<S>, SeatView<S>> for TakeTurn<S> {
    ghost use Rattle.bs_floor.specs.SeatSteps.{turn_tried};

    ghost then = { λ st m r n. turn_tried S.Station st m r n };
}

// The store of 0 into a turn, by which the cell goes back.
pub struct PutBack<S> {
    of: PhantomData<S>,
}

impl<S: Station> Play<Cell<S>, SeatView<S>> for PutBack<S> {
    ghost use Rattle.bs_floor.specs.SeatSteps.{turn_returned};

    ghost then = { λ st m r n. turn_returned S.Station st m r n };
}

// The load of the number of items posted, with the turn in hand: the first half of a look.
pub struct LoadPosted<S> {
    of: PhantomData<S>,
}

impl<S: Station> Play<Cell<S>, SeatView<S>> for LoadPosted<S> {
    ghost use Rattle.bs_floor.specs.SeatSteps.{posted_loaded};

    ghost then = { λ st m r n. posted_loaded S.Station st m r n };
}

// The load of the number of items served, with the turn in hand, which makes the look.
pub struct LoadServed<S> {
    of: PhantomData<S>,
}

impl<S: Station> Play<Cell<S>, SeatView<S>> for LoadServed<S> {
    ghost use Rattle.bs_floor.specs.SeatSteps.{served_loaded};

    ghost then = { λ st m r n. served_loaded S.Station st m r n };
}

// The addition of 1 to the number of items posted.
pub struct AddPost<S> {
    of: PhantomData<S>,
}

impl<S: Station> Play<Cell<S>, SeatView<S>> for AddPost<S> {
    ghost use Rattle.bs_floor.specs.SeatSteps.{post_added};

    ghost then = { λ st m r n. post_added S.Station st m r n };
}

// The addition of 1 to the number of items served.
pub struct AddServe<S> {
    of: PhantomData<S>,
}

impl<S: Station> Play<Cell<S>, SeatView<S>> for AddServe<S> {
    ghost use Rattle.bs_floor.specs.SeatSteps.{serve_added};

    ghost then = { λ st m r n. serve_added S.Station st m r n };
}

// How seat 0 gives out a number, and how a seat takes over what another one did.
pub struct SeatNumbers<S> {
    of: PhantomData<S>,
}

impl<S: Station> Split<SeatView<S>> for SeatNumbers<S> {
    ghost use Rattle.bs_floor.specs.SeatViews.{giving_view, given_view};

    ghost left = { λ v. giving_view v };

    ghost right = { λ v. given_view v };
}

impl<S: Station> Join<SeatView<S>> for SeatNumbers<S> {
    ghost use Rattle.bs_floor.specs.SeatViews.{joined_view, spent_view};

    ghost both = { λ v w. joined_view v w };

    ghost spent = { spent_view };
}
