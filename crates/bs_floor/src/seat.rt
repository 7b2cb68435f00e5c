// The seats of a floor.
ghost use Rattle.std.specs.Prelude.{◌≡◌, [], ◌∷◌, map, None};
ghost use Rattle.bs_floor.specs.Seats.{SeatValue, number_of, posts_of, position_of};

use crate::answers::Position;
use crate::station::Station;
use crate::turn_table::CellSeat;
use bs_tree::List;
use std::marker::Model;

/// The right of one thread to post and to serve on a floor.
///
/// Contracts see it as which floor it is of, its number, the posts and the serves that answered Ok,
/// in order, and its looks: what an own atomic step of it read, in order.
#[derive(Drop)]
pub struct FloorSeat<S: Station> {
    pub(crate) seat: CellSeat<S>,
    pub(crate) number: u32,
    pub(crate) positions: List<Position>,
}

impl<S: Station> Model for FloorSeat<S> {
    ghost Value = { SeatValue S S.Job S.Item };

    ghost view = { λ s. (s.seat.table_id, s.seat.me.0) };

    ghost invariant = { λ s. (s.seat.me.0.held ≡ None) × (s.seat.me.0.number ≡ s.number) × (s.seat.me.1 ≡ []) × (s.seat.me.0.numbers ≡ s.number ∷ []) × (s.positions ≡ map position_of s.seat.me.0.posts) };
}

impl<S: Station> FloorSeat<S> {
    /// The number of the seat, counted from 0.
    pub fn number(&self) -> u32
        ensures { result ≡ number_of self.now }
    {
        self.number
    }

    /// The places that the posts of this seat were answered, in order. It takes no memory.
    pub fn positions(&self) -> &List<Position>
        ensures { result.now ≡ map position_of (posts_of self.now) }
    {
        &self.positions
    }
}
