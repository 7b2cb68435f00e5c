// The floor as threads share it.
ghost use Rattle.std.specs.Prelude.{◌≡◌, ℕ, ◌+◌, ◌<◌, ◌≤◌, [], ◌∷◌, ◌++◌, All, IfOk, IfErr, None, Some, length, map, slice_get, vec_len, vec_capacity};
ghost use Rattle.std.specs.Slots.{IsFull, slots_items, slots_len};
ghost use Rattle.bs_floor.specs.History.{FormFloor, HaveJob};
ghost use Rattle.bs_floor.specs.SeatViews.{seat_view};
ghost use Rattle.bs_floor.specs.Stations.{AllFit};
ghost use Rattle.bs_floor.specs.Seats.{FloorValue, SeatValue, job_of, stations_of, station_count, seat_count, number_of, posts_of, serves_of, IsSeatOf, IsNewSeat, Posts, Serves, PostRefused, ServeRefused, AllSeats};
ghost use Rattle.bs_floor.specs.Closing.{Settled, joined_lists};

use crate::answers::{PostFault, ServeFault, Served};
use crate::cell::Cell;
use crate::closed::Closed;
use crate::gate::Gate;
use crate::rule::SeatNumbers;
use crate::seat::FloorSeat;
use crate::station::Station;
use crate::turn_table::{CellSeat, TurnTable};
use bs_tree::List;
use std::alloc::{AllocError, Global};
use std::marker::Model;

/// A floor of stations that threads share by `&`, each with a seat of its own.
///
/// Contracts see it as which floor it is, the stations that it was made from, in their opening states,
/// and how many seats it has.
#[derive(Drop)]
pub struct Floor<S: Station> {
    inner: TurnTable<S>,
}

impl<S: Station> Model for Floor<S> {
    ghost Value = { FloorValue S };

    ghost view = { λ f. (f.inner.table.shared.table_id, f.inner.table.shared.key) };

    ghost invariant = { λ f. (f.inner.table.shared.table_id.words ≡ f.inner.table.shared.table_id.slots + f.inner.table.shared.table_id.slots + f.inner.table.shared.table_id.slots) × (f.inner.table.shared.table_id.slots ≡ length f.inner.table.shared.key.stations.value.items) × (0 < f.inner.table.shared.table_id.slots) × (f.inner.table.shared.table_id.slots ≤ 65536) × (0 < f.inner.table.shared.key.seats) × (f.inner.table.shared.key.seats ≤ 65) × (f.inner.room.items ≡ []) × (f.inner.table.shared.table_id.slots ≤ vec_capacity f.inner.room) × (S.places (S.job f.inner.table.shared.key.first.value) ≡ f.inner.table.shared.table_id.slots) };
}

impl<S: Station> Floor<S> {
    /// A floor on which each station has an empty history, and its seats, numbered from 0 in order.
    ///
    /// There are 1 to 65,536 stations and 1 to 65 seats. The stations have one job and are as many as
    /// it has places, and each stands in the list at its own place, counted from 0, and is sound there.
    /// That job is the floor's: what fits at a station by its job may be posted there.
    /// The only refusal is want of memory, which gives the stations up. The memory that `close` needs is
    /// taken here.
    pub fn new(
        alloc: Global,
        stations: Vec<S>,
        seats: u32,
    ) -> Result<(Floor<S>, Vec<FloorSeat<S>>), AllocError>
        requires stations { FormFloor S.Station stations.items }
        requires seats { (0 < seats) × (seats ≤ 65) }
        ensures stations { IfOk result (λ made. stations_of made.0 ≡ stations.items) }
        ensures job { IfOk result (λ made. HaveJob S.Station (job_of S.Station made.0) stations.items) }
        ensures places { IfOk result (λ made. S.places (job_of S.Station made.0) ≡ station_count made.0) }
        ensures seats { IfOk result (λ made. (seat_count made.0 ≡ seats) × (vec_len made.1 ≡ seats)) }
        ensures each { IfOk result (λ made. (k : ℕ) (seat : _) → slice_get made.1.items k ≡ Some seat → IsNewSeat made.0 k seat) }
    {
        let (inner, first) = TurnTable::opened(alloc, stations, seats)?;
        let floor = Floor { inner };
        let all = floor.all_seats(alloc, first, seats)?;
        Ok((floor, all))
    }

    // The first seat, which gives out the other numbers, and the seats of these.
    fn all_seats(
        &self,
        alloc: Global,
        first: CellSeat<S>,
        seats: u32,
    ) -> Result<Vec<FloorSeat<S>>, AllocError>
        requires first { (first.table_id ≡ self.now.0) × (first.me ≡ (seat_view (Some self.now.1) 0 (0 ∷ []) 1 None [] [] [], [])) }
        requires count { (0 < seats) × (seat_count self.now ≡ seats) }
        ensures count { IfOk result (λ all. vec_len all ≡ seats) }
        ensures each { IfOk result (λ all. (k : ℕ) (seat : _) → slice_get all.items k ≡ Some seat → IsNewSeat self.now k seat) }
    {
        let mut first = first;
        let mut all = Vec::with_capacity(alloc, seats as usize)?;
        for number in 1..seats {
            let seat = self
                .inner
                .table
                .shared
                .split_seat::<SeatNumbers<S>>(&mut first);
            all.push(FloorSeat {
                seat,
                number,
                positions: List::new(alloc),
            })?;
        }
        all.insert(
            0,
            FloorSeat {
                seat: first,
                number: 0,
                positions: List::new(alloc),
            },
        )?;
        Ok(all)
    }

    /// Appends an item to the history of a station, and answers its place there, counted from 0.
    ///
    /// The seat is of this floor, the station exists and the item fits there. `Busy` comes only where
    /// another seat held the station at this call's own compare and exchange. `Memory` comes where there
    /// is no memory for the item or its position, which is taken before the place is counted, so nothing
    /// is posted then. Both hand the item back.
    pub fn post(
        &self,
        seat: &mut FloorSeat<S>,
        to: u32,
        item: S::Item,
    ) -> Result<u64, PostFault<S::Item>>
        requires seat { IsSeatOf self.now seat.old }
        requires station { to < station_count self.now }
        requires fits { S.fits (job_of S.Station self.now) to item }
        ensures ok { IfOk result (λ place. Posts to item place seat.old seat.new) }
        ensures err { IfErr result (λ fault. PostRefused self.now to item seat.old seat.new fault) }
        ensures same { IsSeatOf self.now seat.new × (number_of seat.new ≡ number_of seat.old) }
    {
        let at = to as usize;
        let inner = &self.inner;
        let raw = &mut seat.seat;
        let found = inner.take(raw, seat.number, at);
        if found != 0 {
            let by = (found - 1) as u32;
            return Err(PostFault::Busy { by, item });
        }
        let answer = inner.post_held(raw, to, item, &mut seat.positions);
        inner.put(raw, at);
        match answer {
            Ok(place) => Ok(place),
            Err(item) => Err(PostFault::Memory(item)),
        }
    }

    /// Serves the first item of a station that isn't served, and answers its number and what it sent.
    ///
    /// The seat is of this floor and the station exists. `Busy` comes only where another seat held the
    /// station at this call's own compare and exchange, and `Idle` exactly where the number of items
    /// posted and that of items served were equal while this call held the station. `Memory` comes where
    /// the station had no memory to serve the item, and nothing is served then. The gate is passed before
    /// the station is put back.
    pub fn serve<G: Gate>(
        &self,
        seat: &mut FloorSeat<S>,
        at: u32,
        gate: &G,
    ) -> Result<Served<S::Item>, ServeFault>
        requires seat { IsSeatOf self.now seat.old }
        requires station { at < station_count self.now }
        ensures ok { IfOk result (λ s. Serves at s.number s.sends seat.old seat.new) }
        ensures fitting { IfOk result (λ s. AllFit (station_count self.now) (S.fits (job_of S.Station self.now)) s.sends) }
        ensures err { IfErr result (λ fault. ServeRefused self.now at seat.old seat.new fault) }
        ensures same { IsSeatOf self.now seat.new × (number_of seat.new ≡ number_of seat.old) }
    {
        let place = at as usize;
        let inner = &self.inner;
        let raw = &mut seat.seat;
        let found = inner.take(raw, seat.number, place);
        if found != 0 {
            let by = (found - 1) as u32;
            return Err(ServeFault::Busy { by });
        }
        let answer = inner.serve_held(raw, place);
        gate.before_put(seat.number, at);
        inner.put(raw, place);
        answer
    }

    /// Ends the floor, and hands back its cells, in the order of the stations. It takes no memory.
    ///
    /// These are all seats of the floor. No two posts of all seats have both one station and one place,
    /// and no two serves both one station and one number. Each post has a place in the history of its
    /// station, and each place there stands in exactly one seat's posts, with that item. The same holds
    /// of the serves and the items that are served, each with what serving it sent. The state of each
    /// station is what serving its items in order gives, and is sound, and each item fits there.
    pub fn close(self, seats: Vec<FloorSeat<S>>) -> Closed<S>
        requires { AllSeats self seats.items }
        ensures { Settled S.Station (stations_of self) (map posts_of seats.items) (map serves_of seats.items) result }
    {
        let base = self.gathered(seats);
        let Floor { inner } = self;
        let TurnTable {
            table,
            room,
            alloc: _,
        } = inner;
        let closed = table.close_with(base);
        Closed {
            cells: List::from_vec(emptied(closed, room)),
        }
    }

    // One seat that took over what all did.
    fn gathered(&self, seats: Vec<FloorSeat<S>>) -> CellSeat<S>
        requires { AllSeats self.now seats.items }
        ensures own { result.table_id ≡ self.now.0 }
        ensures free { (result.me.0.setup ≡ Some self.now.1) × (result.me.0.held ≡ None) × (result.me.1 ≡ []) }
        ensures all { (result.me.0.posts ≡ joined_lists (map posts_of seats.items)) × (result.me.0.serves ≡ joined_lists (map serves_of seats.items)) × (result.me.0.numbers ≡ map number_of seats.items) }
    {
        let shared = &self.inner.table.shared;
        let mut seats = seats;
        let FloorSeat {
            seat: mut base,
            number: _,
            positions: _,
        } = seats.remove(0);
        for other in seats {
            let FloorSeat {
                seat,
                number: _,
                positions: _,
            } = other;
            shared.join_seat::<SeatNumbers<S>>(&mut base, seat);
        }
        base
    }
}

// Takes each cell out, and frees the table's memory.
fn emptied<S: Station>(
    closed: atomic_table::Closed<Cell<S>, Global>,
    room: Vec<Cell<S>>,
) -> Vec<Cell<S>>
    requires { IsFull closed.slots × (room.items ≡ []) × (slots_len closed.slots ≤ vec_capacity room) }
    ensures { result.items ≡ slots_items closed.slots }
{
    let mut closed = closed;
    let mut room = room;
    for i in 0..closed.slot_count() {
        room.push_reserved(closed.take(i));
    }
    closed.free();
    room
}
