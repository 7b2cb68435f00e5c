// The floor by the steps of a bare seat. With P stations, word k is the turn of the station k, word
// P + k counts the items posted there, and word P + P + k those that are served. Slot k is the cell.
ghost use Rattle.std.specs.Prelude.{◌≡◌, ℕ, suc, ◌+◌, ◌^◌, ◌<◌, ◌≤◌, [], ◌∷◌, ◌++◌, IfOk, IfErr, OnErr, None, Some, map, length, slice_get, vec_capacity};
ghost use Rattle.bs_floor.specs.SeatViews.{Sized, first_view, turn_at, with_held};
ghost use Rattle.bs_floor.specs.History.{FormFloor, HaveJob, fresh_cell, job_of, with_item};
ghost use Rattle.bs_floor.specs.SeatSteps.{GetsTurn, FindsHeld, with_post};
ghost use Rattle.bs_floor.specs.Hands.{HasInHand, HasStation, HasLooked, HasPosted, HasServed, HoldsNothing, ServedInHand, HasServeFault};

use crate::answers::{Position, ServeFault, Served};
use crate::cell::Cell;
use crate::lists::taken_out;
use crate::rule::{AddPost, AddServe, FloorRule, LoadPosted, LoadServed, PutBack, TakeTurn};
use crate::station::{Bound, Station};
use crate::view::{SeatView, Setup};
use atomic_table::{Refused, Seat, Table};
use bs_tree::List;
use std::alloc::{AllocError, Global};
use std::snapshot::Snapshot;

pub(crate) type CellTable<S> = Table<Cell<S>, SeatView<S>, Setup<S>, FloorRule<S>, Global>;

pub(crate) type CellSeat<S> = Seat<Cell<S>, SeatView<S>>;

// A table of turns, counts and cells. The room is what `Floor::close` puts the cells into.
#[derive(Drop)]
pub(crate) struct TurnTable<S: Station> {
    pub(crate) table: CellTable<S>,
    pub(crate) room: Vec<Cell<S>>,
    pub(crate) alloc: Global,
}

fn laid<S: Station>(alloc: Global, stations: Vec<S>) -> Result<Vec<Cell<S>>, AllocError>
    ensures { IfOk result (λ cells. cells.items ≡ map (fresh_cell S.Station) stations.items) }
{
    let mut cells = Vec::with_capacity(alloc, stations.len())?;
    for station in stations {
        cells.push(Cell {
            station,
            posted: List::new(alloc),
            served: 0,
        })?;
    }
    Ok(cells)
}

fn setup_of<S: Station>(stations: &Vec<S>, seats: u32) -> Setup<S>
    requires { FormFloor S.Station stations.now.items }
    ensures all { (result.stations.value ≡ stations.now) × (result.seats ≡ seats) }
    ensures first { slice_get stations.now.items 0 ≡ Some result.first.value }
    ensures job { HaveJob S.Station (job_of S.Station result) stations.now.items }
    ensures places { S.places (job_of S.Station result) ≡ length stations.now.items }
{
    Setup {
        first: Snapshot::of(&stations[0]),
        stations: Snapshot::of(stations),
        seats,
    }
}

impl<S: Station> TurnTable<S> {
    // A table of these stations, each with an empty history, and its first seat.
    pub(crate) fn opened(
        alloc: Global,
        stations: Vec<S>,
        seats: u32,
    ) -> Result<(TurnTable<S>, CellSeat<S>), AllocError>
        requires { FormFloor S.Station stations.items × (0 < seats) }
        ensures words { IfOk result (λ r. (r.0.table.shared.table_id.words ≡ length stations.items + length stations.items + length stations.items) × (r.0.table.shared.table_id.slots ≡ length stations.items)) }
        ensures setup { IfOk result (λ r. (r.0.table.shared.key.stations.value ≡ stations) × (r.0.table.shared.key.seats ≡ seats)) }
        ensures room { IfOk result (λ r. (r.0.room.items ≡ []) × (length stations.items ≤ vec_capacity r.0.room)) }
        ensures places { IfOk result (λ r. S.places (job_of S.Station r.0.table.shared.key) ≡ length stations.items) }
        ensures job { IfOk result (λ r. HaveJob S.Station (job_of S.Station r.0.table.shared.key) stations.items) }
        ensures few { IfOk result (λ r. (0 < length stations.items) × (length stations.items ≤ 65536)) }
        ensures seat { IfOk result (λ r. (r.1.table_id ≡ r.0.table.shared.table_id) × (r.1.me ≡ (first_view r.0.table.shared.key, []))) }
    {
        let setup = setup_of(&stations, seats);
        let count = stations.len();
        let cells = laid(alloc, stations)?;
        let words = Vec::from_elem(alloc, 0u64, count + count + count)?;
        let room = Vec::with_capacity(alloc, count)?;
        match Table::new(alloc, words.as_slice(), cells, &setup) {
            Ok((table, seat)) => Ok((TurnTable { table, room, alloc }, seat)),
            Err(Refused { slots: _ }) => Err(AllocError),
        }
    }

    // Tries to take the turn of a station. The answer is 0 where it did, and else the number of the
    // seat that had it, plus 1.
    pub(crate) fn take(&self, seat: &mut CellSeat<S>, number: u32, at: usize) -> u64
        requires own { seat.old.table_id ≡ self.now.table.shared.table_id }
        requires sized { Sized self.now.table.shared.table_id at }
        requires free { HoldsNothing S.Station self.now.table.shared.key number seat.old.me }
        ensures own { (seat.new.table_id ≡ seat.old.table_id) × (seat.new.id ≡ seat.old.id) }
        ensures got { result ≡ 0 → GetsTurn S.Station self.now.table.shared.key at seat.old.me seat.new.me }
        ensures missed { (by : ℕ) → result ≡ suc by → FindsHeld S.Station self.now.table.shared.key at by seat.old.me seat.new.me }
    {
        let turn = u64::from(number) + 1;
        self.table
            .shared
            .compare_exchange::<TakeTurn<S>>(seat, at, 0, turn)
    }

    // The number of items posted and of items served at the station that the seat holds.
    pub(crate) fn look(&self, seat: &mut CellSeat<S>, at: usize) -> (u64, u64)
        requires own { seat.old.table_id ≡ self.now.table.shared.table_id }
        requires sized { Sized self.now.table.shared.table_id at }
        requires held { HasStation S.Station self.now.table.shared.key at seat.old.me × (seat.old.me.0.setup ≡ Some self.now.table.shared.key) }
        ensures own { (seat.new.table_id ≡ seat.old.table_id) × (seat.new.id ≡ seat.old.id) }
        ensures look { HasLooked S.Station at seat.old.me seat.new.me }
        ensures counts { (c : _) → HasInHand S.Station at c seat.old.me → (result.0 ≡ length c.posted) × (result.1 ≡ c.served) × (length c.posted < 2 ^ 64) }
    {
        let stations = self.table.slot_count();
        let posted = self.table.shared.load::<LoadPosted<S>>(seat, stations + at);
        let served = self
            .table
            .shared
            .load::<LoadServed<S>>(seat, stations + stations + at);
        (posted, served)
    }

    // Puts the station back that the seat holds.
    pub(crate) fn put(&self, seat: &mut CellSeat<S>, at: usize)
        requires own { seat.old.table_id ≡ self.now.table.shared.table_id }
        requires sized { Sized self.now.table.shared.table_id at }
        requires held { (c : _) × HasInHand S.Station at c seat.old.me }
        ensures own { (seat.new.table_id ≡ seat.old.table_id) × (seat.new.id ≡ seat.old.id) }
        ensures free { seat.new.me ≡ (with_held seat.old.me.0 None, []) }
    {
        self.table.shared.store::<PutBack<S>>(seat, at, 0)
    }

    // Puts an item behind the others of the cell in hand, and answers how many there are then.
    fn post_in_hand(&self, seat: &mut CellSeat<S>, at: usize, item: S::Item) -> Result<u64, S::Item>
        requires own { seat.old.table_id ≡ self.now.table.shared.table_id }
        requires held { (c : _) × HasInHand S.Station at c seat.old.me }
        ensures own { (seat.new.table_id ≡ seat.old.table_id) × (seat.new.id ≡ seat.old.id) }
        ensures ok { IfOk result (λ n. (c : _) → HasInHand S.Station at c seat.old.me → (n ≡ length c.posted + 1) × (n < 2 ^ 64) × (seat.new.me ≡ (seat.old.me.0, (at, with_item S.Station c item) ∷ []))) }
        ensures err { IfErr result (λ returned. (returned ≡ item) × (seat.new.me ≡ seat.old.me)) }
    {
        let cell = seat.slot_mut(&self.table.shared, at);
        cell.post_last(item)
    }

    // Posts an item at the place that was read at the station that the seat holds. All memory is taken
    // before the place is counted.
    fn post_counted(
        &self,
        seat: &mut CellSeat<S>,
        to: u32,
        place: u64,
        item: S::Item,
        positions: &mut Vec<Position>,
    ) -> Result<(), S::Item>
        requires own { seat.old.table_id ≡ self.now.table.shared.table_id }
        requires sized { Sized self.now.table.shared.table_id to }
        requires held { HasStation S.Station self.now.table.shared.key to seat.old.me }
        requires fits { S.fits (job_of S.Station self.now.table.shared.key) to item }
        ensures own { (seat.new.table_id ≡ seat.old.table_id) × (seat.new.id ≡ seat.old.id) }
        ensures ok { IfOk result (λ _. (c : _) → HasInHand S.Station to c seat.old.me → seat.new.me ≡ (with_post S.Station seat.old.me.0 (turn_at to c) item, (to, with_item S.Station c item) ∷ [])) }
        ensures position { IfOk result (λ _. positions.new.items ≡ positions.old.items ++ record { station = to; number = place } ∷ []) }
        ensures err { IfErr result (λ returned. (returned ≡ item) × (seat.new.me ≡ seat.old.me) × (positions.new.items ≡ positions.old.items)) }
    {
        if positions.reserve(1).is_err() {
            return Err(item);
        }
        let at = to as usize;
        self.post_in_hand(seat, at, item)?;
        let stations = self.table.slot_count();
        self.table
            .shared
            .fetch_add::<AddPost<S>>(seat, stations + at, 1);
        positions.push_reserved(Position {
            station: to,
            number: place,
        });
        Ok(())
    }

    // Posts an item at the station that the seat holds, answers its place and records its position.
    pub(crate) fn post_held(
        &self,
        seat: &mut CellSeat<S>,
        to: u32,
        item: S::Item,
        positions: &mut List<Position>,
    ) -> Result<u64, S::Item>
        requires own { seat.old.table_id ≡ self.now.table.shared.table_id }
        requires sized { Sized self.now.table.shared.table_id to }
        requires held { HasStation S.Station self.now.table.shared.key to seat.old.me × (seat.old.me.0.setup ≡ Some self.now.table.shared.key) }
        requires fits { S.fits (job_of S.Station self.now.table.shared.key) to item }
        ensures own { (seat.new.table_id ≡ seat.old.table_id) × (seat.new.id ≡ seat.old.id) }
        ensures ok { IfOk result (λ n. HasPosted S.Station to item n seat.old.me seat.new.me) }
        ensures position { IfOk result (λ n. positions.new ≡ positions.old ++ record { station = to; number = n } ∷ []) }
        ensures err { IfErr result (λ returned. (returned ≡ item) × HasLooked S.Station to seat.old.me seat.new.me × (positions.new ≡ positions.old)) }
    {
        let (place, _) = self.look(seat, to as usize);
        let mut recorded = taken_out(positions, self.alloc);
        let posted = self.post_counted(seat, to, place, item, &mut recorded);
        *positions = List::from_vec(recorded);
        posted?;
        Ok(place)
    }

    // Serves the first item of the cell in hand that isn't served.
    fn serve_in_hand(
        &self,
        seat: &mut CellSeat<S>,
        at: usize,
    ) -> Result<List<Bound<S::Item>>, AllocError>
        requires own { seat.old.table_id ≡ self.now.table.shared.table_id }
        requires held { HasStation S.Station self.now.table.shared.key at seat.old.me }
        requires some_item { (c : _) → HasInHand S.Station at c seat.old.me → c.served < length c.posted }
        ensures own { (seat.new.table_id ≡ seat.old.table_id) × (seat.new.id ≡ seat.old.id) }
        ensures ok { IfOk result (λ sends. (c : _) → HasInHand S.Station at c seat.old.me → ServedInHand S.Station at c sends seat.old.me seat.new.me) }
        ensures err { OnErr result (seat.new.me ≡ seat.old.me) }
    {
        let cell = seat.slot_mut(&self.table.shared, at);
        cell.serve_next()
    }

    // Serves the first item that isn't served at the station that the seat holds.
    pub(crate) fn serve_held(
        &self,
        seat: &mut CellSeat<S>,
        at: usize,
    ) -> Result<Served<S::Item>, ServeFault>
        requires own { seat.old.table_id ≡ self.now.table.shared.table_id }
        requires sized { Sized self.now.table.shared.table_id at }
        requires held { HasStation S.Station self.now.table.shared.key at seat.old.me × (seat.old.me.0.setup ≡ Some self.now.table.shared.key) }
        ensures own { (seat.new.table_id ≡ seat.old.table_id) × (seat.new.id ≡ seat.old.id) }
        ensures ok { IfOk result (λ s. HasServed S.Station at s.number s.sends seat.old.me seat.new.me) }
        ensures err { IfErr result (λ fault. HasLooked S.Station at seat.old.me seat.new.me × HasServeFault S.Station at seat.old.me fault) }
    {
        let (posted, served) = self.look(seat, at);
        if posted == served {
            return Err(ServeFault::Idle { posted, served });
        }
        let Ok(sends) = self.serve_in_hand(seat, at) else {
            return Err(ServeFault::Memory);
        };
        let stations = self.table.slot_count();
        self.table
            .shared
            .fetch_add::<AddServe<S>>(seat, stations + stations + at, 1);
        Ok(Served {
            number: served,
            sends,
        })
    }
}
