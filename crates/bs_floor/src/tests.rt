ghost use Rattle.std.specs.Prelude.{◌≡◌, ◌<◌, IfOk, Some, slice_get, vec_len};
ghost use Rattle.bs_floor.specs.History.{FormFloor, HaveJob};
ghost use Rattle.bs_floor.specs.Seats.{IsSeatOf, job_of, station_count, seat_count, number_of};

use crate::countdown::{Countdown, Counted};
use crate::{Closed, Floor, FloorSeat, Gate, OpenGate, PostFault, ServeFault, Served, Station};
use std::alloc::{AllocError, Global};
use std::sync::atomic::{AtomicU64, Ordering};
use std::test::*;
use std::thread;
use std::thread::Threads;

// How often a thread looks at a flag before it goes on.
const LOOKS: u64 = 100_000_000;

fn three(alloc: Global) -> Result<Vec<Countdown>, AllocError>
    ensures floor { IfOk result (λ v. FormFloor ⟦<Countdown as Station>⟧ v.items × (vec_len v ≡ 3)) }
    ensures first { IfOk result (λ v. slice_get v.items 0 ≡ Some (0, 3, 0)) }
{
    let mut stations = Vec::new(alloc);
    stations.push(Countdown::new(alloc, 0, 3))?;
    stations.push(Countdown::new(alloc, 1, 3))?;
    stations.push(Countdown::new(alloc, 2, 3))?;
    Ok(stations)
}

// A floor of these stations, and its two seats.
fn two_seats<S: Station>(
    alloc: Global,
    stations: Vec<S>,
) -> Result<(Floor<S>, FloorSeat<S>, FloorSeat<S>), AllocError>
    requires { FormFloor S.Station stations.items }
    ensures counts { IfOk result (λ r. (station_count r.0 ≡ vec_len stations) × (seat_count r.0 ≡ 2)) }
    ensures job { IfOk result (λ r. HaveJob S.Station (job_of S.Station r.0) stations.items) }
    ensures nought { IfOk result (λ r. IsSeatOf r.0 r.1 × (number_of r.1 ≡ 0)) }
    ensures one { IfOk result (λ r. IsSeatOf r.0 r.2 × (number_of r.2 ≡ 1)) }
{
    let (floor, mut seats) = Floor::new(alloc, stations, 2)?;
    let one = seats.remove(1);
    let nought = seats.remove(0);
    Ok((floor, nought, one))
}

// Three stations that count down, and two seats. An item of at most 6 fits.
fn counting(
    alloc: Global,
) -> Result<(Floor<Countdown>, FloorSeat<Countdown>, FloorSeat<Countdown>), AllocError>
    ensures counts { IfOk result (λ r. (station_count r.0 ≡ 3) × (seat_count r.0 ≡ 2)) }
    ensures job { IfOk result (λ r. job_of ⟦<Countdown as Station>⟧ r.0 ≡ 3) }
    ensures nought { IfOk result (λ r. IsSeatOf r.0 r.1 × (number_of r.1 ≡ 0)) }
    ensures one { IfOk result (λ r. IsSeatOf r.0 r.2 × (number_of r.2 ≡ 1)) }
{
    two_seats(alloc, three(alloc)?)
}

// Whether this was served with this number, and sent that one item, or none.
fn is_served(
    answer: Result<Served<u64>, ServeFault>,
    number: u64,
    send: Option<(u32, u64)>,
) -> bool {
    let Ok(served) = answer else {
        return false;
    };
    if served.number != number {
        return false;
    }
    match (served.sends.as_slice(), send) {
        ([], None) => true,
        ([bound], Some((to, item))) => bound.to == to && bound.item == item,
        _ => false,
    }
}

fn closed(
    alloc: Global,
    floor: Floor<Countdown>,
    nought: FloorSeat<Countdown>,
    one: FloorSeat<Countdown>,
) -> Result<Closed<Countdown>, AllocError>
    requires first { IsSeatOf floor nought × (number_of nought ≡ 0) }
    requires second { IsSeatOf floor one × (number_of one ≡ 1) }
    requires seats { seat_count floor ≡ 2 }
{
    let mut seats = Vec::with_capacity(alloc, 2)?;
    seats.push_reserved(nought);
    seats.push_reserved(one);
    Ok(floor.close(seats))
}

#[test]
fn counts_down_by_two_seats(rt: HostRuntime) -> Result<(), Fail> {
    let alloc = rt.alloc();
    let (floor, mut nought, mut one) = counting(alloc)?;
    assert!(rt; nought.number() == 0 && one.number() == 1);
    assert!(rt; floor.post(&mut nought, 0, 2).is_ok_and(|n| n == 0));
    assert!(rt; is_served(floor.serve(&mut one, 0, &OpenGate), 0, Some((1, 1))));
    assert!(rt; floor.post(&mut one, 1, 1).is_ok_and(|n| n == 0));
    assert!(rt; is_served(floor.serve(&mut nought, 1, &OpenGate), 0, Some((2, 0))));
    assert!(rt; floor.post(&mut nought, 2, 0).is_ok_and(|n| n == 0));
    assert!(rt; is_served(floor.serve(&mut one, 2, &OpenGate), 0, None));
    let idle = floor.serve(&mut one, 2, &OpenGate);
    assert!(rt;
        matches!(
            idle,
            Err(ServeFault::Idle {
                posted: 1,
                served: 1
            })
        )
    );
    let positions = nought.positions().as_slice();
    assert!(rt; positions.len() == 2 && positions[0].station == 0 && positions[1].station == 2);
    let ended = closed(alloc, floor, nought, one)?;
    let cells = ended.cells();
    assert!(rt; cells.len() == 3);
    assert!(rt; cells.iter().all(|cell| cell.served == 1));
    let sums = [2, 1, 0];
    assert!(rt;
        cells
            .iter()
            .zip(sums.iter())
            .all(|(cell, sum)| cell.station.sum() == *sum)
    );
    assert!(rt; ended.into_cells().len() == 3);
    Ok(())
}

/// Seat 0 raises a flag before its put, and waits for the other flag.
#[derive(Drop)]
struct Flags {
    raised: AtomicU64,
    released: AtomicU64,
}

impl Gate for Flags {
    fn before_put(&self, seat: u32, _station: u32) {
        if seat != 0 {
            return;
        }
        self.raised.store(1, Ordering::SeqCst);
        wait_for(&self.released);
    }
}

// Waits for a flag, for at most that many looks.
fn wait_for(flag: &AtomicU64) {
    for _ in 0..LOOKS {
        if flag.load(Ordering::SeqCst) != 0 {
            break;
        }
        std::hint::spin_loop();
    }
}

fn serve_there(
    floor: &Floor<Countdown>,
    mut seat: FloorSeat<Countdown>,
    gate: &Flags,
) -> (FloorSeat<Countdown>, bool)
    requires { IsSeatOf floor.now seat × (0 < station_count floor.now) }
    ensures { IsSeatOf floor.now result.0 × (number_of result.0 ≡ number_of seat) }
{
    let served = is_served(floor.serve(&mut seat, 0, gate), 0, Some((1, 3)));
    (seat, served)
}

fn post_there(
    floor: &Floor<Countdown>,
    mut seat: FloorSeat<Countdown>,
    gate: &Flags,
) -> (FloorSeat<Countdown>, bool)
    requires seat { IsSeatOf floor.now seat × (0 < station_count floor.now) }
    requires job { job_of ⟦<Countdown as Station>⟧ floor.now ≡ 3 }
    ensures { IsSeatOf floor.now result.0 × (number_of result.0 ≡ number_of seat) }
{
    wait_for(&gate.raised);
    let busy = match floor.post(&mut seat, 0, 5) {
        Err(PostFault::Busy { by, item }) => by == 0 && item == 5,
        _ => false,
    };
    gate.released.store(1, Ordering::SeqCst);
    (seat, busy)
}

#[test]
fn a_held_station_is_busy(rt: HostRuntime) -> Result<(), Fail> {
    let alloc = rt.alloc();
    let (floor, mut nought, one) = counting(alloc)?;
    assert!(rt; floor.post(&mut nought, 0, 4).is_ok());
    let gate = Flags {
        raised: AtomicU64::new(0),
        released: AtomicU64::new(0),
    };
    let (shared, flags) = (&floor, &gate);
    let ((_nought, served), (mut one, busy)) = thread::join(
        &rt,
        move || serve_there(shared, nought, flags),
        move || post_there(shared, one, flags),
    );
    assert!(rt; served && busy);
    assert!(rt; floor.post(&mut one, 0, 5).is_ok_and(|n| n == 1));
    Ok(())
}

// Stations whose type refers to a word that all of them share.
fn two_counted<'c>(alloc: Global, served: &'c AtomicU64) -> Result<Vec<Counted<'c>>, AllocError>
    ensures floor { IfOk result (λ v. FormFloor ⟦<Counted<'c> as Station>⟧ v.items × (vec_len v ≡ 2)) }
    ensures first { IfOk result (λ v. slice_get v.items 0 ≡ Some (0, 2, 0)) }
{
    let mut stations = Vec::new(alloc);
    stations.push(Counted::new(Countdown::new(alloc, 0, 2), served))?;
    stations.push(Counted::new(Countdown::new(alloc, 1, 2), served))?;
    Ok(stations)
}

// Two of them, and two seats. An item of at most 4 fits.
fn sharing<'c>(
    alloc: Global,
    served: &'c AtomicU64,
) -> Result<
    (
        Floor<Counted<'c>>,
        FloorSeat<Counted<'c>>,
        FloorSeat<Counted<'c>>,
    ),
    AllocError,
>
    ensures counts { IfOk result (λ r. (station_count r.0 ≡ 2) × (seat_count r.0 ≡ 2)) }
    ensures job { IfOk result (λ r. job_of ⟦<Counted<'c> as Station>⟧ r.0 ≡ 2) }
    ensures nought { IfOk result (λ r. IsSeatOf r.0 r.1 × (number_of r.1 ≡ 0)) }
    ensures one { IfOk result (λ r. IsSeatOf r.0 r.2 × (number_of r.2 ≡ 1)) }
{
    two_seats(alloc, two_counted(alloc, served)?)
}

fn serve_one<S: Station>(floor: &Floor<S>, mut seat: FloorSeat<S>, at: u32) -> bool
    requires { IsSeatOf floor.now seat × (at < station_count floor.now) }
{
    floor.serve(&mut seat, at, &OpenGate).is_ok()
}

// Two threads, each at a station of its own.
fn both_serve<S: Station + Send + Sync, R: Threads>(
    rt: &R,
    floor: &Floor<S>,
    nought: FloorSeat<S>,
    one: FloorSeat<S>,
) -> (bool, bool)
where
    S::Item: Send + Sync,
    requires first { IsSeatOf floor.now nought }
    requires second { IsSeatOf floor.now one }
    requires stations { 1 < station_count floor.now }
{
    thread::join(
        rt,
        move || serve_one(floor, nought, 0),
        move || serve_one(floor, one, 1),
    )
}

#[test]
fn a_station_may_hold_references(rt: HostRuntime) -> Result<(), Fail> {
    let alloc = rt.alloc();
    let served = AtomicU64::new(0);
    let (floor, mut nought, mut one) = sharing(alloc, &served)?;
    assert!(rt; floor.post(&mut nought, 0, 3).is_ok());
    assert!(rt; floor.post(&mut one, 1, 4).is_ok());
    let answers = both_serve(&rt, &floor, nought, one);
    assert!(rt; answers.0 && answers.1);
    assert!(rt; served.load(Ordering::SeqCst) == 2);
    Ok(())
}
