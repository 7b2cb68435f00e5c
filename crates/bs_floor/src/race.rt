// Four threads that post and serve on one floor.
ghost use Rattle.std.specs.Prelude.{◌≡◌, ◌<◌, IfOk, Some, slice_get, vec_len};
ghost use Rattle.bs_floor.specs.History.{FormFloor};
ghost use Rattle.bs_floor.specs.Seats.{IsSeatOf, job_of, station_count, seat_count, number_of};

use crate::countdown::Countdown;
use crate::{Bound, Closed, Floor, FloorSeat, OpenGate, PostFault, ServeFault, Station};
use std::alloc::{AllocError, Global};
use std::test::*;
use std::thread;
use std::thread::Threads;

const STATIONS: u32 = 8;

// The greatest item that fits.
const MOST: u64 = 16;

// How many passes a worker makes at most.
const PASSES: u64 = 100_000_000;

fn eight(alloc: Global) -> Result<Vec<Countdown>, AllocError>
    ensures floor { IfOk result (λ v. FormFloor ⟦<Countdown as Station>⟧ v.items × (vec_len v ≡ 8)) }
    ensures first { IfOk result (λ v. slice_get v.items 0 ≡ Some (0, 8, 0)) }
{
    let mut stations = Vec::new(alloc);
    stations.push(Countdown::new(alloc, 0, 8))?;
    stations.push(Countdown::new(alloc, 1, 8))?;
    stations.push(Countdown::new(alloc, 2, 8))?;
    stations.push(Countdown::new(alloc, 3, 8))?;
    stations.push(Countdown::new(alloc, 4, 8))?;
    stations.push(Countdown::new(alloc, 5, 8))?;
    stations.push(Countdown::new(alloc, 6, 8))?;
    stations.push(Countdown::new(alloc, 7, 8))?;
    Ok(stations)
}

/// An item that has still to be posted to a station.
#[derive(Clone, Copy, Drop)]
struct Kept {
    to: u32,
    item: u64,
}

// So many times 9, posted from a station on and round.
fn nines(alloc: Global, from: u32, count: u32) -> Result<Vec<Kept>, AllocError> {
    let mut kept = Vec::new(alloc);
    for n in 0..count {
        let to = (u64::from(from) + u64::from(n)) % u64::from(STATIONS);
        kept.push(Kept {
            to: to as u32,
            item: 9,
        })?;
    }
    Ok(kept)
}

// What four workers kept, where none of them was short of memory.
fn together(alloc: Global, parts: [Option<Vec<Kept>>; 4]) -> Result<Vec<Kept>, AllocError> {
    let mut all = Vec::new(alloc);
    for part in parts {
        for kept in part.ok_or(AllocError)? {
            all.push(kept)?;
        }
    }
    Ok(all)
}

// Posts what was kept. What meets a station that another seat holds is kept on. Whether anything
// was posted.
fn post_all(
    alloc: Global,
    floor: &Floor<Countdown>,
    seat: &mut FloorSeat<Countdown>,
    kept: &mut Vec<Kept>,
) -> Result<bool, AllocError>
    requires seat { IsSeatOf floor.now seat.old × (station_count floor.now ≡ 8) }
    requires job { job_of ⟦<Countdown as Station>⟧ floor.now ≡ 8 }
    ensures { IsSeatOf floor.now seat.new × (number_of seat.new ≡ number_of seat.old) }
{
    let mut busy = Vec::new(alloc);
    let mut posted = false;
    for Kept { to, item } in kept.iter().copied() {
        if to >= STATIONS || item > MOST {
            continue;
        }
        match floor.post(seat, to, item) {
            Ok(_) => posted = true,
            Err(PostFault::Busy { by: _, item }) => busy.push(Kept { to, item })?,
            Err(PostFault::Memory(_)) => return Err(AllocError),
        }
    }
    *kept = busy;
    Ok(posted)
}

// Keeps what was sent.
fn keep(kept: &mut Vec<Kept>, sends: &[Bound<u64>]) -> Result<(), AllocError> {
    for bound in sends {
        kept.push(Kept {
            to: bound.to,
            item: bound.item,
        })?;
    }
    Ok(())
}

// Serves a station once, and keeps what was sent. Whether anything was served.
fn serve_one(
    floor: &Floor<Countdown>,
    seat: &mut FloorSeat<Countdown>,
    at: u32,
    kept: &mut Vec<Kept>,
) -> Result<bool, AllocError>
    requires { IsSeatOf floor.now seat.old × (at < station_count floor.now) }
    ensures { IsSeatOf floor.now seat.new × (number_of seat.new ≡ number_of seat.old) }
{
    match floor.serve(seat, at, &OpenGate) {
        Ok(answer) => {
            keep(kept, answer.sends.as_slice())?;
            Ok(true)
        }
        Err(ServeFault::Busy { .. } | ServeFault::Idle { .. }) => Ok(false),
        Err(ServeFault::Memory) => Err(AllocError),
    }
}

// Serves each station once. Whether anything was served.
fn serve_all(
    floor: &Floor<Countdown>,
    seat: &mut FloorSeat<Countdown>,
    kept: &mut Vec<Kept>,
) -> Result<bool, AllocError>
    requires { IsSeatOf floor.now seat.old × (station_count floor.now ≡ 8) }
    ensures { IsSeatOf floor.now seat.new × (number_of seat.new ≡ number_of seat.old) }
{
    let mut served = false;
    for at in 0..STATIONS {
        if serve_one(floor, seat, at, kept)? {
            served = true;
        }
    }
    Ok(served)
}

fn passes(
    alloc: Global,
    floor: &Floor<Countdown>,
    seat: &mut FloorSeat<Countdown>,
    kept: &mut Vec<Kept>,
) -> Result<(), AllocError>
    requires seat { IsSeatOf floor.now seat.old × (station_count floor.now ≡ 8) }
    requires job { job_of ⟦<Countdown as Station>⟧ floor.now ≡ 8 }
    ensures { IsSeatOf floor.now seat.new × (number_of seat.new ≡ number_of seat.old) }
{
    for _ in 0..PASSES {
        let posted = post_all(alloc, floor, seat, kept)?;
        let served = serve_all(floor, seat, kept)?;
        if !posted && !served {
            break;
        }
    }
    Ok(())
}

// Posts and serves until a pass does nothing, and hands back the seat and what is still kept.
fn work(
    alloc: Global,
    floor: &Floor<Countdown>,
    seat: FloorSeat<Countdown>,
    kept: Vec<Kept>,
) -> (FloorSeat<Countdown>, Option<Vec<Kept>>)
    requires seat { IsSeatOf floor.now seat × (station_count floor.now ≡ 8) }
    requires job { job_of ⟦<Countdown as Station>⟧ floor.now ≡ 8 }
    ensures { IsSeatOf floor.now result.0 × (number_of result.0 ≡ number_of seat) }
{
    let (mut seat, mut kept) = (seat, kept);
    let worked = passes(alloc, floor, &mut seat, &mut kept);
    match worked {
        Ok(()) => (seat, Some(kept)),
        Err(_) => (seat, None),
    }
}

fn two_work<R: Threads>(
    rt: &R,
    alloc: Global,
    floor: &Floor<Countdown>,
    first: (FloorSeat<Countdown>, Vec<Kept>),
    second: (FloorSeat<Countdown>, Vec<Kept>),
) -> (
    (FloorSeat<Countdown>, Option<Vec<Kept>>),
    (FloorSeat<Countdown>, Option<Vec<Kept>>),
)
    requires first { IsSeatOf floor.now first.0 }
    requires second { IsSeatOf floor.now second.0 }
    requires stations { station_count floor.now ≡ 8 }
    requires job { job_of ⟦<Countdown as Station>⟧ floor.now ≡ 8 }
    ensures first { IsSeatOf floor.now result.0.0 × (number_of result.0.0 ≡ number_of first.0) }
    ensures second { IsSeatOf floor.now result.1.0 × (number_of result.1.0 ≡ number_of second.0) }
{
    thread::join(
        rt,
        move || work(alloc, floor, first.0, first.1),
        move || work(alloc, floor, second.0, second.1),
    )
}

/// The four seats of a floor.
#[derive(Drop)]
struct Four {
    nought: FloorSeat<Countdown>,
    one: FloorSeat<Countdown>,
    two: FloorSeat<Countdown>,
    three: FloorSeat<Countdown>,
}

// A floor of eight stations, and its four seats.
fn four_seats(alloc: Global) -> Result<(Floor<Countdown>, Four), AllocError>
    ensures counts { IfOk result (λ r. (station_count r.0 ≡ 8) × (seat_count r.0 ≡ 4)) }
    ensures job { IfOk result (λ r. job_of ⟦<Countdown as Station>⟧ r.0 ≡ 8) }
    ensures nought { IfOk result (λ r. IsSeatOf r.0 r.1.nought × (number_of r.1.nought ≡ 0)) }
    ensures one { IfOk result (λ r. IsSeatOf r.0 r.1.one × (number_of r.1.one ≡ 1)) }
    ensures two { IfOk result (λ r. IsSeatOf r.0 r.1.two × (number_of r.1.two ≡ 2)) }
    ensures three { IfOk result (λ r. IsSeatOf r.0 r.1.three × (number_of r.1.three ≡ 3)) }
{
    let (floor, mut seats) = Floor::new(alloc, eight(alloc)?, 4)?;
    let three = seats.remove(3);
    let two = seats.remove(2);
    let one = seats.remove(1);
    let nought = seats.remove(0);
    Ok((
        floor,
        Four {
            nought,
            one,
            two,
            three,
        },
    ))
}

// Four threads work, each with items of its own, and then one seat does what they left.
fn race<R: Threads + Sync>(
    rt: &R,
    alloc: Global,
    floor: &Floor<Countdown>,
    seats: Four,
) -> Result<Four, AllocError>
    requires stations { station_count floor.now ≡ 8 }
    requires job { job_of ⟦<Countdown as Station>⟧ floor.now ≡ 8 }
    requires nought { IsSeatOf floor.now seats.nought × (number_of seats.nought ≡ 0) }
    requires one { IsSeatOf floor.now seats.one × (number_of seats.one ≡ 1) }
    requires two { IsSeatOf floor.now seats.two × (number_of seats.two ≡ 2) }
    requires three { IsSeatOf floor.now seats.three × (number_of seats.three ≡ 3) }
    ensures nought { IfOk result (λ r. IsSeatOf floor.now r.nought × (number_of r.nought ≡ 0)) }
    ensures one { IfOk result (λ r. IsSeatOf floor.now r.one × (number_of r.one ≡ 1)) }
    ensures two { IfOk result (λ r. IsSeatOf floor.now r.two × (number_of r.two ≡ 2)) }
    ensures three { IfOk result (λ r. IsSeatOf floor.now r.three × (number_of r.three ≡ 3)) }
{
    let first = (seats.nought, nines(alloc, 0, 400)?);
    let second = (seats.one, nines(alloc, 3, 300)?);
    let third = (seats.two, nines(alloc, 3, 200)?);
    let fourth = (seats.three, nines(alloc, 6, 100)?);
    let ((a, b), (c, d)) = thread::join(
        rt,
        move || two_work(rt, alloc, floor, first, second),
        move || two_work(rt, alloc, floor, third, fourth),
    );
    let mut nought = a.0;
    let mut left = together(alloc, [a.1, b.1, c.1, d.1])?;
    passes(alloc, floor, &mut nought, &mut left)?;
    Ok(Four {
        nought,
        one: b.0,
        two: c.0,
        three: d.0,
    })
}

// The same items by one seat.
fn alone(alloc: Global, floor: &Floor<Countdown>, seats: Four) -> Result<Four, AllocError>
    requires stations { station_count floor.now ≡ 8 }
    requires job { job_of ⟦<Countdown as Station>⟧ floor.now ≡ 8 }
    requires nought { IsSeatOf floor.now seats.nought × (number_of seats.nought ≡ 0) }
    requires one { IsSeatOf floor.now seats.one × (number_of seats.one ≡ 1) }
    requires two { IsSeatOf floor.now seats.two × (number_of seats.two ≡ 2) }
    requires three { IsSeatOf floor.now seats.three × (number_of seats.three ≡ 3) }
    ensures nought { IfOk result (λ r. IsSeatOf floor.now r.nought × (number_of r.nought ≡ 0)) }
    ensures one { IfOk result (λ r. IsSeatOf floor.now r.one × (number_of r.one ≡ 1)) }
    ensures two { IfOk result (λ r. IsSeatOf floor.now r.two × (number_of r.two ≡ 2)) }
    ensures three { IfOk result (λ r. IsSeatOf floor.now r.three × (number_of r.three ≡ 3)) }
{
    let mut seats = seats;
    let first = nines(alloc, 0, 400)?;
    let second = nines(alloc, 3, 300)?;
    let third = nines(alloc, 3, 200)?;
    let fourth = nines(alloc, 6, 100)?;
    let mut kept = together(
        alloc,
        [Some(first), Some(second), Some(third), Some(fourth)],
    )?;
    passes(alloc, floor, &mut seats.nought, &mut kept)?;
    Ok(seats)
}

fn closed(
    alloc: Global,
    floor: Floor<Countdown>,
    seats: Four,
) -> Result<Closed<Countdown>, AllocError>
    requires count { seat_count floor ≡ 4 }
    requires nought { IsSeatOf floor seats.nought × (number_of seats.nought ≡ 0) }
    requires one { IsSeatOf floor seats.one × (number_of seats.one ≡ 1) }
    requires two { IsSeatOf floor seats.two × (number_of seats.two ≡ 2) }
    requires three { IsSeatOf floor seats.three × (number_of seats.three ≡ 3) }
{
    let mut all = Vec::with_capacity(alloc, 4)?;
    all.push_reserved(seats.nought);
    all.push_reserved(seats.one);
    all.push_reserved(seats.two);
    all.push_reserved(seats.three);
    Ok(floor.close(all))
}

#[test]
fn four_threads_do_what_one_does(rt: HostRuntime) -> Result<(), Fail> {
    let alloc = rt.alloc();
    let (floor, seats) = four_seats(alloc)?;
    let seats = race(&rt, alloc, &floor, seats)?;
    let raced = closed(alloc, floor, seats)?;
    let (floor, seats) = four_seats(alloc)?;
    let seats = alone(alloc, &floor, seats)?;
    let single = closed(alloc, floor, seats)?;
    let (mut items, mut total) = (0u64, 0u64);
    for (cell, other) in raced.cells().iter().zip(single.cells().iter()) {
        assert!(rt; cell.served == other.served && cell.station.sum() == other.station.sum());
        assert!(rt; cell.posted.as_slice().len() as u64 == cell.served);
        items = items.wrapping_add(cell.served);
        total = total.wrapping_add(cell.station.sum());
    }
    assert_eq!(rt; raced.cells().len(), 8);
    assert_eq!(rt; items, 10_000);
    // Each 9 comes down to 0, and 9 + 8 + .. + 1 is 45.
    assert_eq!(rt; total, 45_000);
    Ok(())
}
