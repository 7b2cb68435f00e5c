// What a seat knows. No value of these types is ever made but a `Setup`: they exist in contracts.
use crate::cell::Cell;
use crate::station::{Bound, Station};
use bs_tree::List;
use std::collections::LinkedList;
use std::snapshot::Snapshot;

/// What a floor was made from: its stations in their opening states, the first of which shows the job
/// of all, and how many seats it has.
#[derive(Drop)]
pub struct Setup<S> {
    pub first: Snapshot<S>,
    pub stations: Snapshot<Vec<S>>,
    pub seats: u32,
}

/// What an own atomic step of a seat read at a station: which seat held it, or its two counts.
pub enum Look {
    Held {
        station: u64,
        by: u64,
    },
    Counts {
        station: u64,
        posted: u64,
        served: u64,
    },
}

/// Something that stands at a number of a station's history, both counted from 0.
pub struct Entry<X> {
    pub station: u64,
    pub number: u64,
    pub content: X,
}

/// The station that a seat holds, with its cell as the words count it.
pub struct Turn<S: Station> {
    pub station: u64,
    pub cell: Cell<S>,
}

/// What a seat knows. A seat that was joined to another one has no setup. `numbers` are its own
/// number and those of the seats that were joined to it, and `given` is how many numbers are given
/// out, where this seat is the one that gives them.
pub struct SeatView<S: Station> {
    pub setup: Option<Setup<S>>,
    pub number: u64,
    pub numbers: LinkedList<u64>,
    pub given: u64,
    pub held: Option<Turn<S>>,
    pub posts: LinkedList<Entry<S::Item>>,
    pub serves: LinkedList<Entry<List<Bound<S::Item>>>>,
    pub looks: LinkedList<Look>,
}
