//! The shared floor: stations that several threads post items to and serve, without a lock.
//!
//! A station is taken by a single compare and exchange, which succeeds or says which seat holds the
//! station. Whoever has a station posts an item to the end of its history, or serves the first item
//! that isn't served. When the floor is closed, each station's state is what serving its items in
//! order gives, and each post and each serve stands exactly once in the lists of the seats.
//! `docs/stations.md` tells what a station's history is.
//!
//! # Types that cross threads
//!
//! A floor is shared by `&` and a seat is moved into the thread that works with it. `Floor<S>` is
//! `Sync` and `FloorSeat<S>` is `Send` where `S` and `S::Item` are both `Send` and `Sync`, which a
//! station may be that holds shared references to data that is `Sync`. No lifetime has to be
//! `'static`: threads that are joined, as those of `std::thread::join` and `map_vec`, may borrow the
//! floor and what its stations refer to.
//!
//! No call of this crate waits for another thread, and nothing is promised of which thread gets on.
#![tactic(auto)]

mod answers;
mod cell;
mod closed;
#[cfg(test)]
mod countdown;
mod floor;
mod gate;
mod lists;
#[cfg(test)]
mod race;
mod rule;
mod seat;
mod station;
#[cfg(test)]
mod tests;
mod turn_table;
mod view;

pub use answers::{Position, PostFault, ServeFault, Served};
pub use cell::Cell;
pub use closed::Closed;
pub use floor::Floor;
pub use gate::{Gate, OpenGate};
pub use seat::FloorSeat;
pub use station::{Bound, Station};
