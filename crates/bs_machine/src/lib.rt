//! The machine that a program runs on: read from a file, or flat, and fitted to a program's chares.
//!
//! A machine file is TOML. `docs/machine-file.md` says what each key means and where each refusal
//! comes. What is seen of a fitted machine is four functions of numbers: the number of processors,
//! the home of a chare, the latency of a message and the duration of a block.
#![tactic(auto)]

mod fault;
mod fitted;
mod flats;
mod key;
pub mod laws;
mod machine;
mod names;
mod reading;
mod values;

pub use fault::MachineFault;
pub use fitted::{Fitted, PlaceLength};
pub use flats::flat;
pub use key::MachineKey;
pub use machine::{Machine, Speed};
pub use reading::read_machine;

#[cfg(test)]
mod tests;
