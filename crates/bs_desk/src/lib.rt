//! The outside of the product: the files that it reads and writes, standard output and standard
//! error.
//!
//! A `Desk` does one small step a call. `read_all` and `write_all` make whole reads and whole writes
//! of such steps, over any desk. `HostDesk` is the machine that the program runs on, and
//! `MemoryDesk` keeps its files in memory and tells them, so that a contract can speak of what was
//! read and written; and it can be told which of its calls are to fail.
#![tactic(auto)]

mod desk;
mod host;
mod memory;
mod plans;
mod versions;
mod whole;

pub use desk::{Desk, DeskFault, Port};
pub use host::HostDesk;
pub use memory::MemoryDesk;
pub use plans::Op;
pub use whole::{ReadAllFault, read_all, write_all};

#[cfg(test)]
mod tests;
