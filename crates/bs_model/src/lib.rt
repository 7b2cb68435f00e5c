//! The serial machine model: blocks are started one at a time, the least start first.
//!
//! `docs/model.md` says what it gives.
#![tactic(auto)]

mod agenda;
mod asking;
mod book;
mod candidates;
mod line;
mod mails;
mod model;
mod ready;
mod simulated;
mod state;
mod stop;

pub use model::simulate;
pub use simulated::Simulated;
