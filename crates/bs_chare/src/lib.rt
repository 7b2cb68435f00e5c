//! A chare that takes its messages one after the other.
//!
//! `docs/model.md` says what the history of a chare under a mail is.
#![tactic(auto)]

mod asked;
mod chare;
mod copies;
mod fault;
mod news;

pub use chare::{Chare, ChareState};
pub use fault::ChareFault;
