//! The rounds of a program, and the verdict on it.
//!
//! `docs/model.md` says what a round is, and what decides.
#![tactic(auto)]

mod answer;
mod asking;
mod naming;
mod origins;
mod posting;
mod rounds;
mod state;
mod stop;
mod taking;

pub use answer::{At, Twice, Verdict};
pub use bs_history::{HistoryFault, history};
pub use rounds::verdict;
