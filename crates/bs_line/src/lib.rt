//! The timeline of one processor: its rows, the ticks that it holds for their messages, and what it
//! gave last for the messages that they send.
//!
//! `Line::recompute` computes the starts of its rows from the ticks that are held, and answers the
//! arrivals that changed. `docs/model.md` says what a line is, and what waves make of lines.
#![tactic(auto)]

mod bases;
mod choosing;
mod corrections;
pub mod laws;
mod layout;
mod line;
mod made;
mod making;
mod places;

pub use choosing::listed;
pub use corrections::Correction;
pub use layout::{Layout, Out};
pub use line::{Differs, Line};
pub use making::Estimate;

#[cfg(test)]
mod tests;
