//! What if the machine were another, or one statement faster: the times of a log from given ticks, sweeps
//! over machines, and tuning of one statement, with their texts.
//!
//! `resettle` does waves that begin from the ticks of another machine, or of another log with the same
//! listed messages, and comes to the same times as from tick 0. `docs/model.md` says what waves are and what
//! a point is.
#![tactic(auto)]

mod choosing;
mod copies;
mod figures;
pub mod laws;
mod points;
mod scaling;
mod spans;
mod text;

pub use choosing::best;
pub use copies::copy_log;
pub use figures::{Figures, sweep, tune};
pub use points::{Point, resettle, zero_ticks};
pub use scaling::rescale;
pub use spans::{sweep_spans, tune_spans};
pub use text::{points_text, spans_text};

#[cfg(test)]
mod tests;
