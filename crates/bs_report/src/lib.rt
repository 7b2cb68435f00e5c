//! The texts that the program writes about a run: the report of an outcome, the trace of a log, the
//! journal of waves, the line of a trial, and the line of a refusal.
//!
//! `docs/output.md` shows each line.
#![tactic(auto)]

mod ending;
mod faults;
mod journals;
mod outcomes;
mod processors;
mod runs;
mod text;
mod traced;
mod traces;
mod trials;

pub use ending::end;
pub use faults::{Fault, fault_line};
pub use journals::journal;
pub use outcomes::outcome;
pub use processors::each_processor_once;
pub use text::report;
pub use traces::{each_row_once, trace};
pub use trials::trial_line;

#[cfg(test)]
mod tests;
