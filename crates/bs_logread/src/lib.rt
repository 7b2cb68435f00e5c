//! The strict reader of the text of a log.
//!
//! `docs/log.md` shows the lines, says how a text is read, and has an example of each fault.
#![tactic(auto)]

mod draft;
mod fault;
mod laws;
mod lines;
mod order;
mod reading;
mod spelled;
mod words;

pub use bs_logcheck::LogRule;
pub use fault::LogFault;
pub use laws::{one_fault, one_text, some_answer, written_logs_are_read};
pub use lines::{Counts, Head, Line};
pub use reading::read_log;

#[cfg(test)]
mod tests;
