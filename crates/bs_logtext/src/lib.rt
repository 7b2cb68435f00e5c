//! The text of a log, in which an emulation is kept.
//!
//! `docs/log.md` shows its lines.
#![tactic(auto)]

mod laws;
mod words;
mod writing;

pub use laws::{keys_are_declared, logs_are_valid, logs_are_written, texts_are_small};
pub use words::has_words;
pub use writing::write_log;

#[cfg(test)]
mod tests;
