//! Prints programs in their one canonical text.
//!
//! `docs/program-text.md` says how a program is printed.
#![tactic(auto)]

mod acts;
mod expressions;
mod laws;
mod printer;
mod statements;
mod tokens;

pub use laws::{one_canonical_text, printed_is_read};
pub use printer::print;

#[cfg(test)]
mod tests;
