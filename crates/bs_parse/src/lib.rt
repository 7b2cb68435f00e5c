//! Reads the tokens of a program into its tree.
//!
//! `docs/program-text.md` says how a program is written.
#![tactic(auto)]

mod acts;
mod cursor;
mod expressions;
pub mod laws;
mod names;
mod program;
mod statements;
mod text;
pub mod text_laws;
mod tokens;
mod whole;

pub use text::{ParseFault, parse};

#[cfg(test)]
mod tests;
