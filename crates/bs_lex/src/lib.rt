//! The tokens of a program text.
//!
//! `docs/program-text.md` says what the tokens are.
#![tactic(auto)]

mod laws;
mod lexer;
mod piece;
mod spelling;
mod token;

pub use bs_tree::{Mark, Word};
pub use laws::{faults_are_of_the_text, written_symbols_are_read};
pub use lexer::tokens;
pub use spelling::{mark_text, word_text};
pub use token::{LexFault, Token, TokenKind};

#[cfg(test)]
mod tests;
