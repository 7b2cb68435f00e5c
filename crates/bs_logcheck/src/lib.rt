//! The second pass of reading the text of a log: the first line that breaks a rule, where each line
//! by itself is a line of a log.
//!
//! `docs/log.md` has the rules. They say what lines may refer to, and no key is used twice.
#![tactic(auto)]

mod causes;
mod checker;
mod ends;
mod faults;
pub mod laws;
mod length;
mod place;
mod rows;
mod rule;

pub use checker::{first_broken, is_sound};
pub use length::is_short;
pub use rule::{Broken, LogRule};

#[cfg(test)]
mod tests;
