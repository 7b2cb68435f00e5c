//! The times of the serial machine model, told by the log alone: the starts that the model gives are
//! the one consistent table of the program's log. There is no code that runs here: `laws` has what
//! is proved.
//!
//! `docs/model.md` says the same in prose.
#![tactic(auto)]

pub mod laws;
