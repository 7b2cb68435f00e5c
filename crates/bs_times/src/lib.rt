//! What the times of a log are, by definition: the ready tick of each row, the order of the rows on a
//! processor, the consistent table of starts, waves of corrections, and the outcome. The definitions
//! stand in `specs/`; `laws` has what is proved of them.
//!
//! `docs/model.md` says the same in prose.
#![tactic(auto)]

pub mod laws;
