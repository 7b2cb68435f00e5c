//! The critical chain of a log on a machine: the rows that its span waits for, each with how the one before
//! leads to it; and a check of such a chain, which shares no more with the search than how starts and ends
//! are read.
//!
//! `docs/model.md` says what the chain is, and `docs/chain.md` how to read one. Rows are numbered from 1,
//! and so are the sends of a row; places in a chain are counted from 0. Times are in ticks.
#![tactic(auto)]

mod causes;
mod checking;
mod ended;
pub mod laws;
mod linking;
mod links;
mod neighbours;
mod reading;
mod rules;
mod searching;
mod stepping;
mod text;
mod walking;

pub use checking::check_chain;
pub use links::{Chain, ChainRow, Link};
pub use rules::{ChainFault, ChainRule};
pub use searching::chain;
pub use text::chain_text;

#[cfg(test)]
mod tests;
