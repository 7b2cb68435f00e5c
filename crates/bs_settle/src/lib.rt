//! The times of a log on a machine: the one consistent table of starts, and its ends.
//!
//! `plain_times` computes it in one pass over the rows, in the order of their ready ticks. A `Field` has
//! the lines of all processors, and comes to the same from estimates, by waves of corrections. In
//! `settled_times` the estimates are those of the pass, and waves confirm them.
//! `docs/model.md` says what a consistent table and a wave are, and `bs_times` that there is exactly one
//! such table, and that waves come to it.
#![tactic(auto)]

mod causes;
mod counting;
mod field;
mod gathering;
mod holding;
pub mod laws;
mod log_plan;
mod making;
mod noting;
mod passing;
mod settling;
mod shares;
mod times;
mod waves;

pub use bs_line::Correction;
pub use counting::Counted;
pub use field::{Estimates, Field};
pub use noting::Noted;
pub use passing::settled_times;
pub use settling::{BudgetSpent, SettleFault};
pub use times::{Times, plain_times};

#[cfg(test)]
mod tests;
