//! When rows start that wait for one another and share processors.
//!
//! A plan has rows with their processors, durations and causes. A row is ready when its causes let it
//! start. Each processor takes its rows one at a time, in the order of (ready tick, number), and
//! starts each at its ready tick, or where the row before it ends. `schedule` computes all starts in
//! time near-linear in the rows and their causes, for any number of processors, and `docs/model.md`
//! tells the rule.
//!
//! A line of a machine and a whole log are both such a plan. Rows are numbered from 1, and place 0 of
//! each list isn't used. Ticks are plain numbers here.
#![tactic(auto)]

mod dependants;
pub mod laws;
mod plan;
mod queue;
mod timing;

pub use plan::{Cause, Plan};
pub use timing::schedule;
