//! The network of a machine: a torus of nodes, where chares are placed on it, and how long a
//! message takes (`docs/machine-file.md`).
//!
//! All is exact whole-number arithmetic. Only a machine within its ranges can be made, so no number
//! here ever leaves its type, and each call but those that make a value is a plain formula.
#![tactic(auto)]

mod cost;
mod latencies;
mod place;
mod torus;

pub use cost::Costs;
pub use latencies::latency;
pub use place::{Place, home};
pub use torus::{NetFault, Torus};

#[cfg(test)]
mod tests;
