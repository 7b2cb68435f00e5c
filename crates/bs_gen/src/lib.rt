//! Programs made from a kind, a number of chares and a seed.
//!
//! `docs/workloads.md` says what each kind does.
#![tactic(auto)]

mod programs;
mod workload;

pub use programs::generate;
pub use workload::Workload;

#[cfg(test)]
mod tests;
