// The outcome of a run on a machine.
use crate::log::{TrapRow, WaitRow};
use bs_tree::List;

/// A block of an outcome: where it ran, from which tick to which, and the values that it emitted.
#[derive(Debug, Drop)]
pub struct OutRow {
    pub chare: u32,
    pub stmt: u32,
    pub processor: u32,
    pub start: u128,
    pub end: u128,
    pub values: List<i64>,
}

/// The blocks of a run in the order of (chare, path), its traps and its waits.
#[derive(Debug, Drop)]
pub struct Outcome {
    pub rows: List<OutRow>,
    pub traps: List<TrapRow>,
    pub waits: List<WaitRow>,
}

/// How a run ends: trapped where there is a trap, otherwise deadlocked where there is a wait,
/// otherwise settled.
#[derive(Clone, Copy, Debug, PartialEq, Eq, Drop)]
pub enum End {
    Settled,
    Deadlock,
    Trapped,
}
