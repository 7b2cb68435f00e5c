// The log of an emulation: what every prediction needs, and nothing of the program.
use crate::history::{Key, Sent, TrapKind};
use bs_tree::List;

/// A message of a log: the row that sent it and its place among that row's sends, both counted
/// from 1.
#[derive(Clone, Copy, Debug, PartialEq, Eq, PartialOrd, Ord, Drop)]
pub struct MailRef {
    pub row: u32,
    pub index: u32,
}

/// A block of a log. Its block causes are rows of the same chare, counted from 1.
#[derive(Debug, Drop)]
pub struct Row {
    pub chare: u32,
    pub stmt: u32,
    pub depth: u32,
    pub cost: u64,
    pub after: List<u32>,
    pub mail: List<MailRef>,
    pub emits: List<i64>,
    pub sends: List<Sent>,
}

/// A statement of a chare that stopped.
#[derive(Clone, Copy, Debug, PartialEq, Eq, Drop)]
pub struct TrapRow {
    pub chare: u32,
    pub stmt: u32,
    pub kind: TrapKind,
}

/// A key that a statement of a chare waits for.
#[derive(Clone, Copy, Debug, PartialEq, Eq, Drop)]
pub struct WaitRow {
    pub chare: u32,
    pub stmt: u32,
    pub key: Key,
}

/// A log. Its rows stand in the order of (chare, path), and so do its traps and its waits.
#[derive(Debug, Drop)]
pub struct Log {
    pub chares: u32,
    pub entries: u32,
    pub rows: List<Row>,
    pub traps: List<TrapRow>,
    pub waits: List<WaitRow>,
}
