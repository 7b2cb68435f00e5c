// The lines of the text of a log, as data.
use bs_log::{MailRef, Sent, TrapRow, WaitRow};

/// What the second line says: how many chares, entries and rows there are.
#[derive(Clone, Copy, Debug, PartialEq, Eq, Drop)]
pub struct Counts {
    pub chares: u32,
    pub entries: u32,
    pub rows: u32,
}

/// What a `row` line says: the chare, the statement, the depth and the cost of a block.
#[derive(Clone, Copy, Debug, PartialEq, Eq, Drop)]
pub struct Head {
    pub chare: u32,
    pub stmt: u32,
    pub depth: u32,
    pub cost: u64,
}

/// A line of the text of a log.
#[derive(Clone, Copy, Debug, PartialEq, Eq, Drop)]
pub enum Line {
    /// `bslog 1`
    Version,
    /// `chares C entries E rows R`
    Counts(Counts),
    /// `row CHARE STMT DEPTH COST`
    Row(Head),
    /// `after ROW`
    After(u32),
    /// `mail ROW INDEX`
    Mail(MailRef),
    /// `emit VALUE`
    Emit(i64),
    /// `send TO ENTRY REF BYTES OFFSET`
    Send(Sent),
    /// `trap CHARE STMT KIND`
    Trap(TrapRow),
    /// `wait CHARE STMT ENTRY REF`
    Wait(WaitRow),
    /// `end`
    End,
}
