// What the verdict on a program is.
use bs_log::{Key, Log};

/// A statement of a chare. Chares are numbered from 0, statements from 1.
#[derive(Clone, Copy, Debug, PartialEq, Eq, Drop)]
pub struct At {
    pub chare: u32,
    pub stmt: u32,
}

/// A key that a chare is sent twice, or that it asks for twice, and the first two statements that send
/// it or ask for it.
#[derive(Clone, Copy, Debug, PartialEq, Eq, Drop)]
pub struct Twice {
    pub asked: bool,
    /// The chare that is sent the key, or that asks for it.
    pub chare: u32,
    pub key: Key,
    pub first: At,
    pub second: At,
}

/// The verdict on a program at a limit of sizes.
#[derive(Debug, Drop)]
pub enum Verdict {
    /// Nothing new is sent: the log of the last round.
    Clean(Log),
    /// A chare is sent one key twice, or asks for one key twice.
    Ambiguous(Twice),
    /// The size is above the limit.
    TooLong,
}
