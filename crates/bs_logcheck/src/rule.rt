// What is wrong with the text of a log.

/// A rule of the text of a log that a line breaks, in the order in which they are told at one line.
/// `docs/log.md` says which lines break which.
#[derive(Clone, Copy, Debug, PartialEq, Eq, PartialOrd, Ord, Drop)]
pub enum LogRule {
    /// The line spells none of the lines that may stand there, or a number of it is out of its range.
    BadLine,
    /// What the line refers to isn't there, or isn't in its order.
    BadReference,
    /// The depth of a row isn't 1 more than the greatest depth of the rows that its causes name.
    BadDepth,
    /// An earlier line sends to the same chare with the same key, or waits for the same key there.
    TwiceUsed,
    /// There are too many chares, entries, rows or lines.
    Limits,
}

/// The first line that breaks a rule, and the least rule that it breaks. Lines are counted from 1.
#[derive(Clone, Copy, Debug, PartialEq, Eq, Drop)]
pub struct Broken {
    pub line: u64,
    pub rule: LogRule,
}
