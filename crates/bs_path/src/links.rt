// A chain of rows as plain data.
use bs_log::MailRef;
use bs_tree::List;

/// How the row before leads to a row of a chain.
#[derive(Clone, Copy, Debug, PartialEq, Eq, Drop)]
pub enum Link {
    /// There is none before it: it starts at tick 0.
    First,
    /// By this row, the one that its processor ran just before it, which ends when it starts.
    Processor(u32),
    /// By this block cause, which ends when it starts.
    After(u32),
    /// By this message cause, which arrives when it starts.
    Mail(MailRef),
}

/// A row of a chain: its number, counted from 1, the tick at which it starts, how many ticks that is after
/// the start of the row before it, 0 at the first, and how that row leads here.
#[derive(Clone, Copy, Debug, PartialEq, Eq, Drop)]
pub struct ChainRow {
    pub row: u32,
    pub start: u128,
    pub step: u128,
    pub link: Link,
}

/// Rows, each of which waits for the one before it, from one that starts at tick 0 to one that ends last.
/// The rest is how many ticks the last one takes, and the span is the greatest end; both are 0 where there
/// are no rows.
#[derive(Debug, Drop)]
pub struct Chain {
    pub rows: List<ChainRow>,
    pub rest: u128,
    pub span: u128,
}
