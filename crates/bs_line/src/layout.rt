// What of a line stays as it is.
use bs_log::MailRef;
use bs_schedule::Plan;
use bs_tree::List;

/// A listed message that a row of the line sends.
#[derive(Clone, Copy, Debug, PartialEq, Eq, Drop)]
pub struct Out {
    pub mail: MailRef,
    /// The row that sends it, by its number on the line, from 1.
    pub row: u32,
    /// How many ticks after that row's start it arrives.
    pub travel: u64,
    /// The processor that it goes to, from 0.
    pub to: u32,
}

/// The rows of a line and their causes, the messages that come to it, and those that it sends. Rows have
/// numbers on the line from 1, by their places among its rows.
#[derive(Debug, Drop)]
pub struct Layout {
    /// The line's rows in their order, by their numbers in the log, from 1.
    pub rows: List<u32>,
    /// The rows with their durations and block causes, by their numbers on the line. They share one
    /// processor, of number 0.
    pub plan: Plan,
    /// The listed messages that come to the line, in the order of (row, index).
    pub mails: List<MailRef>,
    /// For each row, by its number on the line, the places of its messages in `mails`.
    pub slots: List<List<usize>>,
    /// The listed messages that the line sends, in the order of (row, index).
    pub outs: List<Out>,
}
