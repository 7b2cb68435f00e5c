//! Histories of chares, the log that an emulation writes, and the outcome of a run, as plain data.
//!
//! `docs/model.md` says what a block, a cause, a path, a depth and a message are.
#![tactic(auto)]

mod closed;
mod collected;
mod copies;
mod ending;
mod history;
mod laws;
mod log;
mod messages;
mod numbering;
mod outcome;
mod rows;
mod sizes;
mod validity;

pub use closed::is_closed;
pub use collected::{collect, collect_traps, collect_waits};
pub use copies::{
    copy_block, copy_history, copy_message, copy_messages, copy_numbers, copy_origin, copy_origins,
    copy_path, push_messages,
};
pub use ending::end;
pub use history::{Asked, Block, History, Key, Message, Origin, Sent, TrapAt, TrapKind, WaitAt};
pub use laws::numbers_rise;
pub use log::{Log, MailRef, Row, TrapRow, WaitRow};
pub use outcome::{End, OutRow, Outcome};
pub use sizes::size;
pub use validity::valid;

#[cfg(test)]
mod tests;
