//! The words of a command line, read as a command.
//!
//! A list of words is read only where it is plain: each option stands once, before its value if it
//! has one, and not between two names. A plain list is then read by `clap` as one simple command.
//! What a command means is a table: its names and its options are in `verb.rt`, the words that may
//! stand for a name in `roles.rt`, the word of a machine in `machine.rt`, the three of a program to
//! generate in `generated.rt`, the three of a statement to tune in `tuning.rt`, and the ranges of
//! options in `command.rt`.
#![tactic(auto)]

mod app;
mod argument;
mod command;
mod fault;
mod flag;
mod generated;
mod machine;
mod plain;
mod reading;
mod roles;
mod setting;
mod tuning;
mod verb;

pub use argument::Argument;
pub use command::{Command, read_words};
pub use fault::WordsFault;
pub use generated::{Generated, asked_program};
pub use machine::{MachineWord, machine_word};
pub use tuning::{Tuning, asked_tuning};
pub use verb::Verb;

#[cfg(test)]
mod tests;
