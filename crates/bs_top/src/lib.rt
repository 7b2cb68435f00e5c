//! The one call that does what the words of a command line ask for, over any desk.
//!
//! `perform.rt` reads the words, has a command give its reply, and has that written. Each command has a
//! file in `commands/`; what several of them do stands beside that folder: what they read (`inputs.rt`),
//! the verdict on a program (`verdicts.rt`), waves (`settling.rt`) and reports (`reports.rt`).
//! `docs/adding-a-command.md` lists the places that a new command touches, `docs/promises.md` says what
//! the call promises, and `docs/output.md` what is written.
#![tactic(auto)]

mod asked;
mod commands;
mod inputs;
pub mod laws;
mod perform;
mod reply;
mod reports;
mod settling;
mod status;
mod stopped;
mod verdicts;
mod writing;

pub use perform::perform_alone;
pub use status::Status;

#[cfg(test)]
mod tests;
