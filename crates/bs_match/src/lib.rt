//! The mail of a chare: the messages that came to it, each found by its key.
//!
//! `Mail` holds at most one message of a key, and a look-up takes a logarithmic time. `laws` ties it to
//! the mail that a list of messages makes for a chare.
#![tactic(auto)]

pub mod laws;
mod mail;

pub use mail::{Mail, PutFault};

#[cfg(test)]
mod tests;
