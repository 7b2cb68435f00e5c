//! Rows and sends of a valid log by their numbers, and how long they take on a machine.
//!
//! Rows are numbered from 1, and so are the sends of a row; processors are numbered from 0. Times are in
//! ticks. No call takes memory.
#![tactic(auto)]

mod finding;

pub use finding::{count, duration, goes_to, home, row_at, sent_at, travel};
