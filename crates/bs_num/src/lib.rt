//! Whole numbers: ticks of simulated time, rounding, and decimal text.
#![tactic(auto)]

mod fault;
mod printing;
mod reading;
mod rounding;
mod ticks;

pub use fault::NumFault;
pub use printing::{decimal, signed};
pub use reading::{read_decimal, read_signed};
pub use rounding::scale;
pub use ticks::Tick;

#[cfg(test)]
mod tests;
