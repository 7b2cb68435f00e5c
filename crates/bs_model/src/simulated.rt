// What the serial machine model gives.
use bs_log::Outcome;

/// What the serial machine model gives for a program on a machine.
#[derive(Debug, Drop)]
pub enum Simulated {
    Timed(Outcome),
    /// The verdict on the program isn't Clean.
    Unclean,
}
