// What an emulation gives.
use bs_log::Log;

/// What an emulation of a program gives.
#[derive(Debug, Drop)]
pub enum Emulated {
    /// The log of the Clean round.
    Logged(Log),
    /// The verdict on the program isn't Clean.
    Unclean,
}
