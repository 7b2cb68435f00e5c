// Simulated time.

/// A number of ticks of simulated time, counted from 0. Ticks are ordered as their numbers are.
#[derive(Clone, Copy, Debug, PartialEq, Eq, PartialOrd, Ord, Drop, Default)]
pub struct Tick(pub u128);
