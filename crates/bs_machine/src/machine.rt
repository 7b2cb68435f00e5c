// A machine within its ranges.
ghost use Rattle.std.specs.Prelude.{◌≤◌, IsTrue};
ghost use Rattle.bs_net.specs.Home.{is_within};
ghost use Rattle.bs_net.specs.Torus.{processors_of};

use bs_net::{Costs, Place, Torus};

/// How long blocks take: `num` ticks for each `den` units of cost, rounded up.
#[derive(Clone, Copy, Debug, Drop)]
pub struct Speed {
    /// From 1 to 65,535.
    pub num: u32,
    /// From 1 to 65,535.
    pub den: u32,
    pub ghost num_in_range: { (1 ≤ num) × (num ≤ 65535) },
    pub ghost den_in_range: { (1 ≤ den) × (den ≤ 65535) },
}

/// A machine, not yet fitted to a program.
#[derive(Debug, Drop)]
pub struct Machine {
    pub torus: Torus,
    pub place: Place,
    pub speed: Speed,
    pub costs: Costs,
    /// A list of homes names processors that are there.
    pub ghost homes_within: { IsTrue (is_within place (processors_of torus)) },
}
