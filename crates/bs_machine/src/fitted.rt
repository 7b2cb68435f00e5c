// A machine that is fitted to a number of chares.
ghost use Rattle.std.specs.Prelude.{◌≡◌, ℕ, ◌≤◌, ◌<◌, ◌^◌, IsTrue, IfOk, IfErr, Ok, false};
ghost use Rattle.bs_net.specs.Home.{has_length, homes_in};

use crate::machine::Machine;
use bs_net::{Place, home, latency};
use bs_num::scale;

/// A machine and the number of the chares that it is for. Processors and chares are numbered from 0.
#[derive(Debug, Drop)]
pub struct Fitted {
    pub machine: Machine,
    /// From 1 to 65,536.
    pub chares: u32,
    pub ghost chares_in_range: { (1 ≤ chares) × (chares ≤ 65536) },
    /// A list of homes has one for each chare.
    pub ghost place_fits: { IsTrue (has_length machine.place chares) },
}

/// The list of homes has another length than there are chares.
#[derive(Clone, Copy, Debug, PartialEq, Eq, Drop)]
pub struct PlaceLength {
    pub given: u64,
    pub needed: u64,
}

impl Machine {
    ghost use Rattle.bs_machine.specs.Fitted.{IsFlat, HasBounds};
    ghost use Rattle.bs_machine.specs.Machine.{flat_in, machine_view};

    /// The machine for so many chares. It takes no memory.
    ///
    /// `PlaceLength` comes exactly where the place is a list of another length.
    pub fn fit(self, chares: u32) -> Result<Fitted, PlaceLength>
        requires { (1 ≤ chares) × (chares ≤ 65536) }
        ensures ok { IfOk result (λ fitted. (fitted.machine ≡ self) × (fitted.chares ≡ chares)) }
        ensures bounds { IfOk result HasBounds }
        ensures flat { IfOk result (λ fitted. (processors latency : ℕ) → flat_in processors latency ≡ Ok (machine_view self) → IsFlat processors latency fitted) }
        ensures length { IfErr result (λ fault. (has_length self.place chares ≡ false) × (homes_in self.place ≡ fault.given) × (fault.needed ≡ chares)) }
    {
        match &self.place {
            Place::Listed(homes) if homes.as_slice().len() != chares as usize => {
                return Err(PlaceLength {
                    given: homes.as_slice().len() as u64,
                    needed: u64::from(chares),
                });
            }
            _ => {}
        }
        Ok(Fitted {
            machine: self,
            chares,
        })
    }
}

impl Fitted {
    ghost use Rattle.bs_machine.specs.Fitted.{processors_of, home_of, latency_of, duration_of};

    /// How many processors there are, from 1 to 65,536.
    pub fn processors(&self) -> u32
        ensures value { result ≡ processors_of self.now }
        ensures range { (1 ≤ result) × (result ≤ 65536) }
    {
        self.machine.torus.processors()
    }

    /// The processor of a chare.
    pub fn home(&self, chare: u32) -> u32
        requires { chare < self.now.chares }
        ensures value { result ≡ home_of self.now chare }
        ensures below { result < processors_of self.now }
    {
        home(&self.machine.place, chare, self.chares, self.processors())
    }

    /// The ticks of a message of at most 2^30 bytes, from 1 to below 2^40.
    pub fn latency(&self, from: u32, to: u32, bytes: u64) -> u64
        requires from { from < processors_of self.now }
        requires to { to < processors_of self.now }
        requires bytes { bytes ≤ 2 ^ 30 }
        ensures value { result ≡ latency_of self.now from to bytes }
        ensures range { (1 ≤ result) × (result < 2 ^ 40) }
    {
        latency(&self.machine.torus, &self.machine.costs, from, to, bytes)
    }

    /// The ticks of a block of a cost from 1 to 2^32, from 1 to below 2^48.
    pub fn duration(&self, cost: u64) -> u64
        requires { (1 ≤ cost) × (cost ≤ 2 ^ 32) }
        ensures value { result ≡ duration_of self.now cost }
        ensures range { (1 ≤ result) × (result < 2 ^ 48) }
    {
        scale(cost, self.machine.speed.num, self.machine.speed.den)
    }
}
