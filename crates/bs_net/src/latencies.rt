// How long a message takes.
ghost use Rattle.std.specs.Prelude.{◌≡◌, ◌<◌, ◌≤◌, ◌*◌, ◌^◌};
ghost use Rattle.bs_net.specs.Torus.{processors_of};
ghost use Rattle.bs_net.specs.Latency.{latency_of};
ghost use Rattle.std.specs.Int.{div_ceil};

use crate::cost::Costs;
use crate::torus::Torus;
use bs_num::scale;

/// The ticks that a message of so many bytes takes from one processor to another. On one processor
/// and inside one node they don't depend on the bytes. It takes no memory.
pub fn latency(torus: &Torus, costs: &Costs, from: u32, to: u32, bytes: u64) -> u64
    requires from { from < processors_of torus.now }
    requires to { to < processors_of torus.now }
    requires bytes { bytes ≤ 2 ^ 30 }
    ensures value { result ≡ latency_of torus.now costs.now from to bytes }
    ensures some { 1 ≤ result }
    ensures most { result < 2 ^ 40 }
{
    if from == to {
        costs.own
    } else if torus.node(from) == torus.node(to) {
        costs.local
    } else {
        let hops = u64::from(torus.hops(from, to));
        costs.base + costs.hop * hops + bytes_ticks(bytes, costs.num, costs.den)
    }
}

// What the bytes of a message add.
fn bytes_ticks(bytes: u64, num: u32, den: u32) -> u64
    requires bytes { bytes ≤ 2 ^ 30 }
    requires num { num ≤ 256 }
    requires den { 1 ≤ den }
    ensures value { result ≡ div_ceil (bytes * num) den }
    ensures most { result ≤ 2 ^ 38 }
{
    scale(bytes, num, den)
}
