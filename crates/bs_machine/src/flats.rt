// Flat machines.
ghost use Rattle.std.specs.Prelude.{◌≡◌, ◌≢◌, IfOk, IfErr, Ok, Err};
ghost use Rattle.bs_machine.specs.Machine.{flat_in, machine_view};
ghost use Rattle.bs_machine.specs.declared.fault.MachineFault.TheVariants.{Memory};

use crate::fault::MachineFault;
use crate::key::MachineKey;
use crate::machine::{Machine, Speed};
use bs_net::{Costs, Place, Torus};
use bs_tree::List;
use std::alloc::Global;

/// The machine of one ring of processors where each message takes `latency` ticks and a block as
/// many ticks as it costs. Chares are placed in turn.
///
/// `OutOfRange(torus.sizes)` comes exactly where `processors` isn't from 1 to 65,536, otherwise
/// `OutOfRange(latency.base)` exactly where `latency` isn't from 1 to 2^38.
pub fn flat(alloc: Global, processors: u32, latency: u64) -> Result<Machine, MachineFault>
    ensures ok { IfOk result (λ machine. flat_in processors latency ≡ Ok (machine_view machine)) }
    ensures err { IfErr result (λ fault. fault ≢ Memory → flat_in processors latency ≡ Err fault) }
{
    if processors < 1 || processors > 65536 {
        return Err(MachineFault::OutOfRange(MachineKey::TorusSizes, None));
    }
    if latency < 1 || latency > 274_877_906_944 {
        return Err(MachineFault::OutOfRange(MachineKey::LatencyBase, None));
    }
    let mut sizes = List::new(alloc);
    sizes.push(processors)?;
    let torus = match Torus::new(sizes, 1) {
        Ok(torus) => torus,
        Err(_) => return Err(MachineFault::OutOfRange(MachineKey::TorusSizes, None)),
    };
    Ok(Machine {
        torus,
        place: Place::Cycle,
        speed: Speed { num: 1, den: 1 },
        costs: Costs {
            own: latency,
            local: latency,
            base: latency,
            hop: 0,
            num: 0,
            den: 1,
        },
    })
}
