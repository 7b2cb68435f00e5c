// Emulation by one worker.
ghost use Rattle.std.specs.Prelude.{◌≤◌, IfOk, IfErr};
ghost use Rattle.bs_emul.specs.Emulated.{IsCleanLog, IsEmulated};
ghost use Rattle.bs_emul.specs.Stop.{IsStopped};
ghost use Rattle.bs_emul.specs.World.{AreDone};

use crate::collected::histories;
use crate::emulated::Emulated;
use crate::stop::Stop;
use crate::world::World;
use bs_chare::Chare;
use bs_check::Accepted;
use bs_log::{Log, collect};
use std::alloc::{AllocError, Global};

/// Emulates a program by messages, at a limit of sizes from 1 to 262,144. Only memory can be wanting.
///
/// All chares are begun, and each message that is sent is served by its chare, until none is left. The log
/// is then that of the Clean round. `Unclean` comes exactly where the verdict on the program isn't Clean.
pub fn emulate_alone(alloc: Global, accepted: &Accepted, limit: u64) -> Result<Emulated, AllocError>
    requires { (1 ≤ limit) × (limit ≤ 262144) }
    ensures { IfOk result (λ emulated. IsEmulated accepted.now.program limit emulated) }
{
    match emulate(alloc, accepted, limit) {
        Ok(log) => Ok(Emulated::Logged(log)),
        Err(Stop::Unclean) => Ok(Emulated::Unclean),
        Err(Stop::Memory) => Err(AllocError),
    }
}

fn emulate(alloc: Global, accepted: &Accepted, limit: u64) -> Result<Log, Stop>
    requires { (1 ≤ limit) × (limit ≤ 262144) }
    ensures logged { IfOk result (IsCleanLog accepted.now.program limit) }
    ensures stopped { IfErr result (IsStopped accepted.now.program limit) }
{
    let chares = serve_all(alloc, accepted, limit)?;
    log(alloc, accepted, limit, &chares)
}

// Serves messages until none is left. Where the verdict is Clean they are no more than the limit.
fn serve_all<'p>(alloc: Global, accepted: &'p Accepted, limit: u64) -> Result<Vec<Chare<'p>>, Stop>
    requires { (1 ≤ limit) × (limit ≤ 262144) }
    ensures done { IfOk result (λ chares. AreDone accepted.now.program limit chares.items) }
    ensures stopped { IfErr result (IsStopped accepted.now.program limit) }
{
    let mut world = World::begin(alloc, accepted, limit)?;
    for _ in 0..limit + 1 {
        let served = world.serve(alloc, limit)?;
        if !served {
            return Ok(world.chares);
        }
    }
    Err(Stop::Unclean)
}

// The log of chares that have served all messages.
fn log(alloc: Global, accepted: &Accepted, limit: u64, chares: &[Chare<'_>]) -> Result<Log, Stop>
    requires limit { limit ≤ 262144 }
    requires done { AreDone accepted.now.program limit chares.now }
    ensures logged { IfOk result (IsCleanLog accepted.now.program limit) }
    ensures stopped { IfErr result (IsStopped accepted.now.program limit) }
{
    let histories = histories(alloc, limit, chares)?;
    let entries = accepted.program().entries.as_slice().len() as u32;
    let log = collect(alloc, &histories, entries)?;
    Ok(log)
}
