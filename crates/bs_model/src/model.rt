// The serial machine model.
ghost use Rattle.std.specs.Prelude.{◌≡◌, ◌≤◌, IfOk, IfErr, OnOk};
ghost use Rattle.bs_log.specs.Reportable.{IsReportable};
ghost use Rattle.bs_semantics.specs.Serial.{IsSerial, timed};
ghost use Rattle.bs_times.specs.Machine.{machine_of};
ghost use Rattle.bs_model.specs.Simulated.{IsDecided, IsSimulated};
ghost use Rattle.bs_model.specs.Stop.{Denies, HasCleanRound};

use crate::simulated::Simulated;
use crate::state::State;
use crate::stop::Stop;
use bs_check::Accepted;
use bs_log::Outcome;
use bs_machine::Fitted;
use std::alloc::{AllocError, Global};

/// What the serial machine model gives for a program on a machine that was fitted to the program's
/// chares, at a limit of sizes from 1 to 262,144. Only memory can be wanting.
///
/// `Unclean` comes exactly where the verdict on the program isn't Clean.
pub fn simulate(
    alloc: Global,
    accepted: &Accepted,
    machine: &Fitted,
    limit: u64,
) -> Result<Simulated, AllocError>
    requires chares { machine.now.chares ≡ accepted.now.program.chares }
    requires limit { (1 ≤ limit) × (limit ≤ 262144) }
    ensures value { IfOk result (λ s. IsSimulated accepted.now.program limit (machine_of machine.now) s) }
    ensures decided { IfOk result (λ s. IsDecided accepted.now.program limit s) }
{
    match run(alloc, accepted, machine, limit) {
        Ok(outcome) => Ok(Simulated::Timed(outcome)),
        Err(Stop::Unclean) => Ok(Simulated::Unclean),
        Err(Stop::Memory) => Err(AllocError),
    }
}

// Starts blocks until none can start. Where the verdict is Clean, each state is clean, and the last state
// is clean only there. So on the way only what each step changes is tested, and the keys that the chares
// ask for are tested at the end.
fn run(alloc: Global, accepted: &Accepted, machine: &Fitted, limit: u64) -> Result<Outcome, Stop>
    requires chares { machine.now.chares ≡ accepted.now.program.chares }
    requires limit { (1 ≤ limit) × (limit ≤ 262144) }
    ensures serial { IfOk result (λ o. IsSerial accepted.now.program limit (machine_of machine.now) (timed o)) }
    ensures reportable { IfOk result IsReportable }
    ensures clean { OnOk result (HasCleanRound accepted.now.program limit) }
    ensures stopped { IfErr result (Denies (HasCleanRound accepted.now.program limit)) }
{
    let mut state = State::begin(alloc, accepted, machine, limit)?;
    for _turn in 0..limit + 1 {
        match state.next() {
            Some(next) => state = state.start(alloc, accepted, machine, limit, next)?,
            None => return state.outcome(alloc),
        }
    }
    // A clean state has no more blocks than the limit.
    Err(Stop::Unclean)
}
