// Settling a log on a machine by waves.
ghost use Rattle.std.specs.Prelude.{◌≡◌, ◌≤◌, ◌^◌, IfOk, Some};
ghost use Rattle.bs_log.specs.Valid.{IsValid};
ghost use Rattle.bs_machine.specs.Machine.{machine_view};
ghost use Rattle.bs_settle.specs.Field.{IsField};
ghost use Rattle.bs_settle.specs.Timed.{AreTimes};
ghost use Rattle.bs_times.specs.Machine.{machine_of};
ghost use Rattle.bs_top.specs.Computing.{Computes};
ghost use Rattle.bs_top.specs.Step.{Told};
ghost use Rattle.bs_top.specs.Waves.{most_waves as most_waves_of, within};
ghost use Rattle.bs_top.specs.Words.{AreWaves};

use crate::stopped::Stopped;
use bs_log::Log;
use bs_machine::Fitted;
use bs_settle::{Estimates, Field, Times, settled_times};
use std::alloc::Global;

/// The times of a valid log on a machine, within a number of waves where one is given.
pub(crate) fn times_within(
    alloc: Global,
    log: &Log,
    fitted: &Fitted,
    waves: Option<u64>,
) -> Result<Times, Stopped>
    requires valid { IsValid log.now }
    requires chares { fitted.now.chares ≡ log.now.chares }
    requires waves { AreWaves waves }
    ensures kind { Computes result }
    ensures times { IfOk result (AreTimes log.now (machine_of fitted.now)) }
    ensures told { Told (λ _. tt) (within waves log.now (machine_view fitted.now.machine)) result }
{
    match waves {
        Some(most) => times_from_zero(alloc, log, fitted, most),
        None => Ok(settled_times(alloc, log, fitted)?),
    }
}

// The times of a valid log on a machine, within a number of waves, which begin at tick 0.
fn times_from_zero(alloc: Global, log: &Log, fitted: &Fitted, most: u64) -> Result<Times, Stopped>
    requires valid { IsValid log.now }
    requires chares { fitted.now.chares ≡ log.now.chares }
    requires waves { AreWaves (Some most) }
    ensures kind { Computes result }
    ensures times { IfOk result (AreTimes log.now (machine_of fitted.now)) }
    ensures told { Told (λ _. tt) (within (Some most) log.now (machine_view fitted.now.machine)) result }
{
    let mut field = Field::new(alloc, log, fitted, Estimates::Zero)?;
    Ok(field.settle(alloc, most)?)
}

/// The greatest number of waves: the given one, or one that is enough.
pub(crate) fn most_waves(field: &Field<'_>, waves: Option<u64>) -> u64
    requires field { IsField field.now }
    requires waves { AreWaves waves }
    ensures value { result ≡ most_waves_of waves field.now.log.now }
    ensures range { (1 ≤ result) × (result ≤ 2 ^ 40) }
{
    match waves {
        Some(most) => most,
        None => field.budget(),
    }
}
