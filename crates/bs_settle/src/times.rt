// The consistent table of a log.
ghost use Rattle.std.specs.Prelude.{◌≡◌, ◌+◌, ◌<◌, ◌≤◌, ◌^◌, ℕ, IfOk, length};
ghost use Rattle.bs_log.specs.Valid.{IsValid};
ghost use Rattle.bs_schedule.specs.Plan.{at};
ghost use Rattle.bs_rows.specs.Rows.{net_on};
ghost use Rattle.bs_times.specs.Machine.{machine_of};
ghost use Rattle.bs_times.specs.Times.{IsConsistent};
ghost use Rattle.bs_settle.specs.Timed.{AreTimes, ends_from, numbers, starts_from};

use crate::log_plan::log_plan;
use bs_log::Log;
use bs_machine::Fitted;
use bs_num::Tick;
use bs_rows::{count, duration};
use bs_schedule::schedule;
use bs_tree::List;
use std::alloc::{AllocError, Global};

/// When each row of a log starts and ends on a machine, in the order of the rows.
#[derive(Debug, Drop)]
pub struct Times {
    pub starts: List<Tick>,
    pub ends: List<Tick>,
}

/// The times of a valid log on a machine that was fitted to the log's chares.
///
/// The starts are the one consistent table: each row is ready at the greatest of the ends of its block
/// causes and the arrivals of its message causes, and at 0 without causes. Each processor runs its rows
/// one at a time in the order of (ready tick, number), and each starts at the greater of its ready tick
/// and the end of the row before it. A row ends at its start and the duration of its cost. A message
/// arrives at its sender's start, plus the duration of its offset, plus the latency.
///
/// A row takes from 1 to 2^48 ticks. Each start is below tick 2^109, and each end below tick 2^110. The
/// time that the call takes is near-linear in the log. The only refusal is want of memory.
pub fn plain_times(alloc: Global, log: &Log, machine: &Fitted) -> Result<Times, AllocError>
    requires valid { IsValid log.now }
    requires fitted { machine.now.chares ≡ log.now.chares }
    ensures { IfOk result (AreTimes log.now (machine_of machine.now)) }
{
    let starts = plain_starts(alloc, log, machine)?;
    let times = timed_rows(alloc, log, machine, &starts)?;
    Ok(times)
}

// The starts of the consistent table by the rows' numbers, in one pass over the rows in the order of their
// ready ticks.
pub(crate) fn plain_starts(
    alloc: Global,
    log: &Log,
    machine: &Fitted,
) -> Result<Vec<u128>, AllocError>
    requires valid { IsValid log.now }
    requires fitted { machine.now.chares ≡ log.now.chares }
    ensures each { IfOk result (λ starts. length starts.items ≡ length log.now.rows + 1) }
    ensures early { IfOk result (λ starts. (i : ℕ) → at starts.items i ≤ 2 ^ 100) }
    ensures consistent { IfOk result (λ starts. IsConsistent (net_on log.now machine.now) (at starts.items)) }
{
    let plan = log_plan(alloc, log, machine)?;
    let base = vec![in alloc; 0; plan.times.as_slice().len()]?;
    let starts = schedule(alloc, &plan, &base)?;
    Ok(starts)
}

// The times of rows that start at these ticks, by number.
pub(crate) fn timed_rows(
    alloc: Global,
    log: &Log,
    machine: &Fitted,
    starts: &[u128],
) -> Result<Times, AllocError>
    requires valid { IsValid log.now }
    requires each { length starts.now ≡ length log.now.rows + 1 }
    requires early { (i : ℕ) → at starts.now i < 2 ^ 109 }
    ensures starts { IfOk result (λ times. numbers times.starts ≡ starts_from (at starts.now) 1 log.now.rows) }
    ensures ends { IfOk result (λ times. numbers times.ends ≡ ends_from (machine_of machine.now) (at starts.now) 1 log.now.rows) }
{
    let mut begins = List::new(alloc);
    let mut ends = List::new(alloc);
    for place in 0..count(log) {
        let start = starts[place as usize + 1];
        let end = start + u128::from(duration(log, machine, place + 1));
        begins.push(Tick(start))?;
        ends.push(Tick(end))?;
    }
    Ok(Times {
        starts: begins,
        ends,
    })
}
