// The critical chain.
ghost use Rattle.std.specs.Prelude.{◌≡◌, ◌<◌, ◌^◌, IfOk, length};
ghost use Rattle.std.specs.List.{All};
ghost use Rattle.bs_log.specs.Valid.{IsValid};
ghost use Rattle.bs_rows.specs.Rows.{net_on};
ghost use Rattle.bs_settle.specs.Timed.{AreTimes, numbers};
ghost use Rattle.bs_times.specs.Machine.{machine_of};
ghost use Rattle.bs_times.specs.Net.{HasRow};
ghost use Rattle.bs_times.specs.Times.{IsConsistent, end_of};
ghost use Rattle.bs_path.specs.Chain.{IsCritical, IsInRange, LeadTo, start_in, starts_of};
ghost use Rattle.bs_path.specs.Ended.{EndsLast};
ghost use Rattle.bs_path.specs.Text.{AreThere};

use crate::ended::ended_rows;
use crate::links::Chain;
use crate::reading::end;
use crate::walking::rows_to;
use bs_log::Log;
use bs_machine::Fitted;
use bs_num::Tick;
use bs_rows::{count, duration};
use bs_settle::Times;
use bs_tree::List;
use std::alloc::{AllocError, Global};

/// The critical chain of a valid log on a machine that was fitted to the log's chares, at its times there:
/// the rows that the span waits for, from one that starts at tick 0 to the last (`docs/model.md`).
///
/// The last row is the one of least number that ends at the span. The row before one that starts above 0 is
/// the first that fits of these: the row before it on its processor, where that ends when it starts; its
/// block cause of least number that ends then; the sender of its message cause of least (row, place of the
/// send) that arrives then. A log without rows has a chain of none.
///
/// Each start is below tick 2^109, and so are each step and the span. The rest is below 2^48. The time that
/// the call takes is near-linear in the log. The only refusal is want of memory.
pub fn chain(alloc: Global, log: &Log, machine: &Fitted, times: &Times) -> Result<Chain, AllocError>
    requires valid { IsValid log.now }
    requires fitted { machine.now.chares ≡ log.now.chares }
    requires times { AreTimes log.now (machine_of machine.now) times.now }
    ensures critical { IfOk result (IsCritical (net_on log.now machine.now) (starts_of times.now)) }
    ensures rows { IfOk result (λ chain. AreThere log.now chain.rows) }
    ensures range { IfOk result IsInRange }
{
    let starts = times.starts.as_slice();
    match last_row(log, machine, starts) {
        None => Ok(Chain {
            rows: List::new(alloc),
            rest: 0,
            span: 0,
        }),
        Some(last) => chain_to(alloc, log, machine, starts, last),
    }
}

// The row of least number that ends last, and none where there are no rows.
fn last_row(log: &Log, machine: &Fitted, starts: &[Tick]) -> Option<u32>
    requires valid { IsValid log.now }
    requires each { length starts.now ≡ length log.now.rows }
    requires early { All (λ tick. tick.0 < 2 ^ 109) starts.now }
    ensures { EndsLast (net_on log.now machine.now) (start_in (numbers starts.now)) (length log.now.rows) result }
{
    let mut latest: u128 = 0;
    let mut last = None;
    for place in 0..count(log) {
        let tick = end(log, machine, starts, place + 1);
        if latest < tick {
            latest = tick;
            last = Some(place + 1);
        }
    }
    last
}

// The chain that ends with a row.
fn chain_to(
    alloc: Global,
    log: &Log,
    machine: &Fitted,
    starts: &[Tick],
    last: u32,
) -> Result<Chain, AllocError>
    requires valid { IsValid log.now }
    requires fitted { machine.now.chares ≡ log.now.chares }
    requires each { length starts.now ≡ length log.now.rows }
    requires early { All (λ tick. tick.0 < 2 ^ 109) starts.now }
    requires table { IsConsistent (net_on log.now machine.now) (start_in (numbers starts.now)) }
    requires row { HasRow (net_on log.now machine.now) last }
    ensures way { IfOk result (λ chain. LeadTo (net_on log.now machine.now) (start_in (numbers starts.now)) last chain.rows) }
    ensures rest { IfOk result (λ chain. chain.rest ≡ (net_on log.now machine.now).duration last) }
    ensures span { IfOk result (λ chain. chain.span ≡ end_of (net_on log.now machine.now) (start_in (numbers starts.now)) last) }
    ensures rows { IfOk result (λ chain. AreThere log.now chain.rows) }
    ensures range { IfOk result IsInRange }
{
    let ended = ended_rows(alloc, log, machine, starts)?;
    let rows = rows_to(alloc, log, machine, starts, &ended, last)?;
    Ok(Chain {
        rows,
        rest: u128::from(duration(log, machine, last)),
        span: end(log, machine, starts, last),
    })
}
