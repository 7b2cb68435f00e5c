// The point that waves from given ticks come to.
ghost use Rattle.std.specs.Prelude.{◌≡◌, ◌-◌, ◌<◌, ◌≤◌, ◌^◌, IfOk, ℕ, length, map, replicate};
ghost use Rattle.bs_line.specs.Making.{numbers};
ghost use Rattle.bs_log.specs.Lists.{Mem};
ghost use Rattle.bs_log.specs.Valid.{IsValid};
ghost use Rattle.bs_log.specs.declared.log.MailRef.{MailRef as Mail};
ghost use Rattle.bs_machine.specs.declared.fitted.Fitted.{Fitted as Machine};
ghost use Rattle.bs_rows.specs.Rows.{net_on, IsSend};
ghost use Rattle.bs_schedule.specs.Plan.{at};
ghost use Rattle.bs_settle.specs.Shares.{AreEarly, arriving};
ghost use Rattle.bs_settle.specs.Timed.{AreTimes};
ghost use Rattle.bs_times.specs.Budget.{budget_of};
ghost use Rattle.bs_times.specs.Machine.{machine_of};
ghost use Rattle.bs_times.specs.Net.{Starts};
ghost use Rattle.bs_times.specs.Times.{IsConsistent, arrival};
ghost use Rattle.bs_whatif.specs.Figures.{at_zero};
ghost use Rattle.bs_whatif.specs.Points.{AreTicksOf, IsPoint};

use bs_line::listed;
use bs_log::{Log, MailRef};
use bs_machine::Fitted;
use bs_num::Tick;
use bs_rows::travel;
use bs_settle::{Estimates, Field, Times};
use bs_tree::List;
use std::alloc::{AllocError, Global};

/// What waves from given ticks come to.
#[derive(Debug, Drop)]
pub struct Point {
    /// When each row starts and ends, in the order of the rows.
    pub times: Times,
    /// When each listed message arrives, in the order of (row, index).
    pub ticks: List<Tick>,
    /// The number of the first wave that changed no tick, from 1 to 2^40.
    pub waves: u64,
}

/// The times of a valid log on a machine that was fitted to its chares, by waves that begin from these
/// ticks: one below 2^107 for each listed message, in the order of (row, index).
///
/// The times are those of the consistent table, the same from any ticks and the same as
/// `bs_settle::plain_times` gives. There are never more waves than the default budget of the log. The ticks
/// of the point may be those that waves begin from on another machine, or for another log that lists the
/// same messages. The only refusal is want of memory.
pub fn resettle(
    alloc: Global,
    log: &Log,
    machine: &Fitted,
    before: &List<Tick>,
) -> Result<Point, AllocError>
    requires valid { IsValid log.now }
    requires fitted { machine.now.chares ≡ log.now.chares }
    requires before { AreEarly (net_on log.now machine.now) before.now }
    ensures point { IfOk result (IsPoint log.now machine.now before.now) }
    ensures few { IfOk result (λ point. point.waves ≤ budget_of log.now) }
    ensures early { IfOk result (λ point. AreEarly (net_on log.now machine.now) point.ticks) }
{
    let estimates = Estimates::Given(copy_ticks(alloc, before)?);
    let mut field = Field::new(alloc, log, machine, estimates)?;
    let counted = field.settle_counting(alloc)?;
    let ticks = arrivals(alloc, log, machine, &counted.times)?;
    Ok(Point {
        times: counted.times,
        ticks,
        waves: counted.waves,
    })
}

/// Tick 0 for each listed message of a valid log. The only refusal is want of memory.
pub fn zero_ticks(alloc: Global, log: &Log) -> Result<List<Tick>, AllocError>
    requires { IsValid log.now }
    ensures zero { IfOk result (λ ticks. (machine : Machine) → AreTicksOf (net_on log.now machine) at_zero ticks) }
    ensures early { IfOk result (λ ticks. (machine : Machine) → AreEarly (net_on log.now machine) ticks) }
{
    let mails = listed(alloc, log)?;
    let ticks = zeros(alloc, mails.as_slice().len())?;
    Ok(ticks)
}

// So many times tick 0.
fn zeros(alloc: Global, many: usize) -> Result<List<Tick>, AllocError>
    ensures { IfOk result (λ ticks. ticks ≡ replicate many (record { 0 = 0 })) }
{
    let ticks = vec![in alloc; Tick(0); many]?;
    Ok(List::from_vec(ticks))
}

// Equal ticks.
fn copy_ticks(alloc: Global, ticks: &List<Tick>) -> Result<List<Tick>, AllocError>
    ensures { IfOk result (λ copy. copy ≡ ticks.now) }
{
    let copy = Vec::from_slice(alloc, ticks.as_slice())?;
    Ok(List::from_vec(copy))
}

// When the listed messages arrive, by the times of all rows.
fn arrivals(
    alloc: Global,
    log: &Log,
    machine: &Fitted,
    times: &Times,
) -> Result<List<Tick>, AllocError>
    requires valid { IsValid log.now }
    requires fitted { machine.now.chares ≡ log.now.chares }
    requires times { AreTimes log.now (machine_of machine.now) times.now }
    ensures ticks { IfOk result (λ ticks. (s : Starts) → IsConsistent (net_on log.now machine.now) s → AreTicksOf (net_on log.now machine.now) (arrival (net_on log.now machine.now) s) ticks) }
    ensures early { IfOk result (λ ticks. AreEarly (net_on log.now machine.now) ticks) }
{
    let mails = listed(alloc, log)?;
    let starts = times.starts.as_slice();
    let ticks = arrivals_of(alloc, log, machine, mails.as_slice(), starts)?;
    Ok(ticks)
}

// When messages arrive, by the starts of all rows in their order.
fn arrivals_of(
    alloc: Global,
    log: &Log,
    machine: &Fitted,
    mails: &[MailRef],
    starts: &[Tick],
) -> Result<List<Tick>, AllocError>
    requires valid { IsValid log.now }
    requires fitted { machine.now.chares ≡ log.now.chares }
    requires sends { (m : Mail) → Mem m mails.now → IsSend log.now m }
    requires each { length starts.now ≡ length log.now.rows }
    requires early { (i : ℕ) → at (numbers starts.now) i < 2 ^ 109 }
    ensures { IfOk result (λ ticks. ticks ≡ map (arriving (net_on log.now machine.now) (λ i. at (numbers starts.now) (i - 1))) mails.now) }
{
    let mut ticks = List::new(alloc);
    for mail in mails {
        let start = starts[(mail.row - 1) as usize].0;
        let tick = start + u128::from(travel(log, machine, *mail));
        ticks.push(Tick(tick))?;
    }
    Ok(ticks)
}
