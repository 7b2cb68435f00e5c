// The plan of all rows of a log.
ghost use Rattle.std.specs.Prelude.{◌≡◌, ◌≤◌, ◌++◌, [], map, length, IfOk, OnOk};
ghost use Rattle.bs_log.specs.Valid.{IsValid};
ghost use Rattle.bs_schedule.specs.Plan.{IsPlan};
ghost use Rattle.bs_schedule.specs.Whole.{IsWholePlan, block_cause, causes_in, mail_cause};
ghost use Rattle.bs_rows.specs.Rows.{net_on};
ghost use Rattle.bs_settle.specs.Planned.{by_row};

use crate::causes::{block_cause, mail_cause};
use bs_log::Log;
use bs_machine::Fitted;
use bs_rows::{count, duration, home, row_at};
use bs_schedule::{Cause, Plan};
use bs_tree::List;
use std::alloc::{AllocError, Global};

// Each row with its processor, its duration, and its causes with their delays.
pub(crate) fn log_plan(alloc: Global, log: &Log, machine: &Fitted) -> Result<Plan, AllocError>
    requires valid { IsValid log.now }
    requires fitted { machine.now.chares ≡ log.now.chares }
    ensures plan { IfOk result IsPlan }
    ensures whole { IfOk result (IsWholePlan (net_on log.now machine.now)) }
{
    let homes = homes(alloc, log, machine)?;
    let times = durations(alloc, log, machine)?;
    let causes = causes(alloc, log, machine)?;
    let plan = Plan::new(alloc, machine.processors(), homes, times, causes)?;
    Ok(plan)
}

fn homes(alloc: Global, log: &Log, machine: &Fitted) -> Result<List<u32>, AllocError>
    requires valid { IsValid log.now }
    requires fitted { machine.now.chares ≡ log.now.chares }
    ensures { IfOk result (λ homes. homes ≡ by_row 0 (net_on log.now machine.now).home (length log.now.rows)) }
{
    let mut homes = List::new(alloc);
    homes.push(0)?;
    for place in 0..count(log) {
        homes.push(home(log, machine, place + 1))?;
    }
    Ok(homes)
}

fn durations(alloc: Global, log: &Log, machine: &Fitted) -> Result<List<u64>, AllocError>
    requires { IsValid log.now }
    ensures { IfOk result (λ times. times ≡ by_row 0 (net_on log.now machine.now).duration (length log.now.rows)) }
{
    let mut times = List::new(alloc);
    times.push(0)?;
    for place in 0..count(log) {
        times.push(duration(log, machine, place + 1))?;
    }
    Ok(times)
}

fn causes(alloc: Global, log: &Log, machine: &Fitted) -> Result<List<List<Cause>>, AllocError>
    requires valid { IsValid log.now }
    requires fitted { machine.now.chares ≡ log.now.chares }
    ensures { IfOk result (λ causes. causes ≡ by_row [] (causes_in (net_on log.now machine.now)) (length log.now.rows)) }
{
    let mut causes = List::new(alloc);
    causes.push(List::new(alloc))?;
    for place in 0..count(log) {
        causes.push(causes_of(alloc, log, machine, place + 1)?)?;
    }
    Ok(causes)
}

fn causes_of(
    alloc: Global,
    log: &Log,
    machine: &Fitted,
    number: u32,
) -> Result<List<Cause>, AllocError>
    requires valid { IsValid log.now }
    requires fitted { machine.now.chares ≡ log.now.chares }
    requires some { 1 ≤ number }
    requires most { number ≤ length log.now.rows }
    ensures { IfOk result (λ causes. causes ≡ causes_in (net_on log.now machine.now) number) }
{
    let mut causes = List::new(alloc);
    push_blocks(&mut causes, log, machine, number)?;
    push_messages(&mut causes, log, machine, number)?;
    Ok(causes)
}

fn push_blocks(
    causes: &mut List<Cause>,
    log: &Log,
    machine: &Fitted,
    number: u32,
) -> Result<(), AllocError>
    requires valid { IsValid log.now }
    requires some { 1 ≤ number }
    requires most { number ≤ length log.now.rows }
    ensures { OnOk result (causes.new ≡ causes.old ++ map (block_cause (net_on log.now machine.now)) ((net_on log.now machine.now).after number)) }
{
    for cause in row_at(log, number).after.as_slice() {
        causes.push(block_cause(log, machine, *cause))?;
    }
    Ok(())
}

fn push_messages(
    causes: &mut List<Cause>,
    log: &Log,
    machine: &Fitted,
    number: u32,
) -> Result<(), AllocError>
    requires valid { IsValid log.now }
    requires fitted { machine.now.chares ≡ log.now.chares }
    requires some { 1 ≤ number }
    requires most { number ≤ length log.now.rows }
    ensures { OnOk result (causes.new ≡ causes.old ++ map (mail_cause (net_on log.now machine.now)) ((net_on log.now machine.now).mail number)) }
{
    for cause in row_at(log, number).mail.as_slice() {
        causes.push(mail_cause(log, machine, *cause))?;
    }
    Ok(())
}
