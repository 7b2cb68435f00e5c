// A check of a chain, which shares no more with the search than how starts and ends are read.
ghost use Rattle.std.specs.Prelude.{◌≡◌, ◌<◌, ◌^◌, Decides, IfErr, OnOk, length};
ghost use Rattle.std.specs.List.{All, sum_by};
ghost use Rattle.bs_log.specs.Valid.{IsValid};
ghost use Rattle.bs_rows.specs.Rows.{net_on};
ghost use Rattle.bs_settle.specs.Timed.{AreTimes, numbers};
ghost use Rattle.bs_times.specs.Machine.{machine_of};
ghost use Rattle.bs_times.specs.Times.{IsConsistent};
ghost use Rattle.bs_path.specs.Chain.{start_in, starts_of, span_of};
ghost use Rattle.bs_path.specs.Checked.{IsKnown, IsVerdict};
ghost use Rattle.bs_path.specs.Sound.{EndHolds, IsFirstBroken, IsSound, rest_after};

use crate::linking::link_holds;
use crate::links::{Chain, ChainRow};
use crate::reading::{end, start};
use crate::rules::{ChainFault, ChainRule};
use crate::stepping::step_holds;
use bs_log::Log;
use bs_machine::Fitted;
use bs_num::Tick;
use bs_rows::{count, duration};
use bs_settle::Times;

/// Whether a chain is sound, for a valid log on a machine that was fitted to the log's chares, at its times
/// there: no rule is broken at any row, and none behind the last (`ChainRule`).
///
/// Otherwise it answers the first place, counted from 0, at which a rule is broken, and the first rule that
/// is broken there. It takes no memory. The time that it takes is linear in the log and the chain.
pub fn check_chain(
    log: &Log,
    machine: &Fitted,
    times: &Times,
    chain: &Chain,
) -> Result<(), ChainFault>
    requires valid { IsValid log.now }
    requires fitted { machine.now.chares ≡ log.now.chares }
    requires times { AreTimes log.now (machine_of machine.now) times.now }
    ensures ok { OnOk result (IsSound (net_on log.now machine.now) (starts_of times.now) chain.now) }
    ensures fault { IfErr result (λ fault. IsFirstBroken (net_on log.now machine.now) (starts_of times.now) chain.now fault.place fault.rule) }
{
    let starts = times.starts.as_slice();
    let mut total: u128 = 0;
    let mut before = None;
    for (place, row) in chain.rows.as_slice().iter().enumerate() {
        if let Some(rule) = broken_at(log, machine, starts, before, *row) {
            return Err(ChainFault {
                place: place as u32,
                rule,
            });
        }
        total += row.step;
        before = Some(*row);
    }
    if end_holds(log, machine, starts, chain, before, total) {
        Ok(())
    } else {
        Err(ChainFault {
            place: chain.rows.as_slice().len() as u32,
            rule: ChainRule::BadEnd,
        })
    }
}

// The first rule that is broken at a row behind another one, or at a first row.
fn broken_at(
    log: &Log,
    machine: &Fitted,
    starts: &[Tick],
    before: Option<ChainRow>,
    row: ChainRow,
) -> Option<ChainRule>
    requires valid { IsValid log.now }
    requires fitted { machine.now.chares ≡ log.now.chares }
    requires each { length starts.now ≡ length log.now.rows }
    requires early { All (λ tick. tick.0 < 2 ^ 109) starts.now }
    requires table { IsConsistent (net_on log.now machine.now) (start_in (numbers starts.now)) }
    requires before { IsKnown (net_on log.now machine.now) (start_in (numbers starts.now)) before }
    ensures { IsVerdict (net_on log.now machine.now) (start_in (numbers starts.now)) before row result }
{
    if row.row == 0 || count(log) < row.row {
        return Some(ChainRule::BadRow);
    }
    if row.start != start(starts, row.row) {
        return Some(ChainRule::BadStart);
    }
    if !link_holds(log, machine, starts, before, row) {
        return Some(ChainRule::BadLink);
    }
    if !step_holds(log, machine, starts, before, row) {
        return Some(ChainRule::BadStep);
    }
    None
}

// Whether a chain ends well behind its last row, where its steps add up to this.
fn end_holds(
    log: &Log,
    machine: &Fitted,
    starts: &[Tick],
    chain: &Chain,
    last: Option<ChainRow>,
    total: u128,
) -> bool
    requires valid { IsValid log.now }
    requires each { length starts.now ≡ length log.now.rows }
    requires early { All (λ tick. tick.0 < 2 ^ 109) starts.now }
    requires last { IsKnown (net_on log.now machine.now) (start_in (numbers starts.now)) last }
    requires total { total ≡ sum_by (λ r. r.step) chain.now.rows }
    requires small { total < 2 ^ 109 }
    ensures { Decides result (EndHolds (net_on log.now machine.now) (start_in (numbers starts.now)) chain.now last) }
{
    chain.span == span(log, machine, starts)
        && chain.rest == rest(log, machine, starts, last)
        && total + chain.rest == chain.span
}

// The greatest end, and 0 without rows.
fn span(log: &Log, machine: &Fitted, starts: &[Tick]) -> u128
    requires valid { IsValid log.now }
    requires each { length starts.now ≡ length log.now.rows }
    requires early { All (λ tick. tick.0 < 2 ^ 109) starts.now }
    ensures { result ≡ span_of (net_on log.now machine.now) (start_in (numbers starts.now)) }
{
    let mut latest: u128 = 0;
    for place in 0..count(log) {
        latest = latest.max(end(log, machine, starts, place + 1));
    }
    latest
}

// How long the last row takes, and 0 without rows.
fn rest(log: &Log, machine: &Fitted, starts: &[Tick], last: Option<ChainRow>) -> u128
    requires valid { IsValid log.now }
    requires last { IsKnown (net_on log.now machine.now) (start_in (numbers starts.now)) last }
    ensures value { result ≡ rest_after (net_on log.now machine.now) last }
    ensures small { result < 2 ^ 48 }
{
    match last {
        None => 0,
        Some(row) => u128::from(duration(log, machine, row.row)),
    }
}
