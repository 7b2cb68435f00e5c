// Whether one row is the one that a processor ran just before another.
ghost use Rattle.std.specs.Prelude.{◌≡◌, ◌<◌, ◌^◌, Decides, length};
ghost use Rattle.std.specs.List.{All};
ghost use Rattle.bs_log.specs.Valid.{IsValid};
ghost use Rattle.bs_rows.specs.Rows.{net_on};
ghost use Rattle.bs_settle.specs.Timed.{numbers};
ghost use Rattle.bs_times.specs.Net.{HasRow};
ghost use Rattle.bs_times.specs.Times.{IsConsistent};
ghost use Rattle.bs_path.specs.Chain.{IsJustBefore, start_in};
ghost use Rattle.bs_path.specs.Checked.{NoneBetween};

use crate::reading::{end, start};
use bs_log::Log;
use bs_machine::Fitted;
use bs_num::Tick;
use bs_rows::{count, home};

/// Whether a row is the one that the processor of another ran just before it.
///
/// Where it ends when the other starts it is, since no two rows of a processor overlap; all rows are gone
/// through only where it doesn't.
pub(crate) fn is_just_before(
    log: &Log,
    machine: &Fitted,
    starts: &[Tick],
    before: u32,
    number: u32,
) -> bool
    requires valid { IsValid log.now }
    requires fitted { machine.now.chares ≡ log.now.chares }
    requires each { length starts.now ≡ length log.now.rows }
    requires early { All (λ tick. tick.0 < 2 ^ 109) starts.now }
    requires table { IsConsistent (net_on log.now machine.now) (start_in (numbers starts.now)) }
    requires before { HasRow (net_on log.now machine.now) before }
    requires row { HasRow (net_on log.now machine.now) number }
    ensures { Decides result (IsJustBefore (net_on log.now machine.now) (start_in (numbers starts.now)) before number) }
{
    if home(log, machine, before) != home(log, machine, number) {
        return false;
    }
    end(log, machine, starts, before) == start(starts, number)
        || is_last_before(log, machine, starts, before, number)
}

// Whether a row of a processor starts before another one, and none of the processor between them.
fn is_last_before(log: &Log, machine: &Fitted, starts: &[Tick], before: u32, number: u32) -> bool
    requires valid { IsValid log.now }
    requires fitted { machine.now.chares ≡ log.now.chares }
    requires each { length starts.now ≡ length log.now.rows }
    requires early { All (λ tick. tick.0 < 2 ^ 109) starts.now }
    requires before { HasRow (net_on log.now machine.now) before }
    requires row { HasRow (net_on log.now machine.now) number }
    requires same { (net_on log.now machine.now).home before ≡ (net_on log.now machine.now).home number }
    ensures { Decides result (IsJustBefore (net_on log.now machine.now) (start_in (numbers starts.now)) before number) }
{
    let first = start(starts, before);
    let second = start(starts, number);
    first < second
        && none_between(
            log,
            machine,
            starts,
            home(log, machine, number),
            first,
            second,
        )
}

// Whether no row of a processor starts between two ticks.
fn none_between(
    log: &Log,
    machine: &Fitted,
    starts: &[Tick],
    processor: u32,
    first: u128,
    second: u128,
) -> bool
    requires valid { IsValid log.now }
    requires fitted { machine.now.chares ≡ log.now.chares }
    requires each { length starts.now ≡ length log.now.rows }
    requires early { All (λ tick. tick.0 < 2 ^ 109) starts.now }
    ensures { Decides result (NoneBetween (net_on log.now machine.now) (start_in (numbers starts.now)) (length log.now.rows) processor first second) }
{
    for place in 0..count(log) {
        let tick = start(starts, place + 1);
        if home(log, machine, place + 1) == processor && first < tick && tick < second {
            return false;
        }
    }
    true
}
