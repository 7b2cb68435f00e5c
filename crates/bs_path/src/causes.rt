// The first cause of a row that ends or arrives at its start.
ghost use Rattle.std.specs.Prelude.{◌≡◌, ◌≤◌, ◌<◌, ◌^◌, find, length};
ghost use Rattle.std.specs.List.{All};
ghost use Rattle.bs_log.specs.Valid.{IsValid};
ghost use Rattle.bs_rows.specs.Rows.{net_on};
ghost use Rattle.bs_settle.specs.Timed.{numbers};
ghost use Rattle.bs_path.specs.Chain.{start_in};
ghost use Rattle.bs_path.specs.Ended.{arrives_at, ends_at};

use crate::reading::{arrives, end};
use bs_log::{Log, MailRef};
use bs_machine::Fitted;
use bs_num::Tick;
use bs_rows::row_at;

/// The block cause of least number that ends at a tick, if there is one.
pub(crate) fn ended_cause(
    log: &Log,
    machine: &Fitted,
    starts: &[Tick],
    number: u32,
    tick: u128,
) -> Option<u32>
    requires valid { IsValid log.now }
    requires each { length starts.now ≡ length log.now.rows }
    requires early { All (λ tick. tick.0 < 2 ^ 109) starts.now }
    requires some { 1 ≤ number }
    requires most { number ≤ length log.now.rows }
    ensures { result ≡ find (ends_at (net_on log.now machine.now) (start_in (numbers starts.now)) tick) ((net_on log.now machine.now).after number) }
{
    for cause in row_at(log, number).after.as_slice() {
        if end(log, machine, starts, *cause) == tick {
            return Some(*cause);
        }
    }
    None
}

/// The message cause of least (row, place of the send) that arrives at a tick, if there is one.
pub(crate) fn arrived_cause(
    log: &Log,
    machine: &Fitted,
    starts: &[Tick],
    number: u32,
    tick: u128,
) -> Option<MailRef>
    requires valid { IsValid log.now }
    requires fitted { machine.now.chares ≡ log.now.chares }
    requires each { length starts.now ≡ length log.now.rows }
    requires early { All (λ tick. tick.0 < 2 ^ 109) starts.now }
    requires some { 1 ≤ number }
    requires most { number ≤ length log.now.rows }
    ensures { result ≡ find (arrives_at (net_on log.now machine.now) (start_in (numbers starts.now)) tick) ((net_on log.now machine.now).mail number) }
{
    for cause in row_at(log, number).mail.as_slice() {
        if arrives(log, machine, starts, *cause) == tick {
            return Some(*cause);
        }
    }
    None
}
