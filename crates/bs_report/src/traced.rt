// What a trace tells of a row.
ghost use Rattle.std.specs.Prelude.{◌≡◌, ◌≤◌, ◌<◌, ◌^◌, length, map};
ghost use Rattle.std.specs.List.{All};
ghost use Rattle.bs_log.specs.Valid.{IsValid};
ghost use Rattle.bs_times.specs.Times.{arrival, end_of, greatest, ready as ready_tick};
ghost use Rattle.bs_rows.specs.Rows.{net_on, IsSend};
ghost use Rattle.bs_settle.specs.Timed.{numbers};
ghost use Rattle.bs_report.specs.Trace.{start_in, traced};

use bs_log::{Log, MailRef};
use bs_machine::Fitted;
use bs_num::Tick;
use bs_rows::{duration, home, row_at, travel};

/// A row by its number, with its processor, its ready tick, and the ticks at which it starts and ends.
#[derive(Clone, Copy, Debug, Drop)]
pub(crate) struct Traced {
    pub(crate) number: u32,
    pub(crate) processor: u32,
    pub(crate) ready: u128,
    pub(crate) start: u128,
    pub(crate) end: u128,
}

/// What is told of the row of a number.
pub(crate) fn trace_row(log: &Log, machine: &Fitted, starts: &[Tick], number: u32) -> Traced
    requires valid { IsValid log.now }
    requires fitted { machine.now.chares ≡ log.now.chares }
    requires each { length starts.now ≡ length log.now.rows }
    requires early { All (λ tick. tick.0 < 2 ^ 109) starts.now }
    requires some { 1 ≤ number }
    requires most { number ≤ length log.now.rows }
    ensures { result ≡ traced (net_on log.now machine.now) (start_in (numbers starts.now)) number }
{
    Traced {
        number,
        processor: home(log, machine, number),
        ready: ready(log, machine, starts, number),
        start: start(starts, number),
        end: end(log, machine, starts, number),
    }
}

// When a row is ready: at the greatest of the ends of its block causes and the arrivals of its message
// causes, and at 0 without causes.
fn ready(log: &Log, machine: &Fitted, starts: &[Tick], number: u32) -> u128
    requires valid { IsValid log.now }
    requires fitted { machine.now.chares ≡ log.now.chares }
    requires each { length starts.now ≡ length log.now.rows }
    requires early { All (λ tick. tick.0 < 2 ^ 109) starts.now }
    requires some { 1 ≤ number }
    requires most { number ≤ length log.now.rows }
    ensures { result ≡ ready_tick (net_on log.now machine.now) (arrival (net_on log.now machine.now) (start_in (numbers starts.now))) (start_in (numbers starts.now)) number }
{
    let ended = last_end(log, machine, starts, number);
    let arrived = last_arrival(log, machine, starts, number);
    ended.max(arrived)
}

// When the last of a row's block causes ends, and 0 without any.
fn last_end(log: &Log, machine: &Fitted, starts: &[Tick], number: u32) -> u128
    requires valid { IsValid log.now }
    requires each { length starts.now ≡ length log.now.rows }
    requires early { All (λ tick. tick.0 < 2 ^ 109) starts.now }
    requires some { 1 ≤ number }
    requires most { number ≤ length log.now.rows }
    ensures { result ≡ greatest (map (end_of (net_on log.now machine.now) (start_in (numbers starts.now))) ((net_on log.now machine.now).after number)) }
{
    let mut last = 0;
    for cause in row_at(log, number).after.as_slice() {
        last = last.max(end(log, machine, starts, *cause));
    }
    last
}

// When the last of a row's message causes arrives, and 0 without any.
fn last_arrival(log: &Log, machine: &Fitted, starts: &[Tick], number: u32) -> u128
    requires valid { IsValid log.now }
    requires fitted { machine.now.chares ≡ log.now.chares }
    requires each { length starts.now ≡ length log.now.rows }
    requires early { All (λ tick. tick.0 < 2 ^ 109) starts.now }
    requires some { 1 ≤ number }
    requires most { number ≤ length log.now.rows }
    ensures { result ≡ greatest (map (arrival (net_on log.now machine.now) (start_in (numbers starts.now))) ((net_on log.now machine.now).mail number)) }
{
    let mut last = 0;
    for cause in row_at(log, number).mail.as_slice() {
        last = last.max(came(log, machine, starts, *cause));
    }
    last
}

/// When the row of a number starts.
pub(crate) fn start(starts: &[Tick], number: u32) -> u128
    requires early { All (λ tick. tick.0 < 2 ^ 109) starts.now }
    requires some { 1 ≤ number }
    requires most { number ≤ length starts.now }
    ensures value { result ≡ start_in (numbers starts.now) number }
    ensures early { result < 2 ^ 109 }
{
    starts[(number - 1) as usize].0
}

// When the row of a number ends.
fn end(log: &Log, machine: &Fitted, starts: &[Tick], number: u32) -> u128
    requires valid { IsValid log.now }
    requires each { length starts.now ≡ length log.now.rows }
    requires early { All (λ tick. tick.0 < 2 ^ 109) starts.now }
    requires some { 1 ≤ number }
    requires most { number ≤ length log.now.rows }
    ensures { result ≡ end_of (net_on log.now machine.now) (start_in (numbers starts.now)) number }
{
    start(starts, number) + u128::from(duration(log, machine, number))
}

/// When a message comes.
pub(crate) fn came(log: &Log, machine: &Fitted, starts: &[Tick], mail: MailRef) -> u128
    requires valid { IsValid log.now }
    requires fitted { machine.now.chares ≡ log.now.chares }
    requires each { length starts.now ≡ length log.now.rows }
    requires early { All (λ tick. tick.0 < 2 ^ 109) starts.now }
    requires is_send { IsSend log.now mail }
    ensures { result ≡ arrival (net_on log.now machine.now) (start_in (numbers starts.now)) mail }
{
    start(starts, mail.row) + u128::from(travel(log, machine, mail))
}
