// When rows start and end, and messages arrive, by the starts of all rows.
ghost use Rattle.std.specs.Prelude.{◌≡◌, ◌≤◌, ◌<◌, ◌^◌, length};
ghost use Rattle.std.specs.List.{All};
ghost use Rattle.bs_log.specs.Valid.{IsValid};
ghost use Rattle.bs_rows.specs.Rows.{IsSend, net_on};
ghost use Rattle.bs_settle.specs.Timed.{numbers};
ghost use Rattle.bs_times.specs.Times.{arrival, end_of};
ghost use Rattle.bs_path.specs.Chain.{start_in};

use bs_log::{Log, MailRef};
use bs_machine::Fitted;
use bs_num::Tick;
use bs_rows::{duration, travel};

/// When the row of a number starts.
pub(crate) fn start(starts: &[Tick], number: u32) -> u128
    requires early { All (λ tick. tick.0 < 2 ^ 109) starts.now }
    requires some { 1 ≤ number }
    requires most { number ≤ length starts.now }
    ensures value { result ≡ start_in (numbers starts.now) number }
    ensures early { result < 2 ^ 109 }
{
    starts[(number - 1) as usize].0
}

/// When the row of a number ends.
pub(crate) fn end(log: &Log, machine: &Fitted, starts: &[Tick], number: u32) -> u128
    requires valid { IsValid log.now }
    requires each { length starts.now ≡ length log.now.rows }
    requires early { All (λ tick. tick.0 < 2 ^ 109) starts.now }
    requires some { 1 ≤ number }
    requires most { number ≤ length log.now.rows }
    ensures { result ≡ end_of (net_on log.now machine.now) (start_in (numbers starts.now)) number }
{
    start(starts, number) + u128::from(duration(log, machine, number))
}

/// When a message arrives.
pub(crate) fn arrives(log: &Log, machine: &Fitted, starts: &[Tick], mail: MailRef) -> u128
    requires valid { IsValid log.now }
    requires fitted { machine.now.chares ≡ log.now.chares }
    requires each { length starts.now ≡ length log.now.rows }
    requires early { All (λ tick. tick.0 < 2 ^ 109) starts.now }
    requires is_send { IsSend log.now mail }
    ensures { result ≡ arrival (net_on log.now machine.now) (start_in (numbers starts.now)) mail }
{
    start(starts, mail.row) + u128::from(travel(log, machine, mail))
}
