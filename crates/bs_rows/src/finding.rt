// Rows and sends of a valid log by their numbers, and how long they take on a machine.
ghost use Rattle.std.specs.Prelude.{◌≡◌, ◌<◌, ◌≤◌, ◌^◌, length, unwrap_or};
ghost use Rattle.bs_log.specs.Valid.{IsValid, numbered};
ghost use Rattle.bs_machine.specs.Fitted.{processors_of};
ghost use Rattle.bs_times.specs.Net.{no_send, row_of, sent_of};
ghost use Rattle.bs_rows.specs.Rows.{IsSend, net_on};

use bs_log::{Log, MailRef, Row, Sent};
use bs_machine::Fitted;

/// How many rows there are, from 0 to 262,144.
pub fn count(log: &Log) -> u32
    requires { IsValid log.now }
    ensures value { result ≡ length log.now.rows }
    ensures few { result ≤ 262144 }
{
    log.rows.as_slice().len() as u32
}

/// The row of a number.
pub fn row_at(log: &Log, number: u32) -> &Row
    requires some { 1 ≤ number }
    requires most { number ≤ length log.now.rows }
    ensures { result.now ≡ row_of log.now number }
{
    &log.rows.as_slice()[(number - 1) as usize]
}

// The send of a number, counted from 1.
fn send_at(row: &Row, index: u32) -> Sent
    requires some { 1 ≤ index }
    requires most { index ≤ length row.now.sends }
    ensures { result ≡ unwrap_or (numbered row.now.sends index) no_send }
{
    row.sends.as_slice()[(index - 1) as usize]
}

/// The send that a message cause names.
pub fn sent_at(log: &Log, mail: MailRef) -> Sent
    requires { IsSend log.now mail }
    ensures { result ≡ sent_of log.now mail }
{
    send_at(row_at(log, mail.row), mail.index)
}

/// The processor of a row, on a machine that was fitted to the log's chares.
#[tactic(auto, unfolding(bs_times::specs::Machine::machine_of))]
pub fn home(log: &Log, machine: &Fitted, number: u32) -> u32
    requires valid { IsValid log.now }
    requires fitted { machine.now.chares ≡ log.now.chares }
    requires some { 1 ≤ number }
    requires most { number ≤ length log.now.rows }
    ensures value { result ≡ (net_on log.now machine.now).home number }
    ensures below { result < processors_of machine.now }
{
    machine.home(row_at(log, number).chare)
}

/// How many ticks a row takes, from 1 to 2^48 - 1.
#[tactic(auto, unfolding(bs_times::specs::Machine::machine_of))]
pub fn duration(log: &Log, machine: &Fitted, number: u32) -> u64
    requires valid { IsValid log.now }
    requires some { 1 ≤ number }
    requires most { number ≤ length log.now.rows }
    ensures value { result ≡ (net_on log.now machine.now).duration number }
    ensures range { (1 ≤ result) × (result < 2 ^ 48) }
{
    machine.duration(row_at(log, number).cost)
}

/// The processor that a message goes to.
#[tactic(auto, unfolding(bs_times::specs::Machine::machine_of))]
pub fn goes_to(log: &Log, machine: &Fitted, mail: MailRef) -> u32
    requires valid { IsValid log.now }
    requires fitted { machine.now.chares ≡ log.now.chares }
    requires is_send { IsSend log.now mail }
    ensures value { result ≡ (net_on log.now machine.now).goes_to mail }
    ensures below { result < processors_of machine.now }
{
    machine.home(sent_at(log, mail).to)
}

/// How many ticks after its sender's start a message arrives: the duration of its offset, and its latency.
#[tactic(auto, unfolding(bs_times::specs::Machine::machine_of))]
pub fn travel(log: &Log, machine: &Fitted, mail: MailRef) -> u64
    requires valid { IsValid log.now }
    requires fitted { machine.now.chares ≡ log.now.chares }
    requires is_send { IsSend log.now mail }
    ensures { result ≡ (net_on log.now machine.now).travel mail }
{
    let sent = sent_at(log, mail);
    let from = home(log, machine, mail.row);
    let to = machine.home(sent.to);
    machine.duration(sent.offset) + machine.latency(from, to, sent.bytes)
}
