// The trace of a log on a machine.
ghost use Rattle.std.specs.Prelude.{◌≡◌, ◌≤◌, ◌<◌, ◌^◌, ◌==◌, ◌++◌, ◌∷◌, [], IfOk, OnOk, ℕ, length, string_bytes};
ghost use Rattle.std.specs.List.{All, filter, flat_map};
ghost use Rattle.bs_log.specs.Valid.{IsValid};
ghost use Rattle.bs_rows.specs.Rows.{IsSend};
ghost use Rattle.bs_settle.specs.Timed.{numbers};
ghost use Rattle.bs_times.specs.Machine.{machine_of};
ghost use Rattle.bs_times.specs.Net.{Net, Starts, row_of};
ghost use Rattle.bs_report.specs.Headed.{by_processor};
ghost use Rattle.bs_report.specs.Outcomes.{AreEnds};
ghost use Rattle.bs_report.specs.Trace.{leaving, mail_line, mails_from, mails_of, message_line, start_in, trace_text, traced, traced_rows};

use crate::runs::{runs, write_runs};
use crate::traced::{came, start};
use bs_log::{Log, MailRef};
use bs_machine::Fitted;
use bs_num::Tick;
use bs_rows::{count, row_at, sent_at};
use bs_settle::Times;
use std::alloc::{AllocError, Global};
use std::fmt::Write;

/// The trace of a valid log on a machine that was fitted to the log's chares, where its rows start and
/// end at these times: what each processor that has a row ran, in rising order, and when each message
/// left and came, whether a row names it as a cause or not (`docs/output.md`).
///
/// The rows of a processor stand in the order of (start, number), each with its ready tick: the greatest
/// of the ends of its block causes and the arrivals of its message causes, and 0 without causes. A
/// message leaves at its sender's start and the duration of its offset, and comes a latency later.
///
/// Rows are numbered from 1, and so are the sends of a row; processors are numbered from 0. Times are in
/// ticks: each start is below 2^109, and a row takes from 1 to 2^48. The time that the call takes is near-linear in the log. The only refusal is want of memory.
pub fn trace(
    alloc: Global,
    log: &Log,
    machine: &Fitted,
    times: &Times,
) -> Result<Vec<u8>, AllocError>
    requires valid { IsValid log.now }
    requires fitted { machine.now.chares ≡ log.now.chares }
    requires times { AreEnds log.now (machine_of machine.now) times.now }
    ensures { IfOk result (λ text. text.items ≡ trace_text log.now (machine_of machine.now) (numbers times.now.starts)) }
{
    let starts = times.starts.as_slice();
    let runs = runs(alloc, log, machine, starts)?;
    let mut text = String::new(alloc);
    write_runs(&mut text, &runs)?;
    write_mails(&mut text, log, machine, starts)?;
    Ok(text.into_bytes())
}

/// A law of the trace: the rows that it tells, one processor after another, are those of the log, each
/// of them once.
pub fn each_row_once()
    ensures once { (net : Net) (s : Starts) (n i : ℕ) → 1 ≤ i → i ≤ n →
        filter (λ row. row.number == i) (by_processor (traced_rows net s n)) ≡ traced net s i ∷ [] }
    ensures others { (net : Net) (s : Starts) (n : ℕ) → length (by_processor (traced_rows net s n)) ≡ n }
{}

// The lines of all messages.
fn write_mails(
    text: &mut String,
    log: &Log,
    machine: &Fitted,
    starts: &[Tick],
) -> Result<(), AllocError>
    requires valid { IsValid log.now }
    requires fitted { machine.now.chares ≡ log.now.chares }
    requires each { length starts.now ≡ length log.now.rows }
    requires early { All (λ tick. tick.0 < 2 ^ 109) starts.now }
    ensures { OnOk result (string_bytes text.new ≡
        string_bytes text.old ++ flat_map (mail_line log.now (machine_of machine.now) (start_in (numbers starts.now))) (mails_of 1 log.now.rows)) }
{
    for place in 0..count(log) {
        write_sends(text, log, machine, starts, place + 1)?;
    }
    Ok(())
}

// The lines of the messages that a row sends.
fn write_sends(
    text: &mut String,
    log: &Log,
    machine: &Fitted,
    starts: &[Tick],
    row: u32,
) -> Result<(), AllocError>
    requires valid { IsValid log.now }
    requires fitted { machine.now.chares ≡ log.now.chares }
    requires each { length starts.now ≡ length log.now.rows }
    requires early { All (λ tick. tick.0 < 2 ^ 109) starts.now }
    requires some { 1 ≤ row }
    requires most { row ≤ length log.now.rows }
    ensures { OnOk result (string_bytes text.new ≡
        string_bytes text.old ++ flat_map (mail_line log.now (machine_of machine.now) (start_in (numbers starts.now))) (mails_from row 1 (row_of log.now row).sends)) }
{
    for place in 0..sends(log, row) {
        let mail = MailRef {
            row,
            index: place + 1,
        };
        write_mail(text, log, machine, starts, mail)?;
    }
    Ok(())
}

// How many sends a row has.
fn sends(log: &Log, row: u32) -> u32
    requires valid { IsValid log.now }
    requires some { 1 ≤ row }
    requires most { row ≤ length log.now.rows }
    ensures value { result ≡ length (row_of log.now row).sends }
    ensures few { result ≤ 262144 }
{
    row_at(log, row).sends.as_slice().len() as u32
}

fn write_mail(
    text: &mut String,
    log: &Log,
    machine: &Fitted,
    starts: &[Tick],
    mail: MailRef,
) -> Result<(), AllocError>
    requires valid { IsValid log.now }
    requires fitted { machine.now.chares ≡ log.now.chares }
    requires each { length starts.now ≡ length log.now.rows }
    requires early { All (λ tick. tick.0 < 2 ^ 109) starts.now }
    requires is_send { IsSend log.now mail }
    ensures { OnOk result (string_bytes text.new ≡
        string_bytes text.old ++ mail_line log.now (machine_of machine.now) (start_in (numbers starts.now)) mail) }
{
    let left = left(log, machine, starts, mail);
    let came = came(log, machine, starts, mail);
    write_message(text, mail, left, came)
}

fn write_message(text: &mut String, mail: MailRef, left: u128, came: u128) -> Result<(), AllocError>
    ensures { OnOk result (string_bytes text.new ≡
        string_bytes text.old ++ message_line mail left came) }
{
    writeln!(
        text,
        "mail {} {} left {left} came {came}",
        mail.row, mail.index
    )
}

// When a message leaves.
#[tactic(auto, unfolding(bs_times::specs::Machine::machine_of))]
fn left(log: &Log, machine: &Fitted, starts: &[Tick], mail: MailRef) -> u128
    requires valid { IsValid log.now }
    requires each { length starts.now ≡ length log.now.rows }
    requires early { All (λ tick. tick.0 < 2 ^ 109) starts.now }
    requires is_send { IsSend log.now mail }
    ensures { result ≡ leaving log.now (machine_of machine.now) (start_in (numbers starts.now)) mail }
{
    start(starts, mail.row) + u128::from(machine.duration(sent_at(log, mail).offset))
}
