// The rows of a processor, and the listed messages that come to it or go from it.
ghost use Rattle.std.specs.Prelude.{◌≡◌, ◌++◌, ◌==◌, IfOk, OnOk, length};
ghost use Rattle.bs_log.specs.Valid.{IsValid};
ghost use Rattle.bs_log.specs.Lists.{Mem};
ghost use Rattle.bs_log.specs.declared.log.MailRef.{MailRef as Mail};
ghost use Rattle.bs_semantics.specs.Serial.{Machine};
ghost use Rattle.bs_times.specs.Net.{net_of};
ghost use Rattle.bs_times.specs.Times.{IsListed, IsOn};
ghost use Rattle.bs_rows.specs.Rows.{net_on, IsSend};
ghost use Rattle.bs_line.specs.Listing.{HasAdded, keyed, row_if};
ghost use Rattle.bs_line.specs.Making.{kept, kept_one};
ghost use Rattle.bs_line.specs.Places.{AreMails, AreThose};

use crate::making::Estimate;
use bs_log::{Log, MailRef};
use bs_machine::Fitted;
use bs_num::Tick;
use bs_rows::{count, goes_to, home};
use bs_tree::List;
use std::alloc::{AllocError, Global};
use std::collections::BTreeSet;

// The rows of a processor, in their order.
pub(crate) fn rows_on(
    alloc: Global,
    log: &Log,
    machine: &Fitted,
    processor: u32,
) -> Result<List<u32>, AllocError>
    requires valid { IsValid log.now }
    requires fitted { machine.now.chares ≡ log.now.chares }
    ensures { IfOk result (AreThose (IsOn (net_on log.now machine.now) processor)) }
{
    let mut rows = List::new(alloc);
    for place in 0..count(log) {
        let is_on = home(log, machine, place + 1) == processor;
        add_row(&mut rows, is_on, place + 1)?;
    }
    Ok(rows)
}

// Adds a row, if it is on the processor.
fn add_row(rows: &mut List<u32>, is_on: bool, row: u32) -> Result<(), AllocError>
    ensures { OnOk result (rows.new ≡ rows.old ++ row_if is_on row) }
{
    if is_on {
        rows.push(row)?;
    }
    Ok(())
}

/// The messages that some row of a valid log names as a cause, each once, in the order of (row, index).
///
/// The time that it takes is near-linear in the log. The only refusal is want of memory.
pub fn listed(alloc: Global, log: &Log) -> Result<List<MailRef>, AllocError>
    requires { IsValid log.now }
    ensures { IfOk result (λ mails. (machine : Machine) → AreMails (IsListed (net_of log.now machine)) mails) }
{
    let mut keys = BTreeSet::new(alloc);
    for row in log.rows.as_slice() {
        add_keys(&mut keys, row.mail.as_slice())?;
    }
    let mails = in_order(alloc, &keys)?;
    Ok(mails)
}

// Adds messages to those that are there.
fn add_keys(keys: &mut BTreeSet<(u32, u32)>, mails: &[MailRef]) -> Result<(), AllocError>
    ensures { OnOk result (HasAdded mails.now keys.old.keys keys.new.keys) }
{
    for mail in mails {
        keys.insert((mail.row, mail.index))?;
    }
    Ok(())
}

fn in_order(alloc: Global, keys: &BTreeSet<(u32, u32)>) -> Result<List<MailRef>, AllocError>
    ensures { IfOk result (AreMails (λ m. Mem (keyed m) keys.now.keys)) }
{
    let mut mails = List::new(alloc);
    for key in keys {
        mails.push(MailRef {
            row: key.0,
            index: key.1,
        })?;
    }
    Ok(mails)
}

// Those of the messages that go to a processor, with their ticks.
pub(crate) fn coming(
    alloc: Global,
    log: &Log,
    machine: &Fitted,
    processor: u32,
    mails: &[MailRef],
    estimates: &[Tick],
) -> Result<List<Estimate>, AllocError>
    requires valid { IsValid log.now }
    requires fitted { machine.now.chares ≡ log.now.chares }
    requires sends { (m : Mail) → Mem m mails.now → IsSend log.now m }
    requires each { length estimates.now ≡ length mails.now }
    ensures { IfOk result (λ list. list ≡ kept (λ m. (net_on log.now machine.now).goes_to m == processor) mails.now estimates.now) }
{
    let mut list = List::new(alloc);
    for k in 0..mails.len() {
        let is_kept = goes_to(log, machine, mails[k]) == processor;
        keep(&mut list, is_kept, mails[k], estimates[k])?;
    }
    Ok(list)
}

// Those of the messages that rows of a processor send, with their ticks.
pub(crate) fn going(
    alloc: Global,
    log: &Log,
    machine: &Fitted,
    processor: u32,
    mails: &[MailRef],
    estimates: &[Tick],
) -> Result<List<Estimate>, AllocError>
    requires valid { IsValid log.now }
    requires fitted { machine.now.chares ≡ log.now.chares }
    requires sends { (m : Mail) → Mem m mails.now → IsSend log.now m }
    requires each { length estimates.now ≡ length mails.now }
    ensures { IfOk result (λ list. list ≡ kept (λ m. (net_on log.now machine.now).home m.row == processor) mails.now estimates.now) }
{
    let mut list = List::new(alloc);
    for k in 0..mails.len() {
        let is_kept = home(log, machine, mails[k].row) == processor;
        keep(&mut list, is_kept, mails[k], estimates[k])?;
    }
    Ok(list)
}

// Adds a message with its tick, if it is to be kept.
fn keep(
    list: &mut List<Estimate>,
    is_kept: bool,
    mail: MailRef,
    tick: Tick,
) -> Result<(), AllocError>
    ensures { OnOk result (list.new ≡ list.old ++ kept_one is_kept mail tick) }
{
    if is_kept {
        list.push(Estimate { mail, tick })?;
    }
    Ok(())
}
