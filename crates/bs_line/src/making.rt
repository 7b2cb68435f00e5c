// What a line is made of.
ghost use Rattle.std.specs.Prelude.{◌≡◌, ◌∷◌, [], IfOk, map};
ghost use Rattle.bs_log.specs.Valid.{IsValid};
ghost use Rattle.bs_log.specs.Lists.{Mem};
ghost use Rattle.bs_machine.specs.declared.fitted.Fitted.{Fitted};
ghost use Rattle.bs_rows.specs.Rows.{net_on, IsSend};
ghost use Rattle.bs_line.specs.Layout.{local_cause as local_cause_of, local_causes, out_of};
ghost use Rattle.bs_line.specs.Making.{AreComing, AreGoing, AreRowsOn, mails_of, places_of, ticks_of};

use crate::layout::Out;
use crate::places::{mail_place, row_place};
use bs_log::{Log, MailRef};
use bs_machine::Fitted;
use bs_num::Tick;
use bs_rows::{duration, goes_to, row_at, travel};
use bs_schedule::Cause;
use bs_tree::List;
use std::alloc::{AllocError, Global};

/// A listed message, and the tick at which it is thought to arrive.
#[derive(Clone, Copy, Debug, PartialEq, Eq, Drop)]
pub struct Estimate {
    pub mail: MailRef,
    pub tick: Tick,
}

pub(crate) fn mails(alloc: Global, estimates: &[Estimate]) -> Result<List<MailRef>, AllocError>
    ensures { IfOk result (λ mails. mails ≡ mails_of estimates.now) }
{
    let mut mails = List::new(alloc);
    for estimate in estimates {
        mails.push(estimate.mail)?;
    }
    Ok(mails)
}

pub(crate) fn ticks(alloc: Global, estimates: &[Estimate]) -> Result<Vec<u128>, AllocError>
    ensures { IfOk result (λ ticks. ticks.items ≡ ticks_of estimates.now) }
{
    let mut ticks = Vec::new(alloc);
    for estimate in estimates {
        ticks.push(estimate.tick.0)?;
    }
    Ok(ticks)
}

// All rows are on one processor.
pub(crate) fn homes(alloc: Global, rows: &[u32]) -> Result<List<u32>, AllocError>
    ensures { IfOk result (λ homes. homes ≡ 0 ∷ map (λ i. 0) rows.now) }
{
    let mut homes = List::new(alloc);
    homes.push(0)?;
    for _row in rows {
        homes.push(0)?;
    }
    Ok(homes)
}

pub(crate) fn durations(
    alloc: Global,
    log: &Log,
    machine: &Fitted,
    rows: &[u32],
) -> Result<List<u64>, AllocError>
    requires valid { IsValid log.now }
    requires rows { AreRowsOn (net_on log.now machine.now) rows.now }
    ensures { IfOk result (λ times. times ≡ 0 ∷ map (net_on log.now machine.now).duration rows.now) }
{
    let mut times = List::new(alloc);
    times.push(0)?;
    for row in rows {
        times.push(duration(log, machine, *row))?;
    }
    Ok(times)
}

// The block causes of all rows, by their numbers on the line.
pub(crate) fn causes(
    alloc: Global,
    log: &Log,
    machine: &Fitted,
    rows: &[u32],
) -> Result<List<List<Cause>>, AllocError>
    requires valid { IsValid log.now }
    requires rows { AreRowsOn (net_on log.now machine.now) rows.now }
    ensures { IfOk result (λ causes. causes ≡ [] ∷ map (local_causes (net_on log.now machine.now) rows.now) rows.now) }
{
    let mut causes = List::new(alloc);
    causes.push(List::new(alloc))?;
    for row in rows {
        causes.push(causes_of(alloc, log, machine, rows, *row)?)?;
    }
    Ok(causes)
}

fn causes_of(
    alloc: Global,
    log: &Log,
    machine: &Fitted,
    rows: &[u32],
    number: u32,
) -> Result<List<Cause>, AllocError>
    requires valid { IsValid log.now }
    requires rows { AreRowsOn (net_on log.now machine.now) rows.now }
    requires on { Mem number rows.now }
    ensures { IfOk result (λ causes. causes ≡ local_causes (net_on log.now machine.now) rows.now number) }
{
    let mut causes = List::new(alloc);
    for cause in row_at(log, number).after.as_slice() {
        causes.push(local_cause(log, machine, rows, *cause))?;
    }
    Ok(causes)
}

// A row of the line as a cause, by its number there.
fn local_cause(log: &Log, machine: &Fitted, rows: &[u32], number: u32) -> Cause
    requires valid { IsValid log.now }
    requires rows { AreRowsOn (net_on log.now machine.now) rows.now }
    requires on { Mem number rows.now }
    ensures { result ≡ local_cause_of (net_on log.now machine.now) rows.now number }
{
    Cause {
        row: row_place(rows, number) as u32 + 1,
        delay: duration(log, machine, number),
    }
}

// For each row the places of its messages among those that come to the line.
pub(crate) fn slots(
    alloc: Global,
    log: &Log,
    rows: &[u32],
    mails: &[MailRef],
) -> Result<List<List<usize>>, AllocError>
    requires valid { IsValid log.now }
    requires coming { (machine : Fitted) × AreComing (net_on log.now machine) rows.now mails.now }
    ensures { IfOk result (λ slots. slots ≡ [] ∷ map (places_of log.now mails.now) rows.now) }
{
    let mut slots = List::new(alloc);
    slots.push(List::new(alloc))?;
    for row in rows {
        slots.push(slots_of(alloc, log, rows, mails, *row)?)?;
    }
    Ok(slots)
}

// The places of one row's messages.
fn slots_of(
    alloc: Global,
    log: &Log,
    rows: &[u32],
    mails: &[MailRef],
    number: u32,
) -> Result<List<usize>, AllocError>
    requires valid { IsValid log.now }
    requires coming { (machine : Fitted) × AreComing (net_on log.now machine) rows.now mails.now }
    requires on { Mem number rows.now }
    ensures { IfOk result (λ slots. slots ≡ places_of log.now mails.now number) }
{
    let mut slots = List::new(alloc);
    for mail in row_at(log, number).mail.as_slice() {
        slots.push(mail_place(mails, *mail))?;
    }
    Ok(slots)
}

// The messages that the line sends.
pub(crate) fn outs(
    alloc: Global,
    log: &Log,
    machine: &Fitted,
    rows: &[u32],
    goes: &[Estimate],
) -> Result<List<Out>, AllocError>
    requires valid { IsValid log.now }
    requires fitted { machine.now.chares ≡ log.now.chares }
    requires going { AreGoing (net_on log.now machine.now) rows.now (mails_of goes.now) }
    ensures { IfOk result (λ outs. outs ≡ map (out_of (net_on log.now machine.now) rows.now) (mails_of goes.now)) }
{
    let mut outs = List::new(alloc);
    for estimate in goes {
        outs.push(out(log, machine, rows, estimate.mail))?;
    }
    Ok(outs)
}

fn out(log: &Log, machine: &Fitted, rows: &[u32], mail: MailRef) -> Out
    requires valid { IsValid log.now }
    requires fitted { machine.now.chares ≡ log.now.chares }
    requires rows { AreRowsOn (net_on log.now machine.now) rows.now }
    requires on { Mem mail.row rows.now }
    requires is_send { IsSend log.now mail }
    ensures { result ≡ out_of (net_on log.now machine.now) rows.now mail }
{
    Out {
        mail,
        row: row_place(rows, mail.row) as u32 + 1,
        travel: travel(log, machine, mail),
        to: goes_to(log, machine, mail),
    }
}
