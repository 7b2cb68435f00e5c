// Waves from the arrivals that one pass gives.
ghost use Rattle.std.specs.Prelude.{◌≡◌, ◌≤◌, ◌+◌, ◌^◌, ℕ, IfOk, false, length, map};
ghost use Rattle.bs_log.specs.Valid.{IsValid};
ghost use Rattle.bs_log.specs.Lists.{Mem};
ghost use Rattle.bs_log.specs.declared.log.MailRef.{MailRef as Mail};
ghost use Rattle.bs_rows.specs.Rows.{net_on, IsSend};
ghost use Rattle.bs_schedule.specs.Plan.{at};
ghost use Rattle.bs_times.specs.Machine.{machine_of};
ghost use Rattle.bs_times.specs.Net.{Starts};
ghost use Rattle.bs_times.specs.Times.{IsConsistent, SameTicks, arrival};
ghost use Rattle.bs_settle.specs.Field.{IsField, ticks_of, world_of};
ghost use Rattle.bs_settle.specs.Shares.{arriving};
ghost use Rattle.bs_settle.specs.Timed.{AreTimes};

use crate::field::Field;
use crate::times::{Times, plain_starts};
use bs_line::listed;
use bs_log::{Log, MailRef};
use bs_machine::Fitted;
use bs_num::Tick;
use bs_rows::travel;
use bs_tree::List;
use std::alloc::{AllocError, Global};

/// The times of a valid log on a machine that was fitted to its chares, by waves: the first estimates are
/// those of one pass in the order of time, and waves go on from them until one changes no tick.
///
/// The times are those of the consistent table, the same as `plain_times` gives. The time that it takes is
/// near-linear in the log and the number of processors for each wave. The only refusal is want of memory.
pub fn settled_times(alloc: Global, log: &Log, machine: &Fitted) -> Result<Times, AllocError>
    requires valid { IsValid log.now }
    requires fitted { machine.now.chares ≡ log.now.chares }
    ensures { IfOk result (AreTimes log.now (machine_of machine.now)) }
{
    let mut field = Field::from_pass(alloc, log, machine)?;
    let budget = field.budget();
    match field.settle(alloc, budget) {
        Ok(times) => Ok(times),
        // The budget is enough, so that it isn't spent.
        Err(_) => Err(AllocError),
    }
}

impl<'l> Field<'l> {
    /// The lines of a valid log on a machine that was fitted to its chares. The estimates are the arrivals
    /// that one pass over the rows gives, in the order of their ready ticks.
    ///
    /// No line was recomputed. The time that it takes is near-linear in the log and the number of
    /// processors. The only refusal is want of memory.
    pub fn from_pass(
        alloc: Global,
        log: &'l Log,
        machine: &'l Fitted,
    ) -> Result<Field<'l>, AllocError>
        requires valid { IsValid log.now }
        requires fitted { machine.now.chares ≡ log.now.chares }
        ensures field { IfOk result IsField }
        ensures log { IfOk result (λ field. field.log.now ≡ log.now) }
        ensures machine { IfOk result (λ field. field.machine.now ≡ machine.now) }
        ensures ticks { IfOk result (λ field. (s : Starts) × IsConsistent (net_on log.now machine.now) s × SameTicks (net_on log.now machine.now) (ticks_of field) (arrival (net_on log.now machine.now) s)) }
        ensures begun { IfOk result (λ field. (p : ℕ) → (world_of field).begun p ≡ false) }
    {
        let starts = plain_starts(alloc, log, machine)?;
        let mails = listed(alloc, log)?;
        let ticks = arrivals(alloc, log, machine, mails.as_slice(), &starts)?;
        let field = Field::of_ticks(alloc, log, machine, mails.as_slice(), ticks.as_slice())?;
        Ok(field)
    }
}

// When messages arrive, by the starts of their senders.
fn arrivals(
    alloc: Global,
    log: &Log,
    machine: &Fitted,
    mails: &[MailRef],
    starts: &[u128],
) -> Result<List<Tick>, AllocError>
    requires valid { IsValid log.now }
    requires fitted { machine.now.chares ≡ log.now.chares }
    requires sends { (m : Mail) → Mem m mails.now → IsSend log.now m }
    requires each { length starts.now ≡ length log.now.rows + 1 }
    requires early { (i : ℕ) → at starts.now i ≤ 2 ^ 100 }
    ensures { IfOk result (λ ticks. ticks ≡ map (arriving (net_on log.now machine.now) (at starts.now)) mails.now) }
{
    let mut ticks = List::new(alloc);
    for mail in mails {
        let start = starts[mail.row as usize];
        let tick = start + u128::from(travel(log, machine, *mail));
        ticks.push(Tick(tick))?;
    }
    Ok(ticks)
}
