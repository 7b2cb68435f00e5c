// How lines are made.
ghost use Rattle.std.specs.Prelude.{◌≡◌, ◌<◌, ◌^◌, IfOk, false};
ghost use Rattle.bs_log.specs.Valid.{IsValid};
ghost use Rattle.bs_log.specs.Lists.{Mem};
ghost use Rattle.bs_log.specs.declared.log.MailRef.{MailRef as Mail};
ghost use Rattle.bs_times.specs.Times.{IsListed, IsOn};
ghost use Rattle.bs_schedule.specs.Plan.{at};
ghost use Rattle.bs_line.specs.declared.making.Estimate.{Estimate as Thought};
ghost use Rattle.bs_rows.specs.Rows.{net_on};
ghost use Rattle.bs_line.specs.Layout.{ComesTo, GoesFrom, sends_of};
ghost use Rattle.bs_line.specs.Line.{IsReady, given_of, held_of};
ghost use Rattle.bs_line.specs.Making.{AreEstimates, mails_of, numbers, ticks_of};
ghost use Rattle.bs_line.specs.Places.{AreMails, AreThose, mail_place};

use crate::choosing::{coming, going, listed, rows_on};
use crate::layout::Layout;
use crate::line::Line;
use crate::making::{Estimate, causes, durations, homes, mails, outs, slots, ticks};
use bs_log::Log;
use bs_machine::Fitted;
use bs_num::Tick;
use bs_schedule::Plan;
use bs_tree::List;
use std::alloc::{AllocError, Global};

impl<'l> Line<'l> {
    /// The line of a processor, counted from 0, from the estimates of all listed messages, in the order of
    /// (row, index).
    ///
    /// The log is valid, the machine was fitted to its chares, and each estimate is below 2^107. The line is
    /// dirty: it was never recomputed. The estimates are what it holds and what it gave last. The time that
    /// the call takes is near-linear in the log, and the only refusal is want of memory.
    pub fn new(
        alloc: Global,
        log: &'l Log,
        machine: &'l Fitted,
        processor: u32,
        estimates: &[Tick],
    ) -> Result<Line<'l>, AllocError>
        requires valid { IsValid log.now }
        requires fitted { machine.now.chares ≡ log.now.chares }
        requires estimates { AreEstimates (net_on log.now machine.now) estimates.now }
        requires early { (t : _) → Mem t estimates.now → t.0 < 2 ^ 107 }
        ensures ready { IfOk result IsReady }
        ensures log { IfOk result (λ line. line.log.now ≡ log.now) }
        ensures machine { IfOk result (λ line. line.machine.now ≡ machine.now) }
        ensures processor { IfOk result (λ line. line.processor ≡ processor) }
        ensures held { IfOk result (λ line. (ms : _) → AreMails (IsListed (net_on log.now machine.now)) ms → (m : Mail) → ComesTo (net_on log.now machine.now) processor m → held_of line m ≡ at (numbers estimates.now) (mail_place ms m)) }
        ensures given { IfOk result (λ line. (ms : _) → AreMails (IsListed (net_on log.now machine.now)) ms → (m : Mail) → GoesFrom (net_on log.now machine.now) processor m → given_of line m ≡ at (numbers estimates.now) (mail_place ms m)) }
        ensures used { IfOk result (λ line. line.used.items ≡ line.held.items) }
        ensures begun { IfOk result (λ line. line.begun ≡ false) }
    {
        let rows = rows_on(alloc, log, machine, processor)?;
        let mails = listed(alloc, log)?;
        let comes = coming(alloc, log, machine, processor, mails.as_slice(), estimates)?;
        let goes = going(alloc, log, machine, processor, mails.as_slice(), estimates)?;
        let line = Line::of_rows(
            alloc,
            log,
            machine,
            processor,
            rows,
            comes.as_slice(),
            goes.as_slice(),
        )?;
        Ok(line)
    }

    /// The same from the rows of the processor in their order, and the estimates of the listed messages
    /// that come to it and of those that its rows send, each in the order of (row, index).
    ///
    /// The estimates of messages that come to it are below 2^110. The time that it takes is near-linear in
    /// what the rows hold, so that all lines of a log can be made in a time that is near-linear in the log.
    pub fn of_rows(
        alloc: Global,
        log: &'l Log,
        machine: &'l Fitted,
        processor: u32,
        rows: List<u32>,
        comes: &[Estimate],
        goes: &[Estimate],
    ) -> Result<Line<'l>, AllocError>
        requires valid { IsValid log.now }
        requires fitted { machine.now.chares ≡ log.now.chares }
        requires rows { AreThose (IsOn (net_on log.now machine.now) processor) rows }
        requires comes { AreMails (ComesTo (net_on log.now machine.now) processor) (mails_of comes.now) }
        requires goes { AreMails (GoesFrom (net_on log.now machine.now) processor) (mails_of goes.now) }
        requires early { (e : Thought) → Mem e comes.now → e.tick.0 < 2 ^ 110 }
        ensures ready { IfOk result IsReady }
        ensures log { IfOk result (λ line. line.log.now ≡ log.now) }
        ensures machine { IfOk result (λ line. line.machine.now ≡ machine.now) }
        ensures processor { IfOk result (λ line. line.processor ≡ processor) }
        ensures rows { IfOk result (λ line. line.layout.rows ≡ rows) }
        ensures mails { IfOk result (λ line. line.layout.mails ≡ mails_of comes.now) }
        ensures sends { IfOk result (λ line. sends_of line.layout ≡ mails_of goes.now) }
        ensures held { IfOk result (λ line. line.held.items ≡ ticks_of comes.now) }
        ensures used { IfOk result (λ line. line.used.items ≡ ticks_of comes.now) }
        ensures given { IfOk result (λ line. line.given.items ≡ ticks_of goes.now) }
        ensures begun { IfOk result (λ line. line.begun ≡ false) }
    {
        let homes = homes(alloc, rows.as_slice())?;
        let times = durations(alloc, log, machine, rows.as_slice())?;
        let causes = causes(alloc, log, machine, rows.as_slice())?;
        let plan = Plan::new(alloc, 1, homes, times, causes)?;
        let mails = mails(alloc, comes)?;
        let slots = slots(alloc, log, rows.as_slice(), mails.as_slice())?;
        let outs = outs(alloc, log, machine, rows.as_slice(), goes)?;
        let starts = vec![in alloc; 0; rows.as_slice().len() + 1]?;
        let held = ticks(alloc, comes)?;
        let used = ticks(alloc, comes)?;
        let given = ticks(alloc, goes)?;
        Ok(Line {
            log,
            machine,
            processor,
            layout: Layout {
                rows,
                plan,
                mails,
                slots,
                outs,
            },
            held,
            used,
            changed: 0,
            given,
            starts,
            begun: false,
        })
    }
}
