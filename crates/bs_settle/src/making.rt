// How the lines of a log are made.
ghost use Rattle.std.specs.Prelude.{◌≡◌, ◌++◌, ◌∷◌, [], ℕ, List, IfOk, OnOk, false};
ghost use Rattle.bs_log.specs.Valid.{IsValid};
ghost use Rattle.bs_log.specs.declared.log.MailRef.{MailRef as Mail};
ghost use Rattle.bs_machine.specs.Fitted.{processors_of};
ghost use Rattle.bs_times.specs.Times.{IsListed};
ghost use Rattle.bs_line.specs.Making.{numbers};
ghost use Rattle.bs_line.specs.Places.{AreMails, mail_place};
ghost use Rattle.bs_num.specs.declared.ticks.Tick.{Tick as Moment};
ghost use Rattle.bs_schedule.specs.Plan.{at};
ghost use Rattle.bs_settle.specs.Field.{IsField, net_in, ticks_of, world_of};
ghost use Rattle.bs_settle.specs.Making.{AddsLine, AreLinesTo, IsWholeShare};
ghost use Rattle.bs_rows.specs.Rows.{net_on};
ghost use Rattle.bs_settle.specs.Shares.{AreTicksFor, AreWhole, CanBegin, estimate_of, ticks_by};

use crate::field::{Estimates, Field};
use crate::shares::{Share, shares};
use bs_line::{Line, listed};
use bs_log::{Log, MailRef};
use bs_machine::Fitted;
use bs_num::Tick;
use bs_tree::List;
use std::alloc::{AllocError, Global};

impl<'l> Field<'l> {
    /// The lines of a valid log on a machine that was fitted to its chares, with estimates of all listed
    /// messages: these are the ticks.
    ///
    /// No line was recomputed. The time that it takes is near-linear in the log and the number of
    /// processors. The only refusal is want of memory.
    pub fn new(
        alloc: Global,
        log: &'l Log,
        machine: &'l Fitted,
        estimates: Estimates,
    ) -> Result<Field<'l>, AllocError>
        requires valid { IsValid log.now }
        requires fitted { machine.now.chares ≡ log.now.chares }
        requires estimates { CanBegin (net_on log.now machine.now) estimates }
        ensures field { IfOk result IsField }
        ensures log { IfOk result (λ field. field.log.now ≡ log.now) }
        ensures machine { IfOk result (λ field. field.machine.now ≡ machine.now) }
        ensures ticks { IfOk result (λ field. (mails : List Mail) × AreMails (IsListed (net_on log.now machine.now)) mails × ((m : Mail) → IsListed (net_on log.now machine.now) m → ticks_of field m ≡ estimate_of estimates mails m)) }
        ensures begun { IfOk result (λ field. (p : ℕ) → (world_of field).begun p ≡ false) }
    {
        let mails = listed(alloc, log)?;
        let ticks = ticks(alloc, estimates, mails.as_slice().len())?;
        let field = Field::of_ticks(alloc, log, machine, mails.as_slice(), ticks.as_slice())?;
        Ok(field)
    }

    // The same, where these are the listed messages and their ticks.
    pub(crate) fn of_ticks(
        alloc: Global,
        log: &'l Log,
        machine: &'l Fitted,
        mails: &[MailRef],
        ticks: &[Tick],
    ) -> Result<Field<'l>, AllocError>
        requires valid { IsValid log.now }
        requires fitted { machine.now.chares ≡ log.now.chares }
        requires ticks { AreTicksFor (net_on log.now machine.now) mails.now ticks.now }
        ensures field { IfOk result IsField }
        ensures log { IfOk result (λ field. field.log.now ≡ log.now) }
        ensures machine { IfOk result (λ field. field.machine.now ≡ machine.now) }
        ensures ticks { IfOk result (λ field. (m : Mail) → IsListed (net_on log.now machine.now) m → ticks_of field m ≡ at (numbers ticks.now) (mail_place mails.now m)) }
        ensures begun { IfOk result (λ field. (p : ℕ) → (world_of field).begun p ≡ false) }
    {
        let shares = shares(alloc, log, machine, mails, ticks)?;
        let mut field = Field {
            log,
            machine,
            lines: Vec::new(alloc),
            places: Vec::new(alloc),
        };
        field.add_all(alloc, &shares)?;
        Ok(field)
    }

    // Adds the lines of all processors that have rows.
    fn add_all(&mut self, alloc: Global, shares: &[Share]) -> Result<(), AllocError>
        requires valid { IsValid self.old.log.now }
        requires fitted { self.old.machine.now.chares ≡ self.old.log.now.chares }
        requires no_places { self.old.places.items ≡ [] }
        requires no_lines { self.old.lines.items ≡ [] }
        requires whole { (mails : List Mail) × (ticks : List Moment) × AreWhole (net_in self.old) (processors_of self.old.machine.now) mails ticks shares.now }
        ensures log { self.new.log ≡ self.old.log }
        ensures machine { self.new.machine ≡ self.old.machine }
        ensures made { OnOk result ((mails : List Mail) (ticks : List Moment) → AreWhole (net_in self.old) (processors_of self.old.machine.now) mails ticks shares.now → AreLinesTo (net_in self.old) mails ticks (processors_of self.old.machine.now) self.new.places.items self.new.lines.items) }
    {
        for processor in 0..self.machine.processors() {
            self.add(alloc, processor, &shares[processor as usize])?;
        }
        Ok(())
    }

    // Adds the line of the next processor, if it has rows.
    fn add(&mut self, alloc: Global, processor: u32, share: &Share) -> Result<(), AllocError>
        requires valid { IsValid self.old.log.now }
        requires fitted { self.old.machine.now.chares ≡ self.old.log.now.chares }
        requires share { IsWholeShare (net_in self.old) processor share.now }
        ensures log { self.new.log ≡ self.old.log }
        ensures machine { self.new.machine ≡ self.old.machine }
        ensures adds { OnOk result (AddsLine (net_in self.old) processor share.now self.old self.new) }
    {
        self.places.push(self.lines.len())?;
        if share.rows.as_slice().is_empty() {
            return Ok(());
        }
        let rows = List::from_vec(Vec::from_slice(alloc, share.rows.as_slice())?);
        let comes = share.comes.as_slice();
        let goes = share.goes.as_slice();
        let line = Line::of_rows(alloc, self.log, self.machine, processor, rows, comes, goes)?;
        self.keep(line)?;
        Ok(())
    }

    fn keep(&mut self, line: Line<'l>) -> Result<(), AllocError>
        ensures log { self.new.log ≡ self.old.log }
        ensures machine { self.new.machine ≡ self.old.machine }
        ensures places { self.new.places ≡ self.old.places }
        ensures lines { OnOk result (self.new.lines.items ≡ self.old.lines.items ++ line.entry ∷ []) }
    {
        self.lines.push(line)?;
        Ok(())
    }
}

// The estimate of each of so many messages.
fn ticks(alloc: Global, estimates: Estimates, many: usize) -> Result<List<Tick>, AllocError>
    ensures { IfOk result (λ ticks. ticks ≡ ticks_by estimates many) }
{
    match estimates {
        Estimates::Zero => {
            let ticks = vec![in alloc; Tick(0); many]?;
            Ok(List::from_vec(ticks))
        }
        Estimates::Given(ticks) => Ok(ticks),
    }
}
