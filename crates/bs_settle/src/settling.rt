// Waves until no tick changes.
ghost use Rattle.std.specs.Prelude.{◌≡◌, ◌≤◌, ◌<◌, ◌+◌, ◌^◌, ◌∷◌, [], ℕ, List, IfErr, IfOk, MatchOption, length};
ghost use Rattle.bs_log.specs.Lists.{Mem};
ghost use Rattle.bs_line.specs.declared.corrections.Correction.{Correction as Corrected};
ghost use Rattle.bs_times.specs.Machine.{machine_of};
ghost use Rattle.bs_times.specs.Net.{HasRow};
ghost use Rattle.bs_settle.specs.Field.{FitsAsBefore, IsField, net_in, starts_of, ticks_of};
ghost use Rattle.bs_settle.specs.Planned.{by_row};
ghost use Rattle.bs_settle.specs.Settled.{AreWithin, IsClean, IsFault, StillAt};
ghost use Rattle.bs_settle.specs.Timed.{AreTimes};

use crate::field::Field;
use crate::times::{Times, timed_rows};
use bs_line::Correction;
use bs_log::MailRef;
use bs_num::Tick;
use bs_rows::{count, home};
use std::alloc::{AllocError, Global};

/// The last wave of a budget still changed a tick.
#[derive(Clone, Copy, Debug, PartialEq, Eq, Drop)]
pub struct BudgetSpent {
    /// How many waves there were.
    pub waves: u64,
    /// The least message whose tick changed.
    pub mail: MailRef,
    /// Its tick before the last wave.
    pub kept: Tick,
    /// Its tick after it.
    pub due: Tick,
}

/// Why a field doesn't settle. Its ticks are then estimates.
#[derive(Debug, Drop)]
pub enum SettleFault {
    /// The last wave of the budget still changed a tick.
    BudgetSpent(BudgetSpent),
    /// Memory is wanting.
    Memory,
}

impl From<AllocError> for SettleFault {
    ghost use Rattle.std.specs.Prelude.{◌≡◌};
    ghost use Rattle.bs_settle.specs.declared.settling.SettleFault.TheVariants.{Memory};

    ghost from_gives = { λ _ fault. fault ≡ Memory };

    fn from(_: AllocError) -> Self {
        SettleFault::Memory
    }
}

impl<'l> Field<'l> {
    /// Does waves until one changes no tick, at most as many as the budget, which is from 1 to 2^40. The
    /// times are then those of the consistent table, the same as `plain_times` gives.
    ///
    /// `BudgetSpent` comes exactly where the last wave of the budget still changes a tick, and so never
    /// where the budget is at least the field's `budget`. The only other refusal is want of memory. After
    /// a refusal the ticks are estimates.
    pub fn settle(&mut self, alloc: Global, budget: u64) -> Result<Times, SettleFault>
        requires field { IsField self.old }
        requires budget { (1 ≤ budget) × (budget ≤ 2 ^ 40) }
        ensures field { IsField self.new }
        ensures log { self.new.log ≡ self.old.log }
        ensures machine { self.new.machine ≡ self.old.machine }
        ensures times { IfOk result (AreTimes self.old.log.now (machine_of self.old.machine.now)) }
        ensures still { IfOk result (λ times. StillAt (net_in self.old) (ticks_of self.old) budget) }
        ensures fault { IfErr result (IsFault (net_in self.old) (ticks_of self.old) budget) }
        ensures fits { FitsAsBefore (net_in self.old) (ticks_of self.old) (ticks_of self.new) }
    {
        match self.settle_within(alloc, budget)? {
            None => {
                let times = self.times(alloc)?;
                Ok(times)
            }
            Some(change) => Err(SettleFault::BudgetSpent(spent(budget, change))),
        }
    }

    // Does waves until one changes no tick, at most as many as the budget. Where the last one still changes
    // a tick it answers the least change.
    fn settle_within(
        &mut self,
        alloc: Global,
        budget: u64,
    ) -> Result<Option<Correction>, AllocError>
        requires field { IsField self.old }
        requires some { 1 ≤ budget }
        ensures field { IsField self.new }
        ensures log { self.new.log ≡ self.old.log }
        ensures machine { self.new.machine ≡ self.old.machine }
        ensures within { IfOk result (AreWithin self.old self.new budget) }
        ensures fits { FitsAsBefore (net_in self.old) (ticks_of self.old) (ticks_of self.new) }
    {
        let mut last = None;
        for _wave in 0..budget {
            let list = self.wave(alloc)?;
            match first(list.as_slice()) {
                None => return Ok(None),
                Some(change) => last = Some(change),
            }
        }
        Ok(last)
    }

    // The times of the log, where no line is dirty.
    pub(crate) fn times(&self, alloc: Global) -> Result<Times, AllocError>
        requires field { IsField self.now }
        requires clean { IsClean self.now }
        ensures { IfOk result (AreTimes self.now.log.now (machine_of self.now.machine.now)) }
    {
        let starts = self.starts(alloc)?;
        let times = timed_rows(alloc, self.log, self.machine, &starts)?;
        Ok(times)
    }

    // The starts of all rows, by their numbers, as their lines were last recomputed.
    fn starts(&self, alloc: Global) -> Result<Vec<u128>, AllocError>
        requires field { IsField self.now }
        requires clean { IsClean self.now }
        ensures { IfOk result (λ starts. starts.items ≡ by_row 0 (starts_of self.now) (length self.now.log.now.rows)) }
    {
        let mut starts = Vec::new(alloc);
        starts.push(0)?;
        for place in 0..count(self.log) {
            starts.push(self.start(place + 1))?;
        }
        Ok(starts)
    }

    // The start of a row, by its number.
    fn start(&self, number: u32) -> u128
        requires field { IsField self.now }
        requires clean { IsClean self.now }
        requires has { HasRow (net_in self.now) number }
        ensures { result ≡ starts_of self.now number }
    {
        let place = self.places[home(self.log, self.machine, number) as usize];
        self.lines[place].start(number).0
    }
}

// The budget is spent, and its last wave made this change first.
pub(crate) fn spent(budget: u64, change: Correction) -> BudgetSpent
    ensures waves { result.waves ≡ budget }
    ensures mail { result.mail ≡ change.mail }
    ensures kept { result.kept ≡ change.was }
    ensures due { result.due ≡ change.tick }
{
    BudgetSpent {
        waves: budget,
        mail: change.mail,
        kept: change.was,
        due: change.tick,
    }
}

// The first of the corrections.
pub(crate) fn first(list: &[Correction]) -> Option<Correction>
    ensures { MatchOption result (list.now ≡ []) (λ c. (rest : List Corrected) × (list.now ≡ c ∷ rest)) }
{
    list.first().copied()
}
