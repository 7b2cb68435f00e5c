// Waves until no tick changes, with the list of each.
ghost use Rattle.std.specs.Prelude.{◌≡◌, ◌≤◌, ◌^◌, [], IfErr, IfOk, is_none, is_ok};
ghost use Rattle.bs_times.specs.Machine.{machine_of};
ghost use Rattle.bs_settle.specs.Field.{FitsAsBefore, IsField, net_in, ticks_of};
ghost use Rattle.bs_settle.specs.Noted.{AreNoted};
ghost use Rattle.bs_settle.specs.Settled.{AreWithin, IsSpent};
ghost use Rattle.bs_settle.specs.Timed.{AreTimes};

use crate::field::Field;
use crate::settling::{BudgetSpent, first, spent};
use crate::times::Times;
use bs_line::Correction;
use bs_tree::List;
use std::alloc::{AllocError, Global};

/// What the waves of a field came to, and what each of them changed.
#[derive(Debug, Drop)]
pub struct Noted {
    /// The changes of each wave, the first wave first, each in the order of (row, index). All but the last
    /// wave changed a tick.
    pub waves: List<List<Correction>>,
    /// The times, where the last wave here changed no tick. Otherwise it is the last one of the budget,
    /// and still changed one.
    pub times: Result<Times, BudgetSpent>,
}

impl<'l> Field<'l> {
    /// Does waves as `settle` does, and gives with what they came to the changes of each of them. The
    /// budget is from 1 to 2^40 waves.
    ///
    /// The times are those of the consistent table, the same as `plain_times` gives. `BudgetSpent` stands
    /// in their place exactly where the last wave of the budget still changes a tick. The only refusal is
    /// want of memory. After either of these the ticks are estimates.
    pub fn settle_noting(&mut self, alloc: Global, budget: u64) -> Result<Noted, AllocError>
        requires field { IsField self.old }
        requires budget { (1 ≤ budget) × (budget ≤ 2 ^ 40) }
        ensures field { IsField self.new }
        ensures log { self.new.log ≡ self.old.log }
        ensures machine { self.new.machine ≡ self.old.machine }
        ensures noted { IfOk result (λ n. AreNoted (net_in self.old) (ticks_of self.old) budget n.waves (is_ok n.times)) }
        ensures times { IfOk result (λ n. IfOk n.times (AreTimes self.old.log.now (machine_of self.old.machine.now))) }
        ensures spent { IfOk result (λ n. IfErr n.times (IsSpent (net_in self.old) (ticks_of self.old) budget)) }
        ensures fits { FitsAsBefore (net_in self.old) (ticks_of self.old) (ticks_of self.new) }
    {
        let mut waves = List::new(alloc);
        match self.note_within(alloc, budget, &mut waves)? {
            None => {
                let times = self.times(alloc)?;
                Ok(Noted {
                    waves,
                    times: Ok(times),
                })
            }
            Some(change) => Ok(Noted {
                waves,
                times: Err(spent(budget, change)),
            }),
        }
    }

    // Does waves as `settle_within` does, and notes the changes of each.
    fn note_within(
        &mut self,
        alloc: Global,
        budget: u64,
        waves: &mut List<List<Correction>>,
    ) -> Result<Option<Correction>, AllocError>
        requires field { IsField self.old }
        requires some { 1 ≤ budget }
        requires none { waves.old ≡ [] }
        ensures field { IsField self.new }
        ensures log { self.new.log ≡ self.old.log }
        ensures machine { self.new.machine ≡ self.old.machine }
        ensures within { IfOk result (AreWithin self.old self.new budget) }
        ensures noted { IfOk result (λ last. AreNoted (net_in self.old) (ticks_of self.old) budget waves.new (is_none last)) }
        ensures fits { FitsAsBefore (net_in self.old) (ticks_of self.old) (ticks_of self.new) }
    {
        let mut last = None;
        for _wave in 0..budget {
            let list = self.wave(alloc)?;
            let change = first(list.as_slice());
            waves.push(list)?;
            match change {
                None => return Ok(None),
                Some(change) => last = Some(change),
            }
        }
        Ok(last)
    }
}
