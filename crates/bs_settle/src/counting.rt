// Waves until no tick changes, with how many there were.
ghost use Rattle.std.specs.Prelude.{◌≡◌, ◌≤◌, IfOk, OnOk};
ghost use Rattle.bs_times.specs.Machine.{machine_of};
ghost use Rattle.bs_times.specs.Times.{budget};
ghost use Rattle.bs_settle.specs.Field.{FitsAsBefore, IsField, net_in, ticks_of};
ghost use Rattle.bs_settle.specs.Settled.{IsClean, SettlesAt};
ghost use Rattle.bs_settle.specs.Timed.{AreTimes};

use crate::field::Field;
use crate::times::Times;
use std::alloc::{AllocError, Global};

/// What the waves of a field came to, and how many there were.
#[derive(Debug, Drop)]
pub struct Counted {
    /// The number of the first wave that changed no tick, from 1 to 2^40.
    pub waves: u64,
    /// The times.
    pub times: Times,
}

impl<'l> Field<'l> {
    /// Does waves until one changes no tick, and counts them. It keeps nothing of what they change.
    ///
    /// The times are those of the consistent table, the same as `plain_times` gives. There are never more
    /// waves than the field's `budget`. The only refusal is want of memory: the ticks are then estimates.
    pub fn settle_counting(&mut self, alloc: Global) -> Result<Counted, AllocError>
        requires { IsField self.old }
        ensures field { IsField self.new }
        ensures log { self.new.log ≡ self.old.log }
        ensures machine { self.new.machine ≡ self.old.machine }
        ensures times { IfOk result (λ c. AreTimes self.old.log.now (machine_of self.old.machine.now) c.times) }
        ensures waves { IfOk result (λ c. SettlesAt (net_in self.old) (ticks_of self.old) c.waves) }
        ensures few { IfOk result (λ c. c.waves ≤ budget (net_in self.old)) }
        ensures fits { FitsAsBefore (net_in self.old) (ticks_of self.old) (ticks_of self.new) }
    {
        let waves = self.count_waves(alloc)?;
        let times = self.times(alloc)?;
        Ok(Counted { waves, times })
    }

    // Does waves until one changes no tick, and answers its number.
    fn count_waves(&mut self, alloc: Global) -> Result<u64, AllocError>
        requires { IsField self.old }
        ensures field { IsField self.new }
        ensures log { self.new.log ≡ self.old.log }
        ensures machine { self.new.machine ≡ self.old.machine }
        ensures clean { OnOk result (IsClean self.new) }
        ensures waves { IfOk result (SettlesAt (net_in self.old) (ticks_of self.old)) }
        ensures few { IfOk result (λ waves. waves ≤ budget (net_in self.old)) }
        ensures fits { FitsAsBefore (net_in self.old) (ticks_of self.old) (ticks_of self.new) }
    {
        let budget = self.budget();
        for done in 0..budget {
            let list = self.wave(alloc)?;
            if list.as_slice().is_empty() {
                return Ok(done + 1);
            }
        }
        // The budget is enough, so that it isn't spent.
        Err(AllocError)
    }
}
