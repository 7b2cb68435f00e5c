// Waves.
ghost use Rattle.std.specs.Prelude.{◌≡◌, [], IfOk, OnOk};
ghost use Rattle.bs_times.specs.Racing.{Raced};
ghost use Rattle.bs_settle.specs.Changes.{AreChanges, AreOrdered, ChangesRise};
ghost use Rattle.bs_settle.specs.Refreshing.{AreFresh, IsRefreshing};
ghost use Rattle.bs_settle.specs.Field.{FitsAsBefore, IsField, net_in, ticks_of, world_of};

use crate::field::Field;
use crate::gathering::{in_order, refresh_all};
use bs_line::Correction;
use bs_tree::List;
use std::alloc::{AllocError, Global};

impl<'l> Field<'l> {
    /// Does one wave: recomputes each line that is dirty, from the ticks that it holds, and then holds the
    /// arrivals. It answers the ticks that changed, in the order of (row, index).
    ///
    /// Lines that aren't dirty take one test each. The only refusal is want of memory: the ticks are then
    /// estimates, from which waves begin anew.
    pub fn wave(&mut self, alloc: Global) -> Result<List<Correction>, AllocError>
        requires { IsField self.old }
        ensures field { IsField self.new }
        ensures log { self.new.log ≡ self.old.log }
        ensures machine { self.new.machine ≡ self.old.machine }
        ensures raced { OnOk result (Raced (net_in self.old) (world_of self.old) (world_of self.new)) }
        ensures changes { IfOk result (AreChanges (net_in self.old) (ticks_of self.old) (ticks_of self.new)) }
        ensures rises { IfOk result ChangesRise }
        ensures fits { FitsAsBefore (net_in self.old) (ticks_of self.old) (ticks_of self.new) }
    {
        let mut gathered = Vec::new(alloc);
        match self.changes(alloc, &mut gathered) {
            Ok(list) => {
                self.hold_all(list.as_slice());
                Ok(list)
            }
            Err(AllocError) => {
                self.hold_all(&gathered);
                self.begin_anew();
                Err(AllocError)
            }
        }
    }

    // Recomputes the lines that are dirty, and gives the changes in order. After want of memory the
    // changes of those that were recomputed are gathered.
    fn changes(
        &mut self,
        alloc: Global,
        gathered: &mut Vec<Correction>,
    ) -> Result<List<Correction>, AllocError>
        requires field { IsField self.old }
        requires none { gathered.old.items ≡ [] }
        ensures refreshed { IsRefreshing self.old self.new gathered.new.items }
        ensures fresh { OnOk result (AreFresh self.old self.new) }
        ensures ordered { IfOk result (AreOrdered gathered.new.items) }
    {
        refresh_all(alloc, &mut self.lines, gathered)?;
        let list = in_order(alloc, gathered)?;
        Ok(list)
    }
}
