// Setting what a wave gives.
ghost use Rattle.std.specs.Prelude.{◌≡◌, map, if◌then◌else◌};
ghost use Rattle.bs_log.specs.Valid.{IsValid};
ghost use Rattle.bs_log.specs.Lists.{Mem};
ghost use Rattle.bs_log.specs.declared.log.MailRef.{MailRef as Mail};
ghost use Rattle.bs_times.specs.Times.{IsListed};
ghost use Rattle.bs_times.specs.Racing.{same_mail};
ghost use Rattle.bs_line.specs.declared.corrections.Correction.{Correction as Corrected};
ghost use Rattle.bs_line.specs.Line.{given_of as line_given, held_of as line_held};
ghost use Rattle.bs_settle.specs.Changes.{CanBeHeld, held_after};
ghost use Rattle.bs_settle.specs.Field.{AreFieldLines, IsSameField, net_in, ticks_of};
ghost use Rattle.bs_settle.specs.Holding.{IsHolding};

use crate::field::Field;
use bs_line::Correction;
use bs_log::MailRef;
use bs_num::Tick;

impl<'l> Field<'l> {
    // Holds a message at a tick, at the line of the processor that it goes to.
    fn hold(&mut self, mail: MailRef, to: u32, tick: Tick)
        requires valid { IsValid self.old.log.now }
        requires lines { AreFieldLines self.old }
        requires can { CanBeHeld (net_in self.old) mail to tick.0 }
        ensures holding { IsHolding self.old self.new }
        ensures held { (m : Mail) → IsListed (net_in self.old) m → ticks_of self.new m ≡ if same_mail mail m then tick.0 else ticks_of self.old m }
    {
        let place = self.places[to as usize];
        let _changed = self.lines[place].set(mail, tick);
    }

    // Holds messages at their new ticks.
    pub(crate) fn hold_all(&mut self, list: &[Correction])
        requires valid { IsValid self.old.log.now }
        requires lines { AreFieldLines self.old }
        requires can { (c : Corrected) → Mem c list.now → CanBeHeld (net_in self.old) c.mail c.to c.tick.0 }
        ensures holding { IsHolding self.old self.new }
        ensures held { (m : Mail) → IsListed (net_in self.old) m → ticks_of self.new m ≡ held_after list.now m (ticks_of self.old m) }
    {
        for correction in list {
            self.hold(correction.mail, correction.to, correction.tick);
        }
    }

    // All lines are as if they were never recomputed.
    pub(crate) fn begin_anew(&mut self)
        requires { AreFieldLines self.old }
        ensures lines { AreFieldLines self.new }
        ensures same { IsSameField self.old self.new }
        ensures held { (m : Mail) → map (λ line. line_held line m) self.new.lines.items ≡ map (λ line. line_held line m) self.old.lines.items }
        ensures given { (m : Mail) → map (λ line. line_given line m) self.new.lines.items ≡ map (λ line. line_given line m) self.old.lines.items }
    {
        for place in 0..self.lines.len() {
            self.lines[place].begun = false;
        }
    }
}
