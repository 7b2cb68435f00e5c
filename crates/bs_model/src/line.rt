// What waits in a line, each by a tick.
ghost use Rattle.std.specs.Prelude.{◌≡◌, ℕ, Option, None, OnOk};
ghost use Rattle.bs_model.specs.Line.{IsChanged, IsFirst, IsLine, first_of, put_at};

use std::alloc::{AllocError, Global};
use std::collections::BTreeSet;

/// What waits in a line, as numbers that each have a tick: in the order of (tick, number).
#[derive(Debug, Drop)]
pub(crate) struct Line {
    keys: BTreeSet<(u128, u32)>,
}

impl Line {
    ghost use Rattle.std.specs.Prelude.{◌≡◌, ℕ, Option, None, OnOk};
    ghost use Rattle.bs_model.specs.Line.{IsChanged, IsFirst, IsLine, first_of, put_at};

    /// A line in which nothing waits.
    pub(crate) fn new(alloc: Global) -> Line
        ensures none { first_of result ≡ None }
        ensures line { IsLine (λ _. None) result }
    {
        Line {
            keys: BTreeSet::new(alloc),
        }
    }

    /// The first of the line, with its tick.
    pub(crate) fn first(&self) -> Option<(u128, u32)>
        ensures value { result ≡ first_of self.now }
        ensures first { (f : ℕ → Option ℕ) → IsLine f self.now → IsFirst f result }
    {
        match self.keys.first() {
            Some(key) => Some(*key),
            None => None,
        }
    }

    /// Gives a number, whose tick was the one before, another tick. Where it is `None`, the number
    /// doesn't wait.
    pub(crate) fn change(
        &mut self,
        number: u32,
        before: Option<u128>,
        tick: Option<u128>,
    ) -> Result<(), AllocError>
        ensures { OnOk result ((f g : ℕ → Option ℕ) → IsLine f self.old → f number ≡ before → IsChanged f g number tick → IsLine g self.new) }
    {
        self.take_out(number, before);
        self.put_in(number, tick)
    }

    // Takes a number out that waits with this tick, if with any.
    fn take_out(&mut self, number: u32, tick: Option<u128>)
        ensures { (f : ℕ → Option ℕ) → IsLine f self.old → f number ≡ tick → IsLine (put_at f number None) self.new }
    {
        if let Some(tick) = tick {
            let _was_in = self.keys.remove(&(tick, number));
        }
    }

    // Puts a number in that doesn't wait, if it has a tick.
    fn put_in(&mut self, number: u32, tick: Option<u128>) -> Result<(), AllocError>
        ensures { OnOk result ((f : ℕ → Option ℕ) → IsLine f self.old → f number ≡ None → IsLine (put_at f number tick) self.new) }
    {
        if let Some(tick) = tick {
            let _is_new = self.keys.insert((tick, number))?;
        }
        Ok(())
    }
}
