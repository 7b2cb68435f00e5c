// Which calls of a desk in memory are to fail.
ghost use Rattle.std.specs.Prelude.{◌≡◌, OnErr, OnOk};
ghost use Rattle.bs_desk.specs.Planned.{all_well, also_failing, counted, is_due};
ghost use Rattle.bs_desk.specs.Plans.{planned};

use std::alloc::{AllocError, Global};

/// A kind of calls of a desk.
#[derive(Clone, Copy, Debug, PartialEq, Eq, Drop)]
pub enum Op {
    Open,
    Read,
    Create,
    Write,
}

/// How many calls of one kind were made, and the numbers of those that are to fail, which count from 1.
#[derive(Drop)]
pub struct Plan {
    pub made: u64,
    pub failing: Vec<u64>,
}

impl Plan {
    /// No call was made, and none is to fail. It takes no memory.
    pub fn new(alloc: Global) -> Plan
        ensures { planned result ≡ all_well }
    {
        Plan {
            made: 0,
            failing: Vec::new(alloc),
        }
    }

    /// Lets the call of that number fail. Where memory is wanting, the plan stays as it was.
    pub fn add(&mut self, nth: u64) -> Result<(), AllocError>
        ensures ok { OnOk result (planned self.new ≡ also_failing nth (planned self.old)) }
        ensures err { OnErr result (planned self.new ≡ planned self.old) }
    {
        self.failing.push(nth)?;
        Ok(())
    }

    /// Counts a call, and answers whether it is to fail. It takes no memory.
    pub fn fails_next(&mut self) -> bool
        ensures due { result ≡ is_due (planned self.old) }
        ensures counted { planned self.new ≡ counted (planned self.old) }
    {
        self.made = self.made.saturating_add(1);
        self.failing.contains(&self.made)
    }
}
