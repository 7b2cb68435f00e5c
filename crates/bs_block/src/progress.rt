// A block so far.
ghost use Rattle.std.specs.Prelude.{◌≡◌, ◌++◌, ◌∷◌, [], OnOk, OnErr};
ghost use Rattle.bs_block.specs.Progress.{Steps, Works, begun};

use crate::done::Send;
use bs_log::TrapKind;
use bs_tree::List;
use std::alloc::{AllocError, Global};

// The steps that one block may take.
const STEPS: u32 = 100_000;

// The greatest cost of a block.
const COST: u64 = 1 << 32;

// The steps and the cost of a block so far, what it sent and the values it emitted.
#[derive(Drop)]
pub(crate) struct Progress {
    pub steps: u32,
    pub cost: u64,
    pub sends: List<Send>,
    pub emits: List<i64>,
}

impl Progress {
    // A block that has done nothing.
    pub fn new(alloc: Global) -> Progress
        ensures { result ≡ begun }
    {
        Progress {
            steps: 0,
            cost: 1,
            sends: List::new(alloc),
            emits: List::new(alloc),
        }
    }

    // One more step.
    pub fn step(&mut self) -> Result<(), TrapKind>
        ensures { Steps self.old self.new result }
    {
        if self.steps < STEPS {
            self.steps += 1;
            Ok(())
        } else {
            Err(TrapKind::Steps)
        }
    }

    // More cost.
    pub fn work(&mut self, amount: u64) -> Result<(), TrapKind>
        ensures { Works amount self.old self.new result }
    {
        let cost = self.cost.saturating_add(amount);
        if cost <= COST {
            self.cost = cost;
            Ok(())
        } else {
            Err(TrapKind::CostRange)
        }
    }
}
