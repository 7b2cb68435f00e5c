// Plans, and how one is made.
ghost use Rattle.std.specs.Prelude.{◌≡◌, ◌<◌, ◌≤◌, length, IfOk};
ghost use Rattle.bs_schedule.specs.Plan.{AreRows, IsPlan, causes_of, dependants_of};

use crate::dependants::all_dependants;
use bs_tree::List;
use std::alloc::{AllocError, Global};

/// A cause of a row: another row, and how many ticks after that row's start this one may start, at
/// least 1.
#[derive(Clone, Copy, Debug, PartialEq, Eq, Drop)]
pub struct Cause {
    pub row: u32,
    pub delay: u64,
}

/// Rows that wait for one another and share processors. Rows are numbered from 1, and place 0 of each
/// list isn't used. Processors are numbered from 0.
#[derive(Debug, Drop)]
pub struct Plan {
    pub processors: u32,
    /// The processor of each row.
    pub homes: List<u32>,
    /// How many ticks each row takes.
    pub times: List<u64>,
    /// The causes of each row.
    pub causes: List<List<Cause>>,
    /// The rows of which each row is a cause.
    pub dependants: List<List<u32>>,
}

impl Plan {
    /// The plan of these rows.
    ///
    /// There are at most 2^20 - 1 rows. Each is on a processor that is there, and its causes are rows
    /// that stand lower in some order, so that no row waits for itself. The only refusal is want of
    /// memory, and the lists are then given up.
    pub fn new(
        alloc: Global,
        processors: u32,
        homes: List<u32>,
        times: List<u64>,
        causes: List<List<Cause>>,
    ) -> Result<Plan, AllocError>
        requires { AreRows processors homes times causes }
        ensures plan { IfOk result IsPlan }
        ensures processors { IfOk result (λ plan. plan.processors ≡ processors) }
        ensures homes { IfOk result (λ plan. plan.homes ≡ homes) }
        ensures times { IfOk result (λ plan. plan.times ≡ times) }
        ensures causes { IfOk result (λ plan. plan.causes ≡ causes) }
    {
        let dependants = all_dependants(alloc, causes.as_slice())?;
        Ok(Plan {
            processors,
            homes,
            times,
            causes,
            dependants,
        })
    }

    // The causes of a row.
    pub(crate) fn causes_at(&self, row: u32) -> &[Cause]
        requires { row < length self.now.causes }
        ensures { result.now ≡ causes_of self.now row }
    {
        self.causes.as_slice()[row as usize].as_slice()
    }

    // The rows of which a row is a cause.
    pub(crate) fn dependants_at(&self, row: u32) -> &[u32]
        requires { row < length self.now.dependants }
        ensures { result.now ≡ dependants_of self.now row }
    {
        self.dependants.as_slice()[row as usize].as_slice()
    }
}
