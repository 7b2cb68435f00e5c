// The starts of rows, by the order of their ready ticks.
ghost use Rattle.std.specs.Prelude.{◌≡◌, ◌+◌, ◌*◌, ◌≤◌, ◌^◌, ℕ, IfOk, length};
ghost use Rattle.bs_schedule.specs.Plan.{IsPlan, IsSchedule, at};

use crate::plan::Plan;
use crate::queue::Run;
use std::alloc::{AllocError, Global};
use std::collections::BTreeSet;

/// The starts of a plan's rows, by place, where no row starts before its base tick.
///
/// A row's ready tick is the greatest of its base tick and what its causes give: the start of each,
/// and its delay. On each processor the rows run one at a time in the order of (ready tick, number),
/// and each starts at the greater of its ready tick and the end of the row before it. Base ticks are
/// at most 2^110. Each start is at most 2^65 ticks a row above the greatest base tick.
///
/// Of the rows whose causes have begun it takes the one of least (ready tick, number), whatever its
/// processor. The only refusal is want of memory.
pub fn schedule(alloc: Global, plan: &Plan, base: &[u128]) -> Result<Vec<u128>, AllocError>
    requires is_plan { IsPlan plan.now }
    requires bases { length base.now ≡ length plan.now.times }
    requires early { (i : ℕ) → at base.now i ≤ 2 ^ 110 }
    ensures length { IfOk result (λ starts. length starts.items ≡ length plan.now.times) }
    ensures bound { IfOk result (λ starts. (most : ℕ) → ((i : ℕ) → at base.now i ≤ most) → (i : ℕ) → at starts.items i ≤ most + length plan.now.times * 2 ^ 65) }
    ensures scheduled { IfOk result (λ starts. IsSchedule plan.now base.now (at starts.items)) }
{
    let rows = plan.times.as_slice().len();
    let mut run = Run {
        starts: vec![in alloc; 0; rows]?,
        begun: vec![in alloc; false; rows]?,
        free: vec![in alloc; 0; plan.processors as usize]?,
        next: vec![in alloc; 0; rows]?,
        queue: BTreeSet::new(alloc),
    };
    for row in 1..rows as u32 {
        run.consider(plan, base, row)?;
    }
    for _turn in 0..rows - 1 {
        let Some((ready, row)) = run.queue.pop_first() else {
            return Ok(run.starts);
        };
        run.start(plan, ready, row);
        run.release(plan, base, row)?;
    }
    Ok(run.starts)
}
