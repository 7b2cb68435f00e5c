// What has started so far, and the queue of what can start.
ghost use Rattle.std.specs.Prelude.{◌≡◌, ◌+◌, ◌<◌, ◌≤◌, ◌^◌, ℕ, IsFalse, OnOk, false, length, max, slice_index_or, slice_set, true};
ghost use Rattle.bs_schedule.specs.Plan.{CausesFit, at, causes_of, dependants_of, due_of};
ghost use Rattle.bs_schedule.specs.Queue.{AllBegun, Considers, NextFit, Queues};

use crate::plan::{Cause, Plan};
use std::alloc::AllocError;
use std::collections::BTreeSet;

/// What has started so far, and what can start, by (ready tick, number).
#[derive(Drop)]
pub(crate) struct Run {
    /// The starts of the rows that have begun.
    pub(crate) starts: Vec<u128>,
    pub(crate) begun: Vec<bool>,
    /// From which tick on each processor is free.
    pub(crate) free: Vec<u128>,
    /// For each row the first of its causes that isn't known to have begun.
    pub(crate) next: Vec<usize>,
    pub(crate) queue: BTreeSet<(u128, u32)>,
}

impl Run {
    // Starts a row at its ready tick, or where its processor is free.
    pub(crate) fn start(&mut self, plan: &Plan, ready: u128, row: u32)
        requires has_row { row < length plan.now.homes }
        requires has_time { row < length plan.now.times }
        requires has_start { row < length self.old.starts.items }
        requires has_begun { row < length self.old.begun.items }
        requires has_home { at plan.now.homes row < length self.old.free.items }
        requires early { ready ≤ 2 ^ 120 }
        requires bound { (p : ℕ) → at self.old.free.items p ≤ 2 ^ 120 }
        ensures starts { self.new.starts.items ≡ slice_set self.old.starts.items row (max ready (at self.old.free.items (at plan.now.homes row))) }
        ensures begun { self.new.begun.items ≡ slice_set self.old.begun.items row true }
        ensures free { self.new.free.items ≡ slice_set self.old.free.items (at plan.now.homes row) (max ready (at self.old.free.items (at plan.now.homes row)) + at plan.now.times row) }
        ensures next { self.new.next.items ≡ self.old.next.items }
        ensures queue { self.new.queue ≡ self.old.queue }
    {
        let home = plan.homes.as_slice()[row as usize] as usize;
        let start = ready.max(self.free[home]);
        self.starts[row as usize] = start;
        self.begun[row as usize] = true;
        self.free[home] = start + u128::from(plan.times.as_slice()[row as usize]);
    }

    // Puts those of a row's dependants into the queue whose causes have all begun.
    pub(crate) fn release(&mut self, plan: &Plan, base: &[u128], row: u32) -> Result<(), AllocError>
        requires has_row { row < length plan.now.dependants }
        requires rows { (j d : ℕ) → j < length (dependants_of plan.now row) → slice_index_or (dependants_of plan.now row) j d < length plan.now.causes }
        requires bases { length base.now ≡ length plan.now.causes }
        requires early { (i : ℕ) → at base.now i ≤ 2 ^ 110 }
        requires nexts { length self.old.next.items ≡ length plan.now.causes }
        requires starts { (k : ℕ) → k < length plan.now.causes → CausesFit (causes_of plan.now k) (length self.old.starts.items) }
        requires begun { (k : ℕ) → k < length plan.now.causes → CausesFit (causes_of plan.now k) (length self.old.begun.items) }
        requires bound { (i : ℕ) → at self.old.starts.items i ≤ 2 ^ 120 }
        requires next { NextFit plan.now self.old.begun.items self.old.next.items }
        ensures starts { self.new.starts.items ≡ self.old.starts.items }
        ensures begun { self.new.begun.items ≡ self.old.begun.items }
        ensures free { self.new.free.items ≡ self.old.free.items }
        ensures next_length { length self.new.next.items ≡ length self.old.next.items }
        ensures next { OnOk result (NextFit plan.now self.old.begun.items self.new.next.items) }
        ensures queues { OnOk result (Queues plan.now base.now self.old.starts.items self.old.begun.items (dependants_of plan.now row) self.old.queue.keys self.new.queue.keys) }
    {
        for dependant in plan.dependants_at(row) {
            self.consider(plan, base, *dependant)?;
        }
        Ok(())
    }

    // Puts a row into the queue, if its causes have all begun. What is known of its causes is kept, so
    // that each cause of a row is passed once in all.
    pub(crate) fn consider(&mut self, plan: &Plan, base: &[u128], k: u32) -> Result<(), AllocError>
        requires has_row { k < length plan.now.causes }
        requires has_base { k < length base.now }
        requires has_next { k < length self.old.next.items }
        requires starts { CausesFit (causes_of plan.now k) (length self.old.starts.items) }
        requires begun { CausesFit (causes_of plan.now k) (length self.old.begun.items) }
        requires bound { (i : ℕ) → at self.old.starts.items i ≤ 2 ^ 120 }
        requires next { NextFit plan.now self.old.begun.items self.old.next.items }
        ensures starts { self.new.starts.items ≡ self.old.starts.items }
        ensures begun { self.new.begun.items ≡ self.old.begun.items }
        ensures free { self.new.free.items ≡ self.old.free.items }
        ensures next_length { length self.new.next.items ≡ length self.old.next.items }
        ensures next { NextFit plan.now self.old.begun.items self.new.next.items }
        ensures queue { OnOk result (Considers plan.now base.now self.old.starts.items self.old.begun.items k self.old.queue.keys self.new.queue.keys) }
    {
        let causes = plan.causes_at(k);
        let place = advance(causes, self.next[k as usize], &self.begun);
        self.next[k as usize] = place;
        if place < causes.len() {
            return Ok(());
        }
        let ready = due(plan, base, k, &self.starts);
        self.queue.insert((ready, k))?;
        Ok(())
    }
}

// The first place from `from` on whose cause hasn't begun.
fn advance(causes: &[Cause], from: usize, begun: &[bool]) -> usize
    requires within { from ≤ length causes.now }
    requires fit { CausesFit causes.now (length begun.now) }
    ensures low { from ≤ result }
    ensures high { result ≤ length causes.now }
    ensures passed { AllBegun causes.now from result begun.now }
    ensures stops { result < length causes.now → (d : _) → IsFalse (slice_index_or begun.now (slice_index_or causes.now result d).row false) }
{
    let mut place = from;
    while place < causes.len() && begun[causes[place].row as usize] {
        place += 1;
    }
    place
}

// The ready tick of a row whose causes have all begun.
fn due(plan: &Plan, base: &[u128], row: u32, starts: &[u128]) -> u128
    requires has_row { row < length plan.now.causes }
    requires has_base { row < length base.now }
    requires fit { CausesFit (causes_of plan.now row) (length starts.now) }
    requires bound { (i : ℕ) → at starts.now i ≤ 2 ^ 120 }
    ensures { result ≡ due_of plan.now base.now (at starts.now) row }
{
    let mut due = base[row as usize];
    for cause in plan.causes_at(row) {
        due = due.max(starts[cause.row as usize] + u128::from(cause.delay));
    }
    due
}
