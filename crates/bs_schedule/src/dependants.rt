// The rows of which each row is a cause.
ghost use Rattle.std.specs.Prelude.{◌≡◌, ◌<◌, ◌≤◌, ◌^◌, ◌∷◌, [], ℕ, IsTrue, length, slice_index_or, IfOk, OnOk};
ghost use Rattle.bs_log.specs.Lists.{Mem};
ghost use Rattle.bs_schedule.specs.Plan.{CausesFit, causing};
ghost use Rattle.bs_schedule.specs.Dependants.{Adds, DependantsAre};

use crate::plan::Cause;
use bs_tree::List;
use std::alloc::{AllocError, Global};

// For each place the rows of which its row is a cause, in rising order.
pub(crate) fn all_dependants(
    alloc: Global,
    causes: &[List<Cause>],
) -> Result<List<List<u32>>, AllocError>
    requires some { 1 ≤ length causes.now }
    requires size { length causes.now ≤ 2 ^ 20 }
    requires within { (k : ℕ) → k < length causes.now → CausesFit (slice_index_or causes.now k []) (length causes.now) }
    ensures length { IfOk result (λ lists. length lists ≡ length causes.now) }
    ensures dependants { IfOk result (DependantsAre causes.now (length causes.now)) }
{
    let mut lists = empty_lists(alloc, causes.len())?;
    for row in 1..causes.len() {
        add_dependants(&mut lists, row as u32, nth(causes, row))?;
    }
    Ok(List::from_vec(lists))
}

fn empty_lists(alloc: Global, count: usize) -> Result<Vec<List<u32>>, AllocError>
    ensures length { IfOk result (λ lists. length lists.items ≡ count) }
    ensures empty { IfOk result (λ lists. (place : ℕ) → slice_index_or lists.items place [] ≡ []) }
{
    let mut lists = Vec::new(alloc);
    for _place in 0..count {
        lists.push(List::new(alloc))?;
    }
    Ok(lists)
}

fn nth(causes: &[List<Cause>], place: usize) -> &[Cause]
    requires { place < length causes.now }
    ensures { result.now ≡ slice_index_or causes.now place [] }
{
    causes[place].as_slice()
}

// Adds a row to the dependants of each of its causes.
fn add_dependants(lists: &mut Vec<List<u32>>, row: u32, causes: &[Cause]) -> Result<(), AllocError>
    requires { CausesFit causes.now (length lists.old.items) }
    ensures length { length lists.new.items ≡ length lists.old.items }
    ensures added { OnOk result (Adds row (causing causes.now) lists.old.items lists.new.items) }
{
    for cause in causes {
        add_dependant(lists, cause.row, row)?;
    }
    Ok(())
}

// Adds a row to the dependants of one of its causes, where it isn't the last of them already: a row that
// has many messages from one other row is listed once.
fn add_dependant(lists: &mut Vec<List<u32>>, cause: u32, row: u32) -> Result<(), AllocError>
    requires { cause < length lists.old.items }
    ensures length { length lists.new.items ≡ length lists.old.items }
    ensures added { OnOk result (Adds row (cause ∷ []) lists.old.items lists.new.items) }
{
    if !is_last(row, lists[cause as usize].as_slice()) {
        lists[cause as usize].push(row)?;
    }
    Ok(())
}

fn is_last(row: u32, rows: &[u32]) -> bool
    ensures { IsTrue result → Mem row rows.now }
{
    match rows.last() {
        Some(last) => *last == row,
        None => false,
    }
}
