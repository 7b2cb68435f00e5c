// The base ticks of a line's rows: what their messages give.
ghost use Rattle.std.specs.Prelude.{◌≡◌, ◌<◌, ℕ, [], IfOk, length, map, slice_index_or};
ghost use Rattle.bs_schedule.specs.Plan.{at};
ghost use Rattle.bs_times.specs.Times.{greatest};
ghost use Rattle.bs_line.specs.Line.{SlotsFit, base_of};

use bs_tree::List;
use std::alloc::{AllocError, Global};

// For each row the greatest of the ticks of its messages.
pub(crate) fn bases(
    alloc: Global,
    slots: &[List<usize>],
    held: &[u128],
) -> Result<Vec<u128>, AllocError>
    requires { (k : ℕ) → k < length slots.now → SlotsFit (slice_index_or slots.now k []) (length held.now) }
    ensures { IfOk result (λ base. base.items ≡ base_of slots.now held.now) }
{
    let mut base = Vec::new(alloc);
    for k in 0..slots.len() {
        base.push(greatest_at(places(slots, k), held))?;
    }
    Ok(base)
}

fn places(slots: &[List<usize>], k: usize) -> &[usize]
    requires { k < length slots.now }
    ensures { result.now ≡ slice_index_or slots.now k [] }
{
    slots[k].as_slice()
}

// The greatest of the ticks at some places.
fn greatest_at(places: &[usize], held: &[u128]) -> u128
    requires { SlotsFit places.now (length held.now) }
    ensures { result ≡ greatest (map (at held.now) places.now) }
{
    let mut most = 0;
    for place in places {
        most = most.max(held[*place]);
    }
    most
}
