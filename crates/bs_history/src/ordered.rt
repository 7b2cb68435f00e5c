// Sets as vectors in order, the greatest item first. Most items that come are less than those that are
// there, so they go to the end.
ghost use Rattle.std.specs.Prelude.{◌≡◌, OnOk, reverse};
ghost use Rattle.bs_semantics.specs.Run.{put, put_all};
ghost use Rattle.bs_history.specs.Ordered.{IsPlace};

use std::alloc::{AllocError, AllocFailed};
use std::cmp::Ordering;

// What has a place in a set.
pub(crate) trait Ordered {
    ghost use Rattle.std.specs.Prelude.{◌≡◌};
    ghost use Rattle.std.specs.declared.cmp.Ordering.{Ordering as PlainOrdering};

    ghost order: { Self → Self → PlainOrdering };

    fn compare(&self, other: &Self) -> Ordering
        ensures { result ≡ order self.now other.now };
}

// Where an item goes, or `None` where it is held.
fn place<T: Ordered>(items: &[T], item: &T) -> Option<usize>
    ensures { IsPlace T.order item.now items.now result }
{
    let mut at = items.len();
    while at > 0 {
        match item.compare(&items[at - 1]) {
            Ordering::Less => return Some(at),
            Ordering::Equal => return None,
            Ordering::Greater => {}
        }
        at -= 1;
    }
    Some(0)
}

// Puts an item into a set, which stays as it is if it holds the item.
pub(crate) fn put_item<T: Ordered + Drop>(items: &mut Vec<T>, item: T) -> Result<(), AllocError>
    ensures { OnOk result (reverse items.new.items ≡ put T.order item (reverse items.old.items)) }
{
    if let Some(at) = place(items.as_slice(), &item) {
        items.insert(at, item)?;
    }
    Ok(())
}

// Puts all items of the first set into the second.
pub(crate) fn put_items<T: Ordered + Drop>(
    items: Vec<T>,
    into: &mut Vec<T>,
) -> Result<(), AllocError>
    ensures { OnOk result (reverse into.new.items ≡ put_all T.order (reverse items.items) (reverse into.old.items)) }
{
    for item in items {
        put_item(into, item)?;
    }
    Ok(())
}
