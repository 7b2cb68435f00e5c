// What a floor does with a `List` that hides its room to grow.
ghost use Rattle.std.specs.Prelude.{◌≡◌};

use bs_tree::List;
use std::alloc::Global;
use std::mem;

// The vector of the items, which leaves an empty list behind. It takes no memory.
pub(crate) fn taken_out<T: Drop>(list: &mut List<T>, alloc: Global) -> Vec<T>
    ensures { result.items ≡ list.old }
{
    mem::replace(list, List::new(alloc)).into_vec()
}
