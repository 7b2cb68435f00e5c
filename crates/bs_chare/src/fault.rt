// Why a chare takes no step.
ghost use Rattle.std.specs.Prelude.{◌≡◌};

use bs_log::{Key, Message};
use bs_tree::Path;
use std::alloc::AllocError;

/// Why a chare takes no step. It is then as it was.
#[derive(Debug, Drop)]
pub enum ChareFault {
    /// The mail holds a message of the same key. The message comes back.
    TwoSent(Message),
    /// The history would ask for a key twice. Of all such keys it is the least by (entry, reference), with
    /// the paths of the first two that ask for it, in the order of (path, place in the `when`).
    TwoAsked(Key, Path, Path),
    /// The size of the history would be above the limit.
    Long,
    /// Memory is wanting.
    Memory,
}

impl From<AllocError> for ChareFault {
    ghost use Rattle.std.specs.Prelude.{◌≡◌};
    ghost use Rattle.bs_chare.specs.declared.fault.ChareFault.TheVariants.{Memory};

    ghost from_gives = { λ _ fault. fault ≡ Memory };

    fn from(_: AllocError) -> Self {
        ChareFault::Memory
    }
}
