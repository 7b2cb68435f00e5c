// What a block comes to.
ghost use Rattle.std.specs.Prelude.{◌≡◌};

use bs_log::{Sent, TrapKind};
use bs_tree::List;
use std::alloc::AllocError;

/// A message that a block sends, and its arguments.
#[derive(Debug, Drop)]
pub struct Send {
    pub sent: Sent,
    pub args: List<i64>,
}

/// A block that ended: its cost in units, from 1 to 2^32, the messages that it sent and the values
/// that it emitted, in their order.
#[derive(Debug, Drop)]
pub struct BlockDone {
    pub cost: u64,
    pub sends: List<Send>,
    pub emits: List<i64>,
}

/// Why a block didn't end: it trapped, or memory was wanting.
#[derive(Clone, Copy, Debug, PartialEq, Eq, Drop)]
pub enum BlockFault {
    Trap(TrapKind),
    Memory,
}

impl From<TrapKind> for BlockFault {
    ghost use Rattle.std.specs.Prelude.{◌≡◌};
    ghost use Rattle.bs_block.specs.declared.done.BlockFault.TheVariants.{Trap};

    ghost from_gives = { λ kind fault. fault ≡ Trap kind };

    fn from(kind: TrapKind) -> Self {
        BlockFault::Trap(kind)
    }
}

impl From<AllocError> for BlockFault {
    ghost use Rattle.std.specs.Prelude.{◌≡◌};
    ghost use Rattle.bs_block.specs.declared.done.BlockFault.TheVariants.{Memory};

    ghost from_gives = { λ _ fault. fault ≡ Memory };

    fn from(_: AllocError) -> Self {
        BlockFault::Memory
    }
}
