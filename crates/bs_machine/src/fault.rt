// Why a machine is refused.
ghost use Rattle.std.specs.Prelude.{◌≡◌};
ghost use Rattle.bs_machine.specs.declared.fault.MachineFault.TheVariants.{Memory};

use crate::key::MachineKey;
use std::alloc::AllocError;

/// Why there is no machine. Of several causes the first in this order is told, and of several keys
/// the first in their order.
#[derive(Clone, Copy, Debug, PartialEq, Eq, Drop)]
pub enum MachineFault {
    /// The bytes are no TOML.
    NotToml,
    /// A key that no machine has, a table that is none, or a list of homes beside another kind.
    UnknownKey,
    /// A key that is needed isn't there.
    Missing(MachineKey),
    /// A value is out of its range. A whole number is told; a value of another type isn't.
    OutOfRange(MachineKey, Option<i64>),
    Memory,
}

impl From<AllocError> for MachineFault {
    ghost from_gives = { λ _ given. given ≡ Memory };

    fn from(_error: AllocError) -> MachineFault {
        MachineFault::Memory
    }
}
