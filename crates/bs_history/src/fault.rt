// Why there is no history.
ghost use Rattle.std.specs.Prelude.{◌≡◌};

use std::alloc::AllocError;

/// Why a history isn't told: its size is above the limit, or memory is wanting.
#[derive(Clone, Copy, Debug, PartialEq, Eq, Drop)]
pub enum HistoryFault {
    Long,
    Memory,
}

impl From<AllocError> for HistoryFault {
    ghost use Rattle.std.specs.Prelude.{◌≡◌};
    ghost use Rattle.bs_history.specs.declared.fault.HistoryFault.TheVariants.{Memory};

    ghost from_gives = { λ _ fault. fault ≡ Memory };

    fn from(_: AllocError) -> Self {
        HistoryFault::Memory
    }
}
