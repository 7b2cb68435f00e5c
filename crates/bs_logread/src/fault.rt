// Why a text is no log.
ghost use Rattle.std.specs.Prelude.{◌≡◌};
ghost use Rattle.bs_logread.specs.declared.fault.LogFault.TheVariants.{Memory};

use bs_logcheck::LogRule;
use std::alloc::AllocError;

/// Why there is no log.
#[derive(Clone, Copy, Debug, PartialEq, Eq, Drop)]
pub enum LogFault {
    /// The first line that breaks a rule, counted from 1, and the least rule that it breaks.
    Refused(u64, LogRule),
    Memory,
}

impl From<AllocError> for LogFault {
    ghost from_gives = { λ _ given. given ≡ Memory };

    fn from(_error: AllocError) -> LogFault {
        LogFault::Memory
    }
}
