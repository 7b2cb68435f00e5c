// Why words are no command.
ghost use Rattle.std.specs.Prelude.{◌≡◌};
ghost use Rattle.bs_words.specs.declared.fault.WordsFault.TheVariants.{Memory};

use std::alloc::AllocError;

/// Why there is no command.
#[derive(Clone, Copy, Debug, PartialEq, Eq, Drop)]
pub enum WordsFault {
    /// The words are no command.
    BadWords,
    Memory,
}

impl From<AllocError> for WordsFault {
    ghost from_gives = { λ _ given. given ≡ Memory };

    fn from(_error: AllocError) -> WordsFault {
        WordsFault::Memory
    }
}
