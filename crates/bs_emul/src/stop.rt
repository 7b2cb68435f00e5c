// Why an emulation goes no further.
ghost use Rattle.std.specs.Prelude.{◌≡◌};

use bs_chare::ChareFault;
use std::alloc::AllocError;

/// Why an emulation goes no further: a chare refuses a step, so that the verdict isn't Clean, or memory is
/// wanting.
#[derive(Drop)]
pub(crate) enum Stop {
    Unclean,
    Memory,
}

impl From<AllocError> for Stop {
    ghost use Rattle.std.specs.Prelude.{◌≡◌};
    ghost use Rattle.bs_emul.specs.declared.stop.Stop.TheVariants.{Memory};

    ghost from_gives = { λ _ stop. stop ≡ Memory };

    fn from(_: AllocError) -> Self {
        Stop::Memory
    }
}

impl From<ChareFault> for Stop {
    ghost use Rattle.std.specs.Prelude.{◌≡◌};
    ghost use Rattle.bs_emul.specs.Stop.{stop_of};

    ghost from_gives = { λ fault stop. stop ≡ stop_of fault };

    fn from(fault: ChareFault) -> Self {
        match fault {
            ChareFault::TwoSent(_) | ChareFault::TwoAsked(..) | ChareFault::Long => Stop::Unclean,
            ChareFault::Memory => Stop::Memory,
        }
    }
}
