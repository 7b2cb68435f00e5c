// Why a command stops before it has a reply.
ghost use Rattle.std.specs.Prelude.{◌≡◌};
ghost use Rattle.bs_top.specs.Stopped.{stopped_for_check, stopped_for_log, stopped_for_machine, stopped_for_place, stopped_for_program, stopped_for_waves, stopped_for_words};
ghost use Rattle.bs_top.specs.declared.stopped.Stopped.TheVariants.{Memory};

use bs_check::CheckFault;
use bs_logread::LogFault;
use bs_machine::{MachineFault, PlaceLength};
use bs_parse::ParseFault;
use bs_report::Fault;
use bs_settle::SettleFault;
use bs_words::WordsFault;
use std::alloc::AllocError;

/// Why a command stops before it has a reply.
#[derive(Drop)]
pub(crate) enum Stopped {
    /// A step refuses, and a line tells why.
    Refused(Fault),
    /// A file isn't there.
    NoFile,
    /// The desk refused to open or to read a file.
    ReadFault,
    Memory,
}

impl From<AllocError> for Stopped {
    ghost from_gives = { λ _ given. given ≡ Memory };

    fn from(_error: AllocError) -> Stopped {
        Stopped::Memory
    }
}

impl From<WordsFault> for Stopped {
    ghost from_gives = { λ fault given. given ≡ stopped_for_words fault };

    fn from(fault: WordsFault) -> Stopped {
        match fault {
            WordsFault::BadWords => Stopped::Refused(Fault::BadWords),
            WordsFault::Memory => Stopped::Memory,
        }
    }
}

impl From<ParseFault> for Stopped {
    ghost from_gives = { λ fault given. given ≡ stopped_for_program fault };

    fn from(fault: ParseFault) -> Stopped {
        match fault {
            ParseFault::Memory => Stopped::Memory,
            _ => Stopped::Refused(Fault::BadProgram(fault)),
        }
    }
}

impl From<CheckFault> for Stopped {
    ghost from_gives = { λ fault given. given ≡ stopped_for_check fault };

    fn from(fault: CheckFault) -> Stopped {
        match fault {
            CheckFault::Memory => Stopped::Memory,
            _ => Stopped::Refused(Fault::CheckFailed(fault)),
        }
    }
}

impl From<MachineFault> for Stopped {
    ghost from_gives = { λ fault given. given ≡ stopped_for_machine fault };

    fn from(fault: MachineFault) -> Stopped {
        match fault {
            MachineFault::Memory => Stopped::Memory,
            _ => Stopped::Refused(Fault::BadMachine(fault)),
        }
    }
}

impl From<LogFault> for Stopped {
    ghost from_gives = { λ fault given. given ≡ stopped_for_log fault };

    fn from(fault: LogFault) -> Stopped {
        match fault {
            LogFault::Memory => Stopped::Memory,
            _ => Stopped::Refused(Fault::BadLog(fault)),
        }
    }
}

impl From<PlaceLength> for Stopped {
    ghost from_gives = { λ length given. given ≡ stopped_for_place length };

    fn from(length: PlaceLength) -> Stopped {
        Stopped::Refused(Fault::BadPlace(length))
    }
}

impl From<SettleFault> for Stopped {
    ghost from_gives = { λ fault given. given ≡ stopped_for_waves fault };

    fn from(fault: SettleFault) -> Stopped {
        match fault {
            SettleFault::Memory => Stopped::Memory,
            SettleFault::BudgetSpent(spent) => Stopped::Refused(Fault::BudgetSpent(spent)),
        }
    }
}
