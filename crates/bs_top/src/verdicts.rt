// What comes of the verdict on a program.
ghost use Rattle.std.specs.Prelude.{IfOk, Ok, ℕ};
ghost use Rattle.bs_log.specs.Valid.{IsValid};
ghost use Rattle.bs_semantics.specs.Rounds.{CleanAt};
ghost use Rattle.bs_top.specs.Computing.{Computes, IsComputedStop, IsUnclean};
ghost use Rattle.bs_top.specs.Step.{Told};
ghost use Rattle.bs_top.specs.Verdicts.{judged, logged};
ghost use Rattle.bs_top.specs.Words.{IsLimit};

use crate::stopped::Stopped;
use bs_check::Accepted;
use bs_emul::{Emulated, emulate_alone};
use bs_log::Log;
use bs_logtext::{has_words, logs_are_written};
use bs_report::Fault;
use bs_rounds::{Verdict, verdict};
use std::alloc::Global;

/// The log of a program whose verdict is Clean; any other is told.
pub(crate) fn log_at(alloc: Global, accepted: &Accepted, limit: u64) -> Result<Log, Stopped>
    requires { IsLimit limit }
    ensures kind { Computes result }
    ensures told { Told (λ log. log) (logged accepted.now.program limit) result }
    ensures judged { Told (λ _. tt) (judged accepted.now.program limit) result }
    ensures valid { IfOk result IsValid }
{
    match emulate_alone(alloc, accepted, limit)? {
        Emulated::Logged(log) => {
            is_kept(accepted, &log, limit);
            Ok(log)
        }
        Emulated::Unclean => Err(unclean(alloc, accepted, limit)),
    }
}

// The log of an accepted program whose verdict is Clean is valid.
fn is_kept(accepted: &Accepted, log: &Log, _limit: u64)
    requires limit { IsLimit _limit }
    requires log { logged accepted.now.program _limit (Ok log.now) }
    ensures { IsValid log.now }
{
    let _program = accepted.program();
    has_words(log);
    logs_are_written();
}

/// Why a program isn't run whose verdict isn't Clean.
pub(crate) fn unclean(alloc: Global, accepted: &Accepted, limit: u64) -> Stopped
    requires limit { IsLimit limit }
    requires unclean { (n : ℕ) → CleanAt accepted.now.program limit n → ⊥ }
    ensures kind { IsComputedStop result }
    ensures cause { IsUnclean accepted.now.program limit result }
{
    match verdict(alloc, accepted, limit) {
        Ok(Verdict::Ambiguous(twice)) => Stopped::Refused(Fault::Ambiguous(twice)),
        Ok(Verdict::TooLong) => Stopped::Refused(Fault::TooLong(limit)),
        // Such a program has a run.
        Ok(Verdict::Clean(_)) => unreachable!(),
        Err(_) => Stopped::Memory,
    }
}
