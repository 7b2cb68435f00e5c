// `predict`: a log on a machine.
ghost use Rattle.std.specs.Prelude.{◌≤◌, IfSome, Some, option_map};
ghost use Rattle.bs_desk.specs.Outside.{IsReading};
ghost use Rattle.bs_log.specs.Valid.{IsValid};
ghost use Rattle.bs_machine.specs.Machine.{machine_view};
ghost use Rattle.bs_words.specs.Machine.{word_of};
ghost use Rattle.bs_top.specs.Answer.{reply_to};
ghost use Rattle.bs_top.specs.Causes.{StepCause};
ghost use Rattle.bs_top.specs.Computing.{Computes};
ghost use Rattle.bs_top.specs.Inputs.{log_limit};
ghost use Rattle.bs_top.specs.Seen.{said_of};
ghost use Rattle.bs_top.specs.Step.{Told};
ghost use Rattle.bs_top.specs.Words.{AreWaves, predict as predict_asked};
ghost use Rattle.bs_top.specs.commands.Predict.{predicted as predicted_of, predicted_with};

use crate::commands::journal::journaled;
use crate::inputs::{LOG_LIMIT, fit, log_named, machine};
use crate::reply::Reply;
use crate::reports::{outcome_at, report_of};
use crate::settling::times_within;
use crate::stopped::Stopped;
use bs_desk::Desk;
use bs_log::Log;
use bs_machine::Machine;
use bs_words::MachineWord;
use std::alloc::Global;

/// Reads a log and a machine, and gives the report of the log's times on the machine, with a journal where
/// there is a name for its file.
pub(crate) fn predict<D: Desk>(
    alloc: Global,
    desk: &mut D,
    name: &str,
    word: MachineWord<'_>,
    waves: Option<u64>,
    journal: Option<&str>,
) -> Result<Reply, Stopped>
    requires { AreWaves waves }
    ensures reading { IsReading (D.world desk.old) (D.world desk.new) }
    ensures later { (D.world desk.old).read_faults ≤ (D.world desk.new).read_faults }
    ensures cause { StepCause log_limit (D.world desk.old) (D.world desk.new) result }
    ensures told { IfSome (D.world desk.old).files (λ files. Told said_of (reply_to files (Some (predict_asked name.now (word_of word.entry) waves (option_map (λ name. name.now) journal.entry)))) result) }
{
    let log = log_named(alloc, desk, name)?;
    let machine = machine(alloc, desk, word, LOG_LIMIT)?;
    on_machine(alloc, &log, machine, waves, journal)
}

// What comes of a valid log on a machine, with a journal where there is a name for its file.
fn on_machine(
    alloc: Global,
    log: &Log,
    machine: Machine,
    waves: Option<u64>,
    journal: Option<&str>,
) -> Result<Reply, Stopped>
    requires valid { IsValid log.now }
    requires waves { AreWaves waves }
    ensures kind { Computes result }
    ensures told { Told said_of (predicted_with waves (option_map (λ name. name.now) journal.entry) log.now (machine_view machine)) result }
{
    match journal {
        None => predicted(alloc, log, machine, waves),
        Some(into) => journaled(alloc, log, machine, waves, into),
    }
}

// The report of a valid log on a machine.
fn predicted(
    alloc: Global,
    log: &Log,
    machine: Machine,
    waves: Option<u64>,
) -> Result<Reply, Stopped>
    requires valid { IsValid log.now }
    requires waves { AreWaves waves }
    ensures kind { Computes result }
    ensures told { Told said_of (predicted_of waves log.now (machine_view machine)) result }
{
    let fitted = fit(machine, log.chares)?;
    let times = times_within(alloc, log, &fitted, waves)?;
    let outcome = outcome_at(alloc, log, &fitted, &times)?;
    Ok(report_of(alloc, &outcome)?)
}
