// `run`: a program on a machine, by way of its log.
ghost use Rattle.std.specs.Prelude.{◌≡◌, ◌≤◌, IfOk, IfSome, Ok, Some};
ghost use Rattle.bs_desk.specs.Outside.{IsReading};
ghost use Rattle.bs_log.specs.Valid.{IsValid};
ghost use Rattle.bs_log.specs.Reportable.{IsReportable};
ghost use Rattle.bs_machine.specs.Machine.{machine_view};
ghost use Rattle.bs_semantics.specs.Serial.{IsSerial, timed};
ghost use Rattle.bs_settle.specs.Timed.{AreTimes};
ghost use Rattle.bs_times.specs.Machine.{machine_of};
ghost use Rattle.bs_words.specs.Machine.{word_of};
ghost use Rattle.bs_top.specs.Answer.{reply_to};
ghost use Rattle.bs_top.specs.Causes.{StepCause};
ghost use Rattle.bs_top.specs.Computing.{Computes};
ghost use Rattle.bs_top.specs.Inputs.{file_limit};
ghost use Rattle.bs_top.specs.Reports.{outcome_on, this_outcome};
ghost use Rattle.bs_top.specs.Seen.{said_of};
ghost use Rattle.bs_top.specs.Step.{Told};
ghost use Rattle.bs_top.specs.Verdicts.{logged};
ghost use Rattle.bs_top.specs.Words.{AreWaves, IsLimit, run as run_asked};
ghost use Rattle.bs_top.specs.commands.Run.{by_log, ran};

use crate::inputs::{FILE_LIMIT, accepted, fit, machine};
use crate::reply::Reply;
use crate::reports::{outcome_at, report_of};
use crate::settling::times_within;
use crate::stopped::Stopped;
use crate::verdicts::log_at;
use bs_check::Accepted;
use bs_desk::Desk;
use bs_log::{Log, Outcome};
use bs_machine::{Fitted, Machine};
use bs_serial::laws::verdict_times;
use bs_settle::Times;
use bs_times::laws::timely_machines;
use bs_words::MachineWord;
use std::alloc::{AllocError, Global};

/// Reads a program and a machine, takes the log of the program at a limit of sizes, and gives the report
/// of the log's times on the machine, within a number of waves where one is given.
pub(crate) fn run<D: Desk>(
    alloc: Global,
    desk: &mut D,
    name: &str,
    word: MachineWord<'_>,
    limit: u64,
    waves: Option<u64>,
) -> Result<Reply, Stopped>
    requires limit { IsLimit limit }
    requires waves { AreWaves waves }
    ensures reading { IsReading (D.world desk.old) (D.world desk.new) }
    ensures later { (D.world desk.old).read_faults ≤ (D.world desk.new).read_faults }
    ensures cause { StepCause file_limit (D.world desk.old) (D.world desk.new) result }
    ensures told { IfSome (D.world desk.old).files (λ files. Told said_of (reply_to files (Some (run_asked name.now (word_of word.entry) limit waves))) result) }
{
    let accepted = accepted(alloc, desk, name)?;
    let machine = machine(alloc, desk, word, FILE_LIMIT)?;
    run_log(alloc, &accepted, machine, limit, waves)
}

// Runs the log of a program on a machine. The report is that of the serial machine model.
fn run_log(
    alloc: Global,
    accepted: &Accepted,
    machine: Machine,
    limit: u64,
    waves: Option<u64>,
) -> Result<Reply, Stopped>
    requires chares { (1 ≤ accepted.now.program.chares) × (accepted.now.program.chares ≤ 65536) }
    requires limit { IsLimit limit }
    requires waves { AreWaves waves }
    ensures kind { Computes result }
    ensures told { Told said_of (ran waves accepted.now.program (machine_view machine) limit) result }
{
    let outcome = outcome_by_log(alloc, accepted, machine, limit, waves)?;
    Ok(report_of(alloc, &outcome)?)
}

/// The outcome of a program on a machine, by way of its log at a limit of sizes, within a number of waves where
/// one is given. It is that of the serial machine model.
pub(crate) fn outcome_by_log(
    alloc: Global,
    accepted: &Accepted,
    machine: Machine,
    limit: u64,
    waves: Option<u64>,
) -> Result<Outcome, Stopped>
    requires chares { (1 ≤ accepted.now.program.chares) × (accepted.now.program.chares ≤ 65536) }
    requires limit { IsLimit limit }
    requires waves { AreWaves waves }
    ensures kind { Computes result }
    ensures told { Told this_outcome (by_log waves accepted.now.program (machine_view machine) limit (outcome_on accepted.now.program (machine_view machine) limit)) result }
    ensures reportable { IfOk result IsReportable }
{
    let fitted = fit(machine, accepted.chares())?;
    let log = log_at(alloc, accepted, limit)?;
    let times = times_within(alloc, &log, &fitted, waves)?;
    Ok(serial_outcome(alloc, accepted, &log, &fitted, &times, limit)?)
}

// The outcome of the log of a program whose verdict is Clean, which is what the serial machine model
// gives.
fn serial_outcome(
    alloc: Global,
    accepted: &Accepted,
    log: &Log,
    fitted: &Fitted,
    times: &Times,
    _limit: u64,
) -> Result<Outcome, AllocError>
    requires valid { IsValid log.now }
    requires log { logged accepted.now.program _limit (Ok log.now) }
    requires chares { fitted.now.chares ≡ accepted.now.program.chares }
    requires times { AreTimes log.now (machine_of fitted.now) times.now }
    ensures serial { IfOk result (λ outcome. IsSerial accepted.now.program _limit (machine_of fitted.now) (timed outcome)) }
    ensures reportable { IfOk result IsReportable }
{
    let _program = accepted.program();
    timely_machines();
    verdict_times();
    outcome_at(alloc, log, fitted, times)
}
