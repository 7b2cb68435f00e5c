// `model`: a program on the serial machine model.
ghost use Rattle.std.specs.Prelude.{◌≡◌, ◌≤◌, IfOk, IfSome, Some};
ghost use Rattle.bs_desk.specs.Outside.{IsReading};
ghost use Rattle.bs_machine.specs.Machine.{machine_view};
ghost use Rattle.bs_log.specs.Reportable.{IsReportable};
ghost use Rattle.bs_semantics.specs.Serial.{IsSerial, timed};
ghost use Rattle.bs_times.specs.Machine.{machine_of};
ghost use Rattle.bs_words.specs.Machine.{word_of};
ghost use Rattle.bs_top.specs.Answer.{reply_to};
ghost use Rattle.bs_top.specs.Causes.{StepCause};
ghost use Rattle.bs_top.specs.Computing.{Computes};
ghost use Rattle.bs_top.specs.Inputs.{file_limit};
ghost use Rattle.bs_top.specs.Seen.{said_of};
ghost use Rattle.bs_top.specs.Step.{Told};
ghost use Rattle.bs_top.specs.Verdicts.{judged};
ghost use Rattle.bs_top.specs.Words.{IsLimit, model as model_asked};
ghost use Rattle.bs_top.specs.commands.Model.{simulated};

use crate::inputs::{FILE_LIMIT, accepted, fit, machine};
use crate::reply::Reply;
use crate::reports::report_of;
use crate::stopped::Stopped;
use crate::verdicts::unclean;
use bs_check::Accepted;
use bs_desk::Desk;
use bs_log::Outcome;
use bs_machine::{Fitted, Machine};
use bs_model::{Simulated, simulate};
use bs_words::MachineWord;
use std::alloc::Global;

/// Reads a program and a machine, and runs the one on the other, at a limit of sizes.
pub(crate) fn model<D: Desk>(
    alloc: Global,
    desk: &mut D,
    name: &str,
    word: MachineWord<'_>,
    limit: u64,
) -> Result<Reply, Stopped>
    requires { IsLimit limit }
    ensures reading { IsReading (D.world desk.old) (D.world desk.new) }
    ensures later { (D.world desk.old).read_faults ≤ (D.world desk.new).read_faults }
    ensures cause { StepCause file_limit (D.world desk.old) (D.world desk.new) result }
    ensures told { IfSome (D.world desk.old).files (λ files. Told said_of (reply_to files (Some (model_asked name.now (word_of word.entry) limit))) result) }
{
    let accepted = accepted(alloc, desk, name)?;
    let machine = machine(alloc, desk, word, FILE_LIMIT)?;
    run_model(alloc, &accepted, machine, limit)
}

// What the serial machine model says of a program on a machine, at a limit of sizes.
fn run_model(
    alloc: Global,
    accepted: &Accepted,
    machine: Machine,
    limit: u64,
) -> Result<Reply, Stopped>
    requires chares { (1 ≤ accepted.now.program.chares) × (accepted.now.program.chares ≤ 65536) }
    requires limit { IsLimit limit }
    ensures kind { Computes result }
    ensures told { Told said_of (simulated accepted.now.program (machine_view machine) limit) result }
{
    let fitted = fit(machine, accepted.chares())?;
    let outcome = outcome_of(alloc, accepted, &fitted, limit)?;
    Ok(report_of(alloc, &outcome)?)
}

// What the serial machine model gives for a program whose verdict is Clean; any other is told.
fn outcome_of(
    alloc: Global,
    accepted: &Accepted,
    fitted: &Fitted,
    limit: u64,
) -> Result<Outcome, Stopped>
    requires chares { fitted.now.chares ≡ accepted.now.program.chares }
    requires limit { IsLimit limit }
    ensures kind { Computes result }
    ensures told { Told (λ _. tt) (judged accepted.now.program limit) result }
    ensures serial { IfOk result (λ outcome. IsSerial accepted.now.program limit (machine_of fitted.now) (timed outcome)) }
    ensures reportable { IfOk result IsReportable }
{
    match simulate(alloc, accepted, fitted, limit)? {
        Simulated::Timed(outcome) => Ok(outcome),
        Simulated::Unclean => Err(unclean(alloc, accepted, limit)),
    }
}
