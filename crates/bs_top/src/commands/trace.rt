// `trace`: what each processor ran, and when each message came.
ghost use Rattle.std.specs.Prelude.{◌≡◌, ◌≤◌, IfOk, IfSome, Ok, Some};
ghost use Rattle.bs_desk.specs.Outside.{IsReading};
ghost use Rattle.bs_log.specs.Valid.{IsValid};
ghost use Rattle.bs_machine.specs.Machine.{machine_view};
ghost use Rattle.bs_settle.specs.Timed.{AreTimes};
ghost use Rattle.bs_times.specs.Machine.{machine_of};
ghost use Rattle.bs_words.specs.Machine.{word_of};
ghost use Rattle.bs_top.specs.Answer.{reply_to};
ghost use Rattle.bs_top.specs.Causes.{StepCause};
ghost use Rattle.bs_top.specs.Computing.{Computes};
ghost use Rattle.bs_top.specs.Inputs.{log_limit};
ghost use Rattle.bs_top.specs.Seen.{said_of};
ghost use Rattle.bs_top.specs.Step.{Told};
ghost use Rattle.bs_top.specs.Words.{trace as trace_asked};
ghost use Rattle.bs_top.specs.commands.Trace.{trace_on, traced as traced_of};

use crate::inputs::{LOG_LIMIT, fit, log_named, machine};
use crate::reply::{Ending, Reply, Target};
use crate::settling::times_within;
use crate::stopped::Stopped;
use bs_desk::Desk;
use bs_log::{Log, end};
use bs_machine::{Fitted, Machine};
use bs_report::trace as trace_text;
use bs_settle::Times;
use bs_words::MachineWord;
use std::alloc::{AllocError, Global};

/// Reads a log and a machine, and gives the trace of the log's times on the machine.
pub(crate) fn trace<D: Desk>(
    alloc: Global,
    desk: &mut D,
    name: &str,
    word: MachineWord<'_>,
) -> Result<Reply, Stopped>
    ensures reading { IsReading (D.world desk.old) (D.world desk.new) }
    ensures later { (D.world desk.old).read_faults ≤ (D.world desk.new).read_faults }
    ensures cause { StepCause log_limit (D.world desk.old) (D.world desk.new) result }
    ensures told { IfSome (D.world desk.old).files (λ files. Told said_of (reply_to files (Some (trace_asked name.now (word_of word.entry)))) result) }
{
    let log = log_named(alloc, desk, name)?;
    let machine = machine(alloc, desk, word, LOG_LIMIT)?;
    traced(alloc, &log, machine)
}

// The trace of a valid log on a machine.
fn traced(alloc: Global, log: &Log, machine: Machine) -> Result<Reply, Stopped>
    requires { IsValid log.now }
    ensures kind { Computes result }
    ensures told { Told said_of (traced_of log.now (machine_view machine)) result }
{
    let fitted = fit(machine, log.chares)?;
    let times = times_within(alloc, log, &fitted, None)?;
    Ok(trace_at(alloc, log, &fitted, &times)?)
}

// The trace of a valid log on a machine at these times, which are those of its one consistent table.
fn trace_at(alloc: Global, log: &Log, fitted: &Fitted, times: &Times) -> Result<Reply, AllocError>
    requires valid { IsValid log.now }
    requires chares { fitted.now.chares ≡ log.now.chares }
    requires times { AreTimes log.now (machine_of fitted.now) times.now }
    ensures { IfOk result (λ reply. trace_on log.now (machine_view fitted.now.machine) (Ok (said_of reply))) }
{
    let text = trace_text(alloc, log, fitted, times)?;
    Ok(Reply {
        ending: Ending::Run(end(log)),
        note: None,
        target: Target::Output,
        text,
    })
}
