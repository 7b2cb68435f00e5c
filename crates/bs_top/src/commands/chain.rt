// `chain`: the rows that the span of a log on a machine waits for.
ghost use Rattle.std.specs.Prelude.{◌≡◌, ◌≤◌, IfOk, IfSome, Ok, Some};
ghost use Rattle.bs_desk.specs.Outside.{IsReading};
ghost use Rattle.bs_log.specs.Valid.{IsValid};
ghost use Rattle.bs_machine.specs.Machine.{machine_view};
ghost use Rattle.bs_settle.specs.Timed.{AreTimes};
ghost use Rattle.bs_times.specs.Machine.{machine_of};
ghost use Rattle.bs_words.specs.Machine.{word_of};
ghost use Rattle.bs_top.specs.Answer.{reply_to};
ghost use Rattle.bs_top.specs.Causes.{StepCause};
ghost use Rattle.bs_top.specs.Computing.{Computes};
ghost use Rattle.bs_top.specs.Inputs.{log_limit};
ghost use Rattle.bs_top.specs.Seen.{said_of};
ghost use Rattle.bs_top.specs.Step.{Told};
ghost use Rattle.bs_top.specs.Words.{chain as chain_asked};
ghost use Rattle.bs_top.specs.commands.Chain.{chain_on, chained as chained_of};

use crate::inputs::{LOG_LIMIT, fit, log_named, machine};
use crate::reply::{Ending, Reply, Target};
use crate::settling::times_within;
use crate::stopped::Stopped;
use bs_desk::Desk;
use bs_log::{Log, end};
use bs_machine::{Fitted, Machine};
use bs_path::laws::times_are_the_table;
use bs_path::{chain as chain_of, chain_text};
use bs_settle::Times;
use bs_times::laws::timely_machines;
use bs_words::MachineWord;
use std::alloc::{AllocError, Global};

/// Reads a log and a machine, and gives the critical chain of the log on the machine.
pub(crate) fn chain<D: Desk>(
    alloc: Global,
    desk: &mut D,
    name: &str,
    word: MachineWord<'_>,
) -> Result<Reply, Stopped>
    ensures reading { IsReading (D.world desk.old) (D.world desk.new) }
    ensures later { (D.world desk.old).read_faults ≤ (D.world desk.new).read_faults }
    ensures cause { StepCause log_limit (D.world desk.old) (D.world desk.new) result }
    ensures told { IfSome (D.world desk.old).files (λ files. Told said_of (reply_to files (Some (chain_asked name.now (word_of word.entry)))) result) }
{
    let log = log_named(alloc, desk, name)?;
    let machine = machine(alloc, desk, word, LOG_LIMIT)?;
    chained(alloc, &log, machine)
}

// The critical chain of a valid log on a machine.
fn chained(alloc: Global, log: &Log, machine: Machine) -> Result<Reply, Stopped>
    requires { IsValid log.now }
    ensures kind { Computes result }
    ensures told { Told said_of (chained_of log.now (machine_view machine)) result }
{
    let fitted = fit(machine, log.chares)?;
    let times = times_within(alloc, log, &fitted, None)?;
    Ok(chain_at(alloc, log, &fitted, &times)?)
}

// The critical chain of a valid log on a machine at these times, which are those of its one consistent table.
fn chain_at(alloc: Global, log: &Log, fitted: &Fitted, times: &Times) -> Result<Reply, AllocError>
    requires valid { IsValid log.now }
    requires chares { fitted.now.chares ≡ log.now.chares }
    requires times { AreTimes log.now (machine_of fitted.now) times.now }
    ensures { IfOk result (λ reply. chain_on log.now (machine_view fitted.now.machine) (Ok (said_of reply))) }
{
    timely_machines();
    times_are_the_table();
    let chain = chain_of(alloc, log, fitted, times)?;
    let text = chain_text(alloc, log, &chain)?;
    Ok(Reply {
        ending: Ending::Run(end(log)),
        note: None,
        target: Target::Output,
        text,
    })
}
