// `predict` with a journal of its waves.
ghost use Rattle.std.specs.Prelude.{◌≡◌, IfErr, IfOk, Ok, Some, is_ok};
ghost use Rattle.bs_log.specs.Valid.{IsValid};
ghost use Rattle.bs_machine.specs.Machine.{machine_view};
ghost use Rattle.bs_report.specs.Fault.{fault_text};
ghost use Rattle.bs_report.specs.declared.faults.Fault.TheVariants as fault;
ghost use Rattle.bs_settle.specs.Timed.{AreTimes};
ghost use Rattle.bs_times.specs.Machine.{machine_of};
ghost use Rattle.bs_top.specs.Computing.{Computes};
ghost use Rattle.bs_top.specs.Seen.{note_of, said_of};
ghost use Rattle.bs_top.specs.Step.{Told};
ghost use Rattle.bs_top.specs.Targets.{errors};
ghost use Rattle.bs_top.specs.Waves.{AreWavesOn, IsTooFew, most_waves as most_waves_of};
ghost use Rattle.bs_top.specs.Words.{AreWaves};
ghost use Rattle.bs_top.specs.commands.Journal.{journal_in, journaled as journaled_of, journaled_on};
ghost use Rattle.bs_top.specs.declared.reply.Ending.TheVariants as ending;

use crate::inputs::fit;
use crate::reply::{Ending, Note, Reply, Target};
use crate::reports::{outcome_at, report_of};
use crate::settling::most_waves;
use crate::stopped::Stopped;
use bs_log::Log;
use bs_machine::{Fitted, Machine};
use bs_report::{Fault, fault_line, journal};
use bs_settle::{BudgetSpent, Correction, Estimates, Field, Noted};
use bs_tree::List;
use std::alloc::{AllocError, Global};

/// The journal of a valid log on a machine for the file of the name `into`, and behind it the report, or
/// the line of a number of waves that is spent.
pub(crate) fn journaled(
    alloc: Global,
    log: &Log,
    machine: Machine,
    waves: Option<u64>,
    into: &str,
) -> Result<Reply, Stopped>
    requires valid { IsValid log.now }
    requires waves { AreWaves waves }
    ensures kind { Computes result }
    ensures told { Told said_of (journaled_of waves into.now log.now (machine_view machine)) result }
{
    let fitted = fit(machine, log.chares)?;
    Ok(journal_on(alloc, log, &fitted, waves, into)?)
}

fn journal_on(
    alloc: Global,
    log: &Log,
    fitted: &Fitted,
    waves: Option<u64>,
    into: &str,
) -> Result<Reply, AllocError>
    requires valid { IsValid log.now }
    requires chares { fitted.now.chares ≡ log.now.chares }
    requires waves { AreWaves waves }
    ensures { IfOk result (λ reply. journaled_on waves into.now log.now (machine_view fitted.now.machine) (Ok (said_of reply))) }
{
    let Noted { waves, times } = waves_of(alloc, log, fitted, waves)?;
    match times {
        Ok(times) => {
            let note = note(alloc, into, waves.as_slice(), true)?;
            let outcome = outcome_at(alloc, log, fitted, &times)?;
            Ok(with_note(report_of(alloc, &outcome)?, note))
        }
        Err(spent) => {
            let note = note(alloc, into, waves.as_slice(), false)?;
            spent_reply(alloc, spent, note)
        }
    }
}

// What the waves of a valid log on a machine come to, within a number of waves where one is given.
fn waves_of(
    alloc: Global,
    log: &Log,
    fitted: &Fitted,
    waves: Option<u64>,
) -> Result<Noted, AllocError>
    requires valid { IsValid log.now }
    requires chares { fitted.now.chares ≡ log.now.chares }
    requires waves { AreWaves waves }
    ensures noted { IfOk result (λ noted. AreWavesOn waves log.now (machine_view fitted.now.machine) noted.waves (is_ok noted.times)) }
    ensures times { IfOk result (λ noted. IfOk noted.times (AreTimes log.now (machine_of fitted.now))) }
    ensures spent { IfOk result (λ noted. IfErr noted.times (IsTooFew log.now (machine_view fitted.now.machine) (most_waves_of waves log.now))) }
{
    let mut field = Field::new(alloc, log, fitted, Estimates::Zero)?;
    let most = most_waves(&field, waves);
    field.settle_noting(alloc, most)
}

// The journal of waves, for the file of that name.
fn note(
    alloc: Global,
    into: &str,
    waves: &[List<Correction>],
    settled: bool,
) -> Result<Note, AllocError>
    ensures { IfOk result (λ note. note_of note ≡ journal_in into.now waves.now settled) }
{
    let name = String::from_str(alloc, into)?;
    let text = journal(alloc, waves, settled)?;
    Ok(Note { name, text })
}

fn with_note(reply: Reply, note: Note) -> Reply
    ensures { said_of result ≡ record (said_of reply) { note = Some (note_of note) } }
{
    Reply {
        ending: reply.ending,
        note: Some(note),
        target: reply.target,
        text: reply.text,
    }
}

// The line of a number of waves that is spent, behind a note.
fn spent_reply(alloc: Global, spent: BudgetSpent, note: Note) -> Result<Reply, AllocError>
    ensures { IfOk result (λ reply. said_of reply ≡ record { ending = ending.Spent; note = Some (note_of note); target = errors; text = fault_text (fault.BudgetSpent spent) }) }
{
    let text = fault_line(alloc, &Fault::BudgetSpent(spent))?;
    Ok(Reply {
        ending: Ending::Spent,
        note: Some(note),
        target: Target::Errors,
        text,
    })
}
