// `trial`: a generated program on the flat machine of 64 processors with latency 10.
ghost use Rattle.std.specs.Prelude.{◌≡◌, IfOk};
ghost use Rattle.bs_words.specs.Generated.{IsGenerated};
ghost use Rattle.bs_top.specs.Computing.{Computes};
ghost use Rattle.bs_top.specs.Seen.{said_of};
ghost use Rattle.bs_top.specs.Step.{Told};
ghost use Rattle.bs_top.specs.commands.Trial.{tried, tried_as};

use crate::commands::run::outcome_by_log;
use crate::inputs::{accept, flat_machine, program_of_text};
use crate::reply::{Ending, Reply, Target};
use crate::stopped::Stopped;
use bs_gen::generate;
use bs_log::Outcome;
use bs_report::{end, trial_line};
use bs_words::Generated;
use std::alloc::{AllocError, Global};

/// The limit of sizes of a trial, which is the greatest.
const LIMIT: u64 = 262_144;

/// Runs a generated program by way of its log, and gives its line.
pub(crate) fn trial(alloc: Global, generated: Generated) -> Result<Reply, Stopped>
    requires { IsGenerated generated }
    ensures kind { Computes result }
    ensures told { Told said_of (tried generated) result }
{
    let text = generate(alloc, generated.kind, generated.chares, generated.seed)?;
    let program = program_of_text(alloc, text.as_slice())?;
    let accepted = accept(alloc, program)?;
    let machine = flat_machine(alloc, 64, 10)?;
    let outcome = outcome_by_log(alloc, &accepted, machine, LIMIT, None)?;
    Ok(trial_of(alloc, generated, &outcome)?)
}

// The line of a trial.
fn trial_of(alloc: Global, generated: Generated, outcome: &Outcome) -> Result<Reply, AllocError>
    ensures { IfOk result (λ reply. said_of reply ≡ tried_as generated outcome.now) }
{
    let text = trial_line(
        alloc,
        generated.kind,
        generated.chares,
        generated.seed,
        outcome,
    )?;
    Ok(Reply {
        ending: Ending::Run(end(outcome)),
        note: None,
        target: Target::Output,
        text,
    })
}
