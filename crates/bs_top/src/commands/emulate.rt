// `emulate`: the log of a program.
ghost use Rattle.std.specs.Prelude.{◌≡◌, ◌≤◌, IfOk, IfSome, Some};
ghost use Rattle.bs_desk.specs.Outside.{IsReading};
ghost use Rattle.bs_log.specs.Valid.{IsValid};
ghost use Rattle.bs_top.specs.Answer.{reply_to};
ghost use Rattle.bs_top.specs.Causes.{StepCause};
ghost use Rattle.bs_top.specs.Inputs.{file_limit};
ghost use Rattle.bs_top.specs.Seen.{said_of};
ghost use Rattle.bs_top.specs.Step.{Told};
ghost use Rattle.bs_top.specs.Words.{IsLimit, emulate as emulate_asked};
ghost use Rattle.bs_top.specs.commands.Emulate.{kept_in};

use crate::inputs::accepted;
use crate::reply::{Ending, Reply, Target};
use crate::stopped::Stopped;
use crate::verdicts::log_at;
use bs_desk::Desk;
use bs_log::{Log, end};
use bs_logtext::write_log;
use std::alloc::{AllocError, Global};

/// Reads a program, and gives the text of its log for the file of the name `into`, at a limit of sizes.
pub(crate) fn emulate<D: Desk>(
    alloc: Global,
    desk: &mut D,
    name: &str,
    into: &str,
    limit: u64,
) -> Result<Reply, Stopped>
    requires { IsLimit limit }
    ensures reading { IsReading (D.world desk.old) (D.world desk.new) }
    ensures later { (D.world desk.old).read_faults ≤ (D.world desk.new).read_faults }
    ensures cause { StepCause file_limit (D.world desk.old) (D.world desk.new) result }
    ensures told { IfSome (D.world desk.old).files (λ files. Told said_of (reply_to files (Some (emulate_asked name.now into.now limit))) result) }
{
    let accepted = accepted(alloc, desk, name)?;
    let log = log_at(alloc, &accepted, limit)?;
    Ok(kept(alloc, &log, into)?)
}

// The text of a log, for the file of that name.
fn kept(alloc: Global, log: &Log, into: &str) -> Result<Reply, AllocError>
    requires { IsValid log.now }
    ensures { IfOk result (λ reply. said_of reply ≡ kept_in into.now log.now) }
{
    let text = write_log(alloc, log)?;
    let into = String::from_str(alloc, into)?;
    Ok(Reply {
        ending: Ending::Run(end(log)),
        note: None,
        target: Target::File(into),
        text,
    })
}
