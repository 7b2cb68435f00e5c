// `check`: the canonical text of a program.
ghost use Rattle.std.specs.Prelude.{◌≡◌, ◌≤◌, IfOk, IfSome, Some};
ghost use Rattle.bs_desk.specs.Outside.{IsReading};
ghost use Rattle.bs_parse.specs.Text.{HasText};
ghost use Rattle.bs_top.specs.Answer.{reply_to};
ghost use Rattle.bs_top.specs.Causes.{StepCause};
ghost use Rattle.bs_top.specs.Inputs.{file_limit};
ghost use Rattle.bs_top.specs.Seen.{said_of};
ghost use Rattle.bs_top.specs.Step.{Told};
ghost use Rattle.bs_top.specs.Words.{check as check_asked};
ghost use Rattle.bs_top.specs.commands.Check.{printed as printed_of};

use crate::inputs::accepted;
use crate::reply::{Ending, Reply, Target};
use crate::stopped::Stopped;
use bs_desk::Desk;
use bs_log::End;
use bs_print::print;
use bs_tree::Program;
use std::alloc::{AllocError, Global};

/// Reads a program, and gives its canonical text.
pub(crate) fn check_text<D: Desk>(alloc: Global, desk: &mut D, name: &str) -> Result<Reply, Stopped>
    ensures reading { IsReading (D.world desk.old) (D.world desk.new) }
    ensures later { (D.world desk.old).read_faults ≤ (D.world desk.new).read_faults }
    ensures cause { StepCause file_limit (D.world desk.old) (D.world desk.new) result }
    ensures told { IfSome (D.world desk.old).files (λ files. Told said_of (reply_to files (Some (check_asked name.now))) result) }
{
    let accepted = accepted(alloc, desk, name)?;
    Ok(printed(alloc, accepted.program())?)
}

fn printed(alloc: Global, program: &Program) -> Result<Reply, AllocError>
    requires { HasText program.now }
    ensures { IfOk result (λ reply. said_of reply ≡ printed_of program.now) }
{
    let text = print(alloc, program)?;
    Ok(Reply {
        ending: Ending::Run(End::Settled),
        note: None,
        target: Target::Output,
        text,
    })
}
