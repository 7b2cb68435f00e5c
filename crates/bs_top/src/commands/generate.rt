// `gen`: the text of a program that is made from a kind, a number of chares and a seed.
ghost use Rattle.std.specs.Prelude.{◌≡◌, IfOk};
ghost use Rattle.bs_words.specs.Generated.{IsGenerated};
ghost use Rattle.bs_top.specs.Seen.{said_of};
ghost use Rattle.bs_top.specs.commands.Gen.{generated as generated_of};

use crate::reply::{Ending, Reply, Target};
use bs_gen::generate;
use bs_log::End;
use bs_words::Generated;
use std::alloc::{AllocError, Global};

/// Gives the text of a generated program.
pub(crate) fn generated_text(alloc: Global, program: Generated) -> Result<Reply, AllocError>
    requires { IsGenerated program }
    ensures { IfOk result (λ reply. said_of reply ≡ generated_of program) }
{
    let text = generate(alloc, program.kind, program.chares, program.seed)?;
    Ok(Reply {
        ending: Ending::Run(End::Settled),
        note: None,
        target: Target::Output,
        text,
    })
}
