// A block that runs whole or not at all.
ghost use Rattle.std.specs.Prelude.{◌≡◌, IsTrue};
ghost use Rattle.bs_check.specs.Known.{are_counted, are_known};
ghost use Rattle.bs_semantics.specs.Acts.{block_of};
ghost use Rattle.bs_block.specs.Block.{IsBlock};
ghost use Rattle.bs_block.specs.Env.{MadeFor};

use crate::acts::run_acts;
use crate::done::{BlockDone, BlockFault};
use crate::draft::Draft;
use crate::env::Env;
use crate::progress::Progress;
use bs_check::Accepted;
use bs_tree::{Act, List};
use std::alloc::Global;

/// Runs the acts of one block of an accepted program. The environment is one of this program's, the
/// names of the acts are declared as what they are used for, and each message has as many arguments
/// as its entry has parameters.
///
/// A trap comes exactly where the acts trap. After it, and where memory is wanting, the environment
/// is as before. Otherwise it has the cells that the block leaves.
#[tactic(auto, unfolding(bs_semantics::specs::Acts::block_of))]
pub fn run_block(
    alloc: Global,
    accepted: &Accepted,
    acts: &List<Act>,
    env: &mut Env,
) -> Result<BlockDone, BlockFault>
    requires known { IsTrue (are_known accepted.now.program acts.now) }
    requires counted { IsTrue (are_counted accepted.now.program acts.now) }
    requires made { MadeFor accepted.now.program env.old }
    ensures block { IsBlock (block_of accepted.now.program env.old.this acts.now env.old.cells) env.old env.new result }
    ensures this { env.new.this ≡ env.old.this }
    ensures made { MadeFor accepted.now.program env.new }
{
    let mut draft = Draft::new(alloc, env.taken_out(alloc));
    let mut progress = Progress::new(alloc);
    match run_acts(alloc, accepted, acts.as_slice(), &mut draft, &mut progress) {
        Ok(()) => {
            *env = draft.keep();
            let Progress {
                cost,
                sends,
                emits,
                ..
            } = progress;
            Ok(BlockDone { cost, sends, emits })
        }
        Err(fault) => {
            *env = draft.give_back();
            Err(fault)
        }
    }
}
