// The numbers of the rows of a log.
ghost use Rattle.std.specs.Prelude.{◌≡◌, ◌≤◌, true, IfOk};
ghost use Rattle.bs_log.specs.Messages.{same_path};
ghost use Rattle.bs_log.specs.Checks.{rise, has_path};
ghost use Rattle.bs_log.specs.Collected.{place, number_of, blocks_in};
ghost use Rattle.bs_log.specs.Linked.{HasBlock, IsNumbering, firsts_from};

use crate::history::{Block, History};
use crate::messages::is_below;
use bs_tree::Path;
use std::alloc::{AllocError, Global};

/// How many blocks the chares before each one have.
pub(crate) fn firsts(alloc: Global, histories: &[History]) -> Result<Vec<u32>, AllocError>
    requires { blocks_in histories.now ≤ 262144 }
    ensures { IfOk result (λ firsts. firsts.items ≡ firsts_from 0 histories.now) }
{
    let mut firsts = Vec::new(alloc);
    let mut before: u32 = 0;
    for history in histories {
        firsts.push(before)?;
        before += history.blocks.as_slice().len() as u32;
    }
    Ok(firsts)
}

/// The number of the row of a chare's block, counted from 1. The blocks are in order, so it is found
/// by halves.
pub(crate) fn number(histories: &[History], firsts: &[u32], chare: u32, path: &Path) -> u32
    requires numbering { IsNumbering histories.now firsts.now }
    requires found { HasBlock histories.now chare path.now }
    ensures { result ≡ number_of histories.now chare path.now }
{
    let first = firsts[chare as usize];
    let place = place_in(histories[chare as usize].blocks.as_slice(), path);
    first + place as u32 + 1
}

// The place of the block of this path, from 0.
fn place_in(blocks: &[Block], path: &Path) -> usize
    requires rises { rise blocks.now ≡ true }
    requires has { has_path blocks.now path.now ≡ true }
    ensures { result ≡ place (λ block. same_path block.path path.now) blocks.now }
{
    blocks.partition_point(|block| is_below(&block.path, path))
}
