// What a history sends that an earlier one of the chare doesn't send.
ghost use Rattle.std.specs.Prelude.{◌≡◌, IfOk, drop};
ghost use Rattle.bs_log.specs.Messages.{same_path as same_path_of};
ghost use Rattle.bs_chare.specs.News.{fresh, is_head};

use crate::copies::push_messages;
use bs_log::{Block, Message};
use bs_tree::{List, Path};
use std::alloc::{AllocError, Global};

/// What blocks send, but for the blocks that were there before. Those are among the blocks in the same order.
pub(crate) fn news(
    alloc: Global,
    before: &[Block],
    blocks: &[Block],
) -> Result<List<Message>, AllocError>
    ensures { IfOk result (λ sent. sent ≡ fresh before.now blocks.now) }
{
    let mut sent = List::new(alloc);
    let mut known = 0;
    for block in blocks {
        if is_next(before, known, block) {
            known += 1;
        } else {
            push_messages(alloc, block.sends.as_slice(), &mut sent)?;
        }
    }
    Ok(sent)
}

// Whether the block at a place is at the path of this one.
fn is_next(blocks: &[Block], place: usize, block: &Block) -> bool
    ensures { result ≡ is_head (drop place blocks.now) block.now }
{
    match blocks.get(place) {
        Some(next) => same_path(&next.path, &block.path),
        None => false,
    }
}

fn same_path(a: &Path, b: &Path) -> bool
    ensures { result ≡ same_path_of a.now b.now }
{
    a.0.as_slice() == b.0.as_slice()
}
