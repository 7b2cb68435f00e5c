// How much there is to keep of a history.
ghost use Rattle.std.specs.Prelude.{◌≡◌, ◌-◌, ◌^◌, min};
ghost use Rattle.bs_log.specs.Size.{block_size as block_size_of, size as size_of};

use crate::history::{Block, History};

/// The size of a history, or 2^64 - 1 where it is greater: its blocks, their causes, sends and
/// values, the keys asked and the traps. It takes no memory.
pub fn size(history: &History) -> u64
    ensures { result ≡ min (size_of history.now) (2 ^ 64 - 1) }
{
    let asked = count(history.asked.as_slice().len());
    let traps = count(history.traps.as_slice().len());
    let mut size = asked.saturating_add(traps);
    for block in history.blocks.as_slice() {
        size = size.saturating_add(block_size(block));
    }
    size
}

// The block itself, its causes, its sends and its values.
fn block_size(block: &Block) -> u64
    ensures { result ≡ min (block_size_of block.now) (2 ^ 64 - 1) }
{
    let after = count(block.after.as_slice().len());
    let mail = count(block.mail.as_slice().len());
    let sends = count(block.sends.as_slice().len());
    let emits = count(block.emits.as_slice().len());
    let causes = after.saturating_add(mail);
    causes
        .saturating_add(sends)
        .saturating_add(emits)
        .saturating_add(1)
}

// A number of items, as a `u64`.
fn count(len: usize) -> u64
    ensures { result ≡ len }
{
    len as u64
}
