// Which messages histories send to a chare.
ghost use Rattle.std.specs.Prelude.{◌≡◌, ◌-◌, ◌^◌, min};
ghost use Rattle.bs_log.specs.Messages.{same_key as same_key_of, same_path as same_path_of, is_below as is_below_of, same_origin as same_origin_of, is_for as is_for_of, times_by as times_by_of, times_in as times_in_of, times_sent as times_sent_of};

use crate::history::{Block, History, Key, Message, Origin};
use bs_tree::Path;

/// Whether two keys are the same.
pub(crate) fn same_key(a: Key, b: Key) -> bool
    ensures { result ≡ same_key_of a b }
{
    a.entry == b.entry && a.reference == b.reference
}

/// Whether two paths are the same.
pub(crate) fn same_path(a: &Path, b: &Path) -> bool
    ensures { result ≡ same_path_of a.now b.now }
{
    a.0.as_slice() == b.0.as_slice()
}

/// Whether a path comes before another one.
pub(crate) fn is_below(a: &Path, b: &Path) -> bool
    ensures { result ≡ is_below_of a.now b.now }
{
    a.0.as_slice().cmp(b.0.as_slice()).is_lt()
}

/// Whether two messages come from the same place.
pub(crate) fn same_origin(a: &Origin, b: &Origin) -> bool
    ensures { result ≡ same_origin_of a.now b.now }
{
    a.chare == b.chare && same_path(&a.path, &b.path) && a.index == b.index && a.depth == b.depth
}

// Whether a message of this key goes to this chare.
fn is_for(message: &Message, chare: u64, key: Key) -> bool
    ensures { result ≡ is_for_of chare key message.now }
{
    u64::from(message.sent.to) == chare && same_key(message.sent.key, key)
}

/// How many messages of a key histories send to a chare, or 2^64 - 1 where there are more.
#[tactic(auto, unfolding(crate::specs::Messages::times_sent))]
pub(crate) fn times_sent(histories: &[History], chare: u64, key: Key) -> u64
    ensures { result ≡ min (times_sent_of histories.now chare key) (2 ^ 64 - 1) }
{
    let mut times: u64 = 0;
    for history in histories {
        times = times.saturating_add(times_in(history.blocks.as_slice(), chare, key));
    }
    times
}

// The same of blocks.
fn times_in(blocks: &[Block], chare: u64, key: Key) -> u64
    ensures { result ≡ min (times_in_of chare key blocks.now) (2 ^ 64 - 1) }
{
    let mut times: u64 = 0;
    for block in blocks {
        times = times.saturating_add(times_by(block, chare, key));
    }
    times
}

// The same of one block.
fn times_by(block: &Block, chare: u64, key: Key) -> u64
    ensures { result ≡ times_by_of chare key block.now }
{
    let sends = block.sends.as_slice();
    sends
        .iter()
        .filter(|message| is_for(*message, chare, key))
        .count() as u64
}
