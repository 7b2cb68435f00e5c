// Whether histories look closed by themselves.
ghost use Rattle.std.specs.Prelude.{◌≡◌, ◌-◌, ◌^◌, ◌↔◌, [], IsTrue, min};
ghost use Rattle.std.specs.List.{list_all};
ghost use Rattle.bs_log.specs.Size.{size_all};
ghost use Rattle.bs_log.specs.ClosedTest.{LooksClosed};
ghost use Rattle.bs_log.specs.Checks.{rise as rise_of, has_path as has_path_of, causes_known as causes_known_of, is_signed as is_signed_of, are_signed as are_signed_of, came_from as came_from_of, block_sends as block_sends_of, history_sends as history_sends_of, some_send as some_send_of, mail_is_sent as mail_is_sent_of, block_is_sound as block_is_sound_of, is_lacking as is_lacking_of, is_sound as is_sound_of, are_sound as are_sound_of, asks_once as asks_once_of, is_asked_once as is_asked_once_of, is_sent_once as is_sent_once_of, block_sends_once as block_sends_once_of, sends_once as sends_once_of, keys_are_apart as keys_are_apart_of, is_small as is_small_of, passes as passes_of};

use crate::history::{Asked, Block, History, Message, Origin, WaitAt};
use crate::messages::{is_below, same_key, same_origin, same_path, times_sent};
use crate::sizes::size;
use bs_tree::Path;

/// Whether histories can be those of a run, as far as they show by themselves, where they are those
/// of the chares from 0 on. It takes no memory.
///
/// There are 1 to 65,536 histories, and their sizes together are at most 262,144. Each has its blocks
/// in the order of their paths. Each block cause is the path of an earlier block of the same
/// history. The origin of each message has the chare, the path and the depth of its block, and its
/// place among the block's sends, counted from 1. Each message cause is the origin of a message that
/// some history sends to this chare. No key that is waited for is sent to its chare. No chare is
/// sent or asks one key twice.
///
/// Since it takes no memory, it has no map of keys: it compares each message with each other one,
/// and each cause with what it may name.
pub fn is_closed(histories: &[History]) -> bool
    ensures { IsTrue result ↔ LooksClosed histories.now }
{
    passes(histories)
}

#[tactic(auto, unfolding(crate::specs::Checks::passes))]
fn passes(histories: &[History]) -> bool
    ensures { result ≡ passes_of histories.now }
{
    is_small(histories) && are_sound(histories) && keys_are_apart(histories)
}

#[tactic(auto, unfolding(crate::specs::Checks::is_small))]
fn is_small(histories: &[History]) -> bool
    ensures { result ≡ is_small_of histories.now }
{
    1 <= histories.len() && histories.len() <= 65_536 && size_together(histories) <= 262_144
}

// The size of all, or 2^64 - 1 where it is greater.
fn size_together(histories: &[History]) -> u64
    ensures { result ≡ min (size_all histories.now) (2 ^ 64 - 1) }
{
    let mut together: u64 = 0;
    for history in histories {
        together = together.saturating_add(size(history));
    }
    together
}

#[tactic(auto, unfolding(crate::specs::Checks::are_sound))]
fn are_sound(histories: &[History]) -> bool
    ensures { result ≡ are_sound_of histories.now 0 histories.now }
{
    for (chare, history) in histories.iter().enumerate() {
        if !is_sound(histories, chare as u64, history) {
            return false;
        }
    }
    true
}

#[tactic(auto, unfolding(crate::specs::Checks::is_sound))]
fn is_sound(histories: &[History], chare: u64, history: &History) -> bool
    ensures { result ≡ is_sound_of histories.now chare history.now }
{
    let blocks = history.blocks.as_slice();
    rise(blocks)
        && causes_known(blocks)
        && are_blocks_sound(histories, chare, blocks)
        && are_lacking(histories, chare, history.waits.as_slice())
}

// The paths of the blocks rise.
#[tactic(auto, unfolding(crate::specs::Checks::rise))]
fn rise(blocks: &[Block]) -> bool
    ensures { result ≡ rise_of blocks.now }
{
    let Some((first, rest)) = blocks.split_first() else {
        return true;
    };
    let mut last = first;
    for block in rest {
        if !is_below(&last.path, &block.path) {
            return false;
        }
        last = block;
    }
    true
}

// Each block cause is the path of an earlier block.
#[tactic(auto, unfolding(crate::specs::Checks::causes_known))]
fn causes_known(blocks: &[Block]) -> bool
    ensures { result ≡ causes_known_of [] blocks.now }
{
    for (place, block) in blocks.iter().enumerate() {
        if !all_have_path(&blocks[..place], block) {
            return false;
        }
    }
    true
}

// The block causes of a block are the paths of some of these.
fn all_have_path(before: &[Block], block: &Block) -> bool
    ensures { result ≡ list_all (has_path_of before.now) block.now.after }
{
    block
        .after
        .as_slice()
        .iter()
        .all(|path| has_path(before, path))
}

fn has_path(blocks: &[Block], path: &Path) -> bool
    ensures { result ≡ has_path_of blocks.now path.now }
{
    blocks.iter().any(|block| same_path(&block.path, path))
}

fn are_blocks_sound(histories: &[History], chare: u64, blocks: &[Block]) -> bool
    ensures { result ≡ list_all (block_is_sound_of histories.now chare) blocks.now }
{
    blocks
        .iter()
        .all(|block| block_is_sound(histories, chare, block))
}

// The messages are signed by their block, and what came by the mail was sent.
fn block_is_sound(histories: &[History], chare: u64, block: &Block) -> bool
    ensures { result ≡ block_is_sound_of histories.now chare block.now }
{
    are_signed(chare, block) && mail_is_sent(histories, chare, block)
}

#[tactic(auto, unfolding(crate::specs::Checks::are_signed))]
fn are_signed(chare: u64, block: &Block) -> bool
    ensures { result ≡ are_signed_of chare block.now 1 block.now.sends }
{
    for (place, message) in block.sends.as_slice().iter().enumerate() {
        if !is_signed(chare, block, place as u64 + 1, message) {
            return false;
        }
    }
    true
}

fn is_signed(chare: u64, block: &Block, number: u64, message: &Message) -> bool
    ensures { result ≡ is_signed_of chare block.now number message.now }
{
    let origin = &message.origin;
    u64::from(origin.chare) == chare
        && same_path(&origin.path, &block.path)
        && u64::from(origin.index) == number
        && origin.depth == block.depth
}

fn mail_is_sent(histories: &[History], chare: u64, block: &Block) -> bool
    ensures { result ≡ mail_is_sent_of histories.now chare block.now }
{
    block
        .mail
        .as_slice()
        .iter()
        .all(|origin| some_send(histories, chare, origin))
}

#[tactic(auto, unfolding(crate::specs::Checks::some_send))]
fn some_send(histories: &[History], chare: u64, origin: &Origin) -> bool
    ensures { result ≡ some_send_of histories.now chare origin.now }
{
    histories
        .iter()
        .any(|history| history_sends(history, chare, origin))
}

fn history_sends(history: &History, chare: u64, origin: &Origin) -> bool
    ensures { result ≡ history_sends_of chare origin.now history.now }
{
    history
        .blocks
        .as_slice()
        .iter()
        .any(|block| block_sends(block, chare, origin))
}

fn block_sends(block: &Block, chare: u64, origin: &Origin) -> bool
    ensures { result ≡ block_sends_of chare origin.now block.now }
{
    block
        .sends
        .as_slice()
        .iter()
        .any(|message| came_from(message, chare, origin))
}

fn came_from(message: &Message, chare: u64, origin: &Origin) -> bool
    ensures { result ≡ came_from_of chare origin.now message.now }
{
    u64::from(message.sent.to) == chare && same_origin(&message.origin, origin)
}

// No key that is waited for is sent to the chare.
fn are_lacking(histories: &[History], chare: u64, waits: &[WaitAt]) -> bool
    ensures { result ≡ list_all (is_lacking_of histories.now chare) waits.now }
{
    waits.iter().all(|wait| is_lacking(histories, chare, wait))
}

fn is_lacking(histories: &[History], chare: u64, wait: &WaitAt) -> bool
    ensures { result ≡ is_lacking_of histories.now chare wait.now }
{
    times_sent(histories, chare, wait.key) == 0
}

#[tactic(auto, unfolding(crate::specs::Checks::keys_are_apart))]
fn keys_are_apart(histories: &[History]) -> bool
    ensures { result ≡ keys_are_apart_of histories.now }
{
    all_ask_once(histories) && all_send_once(histories)
}

fn all_ask_once(histories: &[History]) -> bool
    ensures { result ≡ list_all asks_once_of histories.now }
{
    histories.iter().all(|history| asks_once(history))
}

fn all_send_once(histories: &[History]) -> bool
    ensures { result ≡ list_all (sends_once_of histories.now) histories.now }
{
    histories
        .iter()
        .all(|history| sends_once(histories, history))
}

// The chare asks no key twice.
fn asks_once(history: &History) -> bool
    ensures { result ≡ asks_once_of history.now }
{
    let asked = history.asked.as_slice();
    asked.iter().all(|one| is_asked_once(asked, one))
}

fn is_asked_once(asked: &[Asked], one: &Asked) -> bool
    ensures { result ≡ is_asked_once_of asked.now one.now }
{
    asked
        .iter()
        .filter(|other| same_key(other.key, one.key))
        .count()
        <= 1
}

// No key that the history sends is sent twice to one chare.
fn sends_once(histories: &[History], history: &History) -> bool
    ensures { result ≡ sends_once_of histories.now history.now }
{
    history
        .blocks
        .as_slice()
        .iter()
        .all(|block| block_sends_once(histories, block))
}

fn block_sends_once(histories: &[History], block: &Block) -> bool
    ensures { result ≡ block_sends_once_of histories.now block.now }
{
    block
        .sends
        .as_slice()
        .iter()
        .all(|message| is_sent_once(histories, message))
}

fn is_sent_once(histories: &[History], message: &Message) -> bool
    ensures { result ≡ is_sent_once_of histories.now message.now }
{
    times_sent(histories, u64::from(message.sent.to), message.sent.key) <= 1
}
