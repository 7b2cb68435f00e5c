// What one chare does: its blocks, the keys that it asks, and where it stops.
use bs_tree::{List, Path};

/// What names a message at its receiver: the number of its entry, counted from 0 in the order of
/// declaration, and its reference number.
#[derive(Clone, Copy, Debug, PartialEq, Eq, PartialOrd, Ord, Drop)]
pub struct Key {
    pub entry: u32,
    pub reference: i64,
}

/// A message as its sender sees it: the chare that it goes to, its key, its length in bytes (at most
/// 2^30), and its offset, the cost of the block up to the send (1 to 2^32).
#[derive(Clone, Copy, Debug, PartialEq, Eq, Drop)]
pub struct Sent {
    pub to: u32,
    pub key: Key,
    pub bytes: u64,
    pub offset: u64,
}

/// Where a message comes from: the chare, the path and the depth of the block that sent it, and its
/// place among the block's sends, counted from 1.
#[derive(Debug, Drop)]
pub struct Origin {
    pub chare: u32,
    pub path: Path,
    pub index: u32,
    pub depth: u32,
}

/// A message with its arguments.
#[derive(Debug, Drop)]
pub struct Message {
    pub origin: Origin,
    pub sent: Sent,
    pub args: List<i64>,
}

/// One execution of a `serial` that ended without a trap.
///
/// `stmt` is the number of its statement, counted from 1 in the order of the text. `depth` is 1 plus
/// the greatest depth of its causes. `cost` is 1 plus the amounts of its `work`, at most 2^32. The
/// causes are blocks of the same chare (`after`) and messages (`mail`), in the order of (chare,
/// path, place of the send).
#[derive(Debug, Drop)]
pub struct Block {
    pub path: Path,
    pub stmt: u32,
    pub depth: u32,
    pub cost: u64,
    pub after: List<Path>,
    pub mail: List<Origin>,
    pub emits: List<i64>,
    pub sends: List<Message>,
}

/// A key that a `when` asked for.
#[derive(Debug, Drop)]
pub struct Asked {
    pub key: Key,
    pub path: Path,
    pub stmt: u32,
}

/// A key that a `when` waits for, since no message of it is there.
#[derive(Debug, Drop)]
pub struct WaitAt {
    pub path: Path,
    pub stmt: u32,
    pub key: Key,
}

/// Where a statement stopped, and why.
#[derive(Debug, Drop)]
pub struct TrapAt {
    pub path: Path,
    pub stmt: u32,
    pub kind: TrapKind,
}

/// Why a statement stops: a result out of the range of 64 bits, a division by 0, an index or a
/// target that isn't there, an amount of work or bytes out of range, a cost above 2^32, or more than
/// 100,000 steps in one block.
#[derive(Clone, Copy, Debug, PartialEq, Eq, Drop)]
pub enum TrapKind {
    Overflow,
    ZeroDivisor,
    Index,
    Target,
    WorkRange,
    BytesRange,
    CostRange,
    Steps,
}

/// All that a chare does under some mail: its blocks, asked keys, waits and traps in the order of
/// their paths, and whether its body came to its end.
#[derive(Debug, Drop)]
pub struct History {
    pub blocks: List<Block>,
    pub asked: List<Asked>,
    pub waits: List<WaitAt>,
    pub traps: List<TrapAt>,
    pub ended: bool,
}
