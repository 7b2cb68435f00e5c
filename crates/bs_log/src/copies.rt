// Copies of histories and of what they hold. Each ends in want of memory, and in no other way.
ghost use Rattle.std.specs.Prelude.{◌≡◌, IfOk, OnOk, ◌++◌};

use crate::history::{Asked, Block, History, Message, Origin, TrapAt, WaitAt};
use bs_tree::{List, Path};
use std::alloc::{AllocError, Global};

/// An equal history.
pub fn copy_history(alloc: Global, history: &History) -> Result<History, AllocError>
    ensures { IfOk result (λ copy. copy ≡ history.now) }
{
    let blocks = copy_blocks(alloc, history.blocks.as_slice())?;
    let asked = copy_all_asked(alloc, history.asked.as_slice())?;
    let waits = copy_waits(alloc, history.waits.as_slice())?;
    let traps = copy_traps(alloc, history.traps.as_slice())?;
    Ok(History {
        blocks,
        asked,
        waits,
        traps,
        ended: history.ended,
    })
}

fn copy_blocks(alloc: Global, blocks: &[Block]) -> Result<List<Block>, AllocError>
    ensures { IfOk result (λ copy. copy ≡ blocks.now) }
{
    let mut copy = List::new(alloc);
    for block in blocks {
        copy.push(copy_block(alloc, block)?)?;
    }
    Ok(copy)
}

/// An equal block.
pub fn copy_block(alloc: Global, block: &Block) -> Result<Block, AllocError>
    ensures { IfOk result (λ copy. copy ≡ block.now) }
{
    let path = copy_path(alloc, &block.path)?;
    let after = copy_paths(alloc, block.after.as_slice())?;
    let mail = copy_origins(alloc, block.mail.as_slice())?;
    let emits = copy_numbers(alloc, &block.emits)?;
    let sends = copy_messages(alloc, block.sends.as_slice())?;
    Ok(Block {
        path,
        stmt: block.stmt,
        depth: block.depth,
        cost: block.cost,
        after,
        mail,
        emits,
        sends,
    })
}

/// Equal messages.
pub fn copy_messages(alloc: Global, messages: &[Message]) -> Result<List<Message>, AllocError>
    ensures { IfOk result (λ copy. copy ≡ messages.now) }
{
    let mut copy = List::new(alloc);
    push_messages(alloc, messages, &mut copy)?;
    Ok(copy)
}

/// Puts copies of messages behind others. Where memory is wanting, some of them may stand there already.
pub fn push_messages(
    alloc: Global,
    messages: &[Message],
    all: &mut List<Message>,
) -> Result<(), AllocError>
    ensures { OnOk result (all.new ≡ all.old ++ messages.now) }
{
    for message in messages {
        all.push(copy_message(alloc, message)?)?;
    }
    Ok(())
}

/// An equal message.
pub fn copy_message(alloc: Global, message: &Message) -> Result<Message, AllocError>
    ensures { IfOk result (λ copy. copy ≡ message.now) }
{
    let origin = copy_origin(alloc, &message.origin)?;
    let args = copy_numbers(alloc, &message.args)?;
    Ok(Message {
        origin,
        sent: message.sent,
        args,
    })
}

/// Equal origins.
pub fn copy_origins(alloc: Global, origins: &[Origin]) -> Result<List<Origin>, AllocError>
    ensures { IfOk result (λ copy. copy ≡ origins.now) }
{
    let mut copy = List::new(alloc);
    for origin in origins {
        copy.push(copy_origin(alloc, origin)?)?;
    }
    Ok(copy)
}

/// An equal origin.
pub fn copy_origin(alloc: Global, origin: &Origin) -> Result<Origin, AllocError>
    ensures { IfOk result (λ copy. copy ≡ origin.now) }
{
    let path = copy_path(alloc, &origin.path)?;
    Ok(Origin {
        chare: origin.chare,
        path,
        index: origin.index,
        depth: origin.depth,
    })
}

fn copy_paths(alloc: Global, paths: &[Path]) -> Result<List<Path>, AllocError>
    ensures { IfOk result (λ copy. copy ≡ paths.now) }
{
    let mut copy = List::new(alloc);
    for path in paths {
        copy.push(copy_path(alloc, path)?)?;
    }
    Ok(copy)
}

/// An equal path.
pub fn copy_path(alloc: Global, path: &Path) -> Result<Path, AllocError>
    ensures { IfOk result (λ copy. copy ≡ path.now) }
{
    let places = Vec::from_slice(alloc, path.0.as_slice())?;
    Ok(Path(List::from_vec(places)))
}

/// Equal numbers.
pub fn copy_numbers(alloc: Global, numbers: &List<i64>) -> Result<List<i64>, AllocError>
    ensures { IfOk result (λ copy. copy ≡ numbers.now) }
{
    let copy = Vec::from_slice(alloc, numbers.as_slice())?;
    Ok(List::from_vec(copy))
}

fn copy_all_asked(alloc: Global, asked: &[Asked]) -> Result<List<Asked>, AllocError>
    ensures { IfOk result (λ copy. copy ≡ asked.now) }
{
    let mut copy = List::new(alloc);
    for one in asked {
        let path = copy_path(alloc, &one.path)?;
        copy.push(Asked {
            key: one.key,
            path,
            stmt: one.stmt,
        })?;
    }
    Ok(copy)
}

fn copy_waits(alloc: Global, waits: &[WaitAt]) -> Result<List<WaitAt>, AllocError>
    ensures { IfOk result (λ copy. copy ≡ waits.now) }
{
    let mut copy = List::new(alloc);
    for wait in waits {
        let path = copy_path(alloc, &wait.path)?;
        copy.push(WaitAt {
            path,
            stmt: wait.stmt,
            key: wait.key,
        })?;
    }
    Ok(copy)
}

fn copy_traps(alloc: Global, traps: &[TrapAt]) -> Result<List<TrapAt>, AllocError>
    ensures { IfOk result (λ copy. copy ≡ traps.now) }
{
    let mut copy = List::new(alloc);
    for trap in traps {
        let path = copy_path(alloc, &trap.path)?;
        copy.push(TrapAt {
            path,
            stmt: trap.stmt,
            kind: trap.kind,
        })?;
    }
    Ok(copy)
}
