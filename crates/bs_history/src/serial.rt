// What a `serial` does.
ghost use Rattle.std.specs.Prelude.{◌≡◌, ◌≤◌, ◌+◌, IfOk, IsTrue, OnOk, length, map};
ghost use Rattle.bs_check.specs.Known.{are_counted, are_known};
ghost use Rattle.bs_block.specs.Progress.{parcel_of};
ghost use Rattle.bs_semantics.specs.Acts.{block_of};
ghost use Rattle.bs_semantics.specs.Run.{alone, depth_of, serial, signed};
ghost use Rattle.bs_history.specs.Ground.{IsReady, Runs, program_of, state_of};
ghost use Rattle.bs_history.specs.Serial.{made_from};
ghost use Rattle.bs_history.specs.Trail.{IsWithin, Writes, a_block};

use crate::causes::Causes;
use crate::fault::HistoryFault;
use crate::ground::{Ground, State};
use crate::trail::Trail;
use bs_block::{BlockDone, BlockFault, Send, run_block};
use bs_log::{Block, Message, Origin, copy_path};
use bs_tree::{Act, List, Path};
use std::alloc::{AllocError, Global};

// Runs a block and writes it, or its trap.
pub(crate) fn run_serial(
    ground: &Ground,
    acts: &List<Act>,
    number: u32,
    trail: &mut Trail,
    state: &mut State,
) -> Result<bool, HistoryFault>
    requires known { IsTrue (are_known (program_of ground.now) acts.now) }
    requires counted { IsTrue (are_counted (program_of ground.now) acts.now) }
    requires ready { IsReady ground.now trail.old state.old }
    ensures { Runs ground.now (serial ground.now.this number trail.old.path.items (state_of state.old) (block_of (program_of ground.now) ground.now.this acts.now state.old.env.cells)) trail.old trail.new state.new result }
{
    match run_block(ground.alloc, ground.accepted, acts, &mut state.env) {
        Ok(done) => {
            write_block(ground, done, number, trail, &mut state.causes)?;
            Ok(true)
        }
        Err(BlockFault::Trap(kind)) => {
            trail.trap(ground.alloc, number, kind, ground.room)?;
            Ok(false)
        }
        Err(BlockFault::Memory) => Err(HistoryFault::Memory),
    }
}

// Writes a block that rests on the causes, which are then that block alone.
fn write_block(
    ground: &Ground,
    done: BlockDone,
    number: u32,
    trail: &mut Trail,
    causes: &mut Causes,
) -> Result<(), HistoryFault>
    requires within { IsWithin ground.now.room trail.old }
    requires shallow { depth_of causes.old ≤ 262144 + ground.now.done + trail.old.size }
    ensures wrote { Writes ground.now.room (a_block (made_from ground.now.this number trail.old.path.items causes.old done)) trail.old trail.new result }
    ensures causes { OnOk result (causes.new ≡ alone trail.old.path.items causes.old) }
{
    let BlockDone { cost, sends, emits } = done;
    let sends = sends.into_vec();
    if sends.len() as u64 > ground.room {
        return Err(HistoryFault::Long);
    }
    let depth = causes.depth() + 1;
    let path = trail.here(ground.alloc)?;
    let sends = sign(ground.alloc, ground.this, &path, depth, sends)?;
    let cause = copy_path(ground.alloc, &path)?;
    let (after, mail) = causes.hand_over(ground.alloc, cause, depth)?;
    let block = Block {
        path,
        stmt: number,
        depth,
        cost,
        after,
        mail,
        emits,
        sends,
    };
    trail.block(block, ground.room)
}

// The messages of a block, numbered from 1.
fn sign(
    alloc: Global,
    this: u32,
    path: &Path,
    depth: u32,
    sends: Vec<Send>,
) -> Result<List<Message>, AllocError>
    requires { length sends.items ≤ 262144 }
    ensures { IfOk result (λ messages. messages ≡ signed this path.now.0 depth 1 (map parcel_of sends.items)) }
{
    let mut messages = List::new(alloc);
    let mut index: u32 = 1;
    for send in sends {
        let Send { sent, args } = send;
        let origin = Origin {
            chare: this,
            path: copy_path(alloc, path)?,
            index,
            depth,
        };
        messages.push(Message { origin, sent, args })?;
        index += 1;
    }
    Ok(messages)
}
