// The log of a set of histories.
ghost use Rattle.std.specs.Prelude.{◌≡◌, ◌≤◌, ◌++◌, length, map, IfOk, OnOk};
ghost use Rattle.bs_log.specs.ClosedTest.{LooksClosed};
ghost use Rattle.bs_log.specs.Collected.{log_of, trap_row, traps_from, wait_row, waits_from};

use crate::history::{History, TrapAt, WaitAt};
use crate::log::{Log, TrapRow, WaitRow};
use crate::numbering::firsts;
use crate::rows::rows;
use bs_tree::List;
use std::alloc::{AllocError, Global};

/// The log of histories that `is_closed` passes, where they are those of the chares from 0 on and
/// the program has so many entries. Its only refusal is want of memory.
///
/// Each block is a row, in the order of (chare, path), and its causes are told by the numbers of
/// rows, counted from 1, in the order in which the block has them (`numbers_rise` says that they
/// rise). Then come the traps and the waits, each in the order of (chare, path).
pub fn collect(alloc: Global, histories: &[History], entries: u32) -> Result<Log, AllocError>
    requires { LooksClosed histories.now }
    ensures { IfOk result (λ log. log ≡ log_of histories.now entries) }
{
    let firsts = firsts(alloc, histories)?;
    let rows = rows(alloc, histories, firsts.as_slice())?;
    let traps = collect_traps(alloc, histories)?;
    let waits = collect_waits(alloc, histories)?;
    Ok(Log {
        chares: histories.len() as u32,
        entries,
        rows,
        traps,
        waits,
    })
}

/// The traps of histories, where they are those of the chares from 0 on, in the order of (chare,
/// path). Its only refusal is want of memory.
pub fn collect_traps(alloc: Global, histories: &[History]) -> Result<List<TrapRow>, AllocError>
    requires { length histories.now ≤ 65536 }
    ensures { IfOk result (λ traps. traps ≡ traps_from 0 histories.now) }
{
    let mut traps = List::new(alloc);
    for (chare, history) in histories.iter().enumerate() {
        push_traps(&mut traps, chare as u32, history.traps.as_slice())?;
    }
    Ok(traps)
}

// The traps of one chare.
fn push_traps(rows: &mut List<TrapRow>, chare: u32, traps: &[TrapAt]) -> Result<(), AllocError>
    ensures { OnOk result (rows.new ≡ rows.old ++ map (trap_row chare) traps.now) }
{
    for trap in traps {
        rows.push(TrapRow {
            chare,
            stmt: trap.stmt,
            kind: trap.kind,
        })?;
    }
    Ok(())
}

/// The waits of histories, where they are those of the chares from 0 on, in the order of (chare,
/// path). Its only refusal is want of memory.
pub fn collect_waits(alloc: Global, histories: &[History]) -> Result<List<WaitRow>, AllocError>
    requires { length histories.now ≤ 65536 }
    ensures { IfOk result (λ waits. waits ≡ waits_from 0 histories.now) }
{
    let mut waits = List::new(alloc);
    for (chare, history) in histories.iter().enumerate() {
        push_waits(&mut waits, chare as u32, history.waits.as_slice())?;
    }
    Ok(waits)
}

// The waits of one chare.
fn push_waits(rows: &mut List<WaitRow>, chare: u32, waits: &[WaitAt]) -> Result<(), AllocError>
    ensures { OnOk result (rows.new ≡ rows.old ++ map (wait_row chare) waits.now) }
{
    for wait in waits {
        rows.push(WaitRow {
            chare,
            stmt: wait.stmt,
            key: wait.key,
        })?;
    }
    Ok(())
}
