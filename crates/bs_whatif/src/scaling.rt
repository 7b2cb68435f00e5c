// Logs in which one statement costs a fraction of what it did.
ghost use Rattle.std.specs.Prelude.{◌≡◌, ◌≤◌, ◌^◌, IfOk, map};
ghost use Rattle.bs_log.specs.Lists.{Mem};
ghost use Rattle.bs_log.specs.Valid.{IsValid};
ghost use Rattle.bs_log.specs.declared.history.Sent.{Sent as Send};
ghost use Rattle.bs_log.specs.declared.log.Row.{Row as Block};
ghost use Rattle.bs_semantics.specs.Serial.{Machine};
ghost use Rattle.bs_times.specs.Net.{net_of};
ghost use Rattle.bs_whatif.specs.Rescaled.{IsCheap, IsFraction, SameMessages, rescaled, rescaled_row, rescaled_send, scaled_if};

use crate::copies::{with_costs, with_rows};
use bs_log::{Log, Row, Sent};
use bs_num::scale;
use bs_tree::List;
use std::alloc::{AllocError, Global};

/// A valid log in which the rows of one statement cost `num / den` of what they did, from above 0 to 1, and
/// so do the offsets of what they send. Each is rounded up, and all else is equal.
///
/// The result is valid, and lists the same messages. `num` is from 1 to `den`, and `den` at most 65,535. The
/// only refusal is want of memory.
pub fn rescale(alloc: Global, log: &Log, stmt: u32, num: u32, den: u32) -> Result<Log, AllocError>
    requires valid { IsValid log.now }
    requires fraction { IsFraction num den }
    ensures value { IfOk result (λ copy. copy ≡ rescaled log.now stmt num den) }
    ensures valid { IfOk result IsValid }
    ensures listed { IfOk result (λ copy. (machine : Machine) → SameMessages (net_of log.now machine) (net_of copy machine)) }
{
    let rows = scaled_rows(alloc, log.rows.as_slice(), stmt, num, den)?;
    let copy = with_rows(alloc, log, rows)?;
    Ok(copy)
}

fn scaled_rows(
    alloc: Global,
    rows: &[Row],
    stmt: u32,
    num: u32,
    den: u32,
) -> Result<List<Row>, AllocError>
    requires fraction { IsFraction num den }
    requires cheap { (r : Block) → Mem r rows.now → IsCheap r }
    ensures { IfOk result (λ scaled. scaled ≡ map (rescaled_row stmt num den) rows.now) }
{
    let mut scaled = List::new(alloc);
    for row in rows {
        scaled.push(scaled_row(alloc, row, stmt, num, den)?)?;
    }
    Ok(scaled)
}

fn scaled_row(alloc: Global, row: &Row, stmt: u32, num: u32, den: u32) -> Result<Row, AllocError>
    requires fraction { IsFraction num den }
    requires cheap { IsCheap row.now }
    ensures { IfOk result (λ scaled. scaled ≡ rescaled_row stmt num den row.now) }
{
    let is = row.stmt == stmt;
    let cost = scale_if(is, row.cost, num, den);
    let sends = scaled_sends(alloc, row.sends.as_slice(), is, num, den)?;
    with_costs(alloc, row, cost, sends)
}

fn scaled_sends(
    alloc: Global,
    sends: &[Sent],
    is: bool,
    num: u32,
    den: u32,
) -> Result<List<Sent>, AllocError>
    requires fraction { IsFraction num den }
    requires cheap { (s : Send) → Mem s sends.now → s.offset ≤ 2 ^ 32 }
    ensures { IfOk result (λ scaled. scaled ≡ map (rescaled_send is num den) sends.now) }
{
    let mut scaled = List::new(alloc);
    for sent in sends {
        let offset = scale_if(is, sent.offset, num, den);
        scaled.push(Sent { offset, ..*sent })?;
    }
    Ok(scaled)
}

// The fraction of a cost where it is wanted, rounded up, and otherwise the cost itself.
fn scale_if(is: bool, cost: u64, num: u32, den: u32) -> u64
    requires fraction { IsFraction num den }
    requires cheap { cost ≤ 2 ^ 32 }
    ensures { result ≡ scaled_if is num den cost }
{
    if is { scale(cost, num, den) } else { cost }
}
