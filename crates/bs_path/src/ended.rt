// Which row ends on a processor at a tick.
ghost use Rattle.std.specs.Prelude.{◌≡◌, ◌<◌, ◌^◌, IfOk, ℕ, length};
ghost use Rattle.std.specs.BTreeMap.{get};
ghost use Rattle.std.specs.List.{All};
ghost use Rattle.bs_log.specs.Valid.{IsValid};
ghost use Rattle.bs_rows.specs.Rows.{net_on};
ghost use Rattle.bs_settle.specs.Timed.{numbers};
ghost use Rattle.bs_path.specs.Chain.{start_in};
ghost use Rattle.bs_path.specs.Ended.{EndsAt, key_cmp};

use crate::reading::end;
use bs_log::Log;
use bs_machine::Fitted;
use bs_num::Tick;
use bs_rows::{count, home};
use std::alloc::{AllocError, Global};
use std::collections::BTreeMap;

/// Each row by its processor and the tick at which it ends.
pub(crate) fn ended_rows(
    alloc: Global,
    log: &Log,
    machine: &Fitted,
    starts: &[Tick],
) -> Result<BTreeMap<(u32, u128), u32>, AllocError>
    requires valid { IsValid log.now }
    requires fitted { machine.now.chares ≡ log.now.chares }
    requires each { length starts.now ≡ length log.now.rows }
    requires early { All (λ tick. tick.0 < 2 ^ 109) starts.now }
    ensures { IfOk result (λ ended. (p t : ℕ) → EndsAt (net_on log.now machine.now) (start_in (numbers starts.now)) (length log.now.rows) p t (get key_cmp ended (p, t))) }
{
    let mut ended = BTreeMap::new(alloc);
    for place in 0..count(log) {
        let number = place + 1;
        let processor = home(log, machine, number);
        let tick = end(log, machine, starts, number);
        ended.insert((processor, tick), number)?;
    }
    Ok(ended)
}

/// The row that ends on a processor at a tick, if there is one.
pub(crate) fn ended_at(
    ended: &BTreeMap<(u32, u128), u32>,
    processor: u32,
    tick: u128,
) -> Option<u32>
    ensures { result ≡ get key_cmp ended.now (processor, tick) }
{
    ended.get(&(processor, tick)).copied()
}
