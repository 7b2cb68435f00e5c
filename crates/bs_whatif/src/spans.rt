// The spans of points, without waves.
ghost use Rattle.std.specs.Prelude.{◌≡◌, IfOk};
ghost use Rattle.bs_log.specs.Valid.{IsValid};
ghost use Rattle.bs_rows.specs.Rows.{net_on};
ghost use Rattle.bs_times.specs.Net.{Starts};
ghost use Rattle.bs_times.specs.Times.{IsConsistent};
ghost use Rattle.bs_whatif.specs.Figures.{AreFitted, AreSpans, span_in, swept, tuned};
ghost use Rattle.bs_whatif.specs.Rescaled.{IsFraction};

use crate::figures::span;
use crate::scaling::rescale;
use bs_log::Log;
use bs_machine::Fitted;
use bs_num::Tick;
use bs_settle::settled_times;
use bs_tree::List;
use std::alloc::{AllocError, Global};

/// The span of a valid log on each of some machines that were fitted to its chares: the greatest end of a
/// row, and 0 without rows. They are the spans that `sweep` gives.
///
/// Of a point nothing but its span is kept. The only refusal is want of memory.
pub fn sweep_spans(alloc: Global, log: &Log, machines: &[Fitted]) -> Result<List<Tick>, AllocError>
    requires valid { IsValid log.now }
    requires fitted { AreFitted log.now machines.now }
    ensures { IfOk result (AreSpans (swept log.now machines.now)) }
{
    let mut spans = List::new(alloc);
    for machine in machines {
        spans.push(span_on(alloc, log, machine)?)?;
    }
    Ok(spans)
}

/// The span of a valid log on a machine that was fitted to its chares, and the span where the rows of one
/// statement cost `num / den` of what they did. They are the spans that `tune` gives.
///
/// `num` is from 1 to `den`, and `den` at most 65,535. The only refusal is want of memory.
pub fn tune_spans(
    alloc: Global,
    log: &Log,
    machine: &Fitted,
    stmt: u32,
    num: u32,
    den: u32,
) -> Result<List<Tick>, AllocError>
    requires valid { IsValid log.now }
    requires fitted { machine.now.chares ≡ log.now.chares }
    requires fraction { IsFraction num den }
    ensures { IfOk result (AreSpans (tuned log.now machine.now stmt num den)) }
{
    let rescaled = rescale(alloc, log, stmt, num, den)?;
    let mut spans = List::new(alloc);
    spans.push(span_on(alloc, log, machine)?)?;
    spans.push(span_on(alloc, &rescaled, machine)?)?;
    Ok(spans)
}

fn span_on(alloc: Global, log: &Log, machine: &Fitted) -> Result<Tick, AllocError>
    requires valid { IsValid log.now }
    requires fitted { machine.now.chares ≡ log.now.chares }
    ensures { IfOk result (λ span. (table : Starts) × IsConsistent (net_on log.now machine.now) table × (span.0 ≡ span_in (net_on log.now machine.now) table)) }
{
    let times = settled_times(alloc, log, machine)?;
    Ok(span(&times))
}
