// Points one after another, and what is told of each.
ghost use Rattle.std.specs.Prelude.{◌≡◌, IfOk};
ghost use Rattle.bs_log.specs.Valid.{IsValid};
ghost use Rattle.bs_rows.specs.Rows.{net_on};
ghost use Rattle.bs_settle.specs.Timed.{numbers};
ghost use Rattle.bs_times.specs.Times.{greatest};
ghost use Rattle.bs_whatif.specs.Figures.{AreFigures, AreFitted, at_zero, latest_of, swept, tuned};
ghost use Rattle.bs_whatif.specs.Rescaled.{IsFraction};

use crate::points::{Point, resettle, zero_ticks};
use crate::scaling::rescale;
use bs_log::Log;
use bs_machine::Fitted;
use bs_num::Tick;
use bs_settle::Times;
use bs_tree::List;
use std::alloc::{AllocError, Global};

/// What is told of a point.
#[derive(Clone, Copy, Debug, PartialEq, Eq, Drop)]
pub struct Figures {
    /// The number of the first wave that changed no tick, from 1 to 2^40.
    pub waves: u64,
    /// The greatest end of a row, and 0 without rows. It is below tick 2^110.
    pub span: Tick,
}

/// The figures of a valid log on machines that were fitted to its chares, one point for each: the waves of
/// the first point begin from tick 0, and those of each other one from the ticks of the point before.
///
/// Of the points before the last one nothing but their figures is kept. The only refusal is want of memory.
pub fn sweep(alloc: Global, log: &Log, machines: &[Fitted]) -> Result<List<Figures>, AllocError>
    requires valid { IsValid log.now }
    requires fitted { AreFitted log.now machines.now }
    ensures { IfOk result (AreFigures at_zero (swept log.now machines.now)) }
{
    let mut figures = List::new(alloc);
    let mut before = zero_ticks(alloc, log)?;
    for machine in machines {
        let point = resettle(alloc, log, machine, &before)?;
        figures.push(figures_of(&point))?;
        before = point.ticks;
    }
    Ok(figures)
}

/// The figures of a valid log on a machine that was fitted to its chares, and those where the rows of one
/// statement cost `num / den` of what they did: two points. The waves of the first begin from tick 0, and
/// those of the second from the ticks of the first.
///
/// `num` is from 1 to `den`, and `den` at most 65,535. The only refusal is want of memory.
pub fn tune(
    alloc: Global,
    log: &Log,
    machine: &Fitted,
    stmt: u32,
    num: u32,
    den: u32,
) -> Result<List<Figures>, AllocError>
    requires valid { IsValid log.now }
    requires fitted { machine.now.chares ≡ log.now.chares }
    requires fraction { IsFraction num den }
    ensures { IfOk result (AreFigures at_zero (tuned log.now machine.now stmt num den)) }
{
    let zero = zero_ticks(alloc, log)?;
    let first = resettle(alloc, log, machine, &zero)?;
    let rescaled = rescale(alloc, log, stmt, num, den)?;
    let second = resettle(alloc, &rescaled, machine, &first.ticks)?;
    let mut figures = List::new(alloc);
    figures.push(figures_of(&first))?;
    figures.push(figures_of(&second))?;
    Ok(figures)
}

fn figures_of(point: &Point) -> Figures
    ensures waves { result.waves ≡ point.now.waves }
    ensures span { result.span.0 ≡ greatest (numbers point.now.times.ends) }
{
    Figures {
        waves: point.waves,
        span: span(&point.times),
    }
}

// The greatest end, and 0 without ends.
pub(crate) fn span(times: &Times) -> Tick
    ensures { result.0 ≡ greatest (numbers times.now.ends) }
{
    Tick(latest(times.ends.as_slice()))
}

fn latest(ticks: &[Tick]) -> u128
    ensures { result ≡ latest_of ticks.now }
{
    ticks.iter().fold(0, |latest, tick| latest.max(tick.0))
}
