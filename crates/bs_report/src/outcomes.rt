// The outcome of a log on a machine.
ghost use Rattle.std.specs.Prelude.{◌≡◌, ◌<◌, IfOk, length};
ghost use Rattle.std.specs.List.{All};
ghost use Rattle.bs_log.specs.Valid.{IsValid};
ghost use Rattle.bs_log.specs.Reportable.{IsReportable};
ghost use Rattle.bs_settle.specs.Timed.{numbers, starts_from};
ghost use Rattle.bs_times.specs.Machine.{machine_of};
ghost use Rattle.bs_times.specs.Net.{Starts};
ghost use Rattle.bs_times.specs.Outcomes.{outcome_of};
ghost use Rattle.bs_report.specs.Outcomes.{AreEnds, timed_row, timed_rows};

use bs_log::{Log, OutRow, Outcome, Row};
use bs_machine::Fitted;
use bs_num::Tick;
use bs_settle::Times;
use bs_tree::List;
use std::alloc::{AllocError, Global};

/// The outcome of a valid log on a machine that was fitted to the log's chares, where its rows start and
/// end at these times: each row with its processor, its times and its values, and the log's traps and
/// waits (`docs/model.md`).
///
/// There are a start and an end for each row, in ticks. Each start is below 2^109, and each end is the
/// start and the duration of the row's cost, so from 1 to 2^48 later. The only refusal is want of
/// memory.
pub fn outcome(
    alloc: Global,
    log: &Log,
    machine: &Fitted,
    times: &Times,
) -> Result<Outcome, AllocError>
    requires valid { IsValid log.now }
    requires fitted { machine.now.chares ≡ log.now.chares }
    requires times { AreEnds log.now (machine_of machine.now) times.now }
    ensures value { IfOk result (λ outcome. (s : Starts) → numbers times.now.starts ≡ starts_from s 1 log.now.rows → outcome ≡ outcome_of log.now (machine_of machine.now) s) }
    ensures reportable { IfOk result IsReportable }
{
    let rows = with_times(
        alloc,
        machine,
        log.rows.as_slice(),
        times.starts.as_slice(),
        times.ends.as_slice(),
    )?;
    let traps = log.traps.as_slice().to_vec(alloc)?;
    let waits = log.waits.as_slice().to_vec(alloc)?;
    Ok(Outcome {
        rows,
        traps: List::from_vec(traps),
        waits: List::from_vec(waits),
    })
}

// Rows of the machine's chares, each with its start and its end.
fn with_times(
    alloc: Global,
    machine: &Fitted,
    rows: &[Row],
    starts: &[Tick],
    ends: &[Tick],
) -> Result<List<OutRow>, AllocError>
    requires chares { All (λ row. row.chare < machine.now.chares) rows.now }
    requires starts { length starts.now ≡ length rows.now }
    requires ends { length ends.now ≡ length rows.now }
    ensures { IfOk result (λ timed. timed ≡ timed_rows (machine_of machine.now) rows.now (numbers starts.now) (numbers ends.now)) }
{
    let mut timed = List::new(alloc);
    for (place, row) in rows.iter().enumerate() {
        timed.push(with_time(alloc, machine, row, starts[place], ends[place])?)?;
    }
    Ok(timed)
}

#[tactic(auto, unfolding(bs_times::specs::Machine::machine_of))]
fn with_time(
    alloc: Global,
    machine: &Fitted,
    row: &Row,
    start: Tick,
    end: Tick,
) -> Result<OutRow, AllocError>
    requires { row.now.chare < machine.now.chares }
    ensures { IfOk result (λ timed. timed ≡ timed_row (machine_of machine.now) row.now start.0 end.0) }
{
    let values = row.emits.as_slice().to_vec(alloc)?;
    Ok(OutRow {
        chare: row.chare,
        stmt: row.stmt,
        processor: machine.home(row.chare),
        start: start.0,
        end: end.0,
        values: List::from_vec(values),
    })
}
