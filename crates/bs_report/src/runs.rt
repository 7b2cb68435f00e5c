// What each processor ran.
ghost use Rattle.std.specs.Prelude.{◌≡◌, ◌<◌, ◌^◌, ◌++◌, None, IfOk, OnOk, Option, ℕ, length, map, string_bytes};
ghost use Rattle.std.specs.List.{All};
ghost use Rattle.bs_log.specs.Valid.{IsValid};
ghost use Rattle.bs_rows.specs.Rows.{net_on};
ghost use Rattle.bs_settle.specs.Timed.{numbers};
ghost use Rattle.bs_report.specs.Headed.{by_processor, headed, heading};
ghost use Rattle.bs_report.specs.Trace.{processor_line, run_line, start_in, traced_rows};

use crate::traced::{Traced, trace_row};
use bs_log::Log;
use bs_machine::Fitted;
use bs_num::Tick;
use bs_rows::count;
use std::alloc::{AllocError, Global};
use std::collections::BTreeMap;
use std::fmt::Write;

/// What is told of the rows, those of one processor after those of another.
pub(crate) fn runs(
    alloc: Global,
    log: &Log,
    machine: &Fitted,
    starts: &[Tick],
) -> Result<BTreeMap<(u32, u128, u32), Traced>, AllocError>
    requires valid { IsValid log.now }
    requires fitted { machine.now.chares ≡ log.now.chares }
    requires each { length starts.now ≡ length log.now.rows }
    requires early { All (λ tick. tick.0 < 2 ^ 109) starts.now }
    ensures { IfOk result (λ runs. map (λ entry. entry.1) runs.entries ≡ by_processor (traced_rows (net_on log.now machine.now) (start_in (numbers starts.now)) (length log.now.rows))) }
{
    let mut runs = BTreeMap::new(alloc);
    for place in 0..count(log) {
        let row = trace_row(log, machine, starts, place + 1);
        runs.insert((row.processor, row.start, row.number), row)?;
    }
    Ok(runs)
}

/// Writes the lines of rows, with the line of each processor where its first row stands.
pub(crate) fn write_runs(
    text: &mut String,
    runs: &BTreeMap<(u32, u128, u32), Traced>,
) -> Result<(), AllocError>
    ensures { OnOk result (string_bytes text.new ≡
        string_bytes text.old ++ headed None (map (λ entry. entry.1) runs.now.entries)) }
{
    let mut last = None;
    for entry in runs {
        let row = *entry.1;
        write_heading(text, last, row.processor)?;
        write_run(text, row)?;
        last = Some(row.processor);
    }
    Ok(())
}

// The line of a processor, where it isn't the last one.
fn write_heading(text: &mut String, last: Option<u32>, processor: u32) -> Result<(), AllocError>
    ensures { OnOk result (string_bytes text.new ≡ string_bytes text.old ++ heading last processor) }
{
    match last {
        Some(last) if last == processor => Ok(()),
        _ => write_processor(text, processor),
    }
}

fn write_processor(text: &mut String, processor: u32) -> Result<(), AllocError>
    ensures { OnOk result (string_bytes text.new ≡ string_bytes text.old ++ processor_line processor) }
{
    writeln!(text, "proc {processor}")
}

fn write_run(text: &mut String, row: Traced) -> Result<(), AllocError>
    ensures { OnOk result (string_bytes text.new ≡ string_bytes text.old ++ run_line row) }
{
    writeln!(
        text,
        "run {} ready {} start {} end {}",
        row.number, row.ready, row.start, row.end
    )
}
