// The report of an outcome.
ghost use Rattle.std.specs.Prelude.{◌≡◌, ◌++◌, IfOk, OnOk, string_bytes};
ghost use Rattle.std.specs.List.{flat_map};
ghost use Rattle.bs_log.specs.Reportable.{IsReportable};
ghost use Rattle.bs_report.specs.Report.{report_text, status_line, value_line, block_line, block_lines, trap_word, trap_line, wait_line, span_of, span_line};

use crate::ending::end;
use crate::processors::{loads, write_loads};
use bs_log::{End, OutRow, Outcome, TrapKind, TrapRow, WaitRow};
use std::alloc::{AllocError, Global};
use std::fmt::Write;

// The greatest end of a block, in ticks, and 0 without blocks.
pub(crate) fn span(rows: &[OutRow]) -> u128
    ensures { result ≡ span_of rows.now }
{
    rows.iter().fold(0, |latest, row| latest.max(row.end))
}

fn status(end: End) -> &'static str
    ensures { result.now ≡ status_line end }
{
    match end {
        End::Settled => "status settled\n",
        End::Deadlock => "status deadlock\n",
        End::Trapped => "status trapped\n",
    }
}

// Each block with its values, numbered from 1.
fn write_blocks(text: &mut String, rows: &[OutRow]) -> Result<(), AllocError>
    ensures { OnOk result (string_bytes text.new ≡
        string_bytes text.old ++ block_lines 1 rows.now) }
{
    for (index, row) in rows.iter().enumerate() {
        write_block(text, index + 1, row)?;
        write_values(text, row.values.as_slice())?;
    }
    Ok(())
}

fn write_block(text: &mut String, number: usize, row: &OutRow) -> Result<(), AllocError>
    ensures { OnOk result (string_bytes text.new ≡
        string_bytes text.old ++ block_line number row.now) }
{
    writeln!(
        text,
        "block {number} chare {} stmt {} proc {} start {} end {}",
        row.chare, row.stmt, row.processor, row.start, row.end
    )
}

fn write_values(text: &mut String, values: &[i64]) -> Result<(), AllocError>
    ensures { OnOk result (string_bytes text.new ≡
        string_bytes text.old ++ flat_map value_line values.now) }
{
    for value in values {
        writeln!(text, "value {value}")?;
    }
    Ok(())
}

fn write_traps(text: &mut String, traps: &[TrapRow]) -> Result<(), AllocError>
    ensures { OnOk result (string_bytes text.new ≡
        string_bytes text.old ++ flat_map trap_line traps.now) }
{
    for trap in traps {
        write_trap(text, trap)?;
    }
    Ok(())
}

fn write_trap(text: &mut String, trap: &TrapRow) -> Result<(), AllocError>
    ensures { OnOk result (string_bytes text.new ≡ string_bytes text.old ++ trap_line trap.now) }
{
    let word = word_of(trap.kind);
    writeln!(text, "trap chare {} stmt {} {word}", trap.chare, trap.stmt)
}

fn word_of(kind: TrapKind) -> &'static str
    ensures { result.now ≡ trap_word kind }
{
    match kind {
        TrapKind::Overflow => "overflow",
        TrapKind::ZeroDivisor => "divisor",
        TrapKind::Index => "index",
        TrapKind::Target => "target",
        TrapKind::WorkRange => "work",
        TrapKind::BytesRange => "bytes",
        TrapKind::CostRange => "cost",
        TrapKind::Steps => "steps",
    }
}

fn write_waits(text: &mut String, waits: &[WaitRow]) -> Result<(), AllocError>
    ensures { OnOk result (string_bytes text.new ≡
        string_bytes text.old ++ flat_map wait_line waits.now) }
{
    for wait in waits {
        write_wait(text, wait)?;
    }
    Ok(())
}

fn write_wait(text: &mut String, wait: &WaitRow) -> Result<(), AllocError>
    ensures { OnOk result (string_bytes text.new ≡ string_bytes text.old ++ wait_line wait.now) }
{
    writeln!(
        text,
        "wait chare {} stmt {} entry {} ref {}",
        wait.chare, wait.stmt, wait.key.entry, wait.key.reference
    )
}

fn write_span(text: &mut String, span: u128) -> Result<(), AllocError>
    ensures { OnOk result (string_bytes text.new ≡ string_bytes text.old ++ span_line span) }
{
    writeln!(text, "span {span}")
}

/// The report of an outcome: how the run ended, its blocks with their values, its traps, its waits,
/// its span in ticks, and what each processor that has a block did, in rising order.
///
/// Blocks are numbered from 1. The use of a processor is in hundredths of a percent of the span,
/// rounded down. There are at most 262,144 blocks, and each takes 1 to 2^48 ticks and ends before
/// tick 2^110. The only refusal is want of memory.
pub fn report(alloc: Global, outcome: &Outcome) -> Result<Vec<u8>, AllocError>
    requires { IsReportable outcome.now }
    ensures { IfOk result (λ text. text.items ≡ report_text outcome.now) }
{
    let rows = outcome.rows.as_slice();
    let mut text = String::new(alloc);
    text.push_str(status(end(outcome)))?;
    write_blocks(&mut text, rows)?;
    write_traps(&mut text, outcome.traps.as_slice())?;
    write_waits(&mut text, outcome.waits.as_slice())?;
    let span = span(rows);
    write_span(&mut text, span)?;
    write_loads(&mut text, &loads(alloc, rows)?, span)?;
    Ok(text.into_bytes())
}
