// The text of a log.
ghost use Rattle.std.specs.Prelude.{◌≡◌, ◌++◌, IfOk, OnOk, string_bytes};
ghost use Rattle.std.specs.List.{flat_map};
ghost use Rattle.bs_log.specs.Valid.{IsValid};
ghost use Rattle.bs_logtext.specs.Text.{counts_line, row_line, after_line, mail_line, emit_line, send_line, row_text, kind_number, trap_line, wait_line, log_text};

use bs_log::{Log, MailRef, Row, Sent, TrapKind, TrapRow, WaitRow};
use std::alloc::{AllocError, Global};
use std::fmt::Write;

/// The text of a log that `bs_log::valid` passes: its version, its counts of chares, entries and rows,
/// each row with its causes, values and sends, the traps, the waits, and the end.
///
/// Rows and the sends of a row are numbered from 1. The only refusal is want of memory.
pub fn write_log(alloc: Global, log: &Log) -> Result<Vec<u8>, AllocError>
    requires { IsValid log.now }
    ensures { IfOk result (λ text. text.items ≡ log_text log.now) }
{
    let mut text = String::new(alloc);
    text.push_str("bslog 1\n")?;
    write_counts(&mut text, log)?;
    write_rows(&mut text, log.rows.as_slice())?;
    write_traps(&mut text, log.traps.as_slice())?;
    write_waits(&mut text, log.waits.as_slice())?;
    text.push_str("end\n")?;
    Ok(text.into_bytes())
}

fn write_counts(text: &mut String, log: &Log) -> Result<(), AllocError>
    ensures { OnOk result (string_bytes text.new ≡ string_bytes text.old ++ counts_line log.now) }
{
    let rows = log.rows.as_slice().len();
    writeln!(
        text,
        "chares {} entries {} rows {rows}",
        log.chares, log.entries
    )
}

fn write_rows(text: &mut String, rows: &[Row]) -> Result<(), AllocError>
    ensures { OnOk result (string_bytes text.new ≡
        string_bytes text.old ++ flat_map row_text rows.now) }
{
    for row in rows {
        write_row(text, row)?;
    }
    Ok(())
}

// A row with its causes, its values and its sends.
fn write_row(text: &mut String, row: &Row) -> Result<(), AllocError>
    ensures { OnOk result (string_bytes text.new ≡ string_bytes text.old ++ row_text row.now) }
{
    write_head(text, row)?;
    write_after(text, row.after.as_slice())?;
    write_mail(text, row.mail.as_slice())?;
    write_emits(text, row.emits.as_slice())?;
    write_sends(text, row.sends.as_slice())
}

fn write_head(text: &mut String, row: &Row) -> Result<(), AllocError>
    ensures { OnOk result (string_bytes text.new ≡ string_bytes text.old ++ row_line row.now) }
{
    writeln!(
        text,
        "row {} {} {} {}",
        row.chare, row.stmt, row.depth, row.cost
    )
}

fn write_after(text: &mut String, after: &[u32]) -> Result<(), AllocError>
    ensures { OnOk result (string_bytes text.new ≡
        string_bytes text.old ++ flat_map after_line after.now) }
{
    for row in after {
        writeln!(text, "after {row}")?;
    }
    Ok(())
}

fn write_mail(text: &mut String, mail: &[MailRef]) -> Result<(), AllocError>
    ensures { OnOk result (string_bytes text.new ≡
        string_bytes text.old ++ flat_map mail_line mail.now) }
{
    for cause in mail {
        write_cause(text, *cause)?;
    }
    Ok(())
}

fn write_cause(text: &mut String, cause: MailRef) -> Result<(), AllocError>
    ensures { OnOk result (string_bytes text.new ≡ string_bytes text.old ++ mail_line cause) }
{
    writeln!(text, "mail {} {}", cause.row, cause.index)
}

fn write_emits(text: &mut String, values: &[i64]) -> Result<(), AllocError>
    ensures { OnOk result (string_bytes text.new ≡
        string_bytes text.old ++ flat_map emit_line values.now) }
{
    for value in values {
        writeln!(text, "emit {value}")?;
    }
    Ok(())
}

fn write_sends(text: &mut String, sends: &[Sent]) -> Result<(), AllocError>
    ensures { OnOk result (string_bytes text.new ≡
        string_bytes text.old ++ flat_map send_line sends.now) }
{
    for sent in sends {
        write_send(text, *sent)?;
    }
    Ok(())
}

fn write_send(text: &mut String, sent: Sent) -> Result<(), AllocError>
    ensures { OnOk result (string_bytes text.new ≡ string_bytes text.old ++ send_line sent) }
{
    writeln!(
        text,
        "send {} {} {} {} {}",
        sent.to, sent.key.entry, sent.key.reference, sent.bytes, sent.offset
    )
}

fn write_traps(text: &mut String, traps: &[TrapRow]) -> Result<(), AllocError>
    ensures { OnOk result (string_bytes text.new ≡
        string_bytes text.old ++ flat_map trap_line traps.now) }
{
    for trap in traps {
        write_trap(text, *trap)?;
    }
    Ok(())
}

fn write_trap(text: &mut String, trap: TrapRow) -> Result<(), AllocError>
    ensures { OnOk result (string_bytes text.new ≡ string_bytes text.old ++ trap_line trap) }
{
    let kind = kind_number(trap.kind);
    writeln!(text, "trap {} {} {kind}", trap.chare, trap.stmt)
}

// The number of a reason to stop.
fn kind_number(kind: TrapKind) -> u32
    ensures { result ≡ kind_number kind }
{
    match kind {
        TrapKind::Overflow => 1,
        TrapKind::ZeroDivisor => 2,
        TrapKind::Index => 3,
        TrapKind::Target => 4,
        TrapKind::WorkRange => 5,
        TrapKind::BytesRange => 6,
        TrapKind::CostRange => 7,
        TrapKind::Steps => 8,
    }
}

fn write_waits(text: &mut String, waits: &[WaitRow]) -> Result<(), AllocError>
    ensures { OnOk result (string_bytes text.new ≡
        string_bytes text.old ++ flat_map wait_line waits.now) }
{
    for wait in waits {
        write_wait(text, *wait)?;
    }
    Ok(())
}

fn write_wait(text: &mut String, wait: WaitRow) -> Result<(), AllocError>
    ensures { OnOk result (string_bytes text.new ≡ string_bytes text.old ++ wait_line wait) }
{
    writeln!(
        text,
        "wait {} {} {} {}",
        wait.chare, wait.stmt, wait.key.entry, wait.key.reference
    )
}
