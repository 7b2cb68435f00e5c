// The first line of rows that breaks a rule.
ghost use Rattle.std.specs.Prelude.{◌≡◌, ◌+◌, ◌≤◌, None, length, sum_by, IfOk};
ghost use Rattle.bs_log.specs.Valid.{row_lines as row_lines_of};
ghost use Rattle.bs_logcheck.specs.Lines.{AfterLine, MailLine, each_line};
ghost use Rattle.bs_logcheck.specs.Places.{goal_of, has, with_places};
ghost use Rattle.bs_logcheck.specs.Faults.{with_rows};
ghost use Rattle.bs_logcheck.specs.Searched.{first_from, first_send, first_in_row, first_in_rows};

use crate::faults::{after_fault, mail_fault, row_fault, send_fault};
use crate::place::Place;
use crate::rule::Broken;
use bs_log::{Log, Row};
use std::alloc::AllocError;
use std::collections::BTreeSet;

/// The first line of all rows that breaks a rule; line 3 is the first of them. No place is seen
/// before, and then those that all rows send to, where no line breaks a rule.
pub(crate) fn first_in_rows(
    log: &Log,
    seen: &mut BTreeSet<Place>,
) -> Result<Option<Broken>, AllocError>
    requires room { sum_by row_lines_of log.now.rows ≤ 262144 }
    ensures found { IfOk result (λ found. found ≡ first_in_rows log.now 1 None (has seen.old) 3 log.now.rows) }
    ensures seen { IfOk result (λ found. found ≡ None → has seen.new ≡ with_rows (has seen.old) log.now.rows) }
{
    let mut line: u64 = 3;
    let mut before = None;
    for (place, row) in log.rows.as_slice().iter().enumerate() {
        let number = place as u64 + 1;
        if let Some(broken) = first_in_row(log, number, before, row, line, seen)? {
            return Ok(Some(broken));
        }
        before = Some(row.chare);
        line += row_lines(row);
    }
    Ok(None)
}

/// How many lines rows take.
pub(crate) fn lines(rows: &[Row]) -> u64
    requires room { sum_by row_lines_of rows.now ≤ 262144 }
    ensures { result ≡ sum_by row_lines_of rows.now }
{
    let mut lines: u64 = 0;
    for row in rows {
        lines += row_lines(row);
    }
    lines
}

// The row itself, its causes, its values and its sends.
fn row_lines(row: &Row) -> u64
    requires room { row_lines_of row.now ≤ 262144 }
    ensures { result ≡ row_lines_of row.now }
{
    let after = row.after.as_slice().len() as u64;
    let mail = row.mail.as_slice().len() as u64;
    let emits = row.emits.as_slice().len() as u64;
    let sends = row.sends.as_slice().len() as u64;
    1 + after + mail + emits + sends
}

// The first line of the row of a number, with the chare of the row before it.
#[tactic(auto, unfolding(crate::specs::Searched::first_in_row))]
fn first_in_row(
    log: &Log,
    number: u64,
    before: Option<u32>,
    row: &Row,
    line: u64,
    seen: &mut BTreeSet<Place>,
) -> Result<Option<Broken>, AllocError>
    requires room { line + row_lines_of row.now ≤ 262147 }
    ensures found { IfOk result (λ found. found ≡ first_in_row log.now number before (has seen.old) line row.now) }
    ensures seen { IfOk result (λ found. found ≡ None → has seen.new ≡ with_places goal_of (has seen.old) row.now.sends) }
{
    if let Some(rule) = row_fault(log, before, row) {
        return Ok(Some(Broken { line, rule }));
    }
    let after = line + 1;
    if let Some(broken) = first_after(log, number, row, after) {
        return Ok(Some(broken));
    }
    let mail = after + row.after.as_slice().len() as u64;
    if let Some(broken) = first_mail(log, row, mail) {
        return Ok(Some(broken));
    }
    let emits = mail + row.mail.as_slice().len() as u64;
    let sends = emits + row.emits.as_slice().len() as u64;
    first_send(log, row, sends, seen)
}

// The first block cause of the row of a number, which begin at a line.
fn first_after(log: &Log, number: u64, row: &Row, line: u64) -> Option<Broken>
    requires room { line + length row.now.after ≤ 262147 }
    ensures { result ≡ first_from log.now line (each_line (AfterLine number row.now) None row.now.after) }
{
    let mut line = line;
    let mut before = None;
    for cause in row.after.as_slice() {
        if let Some(rule) = after_fault(log, number, row, before, *cause) {
            return Some(Broken { line, rule });
        }
        before = Some(*cause);
        line += 1;
    }
    None
}

// The first message cause of a row, which begin at a line.
fn first_mail(log: &Log, row: &Row, line: u64) -> Option<Broken>
    requires room { line + length row.now.mail ≤ 262147 }
    ensures { result ≡ first_from log.now line (each_line (MailLine row.now) None row.now.mail) }
{
    let mut line = line;
    let mut before = None;
    for cause in row.mail.as_slice() {
        if let Some(rule) = mail_fault(log, row, before, *cause) {
            return Some(Broken { line, rule });
        }
        before = Some(*cause);
        line += 1;
    }
    None
}

// The first send of a row, which begin at a line.
fn first_send(
    log: &Log,
    row: &Row,
    line: u64,
    seen: &mut BTreeSet<Place>,
) -> Result<Option<Broken>, AllocError>
    requires room { line + length row.now.sends ≤ 262147 }
    ensures found { IfOk result (λ found. found ≡ first_send log.now row.now (has seen.old) None line row.now.sends) }
    ensures seen { IfOk result (λ found. found ≡ None → has seen.new ≡ with_places goal_of (has seen.old) row.now.sends) }
{
    let mut line = line;
    let mut before = None;
    for sent in row.sends.as_slice() {
        if let Some(rule) = send_fault(log, row, seen, before, *sent)? {
            return Ok(Some(Broken { line, rule }));
        }
        before = Some(*sent);
        line += 1;
    }
    Ok(None)
}
