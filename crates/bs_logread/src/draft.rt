// A log while its lines are read.
ghost use Rattle.std.specs.Prelude.{◌≡◌, ◌++◌, None, IfOk, OnOk, option_map};
ghost use Rattle.bs_logread.specs.declared.lines.Line.TheVariants as lines;
ghost use Rattle.bs_logread.specs.Line.{bare as bare_row};
ghost use Rattle.bs_logread.specs.Draft.{last_row, with_after, taken as with_line, empty as no_line, log_of};

use crate::lines::{Head, Line};
use bs_log::{Log, MailRef, Row, Sent, TrapRow, WaitRow};
use bs_tree::List;
use std::alloc::{AllocError, Global};

/// What is known of a log. The last row isn't among the others as long as its lines are read.
#[derive(Drop)]
pub(crate) struct Draft {
    pub(crate) chares: u32,
    pub(crate) entries: u32,
    pub(crate) rows: List<Row>,
    pub(crate) current: Option<Row>,
    pub(crate) traps: List<TrapRow>,
    pub(crate) waits: List<WaitRow>,
}

/// Before the first line.
pub(crate) fn empty(alloc: Global) -> Draft
    ensures { result ≡ no_line }
{
    Draft {
        chares: 0,
        entries: 0,
        rows: List::new(alloc),
        current: None,
        traps: List::new(alloc),
        waits: List::new(alloc),
    }
}

/// Takes one more line.
pub(crate) fn take(alloc: Global, draft: &mut Draft, line: Line) -> Result<(), AllocError>
    ensures { OnOk result (draft.new ≡ with_line draft.old line) }
{
    match line {
        Line::Version | Line::End => Ok(()),
        Line::Counts(counts) => {
            draft.chares = counts.chares;
            draft.entries = counts.entries;
            Ok(())
        }
        Line::Row(head) => begin_row(alloc, draft, head),
        Line::After(row) => take_after(&mut draft.current, row),
        Line::Mail(mail) => take_mail(&mut draft.current, mail),
        Line::Emit(value) => take_emit(&mut draft.current, value),
        Line::Send(sent) => take_send(&mut draft.current, sent),
        Line::Trap(trap) => draft.traps.push(trap),
        Line::Wait(wait) => draft.waits.push(wait),
    }
}

fn begin_row(alloc: Global, draft: &mut Draft, head: Head) -> Result<(), AllocError>
    ensures { OnOk result (draft.new ≡ with_line draft.old (lines.Row head)) }
{
    close_row(draft)?;
    draft.current = Some(bare(alloc, head));
    Ok(())
}

// Puts the open row behind the others.
fn close_row(draft: &mut Draft) -> Result<(), AllocError>
    ensures { OnOk result (draft.new ≡ record draft.old { rows = draft.old.rows ++ last_row draft.old.current; current = None }) }
{
    if let Some(row) = draft.current.take() {
        draft.rows.push(row)?;
    }
    Ok(())
}

// A row without causes, values and sends.
fn bare(alloc: Global, head: Head) -> Row
    ensures { result ≡ bare_row head }
{
    Row {
        chare: head.chare,
        stmt: head.stmt,
        depth: head.depth,
        cost: head.cost,
        after: List::new(alloc),
        mail: List::new(alloc),
        emits: List::new(alloc),
        sends: List::new(alloc),
    }
}

fn take_after(current: &mut Option<Row>, cause: u32) -> Result<(), AllocError>
    ensures { OnOk result (current.new ≡ option_map (λ r. with_after r (lines.After cause)) current.old) }
{
    match current {
        Some(row) => row.after.push(cause),
        None => Ok(()),
    }
}

fn take_mail(current: &mut Option<Row>, cause: MailRef) -> Result<(), AllocError>
    ensures { OnOk result (current.new ≡ option_map (λ r. with_after r (lines.Mail cause)) current.old) }
{
    match current {
        Some(row) => row.mail.push(cause),
        None => Ok(()),
    }
}

fn take_emit(current: &mut Option<Row>, value: i64) -> Result<(), AllocError>
    ensures { OnOk result (current.new ≡ option_map (λ r. with_after r (lines.Emit value)) current.old) }
{
    match current {
        Some(row) => row.emits.push(value),
        None => Ok(()),
    }
}

fn take_send(current: &mut Option<Row>, sent: Sent) -> Result<(), AllocError>
    ensures { OnOk result (current.new ≡ option_map (λ r. with_after r (lines.Send sent)) current.old) }
{
    match current {
        Some(row) => row.sends.push(sent),
        None => Ok(()),
    }
}

/// The log of a draft.
pub(crate) fn finish(mut draft: Draft) -> Result<Log, AllocError>
    ensures { IfOk result (λ log. log ≡ log_of draft) }
{
    close_row(&mut draft)?;
    Ok(Log {
        chares: draft.chares,
        entries: draft.entries,
        rows: draft.rows,
        traps: draft.traps,
        waits: draft.waits,
    })
}
