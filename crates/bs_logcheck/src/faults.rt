// The least rule that one line breaks.
ghost use Rattle.std.specs.Prelude.{◌≡◌, Some, None, nat_le, nat_lt, IfOk};
ghost use Rattle.bs_log.specs.ValidTest.{ref_is_lower, offset_is_up_to, trap_is_lower, wait_is_up_to};
ghost use Rattle.bs_logcheck.specs.Places.{goal_of as goal_of_send, spot_of as spot_of_wait, has, with_place};
ghost use Rattle.bs_logcheck.specs.Faults.{follows, row_refers, row_fault, after_refers, after_fault, mail_refers, mail_fault, send_refers, send_fault, trap_refers, trap_fault, wait_refers, wait_fault};

use crate::causes::{has_depth, is_block_cause, is_mail_cause};
use crate::place::{Place, goal_of, spot_of};
use crate::rule::LogRule;
use bs_log::{Log, MailRef, Row, Sent, TrapRow, WaitRow};
use std::alloc::AllocError;
use std::collections::BTreeSet;

/// A row's own line, with the chare of the row before it.
pub(crate) fn row_fault(log: &Log, before: Option<u32>, row: &Row) -> Option<LogRule>
    ensures { result ≡ row_fault log.now before row.now }
{
    if !row_refers(log, before, row) {
        return Some(LogRule::BadReference);
    }
    if !has_depth(log, row) {
        return Some(LogRule::BadDepth);
    }
    None
}

#[tactic(auto, unfolding(crate::specs::Faults::row_refers))]
fn row_refers(log: &Log, before: Option<u32>, row: &Row) -> bool
    ensures { result ≡ row_refers log.now before row.now }
{
    row.chare < log.chares && chare_follows(before, row.chare)
}

fn chare_follows(before: Option<u32>, chare: u32) -> bool
    ensures { result ≡ follows nat_le before chare }
{
    match before {
        Some(last) => last <= chare,
        None => true,
    }
}

/// A block cause of the row of a number, with the one before it in this row.
pub(crate) fn after_fault(
    log: &Log,
    number: u64,
    row: &Row,
    before: Option<u32>,
    cause: u32,
) -> Option<LogRule>
    ensures { result ≡ after_fault log.now number row.now before cause }
{
    if !after_refers(log, number, row, before, cause) {
        return Some(LogRule::BadReference);
    }
    None
}

#[tactic(auto, unfolding(crate::specs::Faults::after_refers))]
fn after_refers(log: &Log, number: u64, row: &Row, before: Option<u32>, cause: u32) -> bool
    ensures { result ≡ after_refers log.now number row.now before cause }
{
    is_block_cause(log, number, row.chare, cause) && cause_follows(before, cause)
}

fn cause_follows(before: Option<u32>, cause: u32) -> bool
    ensures { result ≡ follows nat_lt before cause }
{
    match before {
        Some(last) => last < cause,
        None => true,
    }
}

/// A message cause of a row, with the one before it in this row.
pub(crate) fn mail_fault(
    log: &Log,
    row: &Row,
    before: Option<MailRef>,
    cause: MailRef,
) -> Option<LogRule>
    ensures { result ≡ mail_fault log.now row.now before cause }
{
    if !mail_refers(log, row, before, cause) {
        return Some(LogRule::BadReference);
    }
    None
}

#[tactic(auto, unfolding(crate::specs::Faults::mail_refers))]
fn mail_refers(log: &Log, row: &Row, before: Option<MailRef>, cause: MailRef) -> bool
    ensures { result ≡ mail_refers log.now row.now before cause }
{
    is_mail_cause(log, row.chare, cause) && mail_follows(before, cause)
}

fn mail_follows(before: Option<MailRef>, cause: MailRef) -> bool
    ensures { result ≡ follows ref_is_lower before cause }
{
    match before {
        Some(last) => last.row < cause.row || last.row == cause.row && last.index < cause.index,
        None => true,
    }
}

/// A send of a row, with the one before it in this row. These are the places of earlier sends, and
/// then this one's with them where it breaks no rule.
pub(crate) fn send_fault(
    log: &Log,
    row: &Row,
    seen: &mut BTreeSet<Place>,
    before: Option<Sent>,
    sent: Sent,
) -> Result<Option<LogRule>, AllocError>
    ensures rule { IfOk result (λ rule. rule ≡ send_fault log.now row.now (has seen.old) before sent) }
    ensures seen { IfOk result (λ rule. rule ≡ None → has seen.new ≡ with_place (has seen.old) (goal_of_send sent)) }
{
    if !send_refers(log, row, before, sent) {
        return Ok(Some(LogRule::BadReference));
    }
    if !seen.insert(goal_of(sent))? {
        return Ok(Some(LogRule::TwiceUsed));
    }
    Ok(None)
}

#[tactic(auto, unfolding(crate::specs::Faults::send_refers))]
fn send_refers(log: &Log, row: &Row, before: Option<Sent>, sent: Sent) -> bool
    ensures { result ≡ send_refers log.now row.now before sent }
{
    sent.to < log.chares
        && sent.key.entry < log.entries
        && offset_follows(before, sent)
        && sent.offset <= row.cost
}

fn offset_follows(before: Option<Sent>, sent: Sent) -> bool
    ensures { result ≡ follows offset_is_up_to before sent }
{
    match before {
        Some(last) => last.offset <= sent.offset,
        None => true,
    }
}

/// A trap, with the one before it.
pub(crate) fn trap_fault(log: &Log, before: Option<TrapRow>, trap: TrapRow) -> Option<LogRule>
    ensures { result ≡ trap_fault log.now before trap }
{
    if !trap_refers(log, before, trap) {
        return Some(LogRule::BadReference);
    }
    None
}

#[tactic(auto, unfolding(crate::specs::Faults::trap_refers))]
fn trap_refers(log: &Log, before: Option<TrapRow>, trap: TrapRow) -> bool
    ensures { result ≡ trap_refers log.now before trap }
{
    trap.chare < log.chares && trap_follows(before, trap)
}

fn trap_follows(before: Option<TrapRow>, trap: TrapRow) -> bool
    ensures { result ≡ follows trap_is_lower before trap }
{
    match before {
        Some(last) => last.chare < trap.chare || last.chare == trap.chare && last.stmt < trap.stmt,
        None => true,
    }
}

/// A wait, with the one before it, where these are the places that rows send to. The others are the
/// places of earlier waits, and then this one's with them where it breaks no rule.
pub(crate) fn wait_fault(
    log: &Log,
    sent: &BTreeSet<Place>,
    seen: &mut BTreeSet<Place>,
    before: Option<WaitRow>,
    wait: WaitRow,
) -> Result<Option<LogRule>, AllocError>
    ensures rule { IfOk result (λ rule. rule ≡ wait_fault log.now (has sent.now) (has seen.old) before wait) }
    ensures seen { IfOk result (λ rule. rule ≡ None → has seen.new ≡ with_place (has seen.old) (spot_of_wait wait)) }
{
    if !wait_refers(log, sent, before, wait) {
        return Ok(Some(LogRule::BadReference));
    }
    if !seen.insert(spot_of(wait))? {
        return Ok(Some(LogRule::TwiceUsed));
    }
    Ok(None)
}

#[tactic(auto, unfolding(crate::specs::Faults::wait_refers))]
fn wait_refers(log: &Log, sent: &BTreeSet<Place>, before: Option<WaitRow>, wait: WaitRow) -> bool
    ensures { result ≡ wait_refers log.now (has sent.now) before wait }
{
    wait.chare < log.chares
        && wait.key.entry < log.entries
        && wait_follows(before, wait)
        && !sent.contains(&spot_of(wait))
}

fn wait_follows(before: Option<WaitRow>, wait: WaitRow) -> bool
    ensures { result ≡ follows wait_is_up_to before wait }
{
    match before {
        Some(last) => last.chare < wait.chare || last.chare == wait.chare && last.stmt <= wait.stmt,
        None => true,
    }
}
