// From the bytes of a line to what it says.
ghost use Rattle.std.specs.Prelude.{◌≡◌, ◌≤◌};
ghost use Rattle.bs_logread.specs.Spelled.{kind_of, counts_of, row_of, after_of, mail_of, emit_of, send_of, trap_of, wait_of, line_of};

use crate::lines::{Counts, Head, Line};
use crate::words::{
    behind, number_before, number_of, signed_before, signed_of, small_before, small_of,
};
use bs_log::{Key, MailRef, Sent, TrapKind, TrapRow, WaitRow};

// The greatest number that has no narrower range.
const GREATEST: u32 = 4_294_967_295;

const STMTS: u32 = 10_000;

const DEPTHS: u32 = 262_144;

// The greatest cost of a block, and so the greatest offset of a send.
const COSTS: u64 = 4_294_967_296;

const BYTES: u64 = 1_073_741_824;

/// The line whose bytes, without its line feed, these are. There is none exactly where the bytes spell
/// no line, or one with a number out of its range.
#[tactic(auto, unfolding(crate::specs::Spelled::line_of))]
pub(crate) fn line_of(text: &[u8]) -> Option<Line>
    ensures { result ≡ line_of text.now }
{
    if let Some(rest) = behind(b"row ", text) {
        row_of(rest)
    } else if let Some(rest) = behind(b"after ", text) {
        after_of(rest)
    } else if let Some(rest) = behind(b"mail ", text) {
        mail_of(rest)
    } else if let Some(rest) = behind(b"emit ", text) {
        emit_of(rest)
    } else if let Some(rest) = behind(b"send ", text) {
        send_of(rest)
    } else if let Some(rest) = behind(b"trap ", text) {
        trap_of(rest)
    } else if let Some(rest) = behind(b"wait ", text) {
        wait_of(rest)
    } else if let Some(rest) = behind(b"chares ", text) {
        counts_of(rest)
    } else if let Some(rest) = behind(b"bslog 1", text) {
        if rest.is_empty() {
            Some(Line::Version)
        } else {
            None
        }
    } else if let Some([]) = behind(b"end", text) {
        Some(Line::End)
    } else {
        None
    }
}

#[tactic(auto, unfolding(crate::specs::Spelled::counts_of))]
fn counts_of(text: &[u8]) -> Option<Line>
    ensures { result ≡ counts_of text.now }
{
    let (chares, text) = small_before(0, GREATEST, text)?;
    let text = behind(b"entries ", text)?;
    let (entries, text) = small_before(0, GREATEST, text)?;
    let text = behind(b"rows ", text)?;
    let rows = small_of(0, GREATEST, text)?;
    Some(Line::Counts(Counts {
        chares,
        entries,
        rows,
    }))
}

#[tactic(auto, unfolding(crate::specs::Spelled::row_of))]
fn row_of(text: &[u8]) -> Option<Line>
    ensures { result ≡ row_of text.now }
{
    let (chare, text) = small_before(0, GREATEST, text)?;
    let (stmt, text) = small_before(1, STMTS, text)?;
    let (depth, text) = small_before(1, DEPTHS, text)?;
    let cost = number_of(1, COSTS, text)?;
    Some(Line::Row(Head {
        chare,
        stmt,
        depth,
        cost,
    }))
}

#[tactic(auto, unfolding(crate::specs::Spelled::after_of))]
fn after_of(text: &[u8]) -> Option<Line>
    ensures { result ≡ after_of text.now }
{
    let row = small_of(0, GREATEST, text)?;
    Some(Line::After(row))
}

#[tactic(auto, unfolding(crate::specs::Spelled::mail_of))]
fn mail_of(text: &[u8]) -> Option<Line>
    ensures { result ≡ mail_of text.now }
{
    let (row, text) = small_before(0, GREATEST, text)?;
    let index = small_of(0, GREATEST, text)?;
    Some(Line::Mail(MailRef { row, index }))
}

#[tactic(auto, unfolding(crate::specs::Spelled::emit_of))]
fn emit_of(text: &[u8]) -> Option<Line>
    ensures { result ≡ emit_of text.now }
{
    let value = signed_of(text)?;
    Some(Line::Emit(value))
}

#[tactic(auto, unfolding(crate::specs::Spelled::send_of))]
fn send_of(text: &[u8]) -> Option<Line>
    ensures { result ≡ send_of text.now }
{
    let (to, text) = small_before(0, GREATEST, text)?;
    let (entry, text) = small_before(0, GREATEST, text)?;
    let (reference, text) = signed_before(text)?;
    let (bytes, text) = number_before(0, BYTES, text)?;
    let offset = number_of(1, COSTS, text)?;
    let key = Key { entry, reference };
    Some(Line::Send(Sent {
        to,
        key,
        bytes,
        offset,
    }))
}

#[tactic(auto, unfolding(crate::specs::Spelled::trap_of))]
fn trap_of(text: &[u8]) -> Option<Line>
    ensures { result ≡ trap_of text.now }
{
    let (chare, text) = small_before(0, GREATEST, text)?;
    let (stmt, text) = small_before(1, STMTS, text)?;
    let kind = kind_of(number_of(1, 8, text)?);
    Some(Line::Trap(TrapRow { chare, stmt, kind }))
}

// The reason to stop of a number from 1 to 8.
fn kind_of(number: u64) -> TrapKind
    ensures { result ≡ kind_of number }
{
    match number {
        1 => TrapKind::Overflow,
        2 => TrapKind::ZeroDivisor,
        3 => TrapKind::Index,
        4 => TrapKind::Target,
        5 => TrapKind::WorkRange,
        6 => TrapKind::BytesRange,
        7 => TrapKind::CostRange,
        _ => TrapKind::Steps,
    }
}

#[tactic(auto, unfolding(crate::specs::Spelled::wait_of))]
fn wait_of(text: &[u8]) -> Option<Line>
    ensures { result ≡ wait_of text.now }
{
    let (chare, text) = small_before(0, GREATEST, text)?;
    let (stmt, text) = small_before(1, STMTS, text)?;
    let (entry, text) = small_before(0, GREATEST, text)?;
    let reference = signed_of(text)?;
    let key = Key { entry, reference };
    Some(Line::Wait(WaitRow { chare, stmt, key }))
}
