// Whether a log is valid.
ghost use Rattle.std.specs.Prelude.{◌≡◌, ◌+◌, ◌-◌, ◌^◌, ◌<◌, ◌↔◌, IsTrue, nat_lt, min, option_map, sum_by};
ghost use Rattle.std.specs.List.{list_all, fold};
ghost use Rattle.bs_log.specs.Valid.{IsValid, numbered, row_depth, deepest, row_lines, lines_of, one_send, one_wait, is_awaited};
ghost use Rattle.bs_log.specs.ValidTest.{passes_one, is_word, is_from, chain, is_in_range, send_fits, is_of_chare, is_block_cause, goes_to, sends_to, is_mail_cause, ref_is_lower, offset_is_up_to, causes_fit, row_fits, rows_fit, trap_fits, awaited_by, times_awaited, wait_fits, chare_is_up_to, trap_is_lower, wait_is_up_to, alike_by, times_alike, is_sent_once, row_sends_once, is_awaited_once, has_room, is_in_order, all_fit, keys_are_apart, passes};

use crate::history::Sent;
use crate::log::{Log, MailRef, Row, TrapRow, WaitRow};
use crate::messages::same_key;

/// Whether a log keeps all rules of the log's text, so that it can be written and predicted. It takes
/// no memory.
///
/// There are 1 to 65,536 chares and at most 1,000 entries, and the rows, causes, values, sends, traps
/// and waits together are at most 262,144. Statements are 1 to 10,000, depths 1 to 262,144, costs and
/// offsets 1 to 2^32, and bytes at most 2^30. Chares and targets are below the number of chares, and
/// entries below that of entries. The chares of rows don't fall, the traps rise by (chare, statement),
/// and the waits don't fall by it.
///
/// A block cause of a row is an earlier row of the same chare; a message cause is a send of some row
/// to this chare. Both rise. The depth of a row is 1 more than the greatest depth of the rows that its
/// causes name. The offsets of its sends don't fall, and are at most its cost. No key is sent to a
/// chare or waited for there twice, or both sent and waited for.
///
/// Since it takes no memory, it has no map of keys: it compares each send and each wait with each
/// other one.
pub fn valid(log: &Log) -> bool
    ensures { IsTrue result ↔ IsValid log.now }
{
    passes(log)
}

#[tactic(auto, unfolding(crate::specs::ValidTest::passes))]
fn passes(log: &Log) -> bool
    ensures { result ≡ passes log.now }
{
    has_room(log) && is_in_order(log) && all_fit(log) && keys_are_apart(log)
}

#[tactic(auto, unfolding(crate::specs::ValidTest::has_room))]
fn has_room(log: &Log) -> bool
    ensures { result ≡ has_room log.now }
{
    is_from(1, 65_536, u64::from(log.chares)) && log.entries <= 1_000 && lines(log) <= 262_144
}

fn is_from(least: u64, most: u64, number: u64) -> bool
    ensures { result ≡ is_from least most number }
{
    least <= number && number <= most
}

// How many lines there are beside the first two and the last, or 2^64 - 1 where there are more.
fn lines(log: &Log) -> u64
    ensures { result ≡ min (lines_of log.now) (2 ^ 64 - 1) }
{
    let traps = log.traps.as_slice().len() as u64;
    let waits = log.waits.as_slice().len() as u64;
    rows_lines(log.rows.as_slice())
        .saturating_add(traps)
        .saturating_add(waits)
}

fn rows_lines(rows: &[Row]) -> u64
    ensures { result ≡ min (sum_by row_lines rows.now) (2 ^ 64 - 1) }
{
    let mut lines: u64 = 0;
    for row in rows {
        lines = lines.saturating_add(row_lines(row));
    }
    lines
}

// The row itself, its causes, its values and its sends.
fn row_lines(row: &Row) -> u64
    ensures { result ≡ min (row_lines row.now) (2 ^ 64 - 1) }
{
    let after = row.after.as_slice().len() as u64;
    let mail = row.mail.as_slice().len() as u64;
    let emits = row.emits.as_slice().len() as u64;
    let sends = row.sends.as_slice().len() as u64;
    let causes = after.saturating_add(mail);
    causes
        .saturating_add(emits)
        .saturating_add(sends)
        .saturating_add(1)
}

#[tactic(auto, unfolding(crate::specs::ValidTest::is_in_order))]
fn is_in_order(log: &Log) -> bool
    ensures { result ≡ is_in_order log.now }
{
    chares_rise(log.rows.as_slice())
        && traps_rise(log.traps.as_slice())
        && waits_rise(log.waits.as_slice())
}

fn chares_rise(rows: &[Row]) -> bool
    ensures { result ≡ chain chare_is_up_to rows.now }
{
    rows.is_sorted_by(|a, b| a.chare <= b.chare)
}

fn traps_rise(traps: &[TrapRow]) -> bool
    ensures { result ≡ chain trap_is_lower traps.now }
{
    traps.is_sorted_by(|a, b| a.chare < b.chare || a.chare == b.chare && a.stmt < b.stmt)
}

fn waits_rise(waits: &[WaitRow]) -> bool
    ensures { result ≡ chain wait_is_up_to waits.now }
{
    waits.is_sorted_by(|a, b| a.chare < b.chare || a.chare == b.chare && a.stmt <= b.stmt)
}

#[tactic(auto, unfolding(crate::specs::ValidTest::all_fit))]
fn all_fit(log: &Log) -> bool
    ensures { result ≡ all_fit log.now }
{
    rows_fit(log) && traps_fit(log) && waits_fit(log)
}

#[tactic(auto, unfolding(crate::specs::ValidTest::rows_fit))]
fn rows_fit(log: &Log) -> bool
    ensures { result ≡ rows_fit log.now 1 log.now.rows }
{
    for (place, row) in log.rows.as_slice().iter().enumerate() {
        if !row_fits(log, place as u64 + 1, row) {
            return false;
        }
    }
    true
}

#[tactic(auto, unfolding(crate::specs::ValidTest::row_fits))]
fn row_fits(log: &Log, number: u64, row: &Row) -> bool
    ensures { result ≡ row_fits log.now number row.now }
{
    is_in_range(row)
        && row.chare < log.chares
        && causes_fit(log, number, row)
        && sends_fit(log, row)
        && offsets_rise(row.sends.as_slice())
}

#[tactic(auto, unfolding(crate::specs::ValidTest::is_in_range))]
fn is_in_range(row: &Row) -> bool
    ensures { result ≡ is_in_range row.now }
{
    is_from(1, 10_000, u64::from(row.stmt))
        && is_from(1, 262_144, u64::from(row.depth))
        && is_from(1, 1 << 32, row.cost)
        && are_words(row.emits.as_slice())
}

fn are_words(values: &[i64]) -> bool
    ensures { result ≡ list_all is_word values.now }
{
    values.iter().all(|value| is_word(*value))
}

// Every number of this type has 64 bits, so there is nothing to test.
fn is_word(_value: i64) -> bool
    ensures { result ≡ is_word _value }
{
    true
}

#[tactic(auto, unfolding(crate::specs::ValidTest::causes_fit))]
fn causes_fit(log: &Log, number: u64, row: &Row) -> bool
    ensures { result ≡ causes_fit log.now number row.now }
{
    block_causes_fit(log, number, row)
        && mail_causes_fit(log, row)
        && numbers_rise(row.after.as_slice())
        && refs_rise(row.mail.as_slice())
        && u64::from(row.depth) == u64::from(deepest(log, row)) + 1
}

fn block_causes_fit(log: &Log, number: u64, row: &Row) -> bool
    ensures { result ≡ list_all (is_block_cause log.now number row.now.chare) row.now.after }
{
    let after = row.after.as_slice();
    after
        .iter()
        .all(|cause| is_block_cause(log, number, row.chare, *cause))
}

#[tactic(auto, unfolding(crate::specs::ValidTest::is_block_cause))]
fn is_block_cause(log: &Log, number: u64, chare: u32, cause: u32) -> bool
    ensures { result ≡ is_block_cause log.now number chare cause }
{
    u64::from(cause) < number && is_of_chare(log, cause, chare)
}

// Whether there is a row of this number, and it is of this chare.
fn is_of_chare(log: &Log, number: u32, chare: u32) -> bool
    ensures { result ≡ passes_one (is_of_chare chare) (numbered log.now.rows number) }
{
    match numbered_row(log, number) {
        Some(row) => row.chare == chare,
        None => false,
    }
}

// The row of a number, counted from 1.
fn numbered_row(log: &Log, number: u32) -> Option<&Row>
    ensures { option_map (λ row. row.now) result ≡ numbered log.now.rows number }
{
    let place = number.checked_sub(1)?;
    log.rows.as_slice().get(place as usize)
}

fn mail_causes_fit(log: &Log, row: &Row) -> bool
    ensures { result ≡ list_all (is_mail_cause log.now row.now.chare) row.now.mail }
{
    let mail = row.mail.as_slice();
    mail.iter()
        .all(|cause| is_mail_cause(log, row.chare, *cause))
}

#[tactic(auto, unfolding(crate::specs::ValidTest::is_mail_cause))]
fn is_mail_cause(log: &Log, chare: u32, cause: MailRef) -> bool
    ensures { result ≡ is_mail_cause log.now chare cause }
{
    match numbered_row(log, cause.row) {
        Some(row) => sends_to(row, chare, cause.index),
        None => false,
    }
}

fn sends_to(row: &Row, chare: u32, index: u32) -> bool
    ensures { result ≡ sends_to chare index row.now }
{
    match numbered_send(row, index) {
        Some(sent) => sent.to == chare,
        None => false,
    }
}

// The send of a number, counted from 1.
fn numbered_send(row: &Row, number: u32) -> Option<&Sent>
    ensures { option_map (λ sent. sent.now) result ≡ numbered row.now.sends number }
{
    let place = number.checked_sub(1)?;
    row.sends.as_slice().get(place as usize)
}

fn numbers_rise(numbers: &[u32]) -> bool
    ensures { result ≡ chain nat_lt numbers.now }
{
    numbers.is_sorted_by(|a, b| a < b)
}

fn refs_rise(refs: &[MailRef]) -> bool
    ensures { result ≡ chain ref_is_lower refs.now }
{
    refs.is_sorted_by(|a, b| a.row < b.row || a.row == b.row && a.index < b.index)
}

// The greatest depth of the rows that the causes of a row name.
fn deepest(log: &Log, row: &Row) -> u32
    ensures { result ≡ deepest log.now row.now }
{
    let after = row.after.as_slice();
    let mail = row.mail.as_slice();
    let blocks = after
        .iter()
        .fold(0, |depth, cause| depth.max(depth_of(log, *cause)));
    mail.iter()
        .fold(blocks, |depth, cause| depth.max(depth_of(log, cause.row)))
}

// The depth of the row of a number, or 0 where there is none.
fn depth_of(log: &Log, number: u32) -> u32
    ensures { result ≡ row_depth (numbered log.now.rows number) }
{
    match numbered_row(log, number) {
        Some(row) => row.depth,
        None => 0,
    }
}

fn sends_fit(log: &Log, row: &Row) -> bool
    ensures { result ≡ list_all (send_fits log.now row.now.cost) row.now.sends }
{
    let sends = row.sends.as_slice();
    sends.iter().all(|sent| send_fits(log, row.cost, *sent))
}

#[tactic(auto, unfolding(crate::specs::ValidTest::send_fits))]
fn send_fits(log: &Log, cost: u64, sent: Sent) -> bool
    ensures { result ≡ send_fits log.now cost sent }
{
    sent.to < log.chares
        && sent.key.entry < log.entries
        && is_word(sent.key.reference)
        && sent.bytes <= 1 << 30
        && is_from(1, 1 << 32, sent.offset)
        && sent.offset <= cost
}

fn offsets_rise(sends: &[Sent]) -> bool
    ensures { result ≡ chain offset_is_up_to sends.now }
{
    sends.is_sorted_by(|a, b| a.offset <= b.offset)
}

fn traps_fit(log: &Log) -> bool
    ensures { result ≡ list_all (trap_fits log.now) log.now.traps }
{
    let traps = log.traps.as_slice();
    traps.iter().all(|trap| trap_fits(log, *trap))
}

fn trap_fits(log: &Log, trap: TrapRow) -> bool
    ensures { result ≡ trap_fits log.now trap }
{
    trap.chare < log.chares && is_from(1, 10_000, u64::from(trap.stmt))
}

fn waits_fit(log: &Log) -> bool
    ensures { result ≡ list_all (wait_fits log.now) log.now.waits }
{
    let waits = log.waits.as_slice();
    waits.iter().all(|wait| wait_fits(log, *wait))
}

#[tactic(auto, unfolding(crate::specs::ValidTest::wait_fits))]
fn wait_fits(log: &Log, wait: WaitRow) -> bool
    ensures { result ≡ wait_fits log.now wait }
{
    wait.chare < log.chares
        && is_from(1, 10_000, u64::from(wait.stmt))
        && wait.key.entry < log.entries
        && is_word(wait.key.reference)
        && times_awaited(log.rows.as_slice(), wait) == 0
}

// How many sends a wait waits for, or 2^64 - 1 where there are more.
fn times_awaited(rows: &[Row], wait: WaitRow) -> u64
    ensures { result ≡ min (times_awaited wait rows.now) (2 ^ 64 - 1) }
{
    let mut times: u64 = 0;
    for row in rows {
        times = times.saturating_add(awaited_by(row, wait));
    }
    times
}

fn awaited_by(row: &Row, wait: WaitRow) -> u64
    ensures { result ≡ awaited_by wait row.now }
{
    let sends = row.sends.as_slice();
    sends.iter().filter(|sent| is_awaited(wait, **sent)).count() as u64
}

fn is_awaited(wait: WaitRow, sent: Sent) -> bool
    ensures { result ≡ is_awaited wait sent }
{
    sent.to == wait.chare && same_key(sent.key, wait.key)
}

#[tactic(auto, unfolding(crate::specs::ValidTest::keys_are_apart))]
fn keys_are_apart(log: &Log) -> bool
    ensures { result ≡ keys_are_apart log.now }
{
    all_sent_once(log.rows.as_slice()) && all_awaited_once(log.waits.as_slice())
}

fn all_sent_once(rows: &[Row]) -> bool
    ensures { result ≡ list_all (row_sends_once rows.now) rows.now }
{
    rows.iter().all(|row| row_sends_once(rows, row))
}

fn row_sends_once(rows: &[Row], row: &Row) -> bool
    ensures { result ≡ row_sends_once rows.now row.now }
{
    let sends = row.sends.as_slice();
    sends.iter().all(|sent| is_sent_once(rows, *sent))
}

fn is_sent_once(rows: &[Row], sent: Sent) -> bool
    ensures { result ≡ is_sent_once rows.now sent }
{
    times_alike(rows, sent) <= 1
}

// How many sends have the target and the key of this one, or 2^64 - 1 where there are more.
fn times_alike(rows: &[Row], sent: Sent) -> u64
    ensures { result ≡ min (times_alike sent rows.now) (2 ^ 64 - 1) }
{
    let mut times: u64 = 0;
    for row in rows {
        times = times.saturating_add(alike_by(row, sent));
    }
    times
}

fn alike_by(row: &Row, sent: Sent) -> u64
    ensures { result ≡ alike_by sent row.now }
{
    let sends = row.sends.as_slice();
    sends.iter().filter(|other| one_send(sent, **other)).count() as u64
}

// Whether two sends have one target and one key.
fn one_send(first: Sent, second: Sent) -> bool
    ensures { result ≡ one_send first second }
{
    second.to == first.to && same_key(second.key, first.key)
}

fn all_awaited_once(waits: &[WaitRow]) -> bool
    ensures { result ≡ list_all (is_awaited_once waits.now) waits.now }
{
    waits.iter().all(|wait| is_awaited_once(waits, *wait))
}

fn is_awaited_once(waits: &[WaitRow], wait: WaitRow) -> bool
    ensures { result ≡ is_awaited_once waits.now wait }
{
    let alike = waits.iter().filter(|other| one_wait(wait, **other));
    alike.count() <= 1
}

// Whether two waits are of one chare and one key.
fn one_wait(first: WaitRow, second: WaitRow) -> bool
    ensures { result ≡ one_wait first second }
{
    second.chare == first.chare && same_key(second.key, first.key)
}
