// What the causes of a row name.
ghost use Rattle.std.specs.Prelude.{◌≡◌, ◌+◌, ◌==◌, option_map};
ghost use Rattle.bs_log.specs.Valid.{numbered, row_depth, deepest};
ghost use Rattle.bs_log.specs.ValidTest.{passes_one, is_of_chare, is_block_cause, goes_to, sends_to, is_mail_cause};

use bs_log::{Log, MailRef, Row, Sent};

/// Whether a block cause of the row of a number is an earlier row of the same chare.
#[tactic(auto, unfolding(bs_log::specs::ValidTest::is_block_cause))]
pub(crate) fn is_block_cause(log: &Log, number: u64, chare: u32, cause: u32) -> bool
    ensures { result ≡ is_block_cause log.now number chare cause }
{
    u64::from(cause) < number && is_of_chare(log, cause, chare)
}

// Whether there is a row of this number, and it is of this chare.
fn is_of_chare(log: &Log, number: u32, chare: u32) -> bool
    ensures { result ≡ passes_one (is_of_chare chare) (numbered log.now.rows number) }
{
    match numbered_row(log, number) {
        Some(row) => row.chare == chare,
        None => false,
    }
}

/// Whether a message cause is a send of some row to this chare.
#[tactic(auto, unfolding(bs_log::specs::ValidTest::is_mail_cause))]
pub(crate) fn is_mail_cause(log: &Log, chare: u32, cause: MailRef) -> bool
    ensures { result ≡ is_mail_cause log.now chare cause }
{
    match numbered_row(log, cause.row) {
        Some(row) => sends_to(row, chare, cause.index),
        None => false,
    }
}

fn sends_to(row: &Row, chare: u32, index: u32) -> bool
    ensures { result ≡ sends_to chare index row.now }
{
    match numbered_send(row, index) {
        Some(sent) => sent.to == chare,
        None => false,
    }
}

/// Whether the depth of a row is 1 more than the greatest depth of the rows that its causes name, or
/// 1 where they name none.
pub(crate) fn has_depth(log: &Log, row: &Row) -> bool
    ensures { result ≡ (row.now.depth == deepest log.now row.now + 1) }
{
    u64::from(row.depth) == u64::from(deepest(log, row)) + 1
}

// The greatest depth of the rows that the causes of a row name.
fn deepest(log: &Log, row: &Row) -> u32
    ensures { result ≡ deepest log.now row.now }
{
    let after = row.after.as_slice();
    let mail = row.mail.as_slice();
    let blocks = after
        .iter()
        .fold(0, |depth, cause| depth.max(depth_of(log, *cause)));
    mail.iter()
        .fold(blocks, |depth, cause| depth.max(depth_of(log, cause.row)))
}

// The depth of the row of a number, or 0 where there is none.
fn depth_of(log: &Log, number: u32) -> u32
    ensures { result ≡ row_depth (numbered log.now.rows number) }
{
    match numbered_row(log, number) {
        Some(row) => row.depth,
        None => 0,
    }
}

// The row of a number, counted from 1.
fn numbered_row(log: &Log, number: u32) -> Option<&Row>
    ensures { option_map (λ row. row.now) result ≡ numbered log.now.rows number }
{
    let place = number.checked_sub(1)?;
    log.rows.as_slice().get(place as usize)
}

// The send of a number, counted from 1.
fn numbered_send(row: &Row, number: u32) -> Option<&Sent>
    ensures { option_map (λ sent. sent.now) result ≡ numbered row.now.sends number }
{
    let place = number.checked_sub(1)?;
    row.sends.as_slice().get(place as usize)
}
