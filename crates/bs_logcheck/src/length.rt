// How long the text of a log is.
ghost use Rattle.std.specs.Prelude.{◌≡◌, ◌≤◌, ◌-◌, ◌^◌, ◌↔◌, IsTrue, min, sum_by};
ghost use Rattle.bs_log.specs.Valid.{row_lines, lines_of};

use bs_log::{Log, Row};

/// Whether a log has at most 262,144 lines beside the first two and the last. A log that was read from
/// a text always has; for any other one it is what `first_broken` and `is_sound` ask of their caller.
pub fn is_short(log: &Log) -> bool
    ensures { IsTrue result ↔ (lines_of log.now ≤ 262144) }
{
    lines(log) <= 262_144
}

// How many lines there are beside the first two and the last, or 2^64 - 1 where there are more.
fn lines(log: &Log) -> u64
    ensures { result ≡ min (lines_of log.now) (2 ^ 64 - 1) }
{
    let traps = log.traps.as_slice().len() as u64;
    let waits = log.waits.as_slice().len() as u64;
    rows_lines(log.rows.as_slice())
        .saturating_add(traps)
        .saturating_add(waits)
}

fn rows_lines(rows: &[Row]) -> u64
    ensures { result ≡ min (sum_by row_lines rows.now) (2 ^ 64 - 1) }
{
    let mut lines: u64 = 0;
    for row in rows {
        lines = lines.saturating_add(row_lines(row));
    }
    lines
}

// The row itself, its causes, its values and its sends.
fn row_lines(row: &Row) -> u64
    ensures { result ≡ min (row_lines row.now) (2 ^ 64 - 1) }
{
    let after = row.after.as_slice().len() as u64;
    let mail = row.mail.as_slice().len() as u64;
    let emits = row.emits.as_slice().len() as u64;
    let sends = row.sends.as_slice().len() as u64;
    let causes = after.saturating_add(mail);
    causes
        .saturating_add(emits)
        .saturating_add(sends)
        .saturating_add(1)
}
