// Copies of logs and of their rows. Each ends in want of memory, and in no other way.
ghost use Rattle.std.specs.Prelude.{◌≡◌, IfOk};

use bs_log::{Log, Row, Sent, copy_numbers};
use bs_tree::List;
use std::alloc::{AllocError, Global};

/// An equal log. The only refusal is want of memory.
pub fn copy_log(alloc: Global, log: &Log) -> Result<Log, AllocError>
    ensures { IfOk result (λ copy. copy ≡ log.now) }
{
    let rows = copy_rows(alloc, log.rows.as_slice())?;
    let copy = with_rows(alloc, log, rows)?;
    Ok(copy)
}

fn copy_rows(alloc: Global, rows: &[Row]) -> Result<List<Row>, AllocError>
    ensures { IfOk result (λ copy. copy ≡ rows.now) }
{
    let mut copy = List::new(alloc);
    for row in rows {
        let sends = Vec::from_slice(alloc, row.sends.as_slice())?;
        copy.push(with_costs(alloc, row, row.cost, List::from_vec(sends))?)?;
    }
    Ok(copy)
}

// A log with these rows in place of its own, and an equal rest.
pub(crate) fn with_rows(alloc: Global, log: &Log, rows: List<Row>) -> Result<Log, AllocError>
    ensures { IfOk result (λ copy. copy ≡ record log.now { rows = rows }) }
{
    let traps = Vec::from_slice(alloc, log.traps.as_slice())?;
    let waits = Vec::from_slice(alloc, log.waits.as_slice())?;
    Ok(Log {
        chares: log.chares,
        entries: log.entries,
        rows,
        traps: List::from_vec(traps),
        waits: List::from_vec(waits),
    })
}

// A row with this cost and these sends in place of its own, and an equal rest.
pub(crate) fn with_costs(
    alloc: Global,
    row: &Row,
    cost: u64,
    sends: List<Sent>,
) -> Result<Row, AllocError>
    ensures { IfOk result (λ copy. copy ≡ record row.now { cost = cost; sends = sends }) }
{
    let after = Vec::from_slice(alloc, row.after.as_slice())?;
    let mail = Vec::from_slice(alloc, row.mail.as_slice())?;
    let emits = copy_numbers(alloc, &row.emits)?;
    Ok(Row {
        chare: row.chare,
        stmt: row.stmt,
        depth: row.depth,
        cost,
        after: List::from_vec(after),
        mail: List::from_vec(mail),
        emits,
        sends,
    })
}
