// The text of a chain.
ghost use Rattle.std.specs.Prelude.{◌≡◌, ◌++◌, IfOk, OnOk, string_bytes};
ghost use Rattle.std.specs.List.{flat_map};
ghost use Rattle.bs_path.specs.Text.{AreThere, chain_line, chain_of, head_line, last_line, link_text, row_front, row_line};

use crate::links::{Chain, ChainRow, Link};
use bs_log::{Log, Row};
use bs_rows::row_at;
use std::alloc::{AllocError, Global};
use std::fmt::Write;

/// The text of a chain of rows of a log: a line that says how many rows it has, and the span; a line for
/// each row, with its chare and its statement, its start, its step, and how the row before leads to it; and
/// a line that says how long the last row takes (`docs/output.md`).
///
/// Rows are numbered from 1, and so are the sends of a row; chares are numbered from 0. Times are in ticks.
/// The only refusal is want of memory.
pub fn chain_text(alloc: Global, log: &Log, chain: &Chain) -> Result<Vec<u8>, AllocError>
    requires { AreThere log.now chain.now.rows }
    ensures { IfOk result (λ text. text.items ≡ chain_of log.now chain.now) }
{
    let mut text = String::new(alloc);
    write_head(&mut text, chain)?;
    write_rows(&mut text, log, chain.rows.as_slice())?;
    write_last(&mut text, chain.rest)?;
    Ok(text.into_bytes())
}

fn write_head(text: &mut String, chain: &Chain) -> Result<(), AllocError>
    ensures { OnOk result (string_bytes text.new ≡ string_bytes text.old ++ head_line chain.now) }
{
    let rows = chain.rows.as_slice().len();
    writeln!(text, "chain rows {rows} span {}", chain.span)
}

fn write_rows(text: &mut String, log: &Log, rows: &[ChainRow]) -> Result<(), AllocError>
    requires { AreThere log.now rows.now }
    ensures { OnOk result (string_bytes text.new ≡
        string_bytes text.old ++ flat_map (chain_line log.now) rows.now) }
{
    for row in rows {
        write_row(text, *row, row_at(log, row.row))?;
    }
    Ok(())
}

fn write_row(text: &mut String, row: ChainRow, of: &Row) -> Result<(), AllocError>
    ensures { OnOk result (string_bytes text.new ≡ string_bytes text.old ++ row_line row of.now) }
{
    write_front(text, row, of)?;
    write_link(text, row.link)?;
    text.push_str("\n")?;
    Ok(())
}

fn write_front(text: &mut String, row: ChainRow, of: &Row) -> Result<(), AllocError>
    ensures { OnOk result (string_bytes text.new ≡ string_bytes text.old ++ row_front row of.now) }
{
    write!(
        text,
        "row {} chare {} stmt {} start {} step {}",
        row.row, of.chare, of.stmt, row.start, row.step
    )
}

fn write_link(text: &mut String, link: Link) -> Result<(), AllocError>
    ensures { OnOk result (string_bytes text.new ≡ string_bytes text.old ++ link_text link) }
{
    match link {
        Link::First => write!(text, " first"),
        Link::Processor(row) => write!(text, " proc {row}"),
        Link::After(row) => write!(text, " after {row}"),
        Link::Mail(mail) => write!(text, " mail {} {}", mail.row, mail.index),
    }
}

fn write_last(text: &mut String, rest: u128) -> Result<(), AllocError>
    ensures { OnOk result (string_bytes text.new ≡ string_bytes text.old ++ last_line rest) }
{
    writeln!(text, "last {rest}")
}
