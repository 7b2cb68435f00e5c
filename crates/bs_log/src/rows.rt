// The rows of a log, made from the blocks of histories.
ghost use Rattle.std.specs.Prelude.{◌≡◌, ◌≤◌, ◌++◌, length, map, IfOk, OnOk};
ghost use Rattle.bs_log.specs.Collected.{number_of, mail_ref, row_of, rows_from};
ghost use Rattle.bs_log.specs.Linked.{AllHave, AllCame, IsLinked, AreLinked, AllLinked, IsNumbering};

use crate::history::{Block, History, Message, Origin, Sent};
use crate::log::{MailRef, Row};
use crate::numbering::number;
use bs_tree::{List, Path};
use std::alloc::{AllocError, Global};

/// The rows of all histories.
pub(crate) fn rows(
    alloc: Global,
    histories: &[History],
    firsts: &[u32],
) -> Result<List<Row>, AllocError>
    requires few { length histories.now ≤ 65536 }
    requires numbering { IsNumbering histories.now firsts.now }
    requires linked { AllLinked histories.now 0 histories.now }
    ensures { IfOk result (λ rows. rows ≡ rows_from histories.now 0 histories.now) }
{
    let mut rows = List::new(alloc);
    for (chare, history) in histories.iter().enumerate() {
        push_rows(
            alloc,
            &mut rows,
            histories,
            firsts,
            chare as u32,
            history.blocks.as_slice(),
        )?;
    }
    Ok(rows)
}

// The rows of one chare.
fn push_rows(
    alloc: Global,
    rows: &mut List<Row>,
    histories: &[History],
    firsts: &[u32],
    chare: u32,
    blocks: &[Block],
) -> Result<(), AllocError>
    requires numbering { IsNumbering histories.now firsts.now }
    requires linked { AreLinked histories.now chare blocks.now }
    ensures { OnOk result (rows.new ≡ rows.old ++ map (row_of histories.now chare) blocks.now) }
{
    for block in blocks {
        rows.push(row(alloc, histories, firsts, chare, block)?)?;
    }
    Ok(())
}

#[tactic(auto, unfolding(crate::specs::Collected::row_of))]
fn row(
    alloc: Global,
    histories: &[History],
    firsts: &[u32],
    chare: u32,
    block: &Block,
) -> Result<Row, AllocError>
    requires numbering { IsNumbering histories.now firsts.now }
    requires linked { IsLinked histories.now chare block.now }
    ensures { IfOk result (λ row. row ≡ row_of histories.now chare block.now) }
{
    let after = numbers(alloc, histories, firsts, chare, block.after.as_slice())?;
    let mail = mail_refs(alloc, histories, firsts, block.mail.as_slice())?;
    let emits = values(alloc, block.emits.as_slice())?;
    let sends = sents(alloc, block.sends.as_slice())?;
    Ok(Row {
        chare,
        stmt: block.stmt,
        depth: block.depth,
        cost: block.cost,
        after,
        mail,
        emits,
        sends,
    })
}

// The rows of blocks of one chare.
fn numbers(
    alloc: Global,
    histories: &[History],
    firsts: &[u32],
    chare: u32,
    paths: &[Path],
) -> Result<List<u32>, AllocError>
    requires numbering { IsNumbering histories.now firsts.now }
    requires linked { AllHave histories.now chare paths.now }
    ensures { IfOk result (λ numbers. numbers ≡ map (number_of histories.now chare) paths.now) }
{
    let mut numbers = List::new(alloc);
    for path in paths {
        numbers.push(number(histories, firsts, chare, path))?;
    }
    Ok(numbers)
}

// Messages, by the rows that sent them.
fn mail_refs(
    alloc: Global,
    histories: &[History],
    firsts: &[u32],
    origins: &[Origin],
) -> Result<List<MailRef>, AllocError>
    requires numbering { IsNumbering histories.now firsts.now }
    requires linked { AllCame histories.now origins.now }
    ensures { IfOk result (λ refs. refs ≡ map (mail_ref histories.now) origins.now) }
{
    let mut refs = List::new(alloc);
    for origin in origins {
        let row = number(histories, firsts, origin.chare, &origin.path);
        refs.push(MailRef {
            row,
            index: origin.index,
        })?;
    }
    Ok(refs)
}

fn values(alloc: Global, emits: &[i64]) -> Result<List<i64>, AllocError>
    ensures { IfOk result (λ values. values ≡ emits.now) }
{
    Ok(List::from_vec(emits.to_vec(alloc)?))
}

fn sents(alloc: Global, messages: &[Message]) -> Result<List<Sent>, AllocError>
    ensures { IfOk result (λ sents. sents ≡ map (λ message. message.sent) messages.now) }
{
    Ok(List::from_vec(sent_parts(alloc, messages)?))
}

fn sent_parts(alloc: Global, messages: &[Message]) -> Result<Vec<Sent>, AllocError>
    ensures { IfOk result (λ sents. sents.items ≡ map (λ message. message.sent) messages.now) }
{
    messages.iter().map(|message| message.sent).collect(alloc)
}
