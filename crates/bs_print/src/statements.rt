// Statements.
ghost use Rattle.std.specs.Prelude.{◌≡◌, ◌++◌, OnOk, map, Some};
ghost use Rattle.bs_tree.specs.Rule.{opening, outside};
ghost use Rattle.bs_print.specs.Canonical.{spaced_items};
ghost use Rattle.bs_print.specs.Expressions.{grouped as grouped_items};
ghost use Rattle.bs_print.specs.Statements.{with_commas, name_items, names_items, wait_items, waits_items, setting_items, head_items, statement_items, statements_items, else_items, braced};

use crate::acts::{acts, ended};
use crate::expressions::{expression, grouped, indexed};
use crate::tokens::{mark, name, word};
use bs_tree::{Expr, List, Mark, Name, NameId, Stmt, Wait, Word};
use std::alloc::AllocError;

// Names with commas between them.
#[tactic(auto, using(crate::proofs::Pieces::spaced_append))]
fn listed(text: &mut Vec<u8>, names: &[Name], list: &[NameId]) -> Result<(), AllocError>
    ensures { OnOk result (text.new.items ≡ text.old.items ++ spaced_items names.now (with_commas (map name_items list.now))) }
{
    let [first, rest @ ..] = list else {
        return Ok(());
    };
    name(text, names, *first)?;
    for next in rest {
        mark(text, Mark::Comma)?;
        name(text, names, *next)?;
    }
    Ok(())
}

#[tactic(auto, using(crate::proofs::Pieces::spaced_append), unfolding(crate::specs::Statements::names_items))]
fn parameters(text: &mut Vec<u8>, names: &[Name], list: &[NameId]) -> Result<(), AllocError>
    ensures { OnOk result (text.new.items ≡ text.old.items ++ spaced_items names.now (names_items list.now)) }
{
    mark(text, Mark::ParenLeft)?;
    listed(text, names, list)?;
    mark(text, Mark::ParenRight)
}

#[tactic(auto, using(crate::proofs::Pieces::spaced_append), unfolding(crate::specs::Statements::wait_items))]
fn wait(text: &mut Vec<u8>, names: &[Name], wait: &Wait) -> Result<(), AllocError>
    ensures { OnOk result (text.new.items ≡ text.old.items ++ spaced_items names.now (wait_items wait.now)) }
{
    name(text, names, wait.entry)?;
    indexed(text, names, &wait.reference)?;
    parameters(text, names, wait.params.as_slice())
}

// Waits with commas between them.
#[tactic(auto, using(crate::proofs::Pieces::spaced_append), unfolding(crate::specs::Statements::waits_items))]
fn waits(text: &mut Vec<u8>, names: &[Name], list: &[Wait]) -> Result<(), AllocError>
    ensures { OnOk result (text.new.items ≡ text.old.items ++ spaced_items names.now (waits_items list.now)) }
{
    let [first, rest @ ..] = list else {
        return Ok(());
    };
    wait(text, names, first)?;
    for next in rest {
        mark(text, Mark::Comma)?;
        wait(text, names, next)?;
    }
    Ok(())
}

// A variable and what it is set to.
#[tactic(auto, using(crate::proofs::Pieces::spaced_append), unfolding(crate::specs::Statements::setting_items))]
fn setting(text: &mut Vec<u8>, names: &[Name], x: NameId, value: &Expr) -> Result<(), AllocError>
    ensures { OnOk result (text.new.items ≡ text.old.items ++ spaced_items names.now (setting_items x value.now)) }
{
    name(text, names, x)?;
    mark(text, Mark::Assign)?;
    expression(text, names, value)
}

// What stands behind `for`, without the parentheses.
#[tactic(auto, using(crate::proofs::Pieces::spaced_append), unfolding(crate::specs::Statements::head_items))]
fn head(
    text: &mut Vec<u8>,
    names: &[Name],
    start: NameId,
    first: &Expr,
    test: &Expr,
    step: NameId,
    next: &Expr,
) -> Result<(), AllocError>
    ensures { OnOk result (text.new.items ≡ text.old.items ++ spaced_items names.now (head_items start first.now test.now step next.now)) }
{
    setting(text, names, start, first)?;
    mark(text, Mark::Semicolon)?;
    ended(text, names, test)?;
    setting(text, names, step, next)
}

/// Statements, one behind the other.
#[cycle(statements)]
#[tactic(auto, using(crate::proofs::Pieces::spaced_append), unfolding(crate::specs::Statements::statements_items))]
pub(crate) fn statements(
    text: &mut Vec<u8>,
    names: &[Name],
    body: &[Stmt],
) -> Result<(), AllocError>
    ensures { OnOk result (text.new.items ≡ text.old.items ++ spaced_items names.now (statements_items body.now)) }
{
    for next in body {
        statement(text, names, next)?;
    }
    Ok(())
}

#[cycle(statements)]
#[tactic(auto, using(crate::proofs::Pieces::spaced_append))]
fn block(text: &mut Vec<u8>, names: &[Name], body: &List<Stmt>) -> Result<(), AllocError>
    ensures { OnOk result (text.new.items ≡ text.old.items ++ spaced_items names.now (braced outside (statements_items body.now))) }
{
    mark(text, Mark::BraceLeft)?;
    statements(text, names, body.as_slice())?;
    mark(text, Mark::BraceRight)
}

#[cycle(statements)]
#[tactic(auto, using(crate::proofs::Pieces::spaced_append), unfolding(crate::specs::Statements::statement_items, crate::specs::Statements::statements_items))]
fn statement(text: &mut Vec<u8>, names: &[Name], stmt: &Stmt) -> Result<(), AllocError>
    ensures { OnOk result (text.new.items ≡ text.old.items ++ spaced_items names.now (statement_items stmt.now)) }
{
    match stmt {
        Stmt::Serial(list) => {
            word(text, Word::Serial)?;
            mark(text, Mark::BraceLeft)?;
            acts(text, names, list.as_slice())?;
            mark(text, Mark::BraceRight)
        }
        Stmt::When(list, body) => {
            word(text, Word::When)?;
            waits(text, names, list.as_slice())?;
            block(text, names, body)
        }
        Stmt::Overlap(parts) => {
            word(text, Word::Overlap)?;
            block(text, names, parts)
        }
        Stmt::For(start, first, test, step, next, body) => {
            word(text, Word::For)?;
            mark(text, Mark::ParenLeft)?;
            head(text, names, *start, first, test, *step, next)?;
            mark(text, Mark::ParenRight)?;
            block(text, names, body)
        }
        Stmt::While(test, body) => {
            word(text, Word::While)?;
            grouped(text, names, test)?;
            block(text, names, body)
        }
        Stmt::If(test, body, other) => {
            word(text, Word::If)?;
            grouped(text, names, test)?;
            block(text, names, body)?;
            match other {
                Some(other) => block_else(text, names, other),
                None => Ok(()),
            }
        }
        Stmt::Seq(body) => block(text, names, body),
    }
}

// `else` and its block.
#[cycle(statements)]
#[tactic(auto, using(crate::proofs::Pieces::spaced_append), unfolding(crate::specs::Statements::statements_items))]
fn block_else(text: &mut Vec<u8>, names: &[Name], body: &List<Stmt>) -> Result<(), AllocError>
    ensures { OnOk result (text.new.items ≡ text.old.items ++ spaced_items names.now (else_items (Some (map statement_items body.now)))) }
{
    word(text, Word::Else)?;
    block(text, names, body)
}
