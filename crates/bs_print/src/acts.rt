// Acts.
ghost use Rattle.std.specs.Prelude.{◌≡◌, ◌++◌, OnOk, map, Some};
ghost use Rattle.bs_tree.specs.Rule.{outside};
ghost use Rattle.bs_print.specs.Canonical.{spaced_items};
ghost use Rattle.bs_print.specs.Expressions.{expression_items};
ghost use Rattle.bs_print.specs.Statements.{ended_items, with_commas, arguments_items, message_items, bytes_items, target_items, act_items, acts_items, else_items, braced};

use crate::expressions::{expression, grouped, indexed};
use crate::tokens::{mark, name, word};
use bs_tree::{Act, Expr, List, Mark, Name, NameId, Word};
use std::alloc::AllocError;

/// An expression and its semicolon.
#[tactic(auto, using(crate::proofs::Pieces::spaced_append), unfolding(crate::specs::Statements::ended_items))]
pub(crate) fn ended(text: &mut Vec<u8>, names: &[Name], x: &Expr) -> Result<(), AllocError>
    ensures { OnOk result (text.new.items ≡ text.old.items ++ spaced_items names.now (ended_items x.now)) }
{
    expression(text, names, x)?;
    mark(text, Mark::Semicolon)
}

#[tactic(auto, using(crate::proofs::Pieces::spaced_append), unfolding(crate::specs::Statements::arguments_items))]
fn arguments(text: &mut Vec<u8>, names: &[Name], values: &[Expr]) -> Result<(), AllocError>
    ensures { OnOk result (text.new.items ≡ text.old.items ++ spaced_items names.now (arguments_items values.now)) }
{
    mark(text, Mark::ParenLeft)?;
    listed(text, names, values)?;
    mark(text, Mark::ParenRight)
}

// Expressions with commas between them.
fn listed(text: &mut Vec<u8>, names: &[Name], values: &[Expr]) -> Result<(), AllocError>
    ensures { OnOk result (text.new.items ≡ text.old.items ++ spaced_items names.now (with_commas (map expression_items values.now))) }
{
    let [first, rest @ ..] = values else {
        return Ok(());
    };
    expression(text, names, first)?;
    for value in rest {
        mark(text, Mark::Comma)?;
        expression(text, names, value)?;
    }
    Ok(())
}

// The entry, the reference number and the arguments of a `send`.
#[tactic(auto, using(crate::proofs::Pieces::spaced_append), unfolding(crate::specs::Statements::message_items))]
fn message(
    text: &mut Vec<u8>,
    names: &[Name],
    entry: NameId,
    reference: &Expr,
    values: &[Expr],
) -> Result<(), AllocError>
    ensures { OnOk result (text.new.items ≡ text.old.items ++ spaced_items names.now (message_items entry reference.now values.now)) }
{
    name(text, names, entry)?;
    indexed(text, names, reference)?;
    arguments(text, names, values)
}

fn bytes(text: &mut Vec<u8>, names: &[Name], bytes: &Option<Expr>) -> Result<(), AllocError>
    ensures { OnOk result (text.new.items ≡ text.old.items ++ spaced_items names.now (bytes_items bytes.now)) }
{
    match bytes {
        Some(bytes) => {
            word(text, Word::Bytes)?;
            expression(text, names, bytes)
        }
        None => Ok(()),
    }
}

#[tactic(auto, using(crate::proofs::Pieces::spaced_append), unfolding(crate::specs::Statements::target_items))]
fn target(
    text: &mut Vec<u8>,
    names: &[Name],
    to: &Expr,
    size: &Option<Expr>,
) -> Result<(), AllocError>
    ensures { OnOk result (text.new.items ≡ text.old.items ++ spaced_items names.now (target_items to.now size.now)) }
{
    word(text, Word::To)?;
    expression(text, names, to)?;
    bytes(text, names, size)
}

/// Acts, one behind the other.
#[cycle(acts)]
#[tactic(auto, using(crate::proofs::Pieces::spaced_append), unfolding(crate::specs::Statements::acts_items))]
pub(crate) fn acts(text: &mut Vec<u8>, names: &[Name], acts: &[Act]) -> Result<(), AllocError>
    ensures { OnOk result (text.new.items ≡ text.old.items ++ spaced_items names.now (acts_items acts.now)) }
{
    for next in acts {
        act(text, names, next)?;
    }
    Ok(())
}

#[cycle(acts)]
#[tactic(auto, using(crate::proofs::Pieces::spaced_append))]
fn act_list(text: &mut Vec<u8>, names: &[Name], list: &List<Act>) -> Result<(), AllocError>
    ensures { OnOk result (text.new.items ≡ text.old.items ++ spaced_items names.now (braced outside (acts_items list.now))) }
{
    mark(text, Mark::BraceLeft)?;
    acts(text, names, list.as_slice())?;
    mark(text, Mark::BraceRight)
}

#[cycle(acts)]
#[tactic(auto, using(crate::proofs::Pieces::spaced_append), unfolding(crate::specs::Statements::act_items, crate::specs::Statements::acts_items))]
fn act(text: &mut Vec<u8>, names: &[Name], act: &Act) -> Result<(), AllocError>
    ensures { OnOk result (text.new.items ≡ text.old.items ++ spaced_items names.now (act_items act.now)) }
{
    match act {
        Act::Set(x, value) => {
            name(text, names, *x)?;
            mark(text, Mark::Assign)?;
            ended(text, names, value)
        }
        Act::SetAt(x, at, value) => {
            name(text, names, *x)?;
            indexed(text, names, at)?;
            mark(text, Mark::Assign)?;
            ended(text, names, value)
        }
        Act::Send(entry, reference, values, to, size) => {
            word(text, Word::Send)?;
            message(text, names, *entry, reference, values.as_slice())?;
            target(text, names, to, size)?;
            mark(text, Mark::Semicolon)
        }
        Act::Work(x) => {
            word(text, Word::Work)?;
            ended(text, names, x)
        }
        Act::Emit(x) => {
            word(text, Word::Emit)?;
            ended(text, names, x)
        }
        Act::If(test, body, other) => {
            word(text, Word::If)?;
            grouped(text, names, test)?;
            act_list(text, names, body)?;
            match other {
                Some(list) => act_else(text, names, list),
                None => Ok(()),
            }
        }
        Act::Repeat(times, body) => {
            word(text, Word::Repeat)?;
            expression(text, names, times)?;
            act_list(text, names, body)
        }
    }
}

// `else` and its acts.
#[cycle(acts)]
#[tactic(auto, using(crate::proofs::Pieces::spaced_append), unfolding(crate::specs::Statements::acts_items))]
fn act_else(text: &mut Vec<u8>, names: &[Name], list: &List<Act>) -> Result<(), AllocError>
    ensures { OnOk result (text.new.items ≡ text.old.items ++ spaced_items names.now (else_items (Some (map act_items list.now)))) }
{
    word(text, Word::Else)?;
    act_list(text, names, list)
}
