// Expressions, with no parentheses but those that their trees need.
ghost use Rattle.std.specs.Prelude.{◌≡◌, ◌++◌, OnOk};
ghost use Rattle.bs_tree.specs.Rule.{outside};
ghost use Rattle.bs_print.specs.Canonical.{spaced_items};
ghost use Rattle.bs_print.specs.Expressions.{printed, operand_at, grouped as grouped_items, indexed as indexed_items, level_of as level_of_op, left_level as left_level_of, mark_of as mark_of_op};

use crate::tokens::{mark, name, number, word};
use bs_tree::{Expr, Mark, Name, NameId, Op2, Word};
use std::alloc::AllocError;

/// An expression, with no parentheses round it.
#[tactic(auto, using(crate::proofs::Pieces::spaced_append), unfolding(crate::specs::Expressions::printed))]
#[cycle(expression)]
pub(crate) fn expression(text: &mut Vec<u8>, names: &[Name], x: &Expr) -> Result<(), AllocError>
    ensures { OnOk result (text.new.items ≡ text.old.items ++ spaced_items names.now (printed x.now).items) }
{
    match x {
        Expr::Number(n) => number(text, *n),
        Expr::Var(x) => name(text, names, *x),
        Expr::At(x, at) => {
            name(text, names, *x)?;
            indexed(text, names, at.get())
        }
        Expr::This => word(text, Word::This),
        Expr::Chares => word(text, Word::Chares),
        Expr::Neg(x) => {
            mark(text, Mark::Minus)?;
            operand(text, names, x.get(), 6)
        }
        Expr::Not(x) => {
            mark(text, Mark::Not)?;
            operand(text, names, x.get(), 6)
        }
        Expr::Two(op, left, right) => {
            operand(text, names, left.get(), left_level(*op))?;
            mark(text, mark_of(*op))?;
            operand(text, names, right.get(), level_of(*op) + 1)
        }
    }
}

/// An expression in parentheses.
#[cycle(expression)]
pub(crate) fn grouped(text: &mut Vec<u8>, names: &[Name], x: &Expr) -> Result<(), AllocError>
    ensures { OnOk result (text.new.items ≡ text.old.items ++ spaced_items names.now (grouped_items outside (printed x.now).items)) }
{
    mark(text, Mark::ParenLeft)?;
    expression(text, names, x)?;
    mark(text, Mark::ParenRight)
}

/// An index.
#[cycle(expression)]
pub(crate) fn indexed(text: &mut Vec<u8>, names: &[Name], x: &Expr) -> Result<(), AllocError>
    ensures { OnOk result (text.new.items ≡ text.old.items ++ spaced_items names.now (indexed_items outside (printed x.now).items)) }
{
    mark(text, Mark::BracketLeft)?;
    expression(text, names, x)?;
    mark(text, Mark::BracketRight)
}

// An operand of this level at least: one of a looser level stands in parentheses.
#[cycle(expression)]
fn operand(text: &mut Vec<u8>, names: &[Name], x: &Expr, least: u8) -> Result<(), AllocError>
    ensures { OnOk result (text.new.items ≡ text.old.items ++ spaced_items names.now (operand_at least (printed x.now))) }
{
    if least <= level(x) {
        expression(text, names, x)
    } else {
        grouped(text, names, x)
    }
}

// From 0 for `||` to 6 for what is no operator.
#[tactic(auto, unfolding(crate::specs::Expressions::printed))]
fn level(x: &Expr) -> u8
    ensures { result ≡ (printed x.now).level }
{
    match x {
        Expr::Two(op, _, _) => level_of(*op),
        Expr::Neg(_) | Expr::Not(_) => 5,
        Expr::Number(_) | Expr::Var(_) | Expr::At(_, _) | Expr::This | Expr::Chares => 6,
    }
}

fn level_of(op: Op2) -> u8
    ensures { result ≡ level_of_op op }
{
    match op {
        Op2::Or => 0,
        Op2::And => 1,
        Op2::Eq | Op2::Ne | Op2::Lt | Op2::Le | Op2::Gt | Op2::Ge => 2,
        Op2::Add | Op2::Sub => 3,
        Op2::Mul | Op2::Div | Op2::Rem => 4,
    }
}

// The least level of a left operand: operators of one level group to the left, but comparisons don't.
fn left_level(op: Op2) -> u8
    ensures { result ≡ left_level_of op }
{
    match op {
        Op2::Or => 0,
        Op2::And => 1,
        Op2::Eq | Op2::Ne | Op2::Lt | Op2::Le | Op2::Gt | Op2::Ge => 3,
        Op2::Add | Op2::Sub => 3,
        Op2::Mul | Op2::Div | Op2::Rem => 4,
    }
}

fn mark_of(op: Op2) -> Mark
    ensures { result ≡ mark_of_op op }
{
    match op {
        Op2::Or => Mark::Or,
        Op2::And => Mark::And,
        Op2::Eq => Mark::Equal,
        Op2::Ne => Mark::NotEqual,
        Op2::Lt => Mark::Less,
        Op2::Le => Mark::LessEqual,
        Op2::Gt => Mark::Greater,
        Op2::Ge => Mark::GreaterEqual,
        Op2::Add => Mark::Plus,
        Op2::Sub => Mark::Minus,
        Op2::Mul => Mark::Star,
        Op2::Div => Mark::Slash,
        Op2::Rem => Mark::Percent,
    }
}
