// What stands in a part of an `overlap` is looked at: which variables it reads and writes.
ghost use Rattle.std.specs.Prelude.{false};
ghost use Rattle.bs_check.specs.Touches.{Noted};
ghost use Rattle.bs_tree.specs.Reads.{act_reads, act_writes, any_act_reads, any_act_writes, any_mentions, any_named, any_stmt_reads, any_stmt_writes, any_wait_reads, any_wait_writes, mentions, mentions_if_given, stmt_reads, stmt_writes, wait_reads, wait_writes};

use crate::touches::Touches;
use bs_tree::{Act, Expr, List, NameId, Stmt, Wait};

#[cycle(stmt)]
pub(crate) fn note_stmt(touches: &mut Touches, stmt: &Stmt)
    ensures { Noted touches.old touches.new (λ n. stmt_reads n stmt.now) (λ n. stmt_writes n stmt.now) }
{
    match stmt {
        Stmt::Serial(acts) => note_acts(touches, acts),
        Stmt::When(waits, body) => {
            note_waits(touches, waits);
            note_body(touches, body);
        }
        Stmt::Overlap(body) => note_body(touches, body),
        Stmt::For(variable, first, test, stepped, step, body) => {
            note_expr(touches, first);
            note_expr(touches, test);
            note_expr(touches, step);
            touches.write(*variable);
            touches.write(*stepped);
            note_body(touches, body);
        }
        Stmt::While(test, body) => {
            note_expr(touches, test);
            note_body(touches, body);
        }
        Stmt::If(test, body, other) => {
            note_expr(touches, test);
            note_body(touches, body);
            match other {
                Some(other) => note_body(touches, other),
                None => {}
            }
        }
        Stmt::Seq(body) => note_body(touches, body),
    }
}

#[cycle(stmt)]
fn note_body(touches: &mut Touches, body: &List<Stmt>)
    ensures { Noted touches.old touches.new (λ n. any_stmt_reads n body.now) (λ n. any_stmt_writes n body.now) }
{
    for stmt in body.as_slice() {
        note_stmt(touches, stmt);
    }
}

fn note_expr(touches: &mut Touches, expr: &Expr)
    ensures { Noted touches.old touches.new (λ n. mentions n expr.now) (λ n. false) }
{
    match expr {
        Expr::Number(_) => {}
        Expr::Var(variable) => touches.read(*variable),
        Expr::At(array, index) => {
            touches.read(*array);
            note_expr(touches, index.get());
        }
        Expr::This => {}
        Expr::Chares => {}
        Expr::Neg(operand) => note_expr(touches, operand.get()),
        Expr::Not(operand) => note_expr(touches, operand.get()),
        Expr::Two(_, left, right) => {
            note_expr(touches, left.get());
            note_expr(touches, right.get());
        }
    }
}

fn note_exprs(touches: &mut Touches, exprs: &List<Expr>)
    ensures { Noted touches.old touches.new (λ n. any_mentions n exprs.now) (λ n. false) }
{
    for expr in exprs.as_slice() {
        note_expr(touches, expr);
    }
}

fn note_if_given(touches: &mut Touches, expr: &Option<Expr>)
    ensures { Noted touches.old touches.new (λ n. mentions_if_given n expr.now) (λ n. false) }
{
    if let Some(expr) = expr {
        note_expr(touches, expr);
    }
}

#[cycle(act)]
fn note_act(touches: &mut Touches, act: &Act)
    ensures { Noted touches.old touches.new (λ n. act_reads n act.now) (λ n. act_writes n act.now) }
{
    match act {
        Act::Set(variable, value) => {
            note_expr(touches, value);
            touches.write(*variable);
        }
        Act::SetAt(array, index, value) => {
            note_expr(touches, index);
            note_expr(touches, value);
            touches.write(*array);
        }
        Act::Send(_, reference, args, target, bytes) => {
            note_expr(touches, reference);
            note_exprs(touches, args);
            note_expr(touches, target);
            note_if_given(touches, bytes);
        }
        Act::Work(amount) => note_expr(touches, amount),
        Act::Emit(value) => note_expr(touches, value),
        Act::If(test, body, other) => {
            note_expr(touches, test);
            note_acts(touches, body);
            match other {
                Some(other) => note_acts(touches, other),
                None => {}
            }
        }
        Act::Repeat(times, body) => {
            note_expr(touches, times);
            note_acts(touches, body);
        }
    }
}

#[cycle(act)]
fn note_acts(touches: &mut Touches, acts: &List<Act>)
    ensures { Noted touches.old touches.new (λ n. any_act_reads n acts.now) (λ n. any_act_writes n acts.now) }
{
    for act in acts.as_slice() {
        note_act(touches, act);
    }
}

fn note_waits(touches: &mut Touches, waits: &List<Wait>)
    ensures { Noted touches.old touches.new (λ n. any_wait_reads n waits.now) (λ n. any_wait_writes n waits.now) }
{
    for wait in waits.as_slice() {
        note_wait(touches, wait);
    }
}

fn note_wait(touches: &mut Touches, wait: &Wait)
    ensures { Noted touches.old touches.new (λ n. wait_reads n wait.now) (λ n. wait_writes n wait.now) }
{
    note_expr(touches, &wait.reference);
    note_params(touches, &wait.params);
}

fn note_params(touches: &mut Touches, params: &List<NameId>)
    ensures { Noted touches.old touches.new (λ n. false) (λ n. any_named n params.now) }
{
    for param in params.as_slice() {
        touches.write(*param);
    }
}
