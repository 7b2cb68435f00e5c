// Which variables a statement reads and writes, and whether it is sure to make a block.
ghost use Rattle.std.specs.Prelude.{◌≡◌};
ghost use Rattle.bs_tree.specs.Reads.{act_reads, act_writes, any_act_reads, any_act_writes, any_mentions, any_stmt_reads, any_stmt_writes, any_wait_reads, any_wait_writes, mentions, mentions_if_given, stmt_reads, stmt_writes, wait_writes};
ghost use Rattle.bs_tree.specs.Spends.{any_stmt_spends, stmt_spends};

use crate::lists::List;
use crate::tree::{Act, Expr, NameId, Stmt, Wait};

/// Whether a statement reads the variable of a name: in its expressions, or in a statement inside it.
/// It takes no memory.
#[cycle(reads)]
pub fn reads(stmt: &Stmt, name: NameId) -> bool
    ensures { result ≡ stmt_reads name stmt.now }
{
    match stmt {
        Stmt::Serial(acts) => acts_read(acts, name),
        Stmt::When(waits, body) => waits_read(waits, name) || body_reads(body, name),
        Stmt::Overlap(body) => body_reads(body, name),
        Stmt::For(_, first, test, _, step, body) => {
            stands_in(first, name)
                || stands_in(test, name)
                || stands_in(step, name)
                || body_reads(body, name)
        }
        Stmt::While(test, body) => stands_in(test, name) || body_reads(body, name),
        Stmt::If(test, body, other) => {
            let first = stands_in(test, name) || body_reads(body, name);
            match other {
                Some(body) => first || body_reads(body, name),
                None => first,
            }
        }
        Stmt::Seq(body) => body_reads(body, name),
    }
}

#[cycle(reads)]
fn body_reads(body: &List<Stmt>, name: NameId) -> bool
    ensures { result ≡ any_stmt_reads name body.now }
{
    for stmt in body.as_slice() {
        if reads(stmt, name) {
            return true;
        }
    }
    false
}

/// Whether a statement writes the variable of a name: by an assignment, as a parameter of a wait, in a
/// loop's head, or in a statement inside it. An array is written where one of its cells is. It takes
/// no memory.
#[cycle(writes)]
pub fn writes(stmt: &Stmt, name: NameId) -> bool
    ensures { result ≡ stmt_writes name stmt.now }
{
    match stmt {
        Stmt::Serial(acts) => acts_write(acts, name),
        Stmt::When(waits, body) => waits_write(waits, name) || body_writes(body, name),
        Stmt::Overlap(body) => body_writes(body, name),
        Stmt::For(variable, _, _, stepped, _, body) => {
            *variable == name || *stepped == name || body_writes(body, name)
        }
        Stmt::While(_, body) => body_writes(body, name),
        Stmt::If(_, body, other) => {
            let first = body_writes(body, name);
            match other {
                Some(body) => first || body_writes(body, name),
                None => first,
            }
        }
        Stmt::Seq(body) => body_writes(body, name),
    }
}

#[cycle(writes)]
fn body_writes(body: &List<Stmt>, name: NameId) -> bool
    ensures { result ≡ any_stmt_writes name body.now }
{
    for stmt in body.as_slice() {
        if writes(stmt, name) {
            return true;
        }
    }
    false
}

/// Whether a statement makes a block whenever it ends. It takes no memory.
#[cycle(spends)]
pub fn spends(stmt: &Stmt) -> bool
    ensures { result ≡ stmt_spends stmt.now }
{
    match stmt {
        Stmt::Serial(_) => true,
        Stmt::When(_, body) => body_spends(body),
        Stmt::Overlap(body) => body_spends(body),
        Stmt::For(_, _, _, _, _, _) => false,
        Stmt::While(_, _) => false,
        Stmt::If(_, body, other) => match other {
            Some(other) => body_spends(body) && body_spends(other),
            None => false,
        },
        Stmt::Seq(body) => body_spends(body),
    }
}

#[cycle(spends)]
fn body_spends(body: &List<Stmt>) -> bool
    ensures { result ≡ any_stmt_spends body.now }
{
    for stmt in body.as_slice() {
        if spends(stmt) {
            return true;
        }
    }
    false
}

// Whether the variable stands in an expression.
fn stands_in(expr: &Expr, name: NameId) -> bool
    ensures { result ≡ mentions name expr.now }
{
    match expr {
        Expr::Number(_) => false,
        Expr::Var(variable) => *variable == name,
        Expr::At(array, index) => *array == name || stands_in(index.get(), name),
        Expr::This => false,
        Expr::Chares => false,
        Expr::Neg(operand) => stands_in(operand.get(), name),
        Expr::Not(operand) => stands_in(operand.get(), name),
        Expr::Two(_, left, right) => stands_in(left.get(), name) || stands_in(right.get(), name),
    }
}

fn stands_in_any(exprs: &List<Expr>, name: NameId) -> bool
    ensures { result ≡ any_mentions name exprs.now }
{
    for expr in exprs.as_slice() {
        if stands_in(expr, name) {
            return true;
        }
    }
    false
}

fn stands_if_given(expr: &Option<Expr>, name: NameId) -> bool
    ensures { result ≡ mentions_if_given name expr.now }
{
    match expr {
        Some(expr) => stands_in(expr, name),
        None => false,
    }
}

#[cycle(act_reads)]
fn act_reads_it(act: &Act, name: NameId) -> bool
    ensures { result ≡ act_reads name act.now }
{
    match act {
        Act::Set(_, value) => stands_in(value, name),
        Act::SetAt(_, index, value) => stands_in(index, name) || stands_in(value, name),
        Act::Send(_, reference, args, target, bytes) => {
            stands_in(reference, name)
                || stands_in_any(args, name)
                || stands_in(target, name)
                || stands_if_given(bytes, name)
        }
        Act::Work(amount) => stands_in(amount, name),
        Act::Emit(value) => stands_in(value, name),
        Act::If(test, body, other) => {
            let first = stands_in(test, name) || acts_read(body, name);
            match other {
                Some(body) => first || acts_read(body, name),
                None => first,
            }
        }
        Act::Repeat(times, body) => stands_in(times, name) || acts_read(body, name),
    }
}

#[cycle(act_reads)]
fn acts_read(acts: &List<Act>, name: NameId) -> bool
    ensures { result ≡ any_act_reads name acts.now }
{
    for act in acts.as_slice() {
        if act_reads_it(act, name) {
            return true;
        }
    }
    false
}

#[cycle(act_writes)]
fn act_writes_it(act: &Act, name: NameId) -> bool
    ensures { result ≡ act_writes name act.now }
{
    match act {
        Act::Set(variable, _) => *variable == name,
        Act::SetAt(array, _, _) => *array == name,
        Act::Send(_, _, _, _, _) => false,
        Act::Work(_) => false,
        Act::Emit(_) => false,
        Act::If(_, body, other) => {
            let first = acts_write(body, name);
            match other {
                Some(body) => first || acts_write(body, name),
                None => first,
            }
        }
        Act::Repeat(_, body) => acts_write(body, name),
    }
}

#[cycle(act_writes)]
fn acts_write(acts: &List<Act>, name: NameId) -> bool
    ensures { result ≡ any_act_writes name acts.now }
{
    for act in acts.as_slice() {
        if act_writes_it(act, name) {
            return true;
        }
    }
    false
}

fn waits_read(waits: &List<Wait>, name: NameId) -> bool
    ensures { result ≡ any_wait_reads name waits.now }
{
    for wait in waits.as_slice() {
        if stands_in(&wait.reference, name) {
            return true;
        }
    }
    false
}

fn waits_write(waits: &List<Wait>, name: NameId) -> bool
    ensures { result ≡ any_wait_writes name waits.now }
{
    for wait in waits.as_slice() {
        if wait_writes_it(wait, name) {
            return true;
        }
    }
    false
}

fn wait_writes_it(wait: &Wait, name: NameId) -> bool
    ensures { result ≡ wait_writes name wait.now }
{
    for param in wait.params.as_slice() {
        if *param == name {
            return true;
        }
    }
    false
}
