// The numbers of statements: they count from 1 in the order of the text, each statement before those
// inside it.
ghost use Rattle.std.specs.Prelude.{◌≡◌, ◌+◌, ◌<◌, ◌≤◌, ◌++◌, ◌∷◌, IfOk, length, set};
ghost use Rattle.bs_check.specs.Every.{every, listed};
ghost use Rattle.bs_check.specs.Numbers.{ends_from, ends_of};

use bs_tree::{List, Program, Stmt};
use std::alloc::{AllocError, Global};

// For each statement of the program, the number that comes behind it and those inside it.
#[tactic(auto, unfolding(crate::specs::Numbers::ends_of))]
pub(crate) fn ends_of(alloc: Global, program: &Program) -> Result<Vec<u32>, AllocError>
    requires few { length (every program.now.body) ≤ 10000 }
    ensures { IfOk result (λ ends. ends.items ≡ ends_of program.now) }
{
    let mut ends = Vec::new(alloc);
    number_body(&mut ends, &program.body)?;
    Ok(ends)
}

// Adds the numbers of a list of statements and of those inside them to those of the statements before.
#[cycle(numbers)]
fn number_body(ends: &mut Vec<u32>, body: &List<Stmt>) -> Result<(), AllocError>
    requires few { length ends.old.items + length (every body.now) ≤ 10000 }
    ensures ends { IfOk result (λ _. ends.new.items ≡ ends.old.items ++ ends_from (length ends.old.items + 1) (every body.now)) }
    ensures count { IfOk result (λ _. length ends.new.items ≡ length ends.old.items + length (every body.now)) }
{
    for stmt in body.as_slice() {
        number_stmt(ends, stmt)?;
    }
    Ok(())
}

#[cycle(numbers)]
fn number_stmt(ends: &mut Vec<u32>, stmt: &Stmt) -> Result<(), AllocError>
    requires few { length ends.old.items + 1 + length (listed stmt.now).inside ≤ 10000 }
    ensures ends { IfOk result (λ _. ends.new.items ≡ ends.old.items ++ ends_from (length ends.old.items + 1) (stmt.now ∷ (listed stmt.now).inside)) }
    ensures count { IfOk result (λ _. length ends.new.items ≡ length ends.old.items + 1 + length (listed stmt.now).inside) }
{
    let at = ends.len();
    ends.push(0)?;
    number_inside(ends, stmt)?;
    put_end(ends, at);
    Ok(())
}

// The statement at this place and those inside it are the last so far.
fn put_end(ends: &mut Vec<u32>, at: usize)
    requires place { at < length ends.old.items }
    requires few { length ends.old.items ≤ 10000 }
    ensures { ends.new.items ≡ set ends.old.items at (length ends.old.items + 1) }
{
    ends[at] = ends.len() as u32 + 1;
}

#[cycle(numbers)]
fn number_inside(ends: &mut Vec<u32>, stmt: &Stmt) -> Result<(), AllocError>
    requires few { length ends.old.items + length (listed stmt.now).inside ≤ 10000 }
    ensures ends { IfOk result (λ _. ends.new.items ≡ ends.old.items ++ ends_from (length ends.old.items + 1) (listed stmt.now).inside) }
    ensures count { IfOk result (λ _. length ends.new.items ≡ length ends.old.items + length (listed stmt.now).inside) }
{
    match stmt {
        Stmt::Serial(_) => Ok(()),
        Stmt::When(_, body) => number_body(ends, body),
        Stmt::Overlap(body) => number_body(ends, body),
        Stmt::For(_, _, _, _, _, body) => number_body(ends, body),
        Stmt::While(_, body) => number_body(ends, body),
        Stmt::If(_, body, other) => {
            number_body(ends, body)?;
            match other {
                Some(other) => number_body(ends, other),
                None => Ok(()),
            }
        }
        Stmt::Seq(body) => number_body(ends, body),
    }
}
