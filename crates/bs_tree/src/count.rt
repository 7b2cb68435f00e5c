// How many statements a program has.
ghost use Rattle.std.specs.Prelude.{◌≡◌, ◌-◌, ◌^◌, min};
ghost use Rattle.bs_tree.specs.Count.{statements_in, statements_of};

use crate::lists::List;
use crate::tree::Stmt;

/// The number of statements of a list, those inside statements counted too, or 2^64 - 1 where there
/// are more. It takes no memory.
#[cycle(count)]
pub fn statements(body: &List<Stmt>) -> u64
    ensures { result ≡ min (statements_in body.now) (2 ^ 64 - 1) }
{
    let mut count: u64 = 0;
    for stmt in body.as_slice() {
        count = count.saturating_add(statements_from(stmt));
    }
    count
}

// The statement itself, and those inside it.
#[cycle(count)]
fn statements_from(stmt: &Stmt) -> u64
    ensures { result ≡ min (statements_of stmt.now) (2 ^ 64 - 1) }
{
    match stmt {
        Stmt::Serial(_) => 1,
        Stmt::When(_, body) => statements(body).saturating_add(1),
        Stmt::Overlap(body) => statements(body).saturating_add(1),
        Stmt::For(_, _, _, _, _, body) => statements(body).saturating_add(1),
        Stmt::While(_, body) => statements(body).saturating_add(1),
        Stmt::If(_, body, other) => {
            let first = statements(body).saturating_add(1);
            match other {
                Some(body) => first.saturating_add(statements(body)),
                None => first,
            }
        }
        Stmt::Seq(body) => statements(body).saturating_add(1),
    }
}
