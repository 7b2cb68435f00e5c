ghost use Rattle.std.specs.Prelude.{◌≡◌, ◌<◌, All, IfOk, IsSome, IsTrue, [], ◌∷◌, length};
ghost use Rattle.bs_check.specs.Kinds.{kind_of};
ghost use Rattle.bs_check.specs.Refusal.{IsWhole};
ghost use Rattle.bs_check.specs.Table.{name_at};

use crate::{CheckFault, Kind, Rule, check};
use bs_tree::{Act, EntryDecl, Expr, List, Name, NameId, Program, Stmt, VarDecl, Wait, statements};
use std::alloc::{AllocError, Global};
use std::test::Fail;

// The names of the programs below: the first is a variable, the second an array, the third an entry
// with one parameter, and the fourth is not declared.
const X: NameId = NameId(0);

const XS: NameId = NameId(1);

const GO: NameId = NameId(2);

const UNKNOWN: NameId = NameId(3);

fn list_of<T: Drop>(alloc: Global, item: T) -> Result<List<T>, AllocError>
    ensures { IfOk result (λ list. list ≡ item ∷ []) }
{
    let mut list = List::new(alloc);
    list.push(item)?;
    Ok(list)
}

fn two_of<T: Drop>(alloc: Global, first: T, second: T) -> Result<List<T>, AllocError>
    ensures { IfOk result (λ list. list ≡ first ∷ second ∷ []) }
{
    let mut list = list_of(alloc, first)?;
    list.push(second)?;
    Ok(list)
}

fn names(alloc: Global) -> Result<List<Name>, AllocError> {
    let mut names = List::new(alloc);
    for name in [b"x", b"y", b"g", b"u"] {
        names.push(Name(List::from_vec(name.to_vec(alloc)?)))?;
    }
    Ok(names)
}

// chares 2; var x; var xs[3]; entry go(1); and this body.
fn program(alloc: Global, body: List<Stmt>) -> Result<Program, AllocError>
    ensures { IfOk result (λ p. IsSome (kind_of p (name_at 2))) }
{
    let scalar = VarDecl {
        name: X,
        cells: None,
    };
    let array = VarDecl {
        name: XS,
        cells: Some(3),
    };
    let entry = EntryDecl {
        name: GO,
        params: 1,
    };
    Ok(Program {
        chares: 2,
        names: names(alloc)?,
        vars: two_of(alloc, scalar, array)?,
        entries: list_of(alloc, entry)?,
        body,
    })
}

fn names_vars(vars: &[VarDecl], count: usize) -> bool
    ensures { IsTrue result → All (λ v. v.name.0 < count) vars.now }
{
    for var in vars {
        if var.name.0 as usize >= count {
            return false;
        }
    }
    true
}

fn names_entries(entries: &[EntryDecl], count: usize) -> bool
    ensures { IsTrue result → All (λ e. e.name.0 < count) entries.now }
{
    for entry in entries {
        if entry.name.0 as usize >= count {
            return false;
        }
    }
    true
}

// Whether what is known of each program that a text spells holds of this one.
fn is_whole(program: &Program) -> bool
    ensures { IsTrue result → IsWhole program.now }
{
    let count = program.names.as_slice().len();
    statements(&program.body) <= 10_000
        && names_vars(program.vars.as_slice(), count)
        && names_entries(program.entries.as_slice(), count)
}

// What a program is refused for.
fn refusal(alloc: Global, program: Program) -> Result<Option<(u32, Rule)>, Fail> {
    if !is_whole(&program) {
        return Ok(Some((u32::MAX, Rule::Limits)));
    }
    match check(alloc, program) {
        Ok(_) => Ok(None),
        Err(CheckFault::Refused(stmt, rule)) => Ok(Some((stmt, rule))),
        Err(CheckFault::Memory) => Ok(Some((u32::MAX, Rule::Limits))),
    }
}

fn serial(alloc: Global, act: Act) -> Result<Stmt, AllocError> {
    Ok(Stmt::Serial(list_of(alloc, act)?))
}

fn overlap(alloc: Global, first: Act, second: Act) -> Result<Stmt, AllocError> {
    let parts = two_of(alloc, serial(alloc, first)?, serial(alloc, second)?)?;
    Ok(Stmt::Overlap(parts))
}

fn refused(alloc: Global, stmt: Stmt) -> Result<Option<(u32, Rule)>, Fail> {
    let body = list_of(alloc, stmt)?;
    refusal(alloc, program(alloc, body)?)
}

#[test]
fn parts_that_share_a_variable_interfere(rt: HostRuntime) -> Result<(), Fail> {
    let alloc = rt.alloc();
    let shared = Some((1, Rule::Interference(0, 0, 1)));
    let write = Act::Set(X, Expr::Number(1));
    let read = Act::Emit(Expr::Var(X));
    assert_eq!(rt; refused(alloc, overlap(alloc, write, read)?)?, shared);
    let at = Act::SetAt(X, Expr::Number(0), Expr::Number(1));
    let write = Act::Set(X, Expr::Number(2));
    assert_eq!(rt; refused(alloc, overlap(alloc, at, write)?)?, shared);
    let reads = overlap(alloc, Act::Emit(Expr::Var(X)), Act::Work(Expr::Var(X)))?;
    assert_eq!(rt; refused(alloc, reads)?, None);
    Ok(())
}

#[test]
fn an_undeclared_name_is_unknown_where_it_stands(rt: HostRuntime) -> Result<(), Fail> {
    let alloc = rt.alloc();
    let unknown = serial(alloc, Act::Emit(Expr::Var(UNKNOWN)))?;
    assert_eq!(rt; refused(alloc, unknown)?, Some((1, Rule::UnknownName)));
    let write = Act::Set(UNKNOWN, Expr::Number(1));
    let read = Act::Emit(Expr::Var(UNKNOWN));
    let parts = overlap(alloc, write, read)?;
    assert_eq!(rt; refused(alloc, parts)?, Some((2, Rule::UnknownName)));
    Ok(())
}

#[test]
fn an_if_without_else_leaves_a_loop_idle(rt: HostRuntime) -> Result<(), Fail> {
    let alloc = rt.alloc();
    let block = list_of(alloc, Stmt::Serial(List::new(alloc)))?;
    let body = list_of(alloc, Stmt::If(Expr::This, block, None))?;
    let idle = Stmt::While(Expr::This, body);
    assert_eq!(rt; refused(alloc, idle)?, Some((1, Rule::IdleLoop)));
    Ok(())
}

// A `when` of so many waits for go[0], each with one parameter or none.
fn when(alloc: Global, count: u32, with_params: bool) -> Result<Stmt, AllocError> {
    let mut waits = List::new(alloc);
    for _ in 0..count {
        let params = if with_params {
            list_of(alloc, X)?
        } else {
            List::new(alloc)
        };
        waits.push(Wait {
            entry: GO,
            reference: Expr::Number(0),
            params,
        })?;
    }
    Ok(Stmt::When(waits, List::new(alloc)))
}

#[test]
fn the_least_rule_of_a_statement_is_told(rt: HostRuntime) -> Result<(), Fail> {
    let alloc = rt.alloc();
    assert_eq!(rt; refused(alloc, when(alloc, 64, true)?)?, None);
    assert_eq!(rt;
        refused(alloc, when(alloc, 65, true)?)?,
        Some((1, Rule::Limits))
    );
    assert_eq!(rt;
        refused(alloc, when(alloc, 65, false)?)?,
        Some((1, Rule::Arity))
    );
    Ok(())
}

#[test]
fn declarations_are_statement_0(rt: HostRuntime) -> Result<(), Fail> {
    let alloc = rt.alloc();
    let mut none = program(alloc, List::new(alloc))?;
    none.chares = 0;
    assert_eq!(rt; refusal(alloc, none)?, Some((0, Rule::Limits)));
    let mut huge = program(alloc, List::new(alloc))?;
    huge.chares = 9_223_372_036_854_775_807;
    huge.vars.push(VarDecl {
        name: GO,
        cells: None,
    })?;
    assert_eq!(rt; refusal(alloc, huge)?, Some((0, Rule::TwiceDeclared)));
    Ok(())
}

#[test]
fn an_accepted_program_tells_its_names_and_numbers(rt: HostRuntime) -> Result<(), Fail> {
    let alloc = rt.alloc();
    let inside = list_of(alloc, serial(alloc, Act::Work(Expr::This))?)?;
    let last = serial(alloc, Act::Emit(Expr::Var(X)))?;
    let program = program(alloc, two_of(alloc, Stmt::Seq(inside), last)?)?;
    if !is_whole(&program) {
        return Ok(());
    }
    let Ok(accepted) = check(alloc, program) else {
        return Ok(());
    };
    assert_eq!(rt; accepted.kind(GO), Kind::Entry(0, 1));
    assert_eq!(rt; accepted.cells(), 4);
    assert_eq!(rt; accepted.program().chares, 2);
    assert!(rt; statements(&accepted.program().body) == 3);
    assert_eq!(rt; accepted.after(1), 3);
    assert_eq!(rt; accepted.after(2), 3);
    assert_eq!(rt; accepted.after(3), 4);
    Ok(())
}
