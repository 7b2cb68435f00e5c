use crate::print;
use bs_tree::{Act, Boxed, EntryDecl, Expr, List, Name, NameId, Op2, Program, Stmt, VarDecl, Wait};
use std::alloc::{AllocError, Global};
use std::test::Fail;

fn two(alloc: Global, op: Op2, left: Expr, right: Expr) -> Result<Expr, AllocError> {
    Ok(Expr::Two(op, Boxed::new(alloc, left)?, Boxed::new(alloc, right)?))
}

fn list_of<T: Drop>(alloc: Global, item: T) -> Result<List<T>, AllocError> {
    let mut list = List::new(alloc);
    list.push(item)?;
    Ok(list)
}

// A program of one chare with this body and the one name `x`.
fn program(alloc: Global, body: List<Stmt>) -> Result<Program, AllocError> {
    Ok(Program {
        chares: 1,
        names: list_of(alloc, Name(List::from_vec(b"x".to_vec(alloc)?)))?,
        vars: List::new(alloc),
        entries: List::new(alloc),
        body,
    })
}

// Whether `emit` of the expression is printed so.
fn prints(alloc: Global, x: Expr, want: &[u8]) -> Result<bool, AllocError> {
    let acts = list_of(alloc, Act::Emit(x))?;
    let text = print(alloc, &program(alloc, list_of(alloc, Stmt::Serial(acts))?)?)?;
    let before = b"chares 1 ; body { serial { emit ";
    let after = b" ; } }\n";
    let mut whole = before.to_vec(alloc)?;
    whole.extend_from_slice(want)?;
    whole.extend_from_slice(after)?;
    Ok(text.as_slice() == whole.as_slice())
}

// (1 + 2) * 3 - (4 - 5)
fn difference(alloc: Global) -> Result<Expr, AllocError> {
    let sum = two(alloc, Op2::Add, Expr::Number(1), Expr::Number(2))?;
    let product = two(alloc, Op2::Mul, sum, Expr::Number(3))?;
    let rest = two(alloc, Op2::Sub, Expr::Number(4), Expr::Number(5))?;
    two(alloc, Op2::Sub, product, rest)
}

// 1 - 2 - 3
fn to_the_left(alloc: Global) -> Result<Expr, AllocError> {
    let left = two(alloc, Op2::Sub, Expr::Number(1), Expr::Number(2))?;
    two(alloc, Op2::Sub, left, Expr::Number(3))
}

// 1 + (2 + 3)
fn to_the_right(alloc: Global) -> Result<Expr, AllocError> {
    let right = two(alloc, Op2::Add, Expr::Number(2), Expr::Number(3))?;
    two(alloc, Op2::Add, Expr::Number(1), right)
}

// -(-1)
fn signs(alloc: Global) -> Result<Expr, AllocError> {
    let inner = Expr::Neg(Boxed::new(alloc, Expr::Number(1))?);
    Ok(Expr::Neg(Boxed::new(alloc, inner)?))
}

// (this == 0) == 1
fn comparisons(alloc: Global) -> Result<Expr, AllocError> {
    let first = two(alloc, Op2::Eq, Expr::This, Expr::Number(0))?;
    two(alloc, Op2::Eq, first, Expr::Number(1))
}

// !x[chares] && x
fn both(alloc: Global) -> Result<Expr, AllocError> {
    let cell = Expr::At(NameId(0), Boxed::new(alloc, Expr::Chares)?);
    let not = Expr::Not(Boxed::new(alloc, cell)?);
    two(alloc, Op2::And, not, Expr::Var(NameId(0)))
}

#[test]
fn parentheses_stand_where_a_tree_needs_them(rt: HostRuntime) -> Result<(), Fail> {
    let alloc = rt.alloc();
    assert!(rt; prints(alloc, difference(alloc)?, b"( 1 + 2 ) * 3 - ( 4 - 5 )")?);
    assert!(rt; prints(alloc, to_the_left(alloc)?, b"1 - 2 - 3")?);
    assert!(rt; prints(alloc, to_the_right(alloc)?, b"1 + ( 2 + 3 )")?);
    assert!(rt; prints(alloc, signs(alloc)?, b"- ( - 1 )")?);
    assert!(rt; prints(alloc, comparisons(alloc)?, b"( this == 0 ) == 1")?);
    assert!(rt; prints(alloc, both(alloc)?, b"! x [ chares ] && x")?);
    Ok(())
}

const X: NameId = NameId(0);

const GO: NameId = NameId(1);

const CELLS: NameId = NameId(2);

fn names(alloc: Global) -> Result<List<Name>, AllocError> {
    let mut names = list_of(alloc, Name(List::from_vec(b"x".to_vec(alloc)?)))?;
    names.push(Name(List::from_vec(b"go".to_vec(alloc)?)))?;
    names.push(Name(List::from_vec(b"cells".to_vec(alloc)?)))?;
    Ok(names)
}

fn vars(alloc: Global) -> Result<List<VarDecl>, AllocError> {
    let mut vars = list_of(
        alloc,
        VarDecl {
            name: X,
            cells: None,
        },
    )?;
    vars.push(VarDecl {
        name: CELLS,
        cells: Some(3),
    })?;
    Ok(vars)
}

fn acts(alloc: Global) -> Result<List<Act>, AllocError> {
    let mut values = list_of(alloc, Expr::Number(1))?;
    values.push(Expr::Var(X))?;
    let to = two(alloc, Op2::Sub, Expr::Number(1), Expr::This)?;
    let other = list_of(alloc, Act::Emit(Expr::Var(X)))?;
    let mut acts = list_of(alloc, Act::Set(X, Expr::Number(1)))?;
    acts.push(Act::SetAt(CELLS, Expr::Number(0), Expr::Var(X)))?;
    acts.push(Act::Send(GO, Expr::Number(7), values, to, Some(Expr::Number(8))))?;
    acts.push(Act::Work(Expr::Number(3)))?;
    acts.push(Act::If(Expr::Var(X), List::new(alloc), Some(other)))?;
    acts.push(Act::Repeat(Expr::Number(2), List::new(alloc)))?;
    Ok(acts)
}

fn statements(alloc: Global) -> Result<List<Stmt>, AllocError> {
    let mut waits = list_of(
        alloc,
        Wait {
            entry: GO,
            reference: Expr::Number(7),
            params: list_of(alloc, X)?,
        },
    )?;
    waits.push(Wait {
        entry: GO,
        reference: Expr::Number(8),
        params: List::new(alloc),
    })?;
    let test = two(alloc, Op2::Lt, Expr::Var(X), Expr::Number(3))?;
    let next = two(alloc, Op2::Add, Expr::Var(X), Expr::Number(1))?;
    let block = list_of(alloc, Stmt::Seq(List::new(alloc)))?;
    let mut body = list_of(alloc, Stmt::Serial(acts(alloc)?))?;
    body.push(Stmt::When(waits, List::new(alloc)))?;
    body.push(Stmt::Overlap(List::new(alloc)))?;
    body.push(Stmt::For(X, Expr::Number(0), test, X, next, List::new(alloc)))?;
    body.push(Stmt::While(Expr::Var(X), List::new(alloc)))?;
    body.push(Stmt::If(Expr::Var(X), List::new(alloc), Some(block)))?;
    Ok(body)
}

#[test]
fn a_whole_program_is_printed(rt: HostRuntime) -> Result<(), Fail> {
    let alloc = rt.alloc();
    let program = Program {
        chares: 2,
        names: names(alloc)?,
        vars: vars(alloc)?,
        entries: list_of(
            alloc,
            EntryDecl {
                name: GO,
                params: 1,
            },
        )?,
        body: statements(alloc)?,
    };
    let text = print(alloc, &program)?;
    let want: &[u8] =
        b"chares 2 ; var x ; var cells [ 3 ] ; entry go ( 1 ) ; body { serial { x = 1 ; cells [ 0 ] = x ; send go [ 7 ] ( 1 , x ) to 1 - this bytes 8 ; work 3 ; if ( x ) { } else { emit x ; } repeat 2 { } } when go [ 7 ] ( x ) , go [ 8 ] ( ) { } overlap { } for ( x = 0 ; x < 3 ; x = x + 1 ) { } while ( x ) { } if ( x ) { } else { { } } }\n";
    assert_eq!(rt; text.as_slice(), want);
    Ok(())
}
