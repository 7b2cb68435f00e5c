ghost use Rattle.std.specs.Prelude.{◌≡◌, IfOk, IsTrue};
ghost use Rattle.bs_check.specs.Known.{are_counted, are_known, is_known};
ghost use Rattle.bs_block.specs.Example.{example};

use crate::{BlockFault, Env, eval, run_block};
use bs_check::{Accepted, check};
use bs_log::TrapKind;
use bs_tree::{Act, Boxed, EntryDecl, Expr, List, Name, NameId, Op2, Program, VarDecl};
use std::alloc::{AllocError, Global};
use std::process::Abort;
use std::test::Fail;

const X: NameId = NameId(0);

const A: NameId = NameId(1);

const GO: NameId = NameId(2);

// chares 1; var x; var a[3]; entry go(1);
fn program(alloc: Global) -> Result<Program, AllocError>
    ensures { IfOk result (λ program. program ≡ example) }
{
    let names = vec![in alloc;
        Name(List::new(alloc)),
        Name(List::new(alloc)),
        Name(List::new(alloc)),
    ]?;
    let x = VarDecl {
        name: X,
        cells: None,
    };
    let a = VarDecl {
        name: A,
        cells: Some(3),
    };
    let vars = vec![in alloc; x, a]?;
    let entries = vec![in alloc;
        EntryDecl {
            name: GO,
            params: 1
        },
    ]?;
    Ok(Program {
        chares: 1,
        names: List::from_vec(names),
        vars: List::from_vec(vars),
        entries: List::from_vec(entries),
        body: List::new(alloc),
    })
}

fn accepted(alloc: Global) -> Result<Accepted, Fail>
    ensures { IfOk result (λ accepted. accepted.program ≡ example) }
{
    match check(alloc, program(alloc)?) {
        Ok(accepted) => Ok(accepted),
        Err(_) => Err("not accepted".into()),
    }
}

// work 3; send go[7](1) to 0; work 2; emit 5; repeat 2 { work 1; }
fn some_of_each(alloc: Global) -> Result<List<Act>, AllocError>
    ensures { IfOk result (λ acts. IsTrue (are_known example acts) × IsTrue (are_counted example acts)) }
{
    let args = List::from_vec(vec![in alloc; Expr::Number(1)]?);
    let body = List::from_vec(vec![in alloc; Act::Work(Expr::Number(1))]?);
    let acts = vec![in alloc;
        Act::Work(Expr::Number(3)),
        Act::Send(GO, Expr::Number(7), args, Expr::Number(0), None),
        Act::Work(Expr::Number(2)),
        Act::Emit(Expr::Number(5)),
        Act::Repeat(Expr::Number(2), body),
    ]?;
    Ok(List::from_vec(acts))
}

#[test]
fn a_block_has_its_cost_sends_and_values(rt: HostRuntime) -> Result<(), Fail> {
    let alloc = rt.alloc();
    let accepted = accepted(alloc)?;
    let mut env = Env::new(alloc, &accepted, 0)?;
    let acts = some_of_each(alloc)?;
    match run_block(alloc, &accepted, &acts, &mut env) {
        Ok(block) => {
            assert_eq!(rt; block.cost, 8);
            assert_eq!(rt; block.emits.as_slice(), [5].as_slice());
            match block.sends.as_slice() {
                [send] => {
                    assert_eq!(rt; send.sent.to, 0);
                    assert_eq!(rt; send.sent.key.entry, 0);
                    assert_eq!(rt; send.sent.key.reference, 7);
                    assert_eq!(rt; send.sent.bytes, 8);
                    assert_eq!(rt; send.sent.offset, 4);
                    assert_eq!(rt; send.args.as_slice(), [1].as_slice());
                }
                _ => return Err("not one message".into()),
            }
        }
        Err(_) => return Err("no block".into()),
    }
    Ok(())
}

fn two(alloc: Global, op: Op2, left: Expr, right: Expr) -> Result<Expr, AllocError>
    requires left { IsTrue (is_known example left) }
    requires right { IsTrue (is_known example right) }
    ensures { IfOk result (λ expr. IsTrue (is_known example expr)) }
{
    Ok(Expr::Two(op, Boxed::new(alloc, left)?, Boxed::new(alloc, right)?))
}

fn negative(alloc: Global, number: i64) -> Result<Expr, AllocError>
    ensures { IfOk result (λ expr. IsTrue (is_known example expr)) }
{
    Ok(Expr::Neg(Boxed::new(alloc, Expr::Number(number))?))
}

// 1 / 0
fn trapping(alloc: Global) -> Result<Expr, AllocError>
    ensures { IfOk result (λ expr. IsTrue (is_known example expr)) }
{
    two(alloc, Op2::Div, Expr::Number(1), Expr::Number(0))
}

// The value of an expression where x is 4 and each cell of a is 0.
fn value(alloc: Global, expr: &Expr) -> Result<Result<i64, TrapKind>, Fail>
    requires { IsTrue (is_known example expr.now) }
{
    let accepted = accepted(alloc)?;
    let mut env = Env::new(alloc, &accepted, 0)?;
    env.set(0, 4);
    Ok(eval(&accepted, expr, &env))
}

#[test]
fn the_left_operand_may_decide(rt: HostRuntime) -> Result<(), Fail> {
    let alloc = rt.alloc();
    let or = two(alloc, Op2::Or, Expr::Var(X), trapping(alloc)?)?;
    assert_eq!(rt; value(alloc, &or)?, Ok(1));
    let and = two(alloc, Op2::And, Expr::This, trapping(alloc)?)?;
    assert_eq!(rt; value(alloc, &and)?, Ok(0));
    let both = two(alloc, Op2::And, Expr::Chares, trapping(alloc)?)?;
    assert_eq!(rt; value(alloc, &both)?, Err(TrapKind::ZeroDivisor));
    Ok(())
}

#[test]
fn division_truncates(rt: HostRuntime) -> Result<(), Fail> {
    let alloc = rt.alloc();
    let quotient = two(alloc, Op2::Div, negative(alloc, 7)?, Expr::Number(2))?;
    assert_eq!(rt; value(alloc, &quotient)?, Ok(-3));
    let remainder = two(alloc, Op2::Rem, negative(alloc, 7)?, Expr::Number(2))?;
    assert_eq!(rt; value(alloc, &remainder)?, Ok(-1));
    Ok(())
}

// -9223372036854775807 - 1 and, after the operator, -1.
fn least_by_minus_one(alloc: Global, op: Op2) -> Result<Expr, AllocError>
    ensures { IfOk result (λ expr. IsTrue (is_known example expr)) }
{
    let least = two(alloc, Op2::Sub, negative(alloc, i64::MAX)?, Expr::Number(1))?;
    two(alloc, op, least, negative(alloc, 1)?)
}

#[test]
fn the_least_number_by_minus_one(rt: HostRuntime) -> Result<(), Fail> {
    let alloc = rt.alloc();
    let quotient = least_by_minus_one(alloc, Op2::Div)?;
    assert_eq!(rt; value(alloc, &quotient)?, Err(TrapKind::Overflow));
    let remainder = least_by_minus_one(alloc, Op2::Rem)?;
    assert_eq!(rt; value(alloc, &remainder)?, Err(TrapKind::Overflow));
    Ok(())
}

// The trap of a block, if it traps, and what x holds after it where it was 4.
fn trap(alloc: Global, acts: &List<Act>) -> Result<(Option<TrapKind>, i64), Fail>
    requires known { IsTrue (are_known example acts.now) }
    requires counted { IsTrue (are_counted example acts.now) }
{
    let accepted = accepted(alloc)?;
    let mut env = Env::new(alloc, &accepted, 0)?;
    env.set(0, 4);
    match run_block(alloc, &accepted, acts, &mut env) {
        Ok(_) => Ok((None, env.copy(alloc)?.get(0))),
        Err(BlockFault::Trap(kind)) => Ok((Some(kind), env.copy(alloc)?.get(0))),
        Err(BlockFault::Memory) => Err("no memory".into()),
    }
}

// repeat TURNS { }
fn turns(alloc: Global, turns: i64) -> Result<List<Act>, AllocError>
    ensures { IfOk result (λ acts. IsTrue (are_known example acts) × IsTrue (are_counted example acts)) }
{
    let repeat = Act::Repeat(Expr::Number(turns), List::new(alloc));
    Ok(List::from_vec(vec![in alloc; repeat]?))
}

#[test]
fn steps_are_few(rt: HostRuntime) -> Result<(), Fail> {
    let alloc = rt.alloc();
    assert_eq!(rt; trap(alloc, &turns(alloc, 99_999)?)?, (None, 4));
    assert_eq!(rt;
        trap(alloc, &turns(alloc, 100_000)?)?,
        (Some(TrapKind::Steps), 4)
    );
    assert_eq!(rt;
        trap(alloc, &turns(alloc, i64::MAX)?)?,
        (Some(TrapKind::Steps), 4)
    );
    Ok(())
}

#[test]
fn a_trap_gives_the_cells_back(rt: HostRuntime) -> Result<(), Fail> {
    let alloc = rt.alloc();
    let acts = vec![in alloc;
        Act::Work(Expr::Number(1)),
        Act::Set(X, Expr::Number(9)),
        Act::Set(X, trapping(alloc)?),
    ]?;
    let acts = List::from_vec(acts);
    assert_eq!(rt; trap(alloc, &acts)?, (Some(TrapKind::ZeroDivisor), 4));
    Ok(())
}

#[test]
fn the_value_comes_before_the_index(rt: HostRuntime) -> Result<(), Fail> {
    let alloc = rt.alloc();
    let beyond = vec![in alloc; Act::SetAt(A, Expr::Number(3), trapping(alloc)?)]?;
    let acts = List::from_vec(beyond);
    assert_eq!(rt; trap(alloc, &acts)?, (Some(TrapKind::ZeroDivisor), 4));
    let beyond = vec![in alloc; Act::SetAt(A, Expr::Number(3), Expr::Number(1))]?;
    let acts = List::from_vec(beyond);
    assert_eq!(rt; trap(alloc, &acts)?, (Some(TrapKind::Index), 4));
    Ok(())
}

// send go[0](1) to TARGET bytes BYTES;
fn sending(alloc: Global, target: i64, bytes: i64) -> Result<List<Act>, AllocError>
    ensures { IfOk result (λ acts. IsTrue (are_known example acts) × IsTrue (are_counted example acts)) }
{
    let args = List::from_vec(vec![in alloc; Expr::Number(1)]?);
    let send = Act::Send(
        GO,
        Expr::Number(0),
        args,
        Expr::Number(target),
        Some(Expr::Number(bytes)),
    );
    Ok(List::from_vec(vec![in alloc; send]?))
}

#[test]
fn the_target_comes_before_the_bytes(rt: HostRuntime) -> Result<(), Fail> {
    let alloc = rt.alloc();
    assert_eq!(rt;
        trap(alloc, &sending(alloc, 1, -1)?)?,
        (Some(TrapKind::Target), 4)
    );
    assert_eq!(rt;
        trap(alloc, &sending(alloc, 0, -1)?)?,
        (Some(TrapKind::BytesRange), 4)
    );
    assert_eq!(rt; trap(alloc, &sending(alloc, 0, 1_073_741_824)?)?, (None, 4));
    Ok(())
}

// repeat 3 { work 1073741824; } work LAST;
fn working(alloc: Global, last: i64) -> Result<List<Act>, AllocError>
    ensures { IfOk result (λ acts. IsTrue (are_known example acts) × IsTrue (are_counted example acts)) }
{
    let body = List::from_vec(vec![in alloc; Act::Work(Expr::Number(1_073_741_824))]?);
    let acts = vec![in alloc;
        Act::Repeat(Expr::Number(3), body),
        Act::Work(Expr::Number(last)),
    ]?;
    Ok(List::from_vec(acts))
}

#[test]
fn the_amount_comes_before_the_cost(rt: HostRuntime) -> Result<(), Fail> {
    let alloc = rt.alloc();
    // A cost of 2^32, and of one more.
    assert_eq!(rt; trap(alloc, &working(alloc, 1_073_741_823)?)?, (None, 4));
    assert_eq!(rt;
        trap(alloc, &working(alloc, 1_073_741_824)?)?,
        (Some(TrapKind::CostRange), 4)
    );
    // An amount of one more than 2^30, and one less than 0.
    assert_eq!(rt;
        trap(alloc, &working(alloc, 1_073_741_825)?)?,
        (Some(TrapKind::WorkRange), 4)
    );
    assert_eq!(rt;
        trap(alloc, &working(alloc, -1)?)?,
        (Some(TrapKind::WorkRange), 4)
    );
    Ok(())
}
