use crate::{
    Act, Boxed, Expr, List, Name, NameId, Op2, Stmt, Wait, reads, spends, statements, writes,
};
use std::alloc::{AllocError, Global};
use std::test::Fail;

#[test]
fn a_list_keeps_its_items_in_order(rt: HostRuntime) -> Result<(), Fail> {
    let mut list = List::new(rt.alloc());
    assert!(rt; list.as_slice().is_empty());
    list.push(3u32)?;
    list.push(1)?;
    assert_eq!(rt; list.as_slice(), [3, 1].as_slice());
    assert!(rt; list.push_or_return(4).is_ok());
    assert_eq!(rt; list.as_slice(), [3, 1, 4].as_slice());
    let items = list.into_vec();
    assert_eq!(rt; List::from_vec(items).as_slice(), [3, 1, 4].as_slice());
    Ok(())
}

fn list_of<T: Drop>(alloc: Global, item: T) -> Result<List<T>, AllocError> {
    let mut list = List::new(alloc);
    list.push(item)?;
    Ok(list)
}

// when go[1 - this](x) { serial { emit x; } } and, beside it, if (x) { serial { } } else { { } }
fn body(alloc: Global) -> Result<List<Stmt>, AllocError> {
    let (x, go) = (NameId(0), NameId(1));
    let one = Boxed::new(alloc, Expr::Number(1))?;
    let this = Boxed::new(alloc, Expr::This)?;
    let wait = Wait {
        entry: go,
        reference: Expr::Two(Op2::Sub, one, this),
        params: list_of(alloc, x)?,
    };
    let emit = Stmt::Serial(list_of(alloc, Act::Emit(Expr::Var(x)))?);
    let mut body = list_of(
        alloc,
        Stmt::When(list_of(alloc, wait)?, list_of(alloc, emit)?),
    )?;
    let nothing = Stmt::Serial(List::new(alloc));
    let block = Stmt::Seq(List::new(alloc));
    body.push(Stmt::If(
        Expr::Var(x),
        list_of(alloc, nothing)?,
        Some(list_of(alloc, block)?),
    ))?;
    Ok(body)
}

#[test]
fn each_statement_counts_once(rt: HostRuntime) -> Result<(), Fail> {
    assert_eq!(rt; statements(&List::new(rt.alloc())), 0);
    assert_eq!(rt; statements(&body(rt.alloc())?), 5);
    Ok(())
}

#[test]
fn a_wait_writes_its_parameters_and_an_expression_is_read(rt: HostRuntime) -> Result<(), Fail> {
    let (x, go) = (NameId(0), NameId(1));
    let body = body(rt.alloc())?;
    let [wait, choice] = body.as_slice() else {
        return Ok(());
    };
    assert_eq!(rt; (writes(wait, x), reads(wait, x)), (true, true));
    assert_eq!(rt; (writes(choice, x), reads(choice, x)), (false, true));
    assert_eq!(rt; (writes(wait, go), reads(wait, go)), (false, false));
    Ok(())
}

#[test]
fn a_statement_spends_where_each_way_through_it_does(rt: HostRuntime) -> Result<(), Fail> {
    let body = body(rt.alloc())?;
    let [wait, choice] = body.as_slice() else {
        return Ok(());
    };
    assert_eq!(rt; (spends(wait), spends(choice)), (true, false));
    Ok(())
}

#[test]
fn names_are_bytes(rt: HostRuntime) -> Result<(), Fail> {
    let name = Name(List::from_vec(b"go".to_vec(rt.alloc())?));
    assert_eq!(rt; name.0.as_slice(), b"go".as_slice());
    Ok(())
}
