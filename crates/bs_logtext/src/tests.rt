// Texts of logs that were worked out by hand.
use crate::{has_words, write_log};
use bs_log::{Key, Log, MailRef, Row, Sent, TrapKind, TrapRow, WaitRow, valid};
use bs_tree::List;
use std::alloc::{AllocError, Global};
use std::process::Abort;
use std::test::Fail;

fn list_of<T: Drop>(alloc: Global, item: T) -> Result<List<T>, AllocError> {
    let mut list = List::new(alloc);
    list.push(item)?;
    Ok(list)
}

// A block that works for 3 and sends its number.
fn sender(alloc: Global, chare: u32, to: u32) -> Result<Row, AllocError> {
    let key = Key {
        entry: 0,
        reference: 7,
    };
    let sent = Sent {
        to,
        key,
        bytes: 8,
        offset: 4,
    };
    Ok(Row {
        chare,
        stmt: 1,
        depth: 1,
        cost: 4,
        after: List::new(alloc),
        mail: List::new(alloc),
        emits: List::new(alloc),
        sends: list_of(alloc, sent)?,
    })
}

// A block that emits the number of the other chare.
fn receiver(alloc: Global, chare: u32, after: u32, row: u32) -> Result<Row, AllocError> {
    Ok(Row {
        chare,
        stmt: 3,
        depth: 2,
        cost: 3,
        after: list_of(alloc, after)?,
        mail: list_of(alloc, MailRef { row, index: 1 })?,
        emits: list_of(alloc, 1 - i64::from(chare))?,
        sends: List::new(alloc),
    })
}

fn expect(rt: &(impl Abort + AllocGlobal), log: &Log, want: &str) -> Result<(), Fail> {
    let is_valid = valid(log);
    assert!(rt; is_valid);
    has_words(log);
    assert_eq!(rt; write_log(rt.alloc(), log)?.as_slice(), want.as_bytes());
    Ok(())
}

#[test]
fn two_chares_that_send_to_each_other(rt: HostRuntime) -> Result<(), Fail> {
    let alloc = rt.alloc();
    let mut rows = List::new(alloc);
    rows.push(sender(alloc, 0, 1)?)?;
    rows.push(receiver(alloc, 0, 1, 3)?)?;
    rows.push(sender(alloc, 1, 0)?)?;
    rows.push(receiver(alloc, 1, 3, 1)?)?;
    let log = Log {
        chares: 2,
        entries: 1,
        rows,
        traps: List::new(alloc),
        waits: List::new(alloc),
    };
    let want = "bslog 1
chares 2 entries 1 rows 4
row 0 1 1 4
send 1 0 7 8 4
row 0 3 2 3
after 1
mail 3 1
emit 1
row 1 1 1 4
send 0 0 7 8 4
row 1 3 2 3
after 3
mail 1 1
emit 0
end
";
    expect(&rt, &log, want)
}

fn wait(entry: u32, reference: i64) -> WaitRow {
    let key = Key { entry, reference };
    WaitRow {
        chare: 0,
        stmt: 1,
        key,
    }
}

// One chare that waits for two messages which nobody sends.
#[test]
fn two_waits_without_rows(rt: HostRuntime) -> Result<(), Fail> {
    let alloc = rt.alloc();
    let waits = vec![in alloc; wait(0, 7), wait(1, -7)]?;
    let log = Log {
        chares: 1,
        entries: 2,
        rows: List::new(alloc),
        traps: List::new(alloc),
        waits: List::from_vec(waits),
    };
    let want = "bslog 1
chares 1 entries 2 rows 0
wait 0 1 0 7
wait 0 1 1 -7
end
";
    expect(&rt, &log, want)
}

#[test]
fn a_trap(rt: HostRuntime) -> Result<(), Fail> {
    let alloc = rt.alloc();
    let trap = TrapRow {
        chare: 1,
        stmt: 2,
        kind: TrapKind::Steps,
    };
    let log = Log {
        chares: 2,
        entries: 0,
        rows: List::new(alloc),
        traps: list_of(alloc, trap)?,
        waits: List::new(alloc),
    };
    let want = "bslog 1
chares 2 entries 0 rows 0
trap 1 2 8
end
";
    expect(&rt, &log, want)
}
