// Histories that were worked out by hand, and their log.
use crate::{
    Asked, Block, End, History, Key, Log, MailRef, Message, Origin, Row, Sent, WaitAt, collect,
    end, is_closed, size, valid,
};
use bs_tree::{List, Path};
use std::alloc::{AllocError, Global};
use std::process::Abort;
use std::test::Fail;

const GO: Key = Key {
    entry: 0,
    reference: 7,
};

fn path(alloc: Global, places: &[u32]) -> Result<Path, AllocError> {
    Ok(Path(List::from_vec(places.to_vec(alloc)?)))
}

fn list_of<T: Drop>(alloc: Global, item: T) -> Result<List<T>, AllocError> {
    let mut list = List::new(alloc);
    list.push(item)?;
    Ok(list)
}

// The message that a chare sends first.
fn origin(alloc: Global, chare: u32) -> Result<Origin, AllocError> {
    Ok(Origin {
        chare,
        path: path(alloc, &[0])?,
        index: 1,
        depth: 1,
    })
}

// serial { work 3; send go[7](this) to 1 - this; }
fn first(alloc: Global, chare: u32, other: u32) -> Result<Block, AllocError> {
    let message = Message {
        origin: origin(alloc, chare)?,
        sent: Sent {
            to: other,
            key: GO,
            bytes: 8,
            offset: 4,
        },
        args: list_of(alloc, i64::from(chare))?,
    };
    Ok(Block {
        path: path(alloc, &[0])?,
        stmt: 1,
        depth: 1,
        cost: 4,
        after: List::new(alloc),
        mail: List::new(alloc),
        emits: List::new(alloc),
        sends: list_of(alloc, message)?,
    })
}

// when go[7](x) { serial { work 2; emit x; } }
fn second(alloc: Global, other: u32) -> Result<Block, AllocError> {
    Ok(Block {
        path: path(alloc, &[1, 0])?,
        stmt: 3,
        depth: 2,
        cost: 3,
        after: list_of(alloc, path(alloc, &[0])?)?,
        mail: list_of(alloc, origin(alloc, other)?)?,
        emits: list_of(alloc, i64::from(other))?,
        sends: List::new(alloc),
    })
}

fn history(alloc: Global, chare: u32, other: u32) -> Result<History, AllocError> {
    let mut blocks = List::new(alloc);
    blocks.push(first(alloc, chare, other)?)?;
    blocks.push(second(alloc, other)?)?;
    let asked = Asked {
        key: GO,
        path: path(alloc, &[1])?,
        stmt: 2,
    };
    Ok(History {
        blocks,
        asked: list_of(alloc, asked)?,
        waits: List::new(alloc),
        traps: List::new(alloc),
        ended: true,
    })
}

fn expect_row(rt: &impl Abort, row: &Row, place: (u32, u32), after: &[u32], mail: &[MailRef]) {
    assert_eq!(rt; row.chare, place.0);
    assert_eq!(rt; row.stmt, place.1);
    assert_eq!(rt; row.after.as_slice(), after);
    assert_eq!(rt; row.mail.as_slice(), mail);
}

fn expect_log(rt: &impl Abort, log: &Log) {
    let rows = log.rows.as_slice();
    assert!(rt; rows.len() == 4);
    expect_row(rt, &rows[0], (0, 1), &[], &[]);
    expect_row(rt, &rows[1], (0, 3), &[1], &[MailRef { row: 3, index: 1 }]);
    expect_row(rt, &rows[2], (1, 1), &[], &[]);
    expect_row(rt, &rows[3], (1, 3), &[3], &[MailRef { row: 1, index: 1 }]);
}

#[test]
fn two_chares_have_four_rows(rt: HostRuntime) -> Result<(), Fail> {
    let alloc = rt.alloc();
    let histories = [history(alloc, 0, 1)?, history(alloc, 1, 0)?];
    assert_eq!(rt; size(&histories[0]), 7);
    let closed = is_closed(&histories);
    assert!(rt; closed);
    let log = collect(alloc, &histories, 1)?;
    expect_log(&rt, &log);
    let is_valid = valid(&log);
    assert!(rt; is_valid);
    assert_eq!(rt; end(&log), End::Settled);
    Ok(())
}

// One chare that waits for a message which nobody sends.
#[test]
fn a_wait_is_a_deadlock(rt: HostRuntime) -> Result<(), Fail> {
    let alloc = rt.alloc();
    let wait = WaitAt {
        path: path(alloc, &[0])?,
        stmt: 1,
        key: GO,
    };
    let histories = [History {
        blocks: List::new(alloc),
        asked: List::new(alloc),
        waits: list_of(alloc, wait)?,
        traps: List::new(alloc),
        ended: false,
    }];
    let closed = is_closed(&histories);
    assert!(rt; closed);
    let log = collect(alloc, &histories, 1)?;
    assert!(rt; log.rows.as_slice().is_empty());
    assert_eq!(rt; log.waits.as_slice().len(), 1);
    assert_eq!(rt; end(&log), End::Deadlock);
    Ok(())
}

// Without the history of the sender, its message comes from nowhere.
#[test]
fn a_message_of_nobody_is_not_closed(rt: HostRuntime) -> Result<(), Fail> {
    let alloc = rt.alloc();
    assert!(rt; !is_closed(&[history(alloc, 0, 1)?]));
    assert!(rt; !is_closed(&[]));
    Ok(())
}

#[test]
fn a_log_without_chares_is_not_valid(rt: HostRuntime) -> Result<(), Fail> {
    let alloc = rt.alloc();
    let log = Log {
        chares: 0,
        entries: 0,
        rows: List::new(alloc),
        traps: List::new(alloc),
        waits: List::new(alloc),
    };
    let is_valid = valid(&log);
    assert!(rt; !is_valid);
    Ok(())
}
