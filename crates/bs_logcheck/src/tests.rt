// Logs with one change, whose first broken line was worked out by hand.
use crate::{Broken, LogRule, first_broken, is_short, is_sound};
use bs_log::{Key, Log, MailRef, Row, Sent, WaitRow};
use bs_tree::List;
use std::alloc::{AllocError, Global};
use std::process::Abort;
use std::test::Fail;

// The log of two chares that send to each other, which docs/log.md shows, with one change or none.
#[derive(Clone, Copy, Drop)]
struct Change {
    sent: Sent,
    depth: u32,
    after: u32,
    mail: MailRef,
    again: bool,
    awaits: bool,
}

const GO: Key = Key {
    entry: 0,
    reference: 7,
};

const NONE: Change = Change {
    sent: Sent {
        to: 1,
        key: GO,
        bytes: 8,
        offset: 4,
    },
    depth: 2,
    after: 1,
    mail: MailRef { row: 3, index: 1 },
    again: false,
    awaits: false,
};

const BACK: Sent = Sent {
    to: 0,
    key: GO,
    bytes: 8,
    offset: 4,
};

fn list_of<T: Drop>(alloc: Global, item: T) -> Result<List<T>, AllocError> {
    let mut list = List::new(alloc);
    list.push(item)?;
    Ok(list)
}

fn sender(alloc: Global, chare: u32, sends: List<Sent>) -> Row {
    Row {
        chare,
        stmt: 1,
        depth: 1,
        cost: 4,
        after: List::new(alloc),
        mail: List::new(alloc),
        emits: List::new(alloc),
        sends,
    }
}

fn receiver(
    alloc: Global,
    chare: u32,
    depth: u32,
    after: u32,
    mail: MailRef,
) -> Result<Row, AllocError> {
    Ok(Row {
        chare,
        stmt: 3,
        depth,
        cost: 3,
        after: list_of(alloc, after)?,
        mail: list_of(alloc, mail)?,
        emits: list_of(alloc, 0)?,
        sends: List::new(alloc),
    })
}

fn log_with(alloc: Global, change: Change) -> Result<Log, AllocError> {
    let mut rows = List::new(alloc);
    rows.push(sender(alloc, 0, list_of(alloc, change.sent)?))?;
    let mail = change.mail;
    rows.push(receiver(alloc, 0, change.depth, change.after, mail)?)?;
    let mut sends = list_of(alloc, BACK)?;
    if change.again {
        sends.push(BACK)?;
    }
    rows.push(sender(alloc, 1, sends))?;
    rows.push(receiver(alloc, 1, 2, 3, MailRef { row: 1, index: 1 })?)?;
    let mut waits = List::new(alloc);
    if change.awaits {
        waits.push(WaitRow {
            chare: 0,
            stmt: 3,
            key: GO,
        })?;
    }
    Ok(Log {
        chares: 2,
        entries: 1,
        rows,
        traps: List::new(alloc),
        waits,
    })
}

fn found_in(rt: &(impl Abort + AllocGlobal), log: &Log) -> Result<Option<Broken>, Fail> {
    let is_short = is_short(log);
    assert!(rt; is_short);
    let found = first_broken(rt.alloc(), log)?;
    assert_eq!(rt; is_sound(rt.alloc(), log)?, found.is_none());
    Ok(found)
}

fn expect(
    rt: &(impl Abort + AllocGlobal),
    change: Change,
    line: u64,
    rule: LogRule,
) -> Result<(), Fail> {
    let log = log_with(rt.alloc(), change)?;
    assert_eq!(rt; found_in(rt, &log)?, Some(Broken { line, rule }));
    Ok(())
}

#[test]
fn the_log_of_two_chares_is_sound(rt: HostRuntime) -> Result<(), Fail> {
    let log = log_with(rt.alloc(), NONE)?;
    assert_eq!(rt; found_in(&rt, &log)?, None);
    Ok(())
}

#[test]
fn a_send_of_no_chare_or_behind_the_block(rt: HostRuntime) -> Result<(), Fail> {
    let mut change = NONE;
    change.sent.to = 2;
    expect(&rt, change, 4, LogRule::BadReference)?;
    let mut change = NONE;
    change.sent.offset = 5;
    expect(&rt, change, 4, LogRule::BadReference)
}

#[test]
fn a_depth_that_is_too_great(rt: HostRuntime) -> Result<(), Fail> {
    let mut change = NONE;
    change.depth = 3;
    expect(&rt, change, 5, LogRule::BadDepth)
}

// The row itself has a depth, so its own line is the first that is wrong; row 9 isn't there.
#[test]
fn a_block_cause_that_is_no_earlier_row(rt: HostRuntime) -> Result<(), Fail> {
    let mut change = NONE;
    change.after = 2;
    expect(&rt, change, 5, LogRule::BadDepth)?;
    change.after = 9;
    expect(&rt, change, 6, LogRule::BadReference)
}

#[test]
fn a_message_cause_that_is_no_send(rt: HostRuntime) -> Result<(), Fail> {
    let mut change = NONE;
    change.mail.index = 2;
    expect(&rt, change, 7, LogRule::BadReference)
}

#[test]
fn a_key_that_is_sent_twice_or_also_awaited(rt: HostRuntime) -> Result<(), Fail> {
    let mut change = NONE;
    change.again = true;
    expect(&rt, change, 11, LogRule::TwiceUsed)?;
    let mut change = NONE;
    change.awaits = true;
    expect(&rt, change, 15, LogRule::BadReference)
}

// A row that waits for a message of another one, and sends it a message.
fn half(alloc: Global, chare: u32, to: u32, row: u32) -> Result<Row, AllocError> {
    let sent = Sent {
        to,
        key: Key {
            entry: 0,
            reference: 0,
        },
        bytes: 0,
        offset: 1,
    };
    Ok(Row {
        chare,
        stmt: 1,
        depth: 2,
        cost: 1,
        after: List::new(alloc),
        mail: list_of(alloc, MailRef { row, index: 1 })?,
        emits: List::new(alloc),
        sends: list_of(alloc, sent)?,
    })
}

// Depths rise along causes, so one of two rows that cause each other has a wrong one.
#[test]
fn two_rows_that_cause_each_other(rt: HostRuntime) -> Result<(), Fail> {
    let alloc = rt.alloc();
    let mut rows = list_of(alloc, half(alloc, 0, 1, 2)?)?;
    rows.push(half(alloc, 1, 0, 1)?)?;
    let log = Log {
        chares: 2,
        entries: 1,
        rows,
        traps: List::new(alloc),
        waits: List::new(alloc),
    };
    let broken = Broken {
        line: 3,
        rule: LogRule::BadDepth,
    };
    assert_eq!(rt; found_in(&rt, &log)?, Some(broken));
    Ok(())
}
