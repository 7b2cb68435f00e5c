// The chain of a worked log of four rows, on two processors that take the chares in turn, and a check of it
// with one thing changed.
ghost use Rattle.std.specs.Prelude.{◌≡◌, IfOk};
ghost use Rattle.bs_log.specs.Valid.{IsValid};

use crate::{Chain, ChainFault, ChainRow, ChainRule, Link, chain, chain_text, check_chain};
use bs_log::{Key, Log, MailRef, Row, Sent, valid};
use bs_machine::{Fitted, read_machine};
use bs_settle::plain_times;
use bs_tree::List;
use std::alloc::{AllocError, Global};
use std::test::Fail;

// A message between the two processors takes 5 ticks, and one more for each 64 bytes.
const MACHINE: &str =
    "[torus]\nsizes = [2]\nper_node = 1\n[place]\nkind = \"cycle\"\n[speed]\nnum = 1\nden = 1\n[latency]\nself = 1\nlocal = 1\nbase = 5\nhop = 0\nbytes_num = 1\nbytes_den = 64\n";

const TEXT: &str =
    "chain rows 3 span 28\nrow 2 chare 1 stmt 2 start 0 step 0 first\nrow 4 chare 2 stmt 6 start 8 step 8 mail 2 2\nrow 1 chare 0 stmt 6 start 18 step 10 proc 4\nlast 10\n";

fn mail(row: u32, index: u32) -> MailRef {
    MailRef { row, index }
}

fn sent(to: u32, entry: u32, bytes: u64, offset: u64) -> Sent {
    Sent {
        to,
        key: Key {
            entry,
            reference: 0,
        },
        bytes,
        offset,
    }
}

fn row(
    alloc: Global,
    chare: u32,
    stmt: u32,
    depth: u32,
    cost: u64,
    after: &[u32],
    mail: &[MailRef],
    sends: &[Sent],
) -> Result<Row, AllocError> {
    Ok(Row {
        chare,
        stmt,
        depth,
        cost,
        after: List::from_vec(after.to_vec(alloc)?),
        mail: List::from_vec(mail.to_vec(alloc)?),
        emits: List::new(alloc),
        sends: List::from_vec(sends.to_vec(alloc)?),
    })
}

// Chare 1 sends a long message to chare 0 and a short one to chare 2, each of which works for 10. Chare 2
// then sends word to chare 1.
fn worked_rows(alloc: Global) -> Result<List<Row>, AllocError> {
    let sends = [sent(0, 0, 640, 1), sent(2, 0, 8, 2)];
    let mut rows = List::new(alloc);
    rows.push(row(alloc, 0, 6, 2, 10, &[], &[mail(2, 1)], &[])?)?;
    rows.push(row(alloc, 1, 2, 1, 2, &[], &[], &sends)?)?;
    rows.push(row(alloc, 1, 4, 3, 1, &[2], &[mail(4, 1)], &[])?)?;
    rows.push(row(alloc, 2, 6, 2, 10, &[], &[mail(2, 2)], &[sent(1, 1, 0, 10)])?)?;
    Ok(rows)
}

fn log_of(alloc: Global, rows: List<Row>) -> Result<Log, Fail>
    ensures { IfOk result IsValid }
{
    let log = Log {
        chares: 3,
        entries: 2,
        rows,
        traps: List::new(alloc),
        waits: List::new(alloc),
    };
    if valid(&log) {
        Ok(log)
    } else {
        Err("not valid".into())
    }
}

fn worked_machine(alloc: Global, log: &Log) -> Result<Fitted, Fail>
    ensures { IfOk result (λ machine. machine.chares ≡ log.now.chares) }
{
    match read_machine(alloc, MACHINE.as_bytes()) {
        Ok(machine) => match machine.fit(3) {
            Ok(fitted) if fitted.chares == log.chares => Ok(fitted),
            _ => Err("not fitted".into()),
        },
        Err(_) => Err("not read".into()),
    }
}

// What the text of a log's chain is.
fn text_of(alloc: Global, log: &Log) -> Result<Vec<u8>, Fail>
    requires { IsValid log.now }
{
    let machine = worked_machine(alloc, log)?;
    let times = plain_times(alloc, log, &machine)?;
    let chain = chain(alloc, log, &machine, &times)?;
    let text = chain_text(alloc, log, &chain)?;
    Ok(text)
}

#[test]
fn the_text_of_a_chain(rt: HostRuntime) -> Result<(), Fail> {
    let alloc = rt.alloc();
    let log = log_of(alloc, worked_rows(alloc)?)?;
    assert_eq!(rt; text_of(alloc, &log)?.as_slice(), TEXT.as_bytes());
    let none = log_of(alloc, List::new(alloc))?;
    let empty = "chain rows 0 span 0\nlast 0\n";
    assert_eq!(rt; text_of(alloc, &none)?.as_slice(), empty.as_bytes());
    Ok(())
}

// What is found of a chain of the worked log that has these three rows.
fn checked(
    alloc: Global,
    first: ChainRow,
    second: ChainRow,
    third: ChainRow,
    rest: u128,
    span: u128,
) -> Result<Result<(), ChainFault>, Fail> {
    let log = log_of(alloc, worked_rows(alloc)?)?;
    let machine = worked_machine(alloc, &log)?;
    let times = plain_times(alloc, &log, &machine)?;
    let mut rows = List::new(alloc);
    rows.push(first)?;
    rows.push(second)?;
    rows.push(third)?;
    let chain = Chain { rows, rest, span };
    Ok(check_chain(&log, &machine, &times, &chain))
}

fn at(row: u32, start: u128, step: u128, link: Link) -> ChainRow {
    ChainRow {
        row,
        start,
        step,
        link,
    }
}

fn fault(place: u32, rule: ChainRule) -> Result<(), ChainFault> {
    Err(ChainFault { place, rule })
}

#[test]
fn the_first_broken_rule_is_told(rt: HostRuntime) -> Result<(), Fail> {
    let alloc = rt.alloc();
    let one = at(2, 0, 0, Link::First);
    let two = at(4, 8, 8, Link::Mail(mail(2, 2)));
    let three = at(1, 18, 10, Link::Processor(4));
    assert_eq!(rt; checked(alloc, one, two, three, 10, 28)?, Ok(()));
    let other = at(4, 8, 9, Link::Mail(mail(2, 2)));
    assert_eq!(rt;
        checked(alloc, one, other, three, 10, 28)?,
        fault(1, ChainRule::BadStep)
    );
    let gone = at(5, 18, 10, Link::Processor(4));
    assert_eq!(rt;
        checked(alloc, one, two, gone, 10, 28)?,
        fault(2, ChainRule::BadRow)
    );
    let late = at(2, 1, 0, Link::First);
    assert_eq!(rt;
        checked(alloc, late, two, three, 10, 28)?,
        fault(0, ChainRule::BadStart)
    );
    let jump = at(1, 18, 10, Link::Processor(3));
    assert_eq!(rt;
        checked(alloc, one, two, jump, 10, 28)?,
        fault(2, ChainRule::BadLink)
    );
    assert_eq!(rt;
        checked(alloc, one, two, three, 10, 29)?,
        fault(3, ChainRule::BadEnd)
    );
    Ok(())
}
