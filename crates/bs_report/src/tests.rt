// Reports and fault lines against texts that were worked out by hand.
ghost use Rattle.std.specs.Prelude.{IsTrue, ◌↔◌};
ghost use Rattle.bs_log.specs.Reportable.{IsTimed};

use crate::{Fault, end, fault_line, journal, report, trace};
use bs_check::{CheckFault, Rule};
use bs_lex::{LexFault, TokenKind};
use bs_log::{
    End, Key, Log, MailRef, OutRow, Outcome, Row, Sent, TrapKind, TrapRow, WaitRow, valid,
};
use bs_logcheck::LogRule;
use bs_logread::LogFault;
use bs_machine::{Fitted, MachineFault, MachineKey, PlaceLength, read_machine};
use bs_num::Tick;
use bs_parse::ParseFault;
use bs_rounds::{At, Twice};
use bs_settle::{BudgetSpent, Correction, plain_times};
use bs_tree::List;
use std::alloc::{AllocError, Global};
use std::process::Abort;
use std::test::Fail;

// A block: its chare, statement and processor, its start and end, and its value, where it has one.
#[derive(Clone, Copy, Drop)]
struct Ran(u32, u32, u32, u128, u128, Option<i64>);

fn row(alloc: Global, block: Ran) -> Result<OutRow, AllocError> {
    let Ran(chare, stmt, processor, start, end, value) = block;
    let mut values = List::new(alloc);
    if let Some(value) = value {
        values.push(value)?;
    }
    Ok(OutRow {
        chare,
        stmt,
        processor,
        start,
        end,
        values,
    })
}

fn outcome(
    alloc: Global,
    blocks: &[Ran],
    traps: &[TrapRow],
    waits: &[WaitRow],
) -> Result<Outcome, AllocError> {
    let mut rows = List::new(alloc);
    for block in blocks {
        rows.push(row(alloc, *block)?)?;
    }
    Ok(Outcome {
        rows,
        traps: List::from_vec(traps.to_vec(alloc)?),
        waits: List::from_vec(waits.to_vec(alloc)?),
    })
}

fn is_timed(row: &OutRow) -> bool
    ensures { IsTrue result ↔ IsTimed row.now }
{
    row.start < row.end && row.end - row.start <= 1 << 48 && row.end < 1 << 110
}

fn expect(
    rt: &(impl Abort + AllocGlobal),
    outcome: &Outcome,
    ending: End,
    want: &str,
) -> Result<(), Fail> {
    let rows = outcome.rows.as_slice();
    assert!(rt; rows.len() <= 262_144 && rows.iter().all(|row| is_timed(row)));
    assert_eq!(rt; report(rt.alloc(), outcome)?.as_slice(), want.as_bytes());
    assert_eq!(rt; end(outcome), ending);
    Ok(())
}

fn trap(chare: u32, stmt: u32, kind: TrapKind) -> TrapRow {
    TrapRow { chare, stmt, kind }
}

fn wait(chare: u32, stmt: u32, entry: u32, reference: i64) -> WaitRow {
    let key = Key { entry, reference };
    WaitRow { chare, stmt, key }
}

#[test]
fn one_block(rt: HostRuntime) -> Result<(), Fail> {
    let outcome = outcome(rt.alloc(), &[Ran(0, 1, 0, 0, 1, None)], &[], &[])?;
    let want = "status settled
block 1 chare 0 stmt 1 proc 0 start 0 end 1
span 1
proc 0 blocks 1 busy 1 use 10000
";
    expect(&rt, &outcome, End::Settled, want)
}

#[test]
fn an_exchange(rt: HostRuntime) -> Result<(), Fail> {
    let blocks = [
        Ran(0, 1, 0, 0, 4, None),
        Ran(0, 3, 0, 9, 12, Some(1)),
        Ran(1, 1, 1, 0, 4, None),
        Ran(1, 3, 1, 9, 12, Some(0)),
    ];
    let outcome = outcome(rt.alloc(), &blocks, &[], &[])?;
    let want = "status settled
block 1 chare 0 stmt 1 proc 0 start 0 end 4
block 2 chare 0 stmt 3 proc 0 start 9 end 12
value 1
block 3 chare 1 stmt 1 proc 1 start 0 end 4
block 4 chare 1 stmt 3 proc 1 start 9 end 12
value 0
span 12
proc 0 blocks 2 busy 7 use 5833
proc 1 blocks 2 busy 7 use 5833
";
    expect(&rt, &outcome, End::Settled, want)
}

// Three blocks that are ready at once on one processor.
#[test]
fn ties(rt: HostRuntime) -> Result<(), Fail> {
    let blocks = [
        Ran(0, 1, 0, 0, 2, None),
        Ran(1, 1, 0, 2, 4, None),
        Ran(2, 1, 0, 4, 6, None),
    ];
    let outcome = outcome(rt.alloc(), &blocks, &[], &[])?;
    let want = "status settled
block 1 chare 0 stmt 1 proc 0 start 0 end 2
block 2 chare 1 stmt 1 proc 0 start 2 end 4
block 3 chare 2 stmt 1 proc 0 start 4 end 6
span 6
proc 0 blocks 3 busy 6 use 10000
";
    expect(&rt, &outcome, End::Settled, want)
}

// A message that arrives before it is asked for.
#[test]
fn a_buffered_message(rt: HostRuntime) -> Result<(), Fail> {
    let blocks = [
        Ran(0, 2, 0, 0, 4, None),
        Ran(1, 3, 1, 0, 21, None),
        Ran(1, 5, 1, 21, 24, Some(5)),
    ];
    let outcome = outcome(rt.alloc(), &blocks, &[], &[])?;
    let want = "status settled
block 1 chare 0 stmt 2 proc 0 start 0 end 4
block 2 chare 1 stmt 3 proc 1 start 0 end 21
block 3 chare 1 stmt 5 proc 1 start 21 end 24
value 5
span 24
proc 0 blocks 1 busy 4 use 1666
proc 1 blocks 2 busy 24 use 10000
";
    expect(&rt, &outcome, End::Settled, want)
}

// The second processor comes first, and runs between the blocks of the other.
#[test]
fn processors_rise(rt: HostRuntime) -> Result<(), Fail> {
    let blocks = [
        Ran(0, 5, 1, 6, 16, Some(1)),
        Ran(1, 2, 0, 0, 2, None),
        Ran(2, 5, 1, 16, 26, Some(-2)),
    ];
    let outcome = outcome(rt.alloc(), &blocks, &[], &[])?;
    let want = "status settled
block 1 chare 0 stmt 5 proc 1 start 6 end 16
value 1
block 2 chare 1 stmt 2 proc 0 start 0 end 2
block 3 chare 2 stmt 5 proc 1 start 16 end 26
value -2
span 26
proc 0 blocks 1 busy 2 use 769
proc 1 blocks 2 busy 20 use 7692
";
    expect(&rt, &outcome, End::Settled, want)
}

#[test]
fn a_mutual_wait(rt: HostRuntime) -> Result<(), Fail> {
    let outcome = outcome(rt.alloc(), &[], &[], &[wait(0, 1, 0, 0), wait(1, 1, 0, 0)])?;
    let want = "status deadlock
wait chare 0 stmt 1 entry 0 ref 0
wait chare 1 stmt 1 entry 0 ref 0
span 0
";
    expect(&rt, &outcome, End::Deadlock, want)
}

#[test]
fn a_wait_for_another_reference(rt: HostRuntime) -> Result<(), Fail> {
    let blocks = [Ran(0, 1, 0, 0, 4, None), Ran(1, 1, 1, 0, 4, None)];
    let outcome = outcome(
        rt.alloc(),
        &blocks,
        &[],
        &[wait(0, 2, 0, 8), wait(1, 2, 0, 8)],
    )?;
    let want = "status deadlock
block 1 chare 0 stmt 1 proc 0 start 0 end 4
block 2 chare 1 stmt 1 proc 1 start 0 end 4
wait chare 0 stmt 2 entry 0 ref 8
wait chare 1 stmt 2 entry 0 ref 8
span 4
proc 0 blocks 1 busy 4 use 10000
proc 1 blocks 1 busy 4 use 10000
";
    expect(&rt, &outcome, End::Deadlock, want)
}

#[test]
fn a_trap(rt: HostRuntime) -> Result<(), Fail> {
    let blocks = [Ran(0, 1, 0, 0, 2, None), Ran(1, 1, 1, 0, 2, None)];
    let traps = [trap(1, 3, TrapKind::Overflow)];
    let outcome = outcome(rt.alloc(), &blocks, &traps, &[])?;
    let want = "status trapped
block 1 chare 0 stmt 1 proc 0 start 0 end 2
block 2 chare 1 stmt 1 proc 1 start 0 end 2
trap chare 1 stmt 3 overflow
span 2
proc 0 blocks 1 busy 2 use 10000
proc 1 blocks 1 busy 2 use 10000
";
    expect(&rt, &outcome, End::Trapped, want)
}

#[test]
fn traps_stand_before_waits(rt: HostRuntime) -> Result<(), Fail> {
    let traps = [
        trap(0, 2, TrapKind::ZeroDivisor),
        trap(1, 3, TrapKind::Index),
        trap(2, 4, TrapKind::Target),
        trap(3, 5, TrapKind::WorkRange),
        trap(4, 6, TrapKind::BytesRange),
        trap(5, 7, TrapKind::CostRange),
        trap(6, 8, TrapKind::Steps),
    ];
    let outcome = outcome(rt.alloc(), &[], &traps, &[wait(7, 9, 1, -4)])?;
    let want = "status trapped
trap chare 0 stmt 2 divisor
trap chare 1 stmt 3 index
trap chare 2 stmt 4 target
trap chare 3 stmt 5 work
trap chare 4 stmt 6 bytes
trap chare 5 stmt 7 cost
trap chare 6 stmt 8 steps
wait chare 7 stmt 9 entry 1 ref -4
span 0
";
    expect(&rt, &outcome, End::Trapped, want)
}

fn refused(stmt: u32, rule: Rule) -> Fault {
    Fault::CheckFailed(CheckFault::Refused(stmt, rule))
}

fn at(chare: u32, stmt: u32) -> At {
    At { chare, stmt }
}

fn twice(asked: bool, chare: u32, reference: i64, first: At, second: At) -> Twice {
    let key = Key {
        entry: 0,
        reference,
    };
    Twice {
        asked,
        chare,
        key,
        first,
        second,
    }
}

#[test]
fn fault_lines(rt: HostRuntime) -> Result<(), Fail> {
    let cases = [
        (Fault::BadWords, "bad words\n"),
        (
            Fault::BadProgram(ParseFault::Lex(LexFault::NotUtf8(0))),
            "bad program: byte 0 not utf-8\n",
        ),
        (
            Fault::BadProgram(ParseFault::Lex(LexFault::BadCharacter(7))),
            "bad program: byte 7 bad character\n",
        ),
        (
            Fault::BadProgram(ParseFault::Lex(LexFault::BadNumber(30))),
            "bad program: byte 30 bad number\n",
        ),
        (
            Fault::BadProgram(ParseFault::Unexpected(0, TokenKind::End)),
            "bad program: byte 0 unexpected\n",
        ),
        (
            Fault::BadProgram(ParseFault::TooDeep(79)),
            "bad program: byte 79 too deep\n",
        ),
        (
            Fault::BadProgram(ParseFault::TooManyStatements(8)),
            "bad program: byte 8 too many statements\n",
        ),
        (
            refused(1, Rule::UnknownName),
            "check failed: stmt 1 unknown name\n",
        ),
        (
            refused(0, Rule::TwiceDeclared),
            "check failed: stmt 0 declared twice\n",
        ),
        (refused(2, Rule::Arity), "check failed: stmt 2 arity\n"),
        (
            refused(1, Rule::Interference(0, 0, 1)),
            "check failed: stmt 1 interference var 0 parts 0 1\n",
        ),
        (
            refused(1, Rule::IdleLoop),
            "check failed: stmt 1 idle loop\n",
        ),
        (refused(0, Rule::Limits), "check failed: stmt 0 limits\n"),
        (
            Fault::BadMachine(MachineFault::NotToml),
            "bad machine: not toml\n",
        ),
        (
            Fault::BadMachine(MachineFault::UnknownKey),
            "bad machine: unknown key\n",
        ),
        (
            Fault::BadMachine(MachineFault::Missing(MachineKey::TorusSizes)),
            "bad machine: missing torus.sizes\n",
        ),
        (
            Fault::BadMachine(MachineFault::OutOfRange(MachineKey::LatencyBase, Some(0))),
            "bad machine: out of range latency.base\n",
        ),
        (
            Fault::BadPlace(PlaceLength {
                given: 2,
                needed: 3,
            }),
            "bad machine: place length 2 needs 3\n",
        ),
        (
            Fault::BadLog(LogFault::Refused(15, LogRule::BadLine)),
            "bad log: line 15 bad line\n",
        ),
        (
            Fault::BadLog(LogFault::Refused(3, LogRule::BadDepth)),
            "bad log: line 3 bad depth\n",
        ),
        (
            Fault::Ambiguous(twice(false, 1, 0, at(0, 2), at(0, 3))),
            "ambiguous: chare 1 entry 0 ref 0 sent by chare 0 stmt 2 and chare 0 stmt 3\n",
        ),
        (
            Fault::Ambiguous(twice(true, 0, -7, at(0, 2), at(0, 4))),
            "ambiguous: chare 0 entry 0 ref -7 asked by chare 0 stmt 2 and chare 0 stmt 4\n",
        ),
        (Fault::TooLong(2), "too long: limit 2\n"),
        (
            Fault::BudgetSpent(BudgetSpent {
                waves: 1,
                mail: mail(2, 1),
                kept: Tick(0),
                due: Tick(16),
            }),
            "budget spent: waves 1 mail 2 1 kept 0 due 16\n",
        ),
        (Fault::TooBig(1_048_576), "too big: limit 1048576 bytes\n"),
    ];
    for (fault, want) in &cases {
        assert_eq!(rt; fault_line(rt.alloc(), fault)?.as_slice(), want.as_bytes());
    }
    Ok(())
}

fn mail(row: u32, index: u32) -> MailRef {
    MailRef { row, index }
}

fn correction(row: u32, index: u32, was: u128, tick: u128) -> Correction {
    Correction {
        mail: mail(row, index),
        to: 0,
        was: Tick(was),
        tick: Tick(tick),
    }
}

fn wave(alloc: Global, corrections: &[Correction]) -> Result<List<Correction>, AllocError> {
    Ok(List::from_vec(corrections.to_vec(alloc)?))
}

#[test]
fn journals(rt: HostRuntime) -> Result<(), Fail> {
    let alloc = rt.alloc();
    let first = [
        correction(2, 1, 0, 16),
        correction(2, 2, 0, 8),
        correction(4, 1, 0, 25),
    ];
    let waves = [
        wave(alloc, &first)?,
        wave(alloc, &[correction(4, 1, 25, 23)])?,
        wave(alloc, &[])?,
    ];
    let settled = "wave 1
mail 2 1 from 0 to 16
mail 2 2 from 0 to 8
mail 4 1 from 0 to 25
wave 2
mail 4 1 from 25 to 23
wave 3
settled 3
";
    let spent = "wave 1
mail 2 1 from 0 to 16
mail 2 2 from 0 to 8
mail 4 1 from 0 to 25
spent 1
";
    assert_eq!(rt;
        journal(alloc, &waves, true)?.as_slice(),
        settled.as_bytes()
    );
    assert_eq!(rt;
        journal(alloc, &waves[..1], false)?.as_slice(),
        spent.as_bytes()
    );
    Ok(())
}

// A message between the two processors takes 5 ticks, and one more for each 64 bytes.
const MACHINE: &str =
    "[torus]\nsizes = [2]\nper_node = 1\n[place]\nkind = \"cycle\"\n[speed]\nnum = 1\nden = 1\n[latency]\nself = 1\nlocal = 1\nbase = 5\nhop = 0\nbytes_num = 1\nbytes_den = 64\n";

fn worked_machine(alloc: Global) -> Result<Fitted, Fail> {
    match read_machine(alloc, MACHINE.as_bytes()) {
        Ok(machine) => match machine.fit(3) {
            Ok(fitted) => Ok(fitted),
            Err(_) => Err("not fitted".into()),
        },
        Err(_) => Err("not read".into()),
    }
}

fn sent(to: u32, entry: u32, bytes: u64, offset: u64) -> Sent {
    Sent {
        to,
        key: Key {
            entry,
            reference: 0,
        },
        bytes,
        offset,
    }
}

fn log_row(
    alloc: Global,
    chare: u32,
    depth: u32,
    cost: u64,
    after: &[u32],
    mail: &[MailRef],
    sends: &[Sent],
) -> Result<Row, AllocError> {
    Ok(Row {
        chare,
        stmt: depth,
        depth,
        cost,
        after: List::from_vec(after.to_vec(alloc)?),
        mail: List::from_vec(mail.to_vec(alloc)?),
        emits: List::new(alloc),
        sends: List::from_vec(sends.to_vec(alloc)?),
    })
}

fn log(alloc: Global, rows: List<Row>) -> Log {
    Log {
        chares: 3,
        entries: 2,
        rows,
        traps: List::new(alloc),
        waits: List::new(alloc),
    }
}

// Chare 1 sends a long message to chare 0 and a short one to chare 2, each of which works for 10. Chare 2
// then sends word to chare 1.
fn worked_log(alloc: Global) -> Result<Log, AllocError> {
    let sends = [sent(0, 0, 640, 1), sent(2, 0, 8, 2)];
    let answer = [sent(1, 1, 0, 10)];
    let mut rows = List::new(alloc);
    rows.push(log_row(alloc, 0, 2, 10, &[], &[mail(2, 1)], &[])?)?;
    rows.push(log_row(alloc, 1, 1, 2, &[], &[], &sends)?)?;
    rows.push(log_row(alloc, 1, 3, 1, &[2], &[mail(4, 1)], &[])?)?;
    rows.push(log_row(alloc, 2, 2, 10, &[], &[mail(2, 2)], &answer)?)?;
    Ok(log(alloc, rows))
}

// The trace of a log by its plain times.
fn traced(alloc: Global, log: &Log) -> Result<Vec<u8>, Fail> {
    let machine = worked_machine(alloc)?;
    if !valid(log) || machine.chares != log.chares {
        return Err("not valid or not fitted".into());
    }
    let times = plain_times(alloc, log, &machine)?;
    Ok(trace(alloc, log, &machine, &times)?)
}

#[test]
fn traces(rt: HostRuntime) -> Result<(), Fail> {
    let alloc = rt.alloc();
    let want = "proc 0
run 4 ready 8 start 8 end 18
run 1 ready 16 start 18 end 28
proc 1
run 2 ready 0 start 0 end 2
run 3 ready 23 start 23 end 24
mail 2 1 left 1 came 16
mail 2 2 left 2 came 8
mail 4 1 left 18 came 23
";
    assert_eq!(rt;
        traced(alloc, &worked_log(alloc)?)?.as_slice(),
        want.as_bytes()
    );
    assert_eq!(rt;
        traced(alloc, &log(alloc, List::new(alloc)))?.as_slice(),
        b"".as_slice()
    );
    Ok(())
}
