// The worked log of four rows, on two processors that take the chares in turn.
ghost use Rattle.std.specs.Prelude.{◌≡◌, IfOk};
ghost use Rattle.bs_log.specs.Valid.{IsValid};
ghost use Rattle.bs_whatif.specs.Figures.{AreFitted};

use crate::{
    Figures, best, copy_log, points_text, rescale, resettle, spans_text, sweep, sweep_spans, tune,
    tune_spans, zero_ticks,
};
use bs_log::{Key, Log, MailRef, Row, Sent, valid};
use bs_machine::{Fitted, read_machine};
use bs_num::Tick;
use bs_tree::List;
use std::alloc::{AllocError, Global};
use std::test::Fail;

// A message between the two processors takes 5 ticks, and one more for each 64 bytes.
const TORUS: &str =
    "[torus]\nsizes = [2]\nper_node = 1\n[place]\nkind = \"cycle\"\n[speed]\nnum = 1\nden = 1\n[latency]\nself = 1\nlocal = 1\nbase = 5\nhop = 0\nbytes_num = 1\nbytes_den = 64\n";

// Each message takes 5 ticks.
const FLAT: &str =
    "[torus]\nsizes = [2]\nper_node = 1\n[place]\nkind = \"cycle\"\n[speed]\nnum = 1\nden = 1\n[latency]\nself = 5\nlocal = 5\nbase = 5\nhop = 0\nbytes_num = 0\nbytes_den = 1\n";

fn mail(row: u32, index: u32) -> MailRef {
    MailRef { row, index }
}

fn sent(to: u32, entry: u32, bytes: u64, offset: u64) -> Sent {
    Sent {
        to,
        key: Key {
            entry,
            reference: 0,
        },
        bytes,
        offset,
    }
}

fn row(
    alloc: Global,
    place: [u32; 3],
    cost: u64,
    after: &[u32],
    mail: &[MailRef],
    sends: &[Sent],
) -> Result<Row, AllocError> {
    Ok(Row {
        chare: place[0],
        stmt: place[1],
        depth: place[2],
        cost,
        after: List::from_vec(after.to_vec(alloc)?),
        mail: List::from_vec(mail.to_vec(alloc)?),
        emits: List::new(alloc),
        sends: List::from_vec(sends.to_vec(alloc)?),
    })
}

// Chare 1 sends a long message to chare 0 and a short one to chare 2, each of which works for 10 in
// statement 6. Chare 2 then sends word to chare 1.
fn rows(alloc: Global) -> Result<List<Row>, AllocError> {
    let first = [sent(0, 0, 640, 1), sent(2, 0, 8, 2)];
    let word = [sent(1, 1, 0, 10)];
    let mut rows = List::new(alloc);
    rows.push(row(alloc, [0, 6, 2], 10, &[], &[mail(2, 1)], &[])?)?;
    rows.push(row(alloc, [1, 2, 1], 2, &[], &[], &first)?)?;
    rows.push(row(alloc, [1, 4, 3], 1, &[2], &[mail(4, 1)], &[])?)?;
    rows.push(row(alloc, [2, 6, 2], 10, &[], &[mail(2, 2)], &word)?)?;
    Ok(rows)
}

fn worked_log(alloc: Global) -> Result<Log, Fail>
    ensures { IfOk result IsValid }
{
    let log = Log {
        chares: 3,
        entries: 2,
        rows: rows(alloc)?,
        traps: List::new(alloc),
        waits: List::new(alloc),
    };
    if !valid(&log) {
        return Err("not valid".into());
    }
    Ok(log)
}

// The machine of a text, for the chares of the log.
fn machine(alloc: Global, log: &Log, text: &str) -> Result<Fitted, Fail>
    ensures { IfOk result (λ machine. machine.chares ≡ log.now.chares) }
{
    match read_machine(alloc, text.as_bytes()) {
        Ok(machine) => match machine.fit(3) {
            Ok(fitted) if fitted.chares == log.chares => Ok(fitted),
            _ => Err("not fitted".into()),
        },
        Err(_) => Err("not read".into()),
    }
}

// The machine of bytes, and another one.
fn machines(alloc: Global, log: &Log, text: &str) -> Result<List<Fitted>, Fail>
    ensures { IfOk result (AreFitted log.now) }
{
    let mut machines = List::new(alloc);
    machines.push(machine(alloc, log, TORUS)?)?;
    machines.push(machine(alloc, log, text)?)?;
    Ok(machines)
}

fn swept(alloc: Global, text: &str) -> Result<List<Figures>, Fail> {
    let log = worked_log(alloc)?;
    let machines = machines(alloc, &log, text)?;
    let figures = sweep(alloc, &log, machines.as_slice())?;
    Ok(figures)
}

fn swept_spans(alloc: Global, text: &str) -> Result<List<Tick>, Fail> {
    let log = worked_log(alloc)?;
    let machines = machines(alloc, &log, text)?;
    let spans = sweep_spans(alloc, &log, machines.as_slice())?;
    Ok(spans)
}

fn figures(waves: u64, span: u128) -> Figures {
    Figures {
        waves,
        span: Tick(span),
    }
}

#[test]
fn a_sweep_goes_on_from_the_point_before(rt: HostRuntime) -> Result<(), Fail> {
    let alloc = rt.alloc();
    let same = [figures(3, 28), figures(1, 28)];
    assert_eq!(rt; swept(alloc, TORUS)?.as_slice(), same.as_slice());
    let other = [figures(3, 28), figures(3, 32)];
    assert_eq!(rt; swept(alloc, FLAT)?.as_slice(), other.as_slice());
    let spans = [Tick(28), Tick(32)];
    assert_eq!(rt; swept_spans(alloc, FLAT)?.as_slice(), spans.as_slice());
    Ok(())
}

#[test]
fn a_statement_is_tuned(rt: HostRuntime) -> Result<(), Fail> {
    let alloc = rt.alloc();
    let log = worked_log(alloc)?;
    let machine = machine(alloc, &log, TORUS)?;
    let half = tune(alloc, &log, &machine, 6, 1, 2)?;
    assert_eq!(rt;
        half.as_slice(),
        [figures(3, 28), figures(2, 21)].as_slice()
    );
    let none = tune(alloc, &log, &machine, 7, 1, 2)?;
    assert_eq!(rt;
        none.as_slice(),
        [figures(3, 28), figures(1, 28)].as_slice()
    );
    let spans = tune_spans(alloc, &log, &machine, 6, 1, 2)?;
    assert_eq!(rt; spans.as_slice(), [Tick(28), Tick(21)].as_slice());
    Ok(())
}

#[test]
fn a_point_has_its_times_and_ticks(rt: HostRuntime) -> Result<(), Fail> {
    let alloc = rt.alloc();
    let log = worked_log(alloc)?;
    let machine = machine(alloc, &log, TORUS)?;
    let zero = zero_ticks(alloc, &log)?;
    let point = resettle(alloc, &log, &machine, &zero)?;
    assert_eq!(rt; point.waves, 3);
    let ticks = [Tick(16), Tick(8), Tick(23)];
    assert_eq!(rt; point.ticks.as_slice(), ticks.as_slice());
    let starts = [Tick(18), Tick(0), Tick(23), Tick(8)];
    assert_eq!(rt; point.times.starts.as_slice(), starts.as_slice());
    Ok(())
}

#[test]
fn a_statement_costs_a_third_rounded_up(rt: HostRuntime) -> Result<(), Fail> {
    let alloc = rt.alloc();
    let log = copy_log(alloc, &worked_log(alloc)?)?;
    if !valid(&log) {
        return Err("not valid".into());
    }
    let third = rescale(alloc, &log, 6, 1, 3)?;
    match third.rows.as_slice() {
        [first, second, _, last] => {
            assert_eq!(rt; (first.cost, second.cost, last.cost), (4, 2, 4));
            assert_eq!(rt; last.sends.as_slice(), [sent(1, 1, 0, 4)].as_slice());
        }
        _ => return Err("not four rows".into()),
    }
    Ok(())
}

#[test]
fn points_are_told(rt: HostRuntime) -> Result<(), Fail> {
    let alloc = rt.alloc();
    let text = points_text(alloc, &[figures(3, 28), figures(1, 28)])?;
    let lines = "point 1 waves 3 span 28\npoint 2 waves 1 span 28\nbest 1\n";
    assert_eq!(rt; text.as_slice(), lines.as_bytes());
    let text = spans_text(alloc, &[Tick(28), Tick(21)])?;
    let lines = "point 1 span 28\npoint 2 span 21\nbest 2\n";
    assert_eq!(rt; text.as_slice(), lines.as_bytes());
    assert_eq!(rt; best(&[Tick(3), Tick(2), Tick(2)]), 2);
    Ok(())
}
