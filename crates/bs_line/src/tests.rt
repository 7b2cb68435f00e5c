// The worked log of four rows, on two processors that take the chares in turn.
ghost use Rattle.std.specs.Prelude.{IfOk};
ghost use Rattle.bs_line.specs.Line.{IsReady};

use crate::{Correction, Differs, Line, listed};
use bs_log::{Key, Log, MailRef, Row, Sent, valid};
use bs_machine::{Fitted, read_machine};
use bs_num::Tick;
use bs_tree::List;
use std::alloc::{AllocError, Global};
use std::test::Fail;

// A message between the two processors takes 5 ticks, and one more for each 64 bytes.
const MACHINE: &str =
    "[torus]\nsizes = [2]\nper_node = 1\n[place]\nkind = \"cycle\"\n[speed]\nnum = 1\nden = 1\n[latency]\nself = 1\nlocal = 1\nbase = 5\nhop = 0\nbytes_num = 1\nbytes_den = 64\n";

fn mail(row: u32, index: u32) -> MailRef {
    MailRef { row, index }
}

fn sent(to: u32, entry: u32, bytes: u64, offset: u64) -> Sent {
    Sent {
        to,
        key: Key {
            entry,
            reference: 0,
        },
        bytes,
        offset,
    }
}

fn row(
    alloc: Global,
    chare: u32,
    depth: u32,
    cost: u64,
    after: &[u32],
    mail: &[MailRef],
    sends: &[Sent],
) -> Result<Row, AllocError> {
    Ok(Row {
        chare,
        stmt: depth,
        depth,
        cost,
        after: List::from_vec(after.to_vec(alloc)?),
        mail: List::from_vec(mail.to_vec(alloc)?),
        emits: List::new(alloc),
        sends: List::from_vec(sends.to_vec(alloc)?),
    })
}

// Chare 1 sends a long message to chare 0 and a short one to chare 2, each of which works for 10. Chare 2
// then sends word to chare 1.
fn worked_log(alloc: Global) -> Result<Log, AllocError> {
    let mut rows = List::new(alloc);
    rows.push(row(alloc, 0, 2, 10, &[], &[mail(2, 1)], &[])?)?;
    rows.push(row(
        alloc,
        1,
        1,
        2,
        &[],
        &[],
        &[sent(0, 0, 640, 1), sent(2, 0, 8, 2)],
    )?)?;
    rows.push(row(alloc, 1, 3, 1, &[2], &[mail(4, 1)], &[])?)?;
    rows.push(row(alloc, 2, 2, 10, &[], &[mail(2, 2)], &[sent(1, 1, 0, 10)])?)?;
    Ok(Log {
        chares: 3,
        entries: 2,
        rows,
        traps: List::new(alloc),
        waits: List::new(alloc),
    })
}

fn worked_machine(alloc: Global) -> Result<Fitted, Fail> {
    match read_machine(alloc, MACHINE.as_bytes()) {
        Ok(machine) => match machine.fit(3) {
            Ok(fitted) => Ok(fitted),
            Err(_) => Err("not fitted".into()),
        },
        Err(_) => Err("not read".into()),
    }
}

// The line of a processor, where all estimates are one tick.
fn line<'l>(
    alloc: Global,
    log: &'l Log,
    machine: &'l Fitted,
    processor: u32,
    estimate: u64,
) -> Result<Line<'l>, Fail>
    ensures { IfOk result IsReady }
{
    if !valid(log) {
        return Err("not valid".into());
    }
    if machine.chares != log.chares {
        return Err("not fitted".into());
    }
    let mails = listed(alloc, log)?;
    let estimates = vec![in alloc; Tick(u128::from(estimate)); mails.as_slice().len()]?;
    let line = Line::new(alloc, log, machine, processor, &estimates)?;
    Ok(line)
}

// Sets the tick of the message at a place among those that come to the line.
fn set(line: &mut Line<'_>, place: usize, tick: u64) -> Option<bool>
    requires { IsReady line.old }
    ensures { IsReady line.new }
{
    if place >= line.layout.mails.as_slice().len() {
        return None;
    }
    let mail = line.layout.mails.as_slice()[place];
    Some(line.set(mail, Tick(u128::from(tick))))
}

// The start of the row at a place among those of the line.
fn start(line: &Line<'_>, place: usize) -> Option<Tick>
    requires { IsReady line.now }
{
    if !line.begun || place >= line.layout.rows.as_slice().len() {
        return None;
    }
    Some(line.start(line.layout.rows.as_slice()[place]))
}

// A line that was recomputed, and had ticks set afterwards.
fn moved_line<'l>(
    alloc: Global,
    log: &'l Log,
    machine: &'l Fitted,
    processor: u32,
    sets: &[(usize, u64)],
) -> Result<Line<'l>, Fail>
    ensures { IfOk result IsReady }
{
    let mut line = line(alloc, log, machine, processor, 0)?;
    let _list = line.recompute(alloc)?;
    for (place, tick) in sets {
        let _changed = set(&mut line, *place, *tick);
    }
    Ok(line)
}

// What it answers when it is recomputed.
fn corrections(
    alloc: Global,
    processor: u32,
    sets: &[(usize, u64)],
) -> Result<List<Correction>, Fail> {
    let log = worked_log(alloc)?;
    let machine = worked_machine(alloc)?;
    let mut line = moved_line(alloc, &log, &machine, processor, sets)?;
    let list = line.recompute(alloc)?;
    Ok(list)
}

// What a line answers at first.
fn first_corrections(
    alloc: Global,
    processor: u32,
    estimate: u64,
) -> Result<List<Correction>, Fail> {
    let log = worked_log(alloc)?;
    let machine = worked_machine(alloc)?;
    let mut line = line(alloc, &log, &machine, processor, estimate)?;
    let list = line.recompute(alloc)?;
    Ok(list)
}

// Whether the line is dirty before it is recomputed, and the least message that differs.
fn difference(
    alloc: Global,
    processor: u32,
    sets: &[(usize, u64)],
) -> Result<(bool, Option<Differs>), Fail> {
    let log = worked_log(alloc)?;
    let machine = worked_machine(alloc)?;
    let line = moved_line(alloc, &log, &machine, processor, sets)?;
    Ok((line.is_dirty(), line.differs()))
}

// The start of the row at a place once the line is recomputed.
fn start_after(
    alloc: Global,
    processor: u32,
    sets: &[(usize, u64)],
    place: usize,
) -> Result<Option<Tick>, Fail> {
    let log = worked_log(alloc)?;
    let machine = worked_machine(alloc)?;
    let mut line = moved_line(alloc, &log, &machine, processor, sets)?;
    let _list = line.recompute(alloc)?;
    Ok(start(&line, place))
}

fn correction(row: u32, index: u32, to: u32, was: u128, tick: u128) -> Correction {
    Correction {
        mail: mail(row, index),
        to,
        was: Tick(was),
        tick: Tick(tick),
    }
}

#[test]
fn corrections_follow_the_estimates(rt: HostRuntime) -> Result<(), Fail> {
    let list = first_corrections(rt.alloc(), 1, 0)?;
    let long = correction(2, 1, 0, 0, 16);
    let short = correction(2, 2, 0, 0, 8);
    assert_eq!(rt; list.as_slice(), [long, short].as_slice());
    let list = first_corrections(rt.alloc(), 0, 0)?;
    assert_eq!(rt; list.as_slice(), [correction(4, 1, 1, 0, 25)].as_slice());
    let list = first_corrections(rt.alloc(), 0, 25)?;
    assert_eq!(rt; list.as_slice(), [correction(4, 1, 1, 25, 50)].as_slice());
    Ok(())
}

#[test]
fn a_correction_can_lower_a_tick(rt: HostRuntime) -> Result<(), Fail> {
    let list = corrections(rt.alloc(), 0, &[(1, 8), (0, 16)])?;
    assert_eq!(rt; list.as_slice(), [correction(4, 1, 1, 25, 23)].as_slice());
    let list = corrections(rt.alloc(), 1, &[(0, 23)])?;
    assert_eq!(rt; list.as_slice().len(), 0);
    Ok(())
}

#[test]
fn rows_start_by_the_ticks_that_are_held(rt: HostRuntime) -> Result<(), Fail> {
    assert_eq!(rt;
        start_after(rt.alloc(), 0, &[(1, 8), (0, 16)], 0)?,
        Some(Tick(18))
    );
    assert_eq!(rt;
        start_after(rt.alloc(), 0, &[(1, 8), (0, 16)], 1)?,
        Some(Tick(8))
    );
    assert_eq!(rt; start_after(rt.alloc(), 1, &[(0, 23)], 1)?, Some(Tick(23)));
    assert_eq!(rt; start_after(rt.alloc(), 7, &[], 0)?, None);
    Ok(())
}

#[test]
fn a_line_is_dirty_while_ticks_differ(rt: HostRuntime) -> Result<(), Fail> {
    let differs = Differs {
        mail: mail(2, 1),
        kept: Tick(0),
        due: Tick(16),
    };
    assert_eq!(rt;
        difference(rt.alloc(), 0, &[(1, 8), (0, 16)])?,
        (true, Some(differs))
    );
    assert_eq!(rt;
        difference(rt.alloc(), 0, &[(0, 16), (0, 0)])?,
        (false, None)
    );
    Ok(())
}
