// The worked log of four rows, on two processors that take the chares in turn.
ghost use Rattle.std.specs.Prelude.{◌<◌, ◌^◌, IfOk};
ghost use Rattle.bs_log.specs.Valid.{IsValid};
ghost use Rattle.bs_log.specs.Lists.{Mem};
ghost use Rattle.bs_machine.specs.declared.fitted.Fitted.{Fitted as Machine};
ghost use Rattle.bs_num.specs.declared.ticks.Tick.{Tick as Moment};
ghost use Rattle.bs_settle.specs.Field.{IsField};
ghost use Rattle.bs_rows.specs.Rows.{net_on};
ghost use Rattle.bs_settle.specs.Shares.{CanBegin};

use crate::{
    BudgetSpent, Correction, Estimates, Field, Noted, SettleFault, plain_times, settled_times,
};
use bs_line::listed;
use bs_log::{Key, Log, MailRef, Row, Sent, valid};
use bs_machine::{Fitted, read_machine};
use bs_num::Tick;
use bs_tree::List;
use std::alloc::{AllocError, Global};
use std::test::Fail;

// A message between the two processors takes 5 ticks, and one more for each 64 bytes.
const MACHINE: &str =
    "[torus]\nsizes = [2]\nper_node = 1\n[place]\nkind = \"cycle\"\n[speed]\nnum = 1\nden = 1\n[latency]\nself = 1\nlocal = 1\nbase = 5\nhop = 0\nbytes_num = 1\nbytes_den = 64\n";

fn mail(row: u32, index: u32) -> MailRef {
    MailRef { row, index }
}

fn sent(to: u32, entry: u32, bytes: u64, offset: u64) -> Sent {
    Sent {
        to,
        key: Key {
            entry,
            reference: 0,
        },
        bytes,
        offset,
    }
}

fn row(
    alloc: Global,
    chare: u32,
    depth: u32,
    cost: u64,
    after: &[u32],
    mail: &[MailRef],
    sends: &[Sent],
) -> Result<Row, AllocError> {
    Ok(Row {
        chare,
        stmt: depth,
        depth,
        cost,
        after: List::from_vec(after.to_vec(alloc)?),
        mail: List::from_vec(mail.to_vec(alloc)?),
        emits: List::new(alloc),
        sends: List::from_vec(sends.to_vec(alloc)?),
    })
}

// Chare 1 sends a long message to chare 0 and a short one to chare 2, each of which works for 10. Chare 2
// then sends word to chare 1.
fn worked_log(alloc: Global) -> Result<Log, AllocError> {
    let mut rows = List::new(alloc);
    rows.push(row(alloc, 0, 2, 10, &[], &[mail(2, 1)], &[])?)?;
    rows.push(row(
        alloc,
        1,
        1,
        2,
        &[],
        &[],
        &[sent(0, 0, 640, 1), sent(2, 0, 8, 2)],
    )?)?;
    rows.push(row(alloc, 1, 3, 1, &[2], &[mail(4, 1)], &[])?)?;
    rows.push(row(alloc, 2, 2, 10, &[], &[mail(2, 2)], &[sent(1, 1, 0, 10)])?)?;
    Ok(Log {
        chares: 3,
        entries: 2,
        rows,
        traps: List::new(alloc),
        waits: List::new(alloc),
    })
}

fn worked_machine(alloc: Global) -> Result<Fitted, Fail> {
    match read_machine(alloc, MACHINE.as_bytes()) {
        Ok(machine) => match machine.fit(3) {
            Ok(fitted) => Ok(fitted),
            Err(_) => Err("not fitted".into()),
        },
        Err(_) => Err("not read".into()),
    }
}

// Ticks of at most 1,000, which are early enough to be estimates.
fn early(alloc: Global, ticks: &[u64]) -> Result<List<Tick>, AllocError>
    ensures { IfOk result (λ list. (t : Moment) → Mem t list → t.0 < 2 ^ 107) }
{
    let mut list = List::new(alloc);
    for tick in ticks {
        let early = u128::from(*tick).min(1000);
        list.push(Tick(early))?;
    }
    Ok(list)
}

// One for each listed message, or tick 0 for all.
fn given(alloc: Global, log: &Log, ticks: &[u64]) -> Result<Estimates, Fail>
    requires { IsValid log.now }
    ensures { IfOk result (λ estimates. (machine : Machine) → CanBegin (net_on log.now machine) estimates) }
{
    if ticks.is_empty() {
        return Ok(Estimates::Zero);
    }
    let mails = listed(alloc, log)?;
    let list = early(alloc, ticks)?;
    if list.as_slice().len() != mails.as_slice().len() {
        return Err("not one for each message".into());
    }
    Ok(Estimates::Given(list))
}

// The field of the log, from these estimates or from none.
fn field<'l>(
    alloc: Global,
    log: &'l Log,
    machine: &'l Fitted,
    ticks: &[u64],
) -> Result<Field<'l>, Fail>
    ensures { IfOk result IsField }
{
    if !valid(log) {
        return Err("not valid".into());
    }
    if machine.chares != log.chares {
        return Err("not fitted".into());
    }
    let estimates = given(alloc, log, ticks)?;
    let field = Field::new(alloc, log, machine, estimates)?;
    Ok(field)
}

// What a wave answers, after so many others.
fn wave(alloc: Global, ticks: &[u64], before: u32) -> Result<List<Correction>, Fail> {
    let log = worked_log(alloc)?;
    let machine = worked_machine(alloc)?;
    let mut field = field(alloc, &log, &machine, ticks)?;
    for _wave in 0..before {
        let _list = field.wave(alloc)?;
    }
    let list = field.wave(alloc)?;
    Ok(list)
}

// What comes of a budget from 1 to 2^40: the starts, or why the field doesn't settle.
fn settled(
    alloc: Global,
    ticks: &[u64],
    budget: u64,
) -> Result<Result<List<Tick>, BudgetSpent>, Fail> {
    let log = worked_log(alloc)?;
    let machine = worked_machine(alloc)?;
    let mut field = field(alloc, &log, &machine, ticks)?;
    if budget == 0 || budget > 1000 {
        return Err("no such budget".into());
    }
    match field.settle(alloc, budget) {
        Ok(times) => Ok(Ok(times.starts)),
        Err(SettleFault::BudgetSpent(spent)) => Ok(Err(spent)),
        Err(SettleFault::Memory) => Err("no memory".into()),
    }
}

// What each wave changes, with a budget from 1 to 1000, from tick 0.
fn noted(alloc: Global, budget: u64) -> Result<Noted, Fail> {
    let log = worked_log(alloc)?;
    let machine = worked_machine(alloc)?;
    let mut field = field(alloc, &log, &machine, &[])?;
    if budget == 0 || budget > 1000 {
        return Err("no such budget".into());
    }
    let noted = field.settle_noting(alloc, budget)?;
    Ok(noted)
}

// How many ticks each wave changes.
fn changed(alloc: Global, waves: &[List<Correction>]) -> Result<List<usize>, AllocError> {
    let mut list = List::new(alloc);
    for wave in waves {
        list.push(wave.as_slice().len())?;
    }
    Ok(list)
}

fn correction(row: u32, index: u32, to: u32, was: u128, tick: u128) -> Correction {
    Correction {
        mail: mail(row, index),
        to,
        was: Tick(was),
        tick: Tick(tick),
    }
}

#[test]
fn waves_go_on_from_tick_0(rt: HostRuntime) -> Result<(), Fail> {
    let alloc = rt.alloc();
    let first = [
        correction(2, 1, 0, 0, 16),
        correction(2, 2, 0, 0, 8),
        correction(4, 1, 1, 0, 25),
    ];
    assert_eq!(rt; wave(alloc, &[], 0)?.as_slice(), first.as_slice());
    assert_eq!(rt;
        wave(alloc, &[], 1)?.as_slice(),
        [correction(4, 1, 1, 25, 23)].as_slice()
    );
    assert_eq!(rt; wave(alloc, &[], 2)?.as_slice().len(), 0);
    Ok(())
}

#[test]
fn waves_go_on_from_estimates(rt: HostRuntime) -> Result<(), Fail> {
    let alloc = rt.alloc();
    assert_eq!(rt; wave(alloc, &[16, 8, 23], 0)?.as_slice().len(), 0);
    let late = [1000, 1000, 1000];
    let first = [
        correction(2, 1, 0, 1000, 16),
        correction(2, 2, 0, 1000, 8),
        correction(4, 1, 1, 1000, 1025),
    ];
    assert_eq!(rt; wave(alloc, &late, 0)?.as_slice(), first.as_slice());
    assert_eq!(rt;
        wave(alloc, &late, 1)?.as_slice(),
        [correction(4, 1, 1, 1025, 23)].as_slice()
    );
    assert_eq!(rt; wave(alloc, &late, 2)?.as_slice().len(), 0);
    Ok(())
}

#[test]
fn a_budget_is_spent_or_is_enough(rt: HostRuntime) -> Result<(), Fail> {
    let alloc = rt.alloc();
    let one = BudgetSpent {
        waves: 1,
        mail: mail(2, 1),
        kept: Tick(0),
        due: Tick(16),
    };
    let two = BudgetSpent {
        waves: 2,
        mail: mail(4, 1),
        kept: Tick(25),
        due: Tick(23),
    };
    assert_eq!(rt; settled(alloc, &[], 1)?.err(), Some(one));
    assert_eq!(rt; settled(alloc, &[], 2)?.err(), Some(two));
    let starts = [Tick(18), Tick(0), Tick(23), Tick(8)];
    match settled(alloc, &[], 3)? {
        Ok(list) => assert_eq!(rt; list.as_slice(), starts.as_slice()),
        Err(_) => return Err("not settled".into()),
    }
    Ok(())
}

#[test]
fn each_wave_is_noted(rt: HostRuntime) -> Result<(), Fail> {
    let alloc = rt.alloc();
    let two = noted(alloc, 2)?;
    assert_eq!(rt;
        changed(alloc, two.waves.as_slice())?.as_slice(),
        [3, 1].as_slice()
    );
    match two.times {
        Ok(_) => return Err("not spent".into()),
        Err(spent) => assert_eq!(rt; spent.mail, mail(4, 1)),
    }
    let three = noted(alloc, 3)?;
    assert_eq!(rt;
        changed(alloc, three.waves.as_slice())?.as_slice(),
        [3, 1, 0].as_slice()
    );
    match three.times {
        Ok(_) => Ok(()),
        Err(_) => Err("not settled".into()),
    }
}

#[test]
fn waves_are_counted(rt: HostRuntime) -> Result<(), Fail> {
    let alloc = rt.alloc();
    let log = worked_log(alloc)?;
    let machine = worked_machine(alloc)?;
    let mut field = field(alloc, &log, &machine, &[])?;
    let counted = field.settle_counting(alloc)?;
    assert_eq!(rt; counted.waves, 3);
    let starts = [Tick(18), Tick(0), Tick(23), Tick(8)];
    assert_eq!(rt; counted.times.starts.as_slice(), starts.as_slice());
    Ok(())
}

#[test]
fn a_field_has_its_log_machine_and_budget(rt: HostRuntime) -> Result<(), Fail> {
    let alloc = rt.alloc();
    let log = worked_log(alloc)?;
    let machine = worked_machine(alloc)?;
    let field = field(alloc, &log, &machine, &[])?;
    assert_eq!(rt; field.budget(), 18);
    assert_eq!(rt; field.log().chares, 3);
    assert_eq!(rt; field.machine().chares, 3);
    Ok(())
}

#[test]
fn plain_times_are_those_of_the_waves(rt: HostRuntime) -> Result<(), Fail> {
    let alloc = rt.alloc();
    let log = worked_log(alloc)?;
    let machine = worked_machine(alloc)?;
    if !valid(&log) || machine.chares != log.chares {
        return Err("not valid or not fitted".into());
    }
    let times = plain_times(alloc, &log, &machine)?;
    let ends = [Tick(28), Tick(2), Tick(24), Tick(18)];
    assert_eq!(rt; times.ends.as_slice(), ends.as_slice());
    Ok(())
}

#[test]
fn one_pass_leaves_the_first_wave_nothing_to_change(rt: HostRuntime) -> Result<(), Fail> {
    let alloc = rt.alloc();
    let log = worked_log(alloc)?;
    let machine = worked_machine(alloc)?;
    if !valid(&log) || machine.chares != log.chares {
        return Err("not valid or not fitted".into());
    }
    let mut field = Field::from_pass(alloc, &log, &machine)?;
    let list = field.wave(alloc)?;
    assert_eq!(rt; list.as_slice().len(), 0);
    let times = settled_times(alloc, &log, &machine)?;
    let starts = [Tick(18), Tick(0), Tick(23), Tick(8)];
    assert_eq!(rt; times.starts.as_slice(), starts.as_slice());
    Ok(())
}
