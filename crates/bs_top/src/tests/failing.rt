// Calls of a desk that fail, one after the other, and what was written by then.
use super::fixtures::{BY_BYTES, CORRECTED, EXCHANGE};
use super::session::performed;
use crate::Status;
use bs_desk::{MemoryDesk, Op, Port};
use std::alloc::{AllocError, Global};
use std::process::Abort;
use std::test::Fail;

// The report of the exchange on two processors.
const EXCHANGED: &str = "status settled
block 1 chare 0 stmt 1 proc 0 start 0 end 4
block 2 chare 0 stmt 3 proc 0 start 9 end 12
value 1
block 3 chare 1 stmt 1 proc 1 start 0 end 4
block 4 chare 1 stmt 3 proc 1 start 9 end 12
value 0
span 12
proc 0 blocks 2 busy 7 use 5833
proc 1 blocks 2 busy 7 use 5833
";

// The journal and the report of the log of four rows where bytes cost.
const JOURNAL: &str = "wave 1
mail 2 1 from 0 to 16
mail 2 2 from 0 to 8
mail 4 1 from 0 to 25
wave 2
mail 4 1 from 25 to 23
wave 3
settled 3
";

const SETTLED: &str = "status settled
block 1 chare 0 stmt 6 proc 0 start 18 end 28
block 2 chare 1 stmt 2 proc 1 start 0 end 2
block 3 chare 1 stmt 4 proc 1 start 23 end 24
block 4 chare 2 stmt 6 proc 0 start 8 end 18
span 28
proc 0 blocks 2 busy 20 use 7142
proc 1 blocks 2 busy 3 use 1071
";

// A command, and what it writes where nothing fails.
struct Case {
    verb: &'static str,
    names: &'static str,
    journal: &'static str,
    report: &'static str,
}

const RUN: Case = Case {
    verb: "run",
    names: "p flat:2:5",
    journal: "",
    report: EXCHANGED,
};

const PREDICT: Case = Case {
    verb: "predict",
    names: "l m --journal j",
    journal: JOURNAL,
    report: SETTLED,
};

// A desk that passes 16 bytes a call, with a program, a log and a machine. One of its calls is to fail.
fn desk_failing(alloc: Global, op: Op, nth: u64) -> Result<MemoryDesk, AllocError> {
    let mut desk = MemoryDesk::new(alloc, 16);
    desk.put_file("p", EXCHANGE.as_bytes())?;
    desk.put_file("l", CORRECTED.as_bytes())?;
    desk.put_file("m", BY_BYTES.as_bytes())?;
    desk.fail(op, nth)?;
    Ok(desk)
}

// Whether what was written to the journal, and behind it to standard output, goes with the status.
fn goes_with(status: Status, case: &Case, file: &[u8], out: &[u8]) -> bool {
    let journal = case.journal.as_bytes();
    let report = case.report.as_bytes();
    match status {
        Status::Settled => file == journal && out == report,
        Status::ReadFault => file.is_empty() && out.is_empty(),
        Status::WriteFault if out.is_empty() => journal.starts_with(file),
        Status::WriteFault => file == journal && report.starts_with(out) && out != report,
        _ => false,
    }
}

// Performs the command with the first call of that kind failing, then the second, until none fails, and
// answers how many do.
fn each_fails(rt: &(impl Abort + AllocGlobal), case: &Case, op: Op) -> Result<u64, Fail> {
    for nth in 1..100 {
        let mut desk = desk_failing(rt.alloc(), op, nth)?;
        let status = performed(rt.alloc(), &mut desk, case.verb, case.names)?;
        let wanted = match desk.faults() {
            (0, 0) => Status::Settled,
            (1, 0) => Status::ReadFault,
            _ => Status::WriteFault,
        };
        assert_eq!(rt; status, wanted, "{nth}");
        let (file, out) = (desk.written(Port::File), desk.written(Port::Out));
        assert!(rt; goes_with(status, case, file, out), "{nth}");
        assert!(rt; desk.written(Port::Err).is_empty(), "{nth}");
        if status == Status::Settled {
            return Ok(nth - 1);
        }
    }
    Err("no end of calls".into())
}

// How many pieces of 16 bytes there are in the texts, and so many more.
fn pieces(texts: &[&str], more: u64) -> u64 {
    let mut all = more;
    for text in texts {
        all = all.saturating_add(text.len().div_ceil(16) as u64);
    }
    all
}

#[test]
fn each_call_fails_in_turn(rt: HostRuntime) -> Result<(), Fail> {
    let report = pieces(&[EXCHANGED], 0);
    assert_eq!(rt; each_fails(&rt, &RUN, Op::Open)?, 1);
    assert_eq!(rt; each_fails(&rt, &RUN, Op::Read)?, pieces(&[EXCHANGE], 1));
    assert_eq!(rt; each_fails(&rt, &RUN, Op::Create)?, 0);
    assert_eq!(rt; each_fails(&rt, &RUN, Op::Write)?, report);
    let files = pieces(&[CORRECTED, BY_BYTES], 2);
    let texts = pieces(&[JOURNAL, SETTLED], 0);
    assert_eq!(rt; each_fails(&rt, &PREDICT, Op::Open)?, 2);
    assert_eq!(rt; each_fails(&rt, &PREDICT, Op::Read)?, files);
    assert_eq!(rt; each_fails(&rt, &PREDICT, Op::Create)?, 1);
    assert_eq!(rt; each_fails(&rt, &PREDICT, Op::Write)?, texts);
    Ok(())
}

// What comes of a command where one call fails: the code, and what Out and the file `j` hold.
fn is_cut(
    rt: &(impl Abort + AllocGlobal),
    desk: &mut MemoryDesk,
    command: &str,
    wanted: (u8, &str, Option<&str>),
) -> Result<(), Fail> {
    let (verb, names) = command.split_once(' ').ok_or("no names")?;
    let status = performed(rt.alloc(), desk, verb, names)?;
    assert_eq!(rt; status.code(), wanted.0, "{command}");
    assert_eq!(rt; desk.written(Port::Out), wanted.1.as_bytes(), "{command}");
    assert_eq!(rt; desk.written(Port::Err), b"".as_slice(), "{command}");
    assert_eq!(rt; desk.file("j"), wanted.2.map(str::as_bytes), "{command}");
    Ok(())
}

// The second write and the first opening; the second write and the creation of a journal; and the opening
// of a machine, which is the third of this desk, since a log is made before.
#[test]
fn named_calls_fail(rt: HostRuntime) -> Result<(), Fail> {
    let mut desk = desk_failing(rt.alloc(), Op::Write, 2)?;
    is_cut(
        &rt,
        &mut desk,
        "model p flat:2:5",
        (21, "status settled\nb", None),
    )?;
    let mut desk = desk_failing(rt.alloc(), Op::Open, 1)?;
    is_cut(&rt, &mut desk, "model p flat:2:5", (20, "", None))?;
    let mut desk = desk_failing(rt.alloc(), Op::Write, 2)?;
    let front = Some("wave 1\nmail 2 1 ");
    is_cut(&rt, &mut desk, "predict l m --journal j", (21, "", front))?;
    let mut desk = desk_failing(rt.alloc(), Op::Create, 1)?;
    is_cut(&rt, &mut desk, "predict l m --journal j", (21, "", None))?;
    let mut desk = desk_failing(rt.alloc(), Op::Open, 3)?;
    performed(rt.alloc(), &mut desk, "emulate", "p l")?;
    is_cut(&rt, &mut desk, "predict l m", (20, "", None))
}
