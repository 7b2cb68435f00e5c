// Long logs, great numbers, and files that are too big.
use super::fixtures::EXCHANGE;
use super::session::{performed, play};
use crate::Status;
use bs_desk::{MemoryDesk, Port};
use std::alloc::{AllocError, Global};
use std::test::Fail;

// The greatest cost on the slowest processors; and a text that is no log, with a machine that isn't there.
const NUMBERS: &str = "$ put l
bslog 1
chares 1 entries 0 rows 1
row 0 1 1 4294967296
end
$ put m
[torus]
sizes = [2]
per_node = 1
[place]
kind = \"cycle\"
[speed]
num = 65535
den = 1
[latency]
self = 1
local = 1
base = 5
hop = 0
bytes_num = 1
bytes_den = 64
$ predict l m = 0
status settled
block 1 chare 0 stmt 1 proc 0 start 0 end 281470681743360
span 281470681743360
proc 0 blocks 1 busy 281470681743360 use 10000
$ put l
bslog 1
chares 1 entries 0 rows 1
row 0 1 1 4294967296
$ predict l n = 14
bad log: line 4 bad line
";

#[test]
fn great_numbers(rt: HostRuntime) -> Result<(), Fail> {
    play(&rt, NUMBERS)
}

// Two chares that answer each other a thousand times: the log, and the report on two processors with a
// latency of 5.
fn ladder(alloc: Global) -> Result<(String, String), AllocError> {
    let mut log = format!(in alloc; "bslog 1\nchares 2 entries 1 rows 2000\n")?;
    let mut report = format!(in alloc; "status settled\n")?;
    for k in 1..1001_u32 {
        let depth = 2 * k - 1;
        let start = 12 * (k - 1);
        log.push_str(format!(in alloc; "row 0 1 {depth} 1\n")?.as_str())?;
        if k > 1 {
            log.push_str(format!(in alloc; "mail {} 1\n", 999 + k)?.as_str())?;
        }
        log.push_str(format!(in alloc; "send 1 0 {depth} 0 1\n")?.as_str())?;
        report.push_str(line(alloc, k, 0, start)?.as_str())?;
    }
    for k in 1..1001_u32 {
        let depth = 2 * k;
        let start = 12 * (k - 1) + 6;
        let row = format!(in alloc; "row 1 1 {depth} 1\nmail {k} 1\nsend 0 0 {depth} 0 1\n")?;
        log.push_str(row.as_str())?;
        report.push_str(line(alloc, 1000 + k, 1, start)?.as_str())?;
    }
    log.push_str("end\n")?;
    report.push_str("span 11995\nproc 0 blocks 1000 busy 1000 use 833\n")?;
    report.push_str("proc 1 blocks 1000 busy 1000 use 833\n")?;
    Ok((log, report))
}

// The line of a block that takes one tick.
fn line(alloc: Global, row: u32, chare: u32, start: u32) -> Result<String, AllocError> {
    let end = start.saturating_add(1);
    format!(in alloc; "block {row} chare {chare} stmt 1 proc {chare} start {start} end {end}\n")
}

#[test]
fn a_ladder_of_2000_rows(rt: HostRuntime) -> Result<(), Fail> {
    let (log, report) = ladder(rt.alloc())?;
    let mut desk = MemoryDesk::new(rt.alloc(), 65_536);
    desk.put_file("l", log.as_bytes())?;
    let status = performed(rt.alloc(), &mut desk, "predict", "l flat:2:5")?;
    assert_eq!(rt; status, Status::Settled);
    assert_eq!(rt; desk.written(Port::Out), report.as_bytes());
    Ok(())
}

// A program of one byte more than a file may have, the same bytes as a machine, and such a log.
#[test]
fn too_big(rt: HostRuntime) -> Result<(), Fail> {
    let big = vec![in rt.alloc(); b' '; 1_048_577]?;
    let longer = vec![in rt.alloc(); b' '; 67_108_865]?;
    let mut desk = MemoryDesk::new(rt.alloc(), 65_536);
    desk.put_file("p", EXCHANGE.as_bytes())?;
    desk.put_file("b", big.as_slice())?;
    desk.put_file("l", longer.as_slice())?;
    for (verb, names) in [
        ("model", "b flat:2:5"),
        ("model", "p b"),
        ("predict", "l b"),
    ] {
        let status = performed(rt.alloc(), &mut desk, verb, names)?;
        assert_eq!(rt; status, Status::TooBig, "{names}");
    }
    let lines = "too big: limit 1048576 bytes
too big: limit 1048576 bytes
too big: limit 67108864 bytes
";
    assert_eq!(rt; desk.written(Port::Err), lines.as_bytes());
    Ok(())
}
