// Refusals: of words, programs and machines, in the order of the steps.
use super::fixtures::EXCHANGE;
use super::session::{performed, play};
use crate::Status;
use bs_desk::{MemoryDesk, Port};
use std::alloc::{AllocError, Global};
use std::process::Abort;
use std::test::Fail;

// Of a program and a machine that are both at fault the first in the order of the steps is told.
const STEPS: &str = "$ put p
chares 1; body { serial { } }
$ check p = 0
chares 1 ; body { serial { } }
$ put p
chares 2; var x; entry go(1);
body {
  serial { work (3); send go[(7)]((this)) to (1 - (this)); }
  when go[7](x) { serial { work 2; emit ((x)); } }
}
$ model p flat:2:5 = 0
status settled
block 1 chare 0 stmt 1 proc 0 start 0 end 4
block 2 chare 0 stmt 3 proc 0 start 9 end 12
value 1
block 3 chare 1 stmt 1 proc 1 start 0 end 4
block 4 chare 1 stmt 3 proc 1 start 9 end 12
value 0
span 12
proc 0 blocks 2 busy 7 use 5833
proc 1 blocks 2 busy 7 use 5833
$ model q flat:1:1 = 22
$ check q = 22
$ model p n = 22
$ put p
chares 1; body { serial { x = 08; } }
$ model|run p flat:1:1 = 11
bad program: byte 30 bad number
$ put p
chares 1; body { serial { work 1 $2; } }
$ model|run p flat:1:1 = 11
bad program: byte 33 bad character
$ put p
chares 1 body { }
$ model|run p flat:1:1 = 11
bad program: byte 9 unexpected
$ put e
$ model e flat:1:1 = 11
bad program: byte 0 unexpected
$ model e e = 11
bad program: byte 0 unexpected
$ put p
chares 1; var x; var y; entry go(1);
body { overlap { when go[0](x) { serial { } } when go[0](y) { serial { } } } }
$ model p flat:1:1 = 15
ambiguous: chare 0 entry 0 ref 0 asked by chare 0 stmt 2 and chare 0 stmt 4
$ put m
[torus]
sizes = [2]
per_node = 1
[place]
kind = \"list\"
list = [0, 1]
[speed]
num = 1
den = 1
[latency]
self = 1
local = 1
base = 5
hop = 0
bytes_num = 1
bytes_den = 64
$ model|run p m = 13
bad machine: place length 2 needs 1
$ put m
[torus]
sizes = [2]
per_node = 1
[place]
kind = \"list\"
list = [0, 1]
[speed]
num = 1
den = 1
[latency]
self = 1
local = 1
base = 5
hop = 0
bytes_num = 1
bytes_den = 64
$ put p
chares 3; var x; entry go(1);
body { if (this == 1) { serial { send go[0](1) to 0 bytes 640; work 1; send go[0](2) to 2; } }
  else { when go[0](x) { serial { work 9; emit x; } } } }
$ model|run p m = 13
bad machine: place length 2 needs 3
$ model|run p e = 13
bad machine: missing torus.sizes
$ put m
torus
$ model p m = 13
bad machine: not toml
";

// Words that are no command, or none that is built, and words that are one.
const WORDS: &str = "$ put p
chares 2; var x; entry go(1);
body {
  serial { work 3; send go[7](this) to 1 - this; }
  when go[7](x) { serial { work 2; emit x; } }
}
$ run = 10
bad words
$ model p = 10
bad words
$ model -p flat:2:5 = 10
bad words
$ trace p flat:2:5 --waves 3 = 10
bad words
$ check = 10
bad words
$ model p flat:0:5 = 10
bad words
$ model p flat:2:0 = 10
bad words
$ model p flat:65537:5 = 10
bad words
$ model p flat:007:5 = 10
bad words
$ model p flat:2 = 10
bad words
$ model p flat:2:5 --limit 0 = 10
bad words
$ model p flat:2:5 --limit 262145 = 10
bad words
$ check p --limit 3 = 10
bad words
$ model p flat:2:5 --waves 3 = 10
bad words
$ model --limit 262144 p flat:2:5 = 0
status settled
block 1 chare 0 stmt 1 proc 0 start 0 end 4
block 2 chare 0 stmt 3 proc 0 start 9 end 12
value 1
block 3 chare 1 stmt 1 proc 1 start 0 end 4
block 4 chare 1 stmt 3 proc 1 start 9 end 12
value 0
span 12
proc 0 blocks 2 busy 7 use 5833
proc 1 blocks 2 busy 7 use 5833
";

#[test]
fn steps_that_refuse(rt: HostRuntime) -> Result<(), Fail> {
    play(&rt, STEPS)?;
    play(&rt, WORDS)
}

// Programs, each with the line by which `check` refuses it, or `kept` where it keeps all rules.
const RULES: &str = "stmt 1 unknown name: chares 1; body { serial { x = 8; } }
stmt 2 unknown name: chares 1; var x; body { serial { } serial { emit y; } }
stmt 1 unknown name: chares 1; var x; body { serial { x[0] = 1; } }
stmt 1 unknown name: chares 1; var a[2]; body { serial { a = 1; } }
stmt 1 unknown name: chares 1; var a[2]; body { serial { emit a; } }
stmt 1 unknown name: chares 1; entry e(0); body { serial { emit e; } }
stmt 1 unknown name: chares 1; var x; body { serial { send x[0]() to 0; } }
stmt 1 unknown name: chares 1; var a[2]; entry e(1); body { when e[0](a) { } }
stmt 1 unknown name: chares 1; var x; body { when x[0]() { } }
stmt 1 unknown name: chares 1; body { for (i = 0; 1; i = 1) { serial { } } }
stmt 1 unknown name: chares 1; var x; body { serial { if (1) { repeat 2 { emit z; } } } }
stmt 0 declared twice: chares 1; var x; var x; body { }
stmt 0 declared twice: chares 1; var x; entry x(0); body { }
stmt 0 declared twice: chares 1; entry e(0); entry e(1); body { serial { emit x; } }
stmt 1 arity: chares 1; entry e(1); body { serial { send e[0]() to 0; } }
stmt 1 arity: chares 1; entry e(1); body { serial { send e[0](1, 2) to 0; } }
stmt 1 arity: chares 1; entry e(1); body { when e[0]() { } }
stmt 1 interference var 0 parts 0 1: chares 1; var x; body { overlap { serial { x = 1; } serial { x = 2; } } }
stmt 1 interference var 1 parts 1 2: chares 1; var y; var x; body { overlap { serial { } serial { emit x; } serial { x = 2; } } }
stmt 1 interference var 0 parts 0 1: chares 1; var x; var y; body { overlap { serial { y = x; } serial { x = y; } } }
stmt 1 interference var 0 parts 0 1: chares 1; var a[4]; body { overlap { serial { a[0] = 1; } serial { a[1] = 2; } } }
stmt 1 interference var 0 parts 0 1: chares 1; var x; entry e(1); body { overlap { when e[0](x) { } when e[1](x) { } } }
stmt 1 interference var 0 parts 0 1: chares 1; var x; body { overlap { for (x = 0; 0; x = 1) { serial { } } serial { emit x; } } }
stmt 2 interference var 0 parts 0 1: chares 1; var x; body { serial { } overlap { { overlap { serial { x = 1; } } } if (x) { } } }
stmt 1 idle loop: chares 1; body { while (1) { } }
stmt 1 idle loop: chares 1; var i; body { for (i = 0; i < 2; i = i + 1) { if (i) { serial { } } } }
stmt 1 idle loop: chares 1; body { while (1) { while (1) { serial { } } } }
stmt 1 idle loop: chares 1; body { while (1) { overlap { } } }
stmt 4 idle loop: chares 1; body { serial { } while (1) { serial { } while (1) { { } } } }
stmt 0 limits: chares 0; body { }
stmt 0 limits: chares 65537; body { }
stmt 0 limits: chares 9223372036854775807; body { }
stmt 0 limits: chares 1; var a[0]; body { }
stmt 0 limits: chares 1; var a[65537]; body { }
stmt 0 limits: chares 1; var a[65536]; var x; body { }
stmt 0 limits: chares 65; var a[65536]; body { }
stmt 0 limits: chares 1; var a[9223372036854775807]; var b[9223372036854775807]; body { }
stmt 0 limits: chares 1; entry e(17); body { }
stmt 0 declared twice: chares 0; var x; entry x(0); body { }
stmt 0 limits: chares 0; body { while (1) { } }
stmt 1 unknown name: chares 1; entry e(0); body { serial { x = 1; send e[0](1) to 0; } }
stmt 1 unknown name: chares 1; entry e(0); body { when e[y](x) { } }
stmt 1 unknown name: chares 1; body { while (x) { } }
stmt 1 interference var 0 parts 0 1: chares 1; var x; body { overlap { serial { x[0] = 1; } serial { x = 2; } } }
stmt 2 unknown name: chares 1; var x; body { overlap { serial { y = 1; } serial { y = 2; } } }
stmt 2 arity: chares 1; var x; entry e(0); body { overlap { serial { send e[0](1) to 0; } while (1) { } } }
kept: chares 65536; var a[64]; body { }
kept: chares 64; var a[65536]; entry e(16); body { }
kept: chares 1; var x; body { overlap { serial { emit x; } serial { emit x; } } }
kept: chares 1; var x; body { while (1) { if (x) { serial { } } else { { serial { } } } } }
kept: chares 1; var x; entry e(1); body { while (1) { when e[0](x) { overlap { serial { } } } } }
kept: chares 1; var x; entry e(2); body { when e[0](x, x), e[1](x, x) { serial { x = x; } } }";

// Checks a program, and looks for the line.
fn is_checked(rt: &(impl Abort + AllocGlobal), line: &str, program: &str) -> Result<(), Fail> {
    let mut desk = MemoryDesk::new(rt.alloc(), 4096);
    desk.put_file("p", program.as_bytes())?;
    let status = performed(rt.alloc(), &mut desk, "check", "p")?;
    if line == "kept" {
        assert_eq!(rt; status, Status::Settled, "{program}");
        return Ok(());
    }
    let wanted = format!(in rt.alloc(); "check failed: {line}\n")?;
    assert_eq!(rt; status, Status::CheckFailed, "{program}");
    assert_eq!(rt; desk.written(Port::Err), wanted.as_bytes(), "{program}");
    Ok(())
}

#[test]
fn rules_of_the_language(rt: HostRuntime) -> Result<(), Fail> {
    for row in RULES.split('\n') {
        let (line, program) = row.split_once(": ").ok_or("no line")?;
        is_checked(&rt, line, program)?;
    }
    Ok(())
}

// A machine file in which each key stands once.
const MACHINE: &str = "[torus]
sizes = [2]
per_node = 1
[place]
kind = \"cycle\"
[speed]
num = 1
den = 1
[latency]
self = 1
local = 1
base = 5
hop = 0
bytes_num = 1
bytes_den = 64";

// Lines in the place of that of their key, each with what is told of the machine, or `fitting`. A key alone
// is left out.
const VALUES: &str = "missing torus.sizes: sizes
missing torus.per_node: per_node
missing place.kind: kind
missing speed.num: num
missing speed.den: den
missing latency.self: self
missing latency.local: local
missing latency.base: base
missing latency.hop: hop
missing latency.bytes_num: bytes_num
missing latency.bytes_den: bytes_den
out of range torus.sizes: sizes = []
out of range torus.sizes: sizes = [0]
out of range torus.sizes: sizes = [65537]
out of range torus.sizes: sizes = [1, 1, 1, 1, 1, 1, 1]
out of range torus.per_node: per_node = 0
out of range torus.per_node: per_node = 32769
out of range torus.per_node: per_node = 65537
out of range place.kind: kind = \"ring\"
out of range speed.num: num = 0
out of range speed.num: num = 65536
out of range speed.den: den = 0
out of range speed.den: den = 65536
out of range latency.self: self = 0
out of range latency.self: self = 274877906945
out of range latency.local: local = 0
out of range latency.local: local = 274877906945
out of range latency.base: base = 0
out of range latency.base: base = 274877906945
out of range latency.hop: hop = -1
out of range latency.hop: hop = 4194305
out of range latency.bytes_num: bytes_num = -1
out of range latency.bytes_num: bytes_num = 257
out of range latency.bytes_den: bytes_den = 0
out of range latency.bytes_den: bytes_den = 65536
out of range torus.sizes: sizes = 2
out of range torus.sizes: sizes = [2.0]
out of range torus.per_node: per_node = true
out of range place.kind: kind = 1
out of range speed.num: num = 1.0
out of range speed.den: den = \"1\"
out of range latency.self: self = [1]
out of range latency.local: local = 1e0
out of range latency.base: base = 1979-05-27
out of range latency.hop: hop = { }
out of range latency.bytes_num: bytes_num = false
out of range latency.bytes_den: bytes_den = '64'
fitting: sizes = [65536]
fitting: sizes = [1, 1, 1, 1, 1, 1]
fitting: per_node = 32768
fitting: kind = \"block\"
fitting: num = 65535
fitting: den = 65535
fitting: self = 274877906944
fitting: local = 274877906944
fitting: base = 274877906944
fitting: hop = 4194304
fitting: bytes_num = 0
fitting: bytes_num = 256
fitting: bytes_den = 65535
fitting: bytes_den = 0x1
fitting: bytes_den = +1";

// The machine file with another line of a key, or without it where the line is the key alone.
fn machine_with(alloc: Global, other: &str) -> Result<String, AllocError> {
    let (key, _) = other.split_once(' ').unwrap_or((other, ""));
    let mut text = String::new(alloc);
    for line in MACHINE.split('\n') {
        let (name, _) = line.split_once(' ').unwrap_or((line, ""));
        if name != key {
            text.push_str(line)?;
            text.push_str("\n")?;
        } else if other != key {
            text.push_str(other)?;
            text.push_str("\n")?;
        }
    }
    Ok(text)
}

// Runs a program on the machine with another line, and looks for what is told of it.
fn is_told(rt: &(impl Abort + AllocGlobal), line: &str, other: &str) -> Result<(), Fail> {
    let machine = machine_with(rt.alloc(), other)?;
    let mut desk = MemoryDesk::new(rt.alloc(), 4096);
    desk.put_file("p", EXCHANGE.as_bytes())?;
    desk.put_file("m", machine.as_bytes())?;
    let status = performed(rt.alloc(), &mut desk, "model", "p m")?;
    if line == "fitting" {
        assert_eq!(rt; status, Status::Settled, "{other}");
        return Ok(());
    }
    let wanted = format!(in rt.alloc(); "bad machine: {line}\n")?;
    assert_eq!(rt; status, Status::BadMachine, "{other}");
    assert_eq!(rt; desk.written(Port::Err), wanted.as_bytes(), "{other}");
    Ok(())
}

#[test]
fn values_of_machines(rt: HostRuntime) -> Result<(), Fail> {
    for row in VALUES.split('\n') {
        let (line, other) = row.split_once(": ").ok_or("no line")?;
        is_told(&rt, line, other)?;
    }
    Ok(())
}
