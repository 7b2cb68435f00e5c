// Programs of all forms, each with what `model` and `run` tell of it.
use super::session::play;
use std::test::Fail;

// Each form of statement inside each other: one after the other, side by side, and in turns.
const FORMS: &str = "$ put p
chares 1; var x; var y; var i; var w; var k; entry go(1);
body {
  serial { send go[1](7) to 0; send go[2](8) to 0; }
  when go[1](x) {
    when go[2](y) { serial { emit y; } }
    overlap { serial { emit 2; } serial { emit 3; } }
    for (i = 0; i < 2; i = i + 1) { serial { emit i; } }
    while (w == 0) { serial { w = 1; emit 4; } }
    if (this) { } else { serial { emit 5; } }
    { serial { emit 6; } }
  }
}
$ model|run p flat:1:1 = 0
status settled
block 1 chare 0 stmt 1 proc 0 start 0 end 1
block 2 chare 0 stmt 4 proc 0 start 2 end 3
value 8
block 3 chare 0 stmt 6 proc 0 start 3 end 4
value 2
block 4 chare 0 stmt 7 proc 0 start 4 end 5
value 3
block 5 chare 0 stmt 9 proc 0 start 5 end 6
value 0
block 6 chare 0 stmt 9 proc 0 start 6 end 7
value 1
block 7 chare 0 stmt 11 proc 0 start 7 end 8
value 4
block 8 chare 0 stmt 13 proc 0 start 8 end 9
value 5
block 9 chare 0 stmt 15 proc 0 start 9 end 10
value 6
span 10
proc 0 blocks 9 busy 9 use 9000
$ put p
chares 1; var x; var y; var i; var w; var k; entry go(1);
body {
  serial { send go[1](7) to 0; send go[2](8) to 0; }
  overlap {
    when go[2](y) { serial { emit y; } }
    overlap { serial { emit 2; } serial { emit 3; } }
    for (i = 0; i < 2; i = i + 1) { serial { emit i; } }
    while (w == 0) { serial { w = 1; emit 4; } }
    if (this) { } else { serial { emit 5; } }
    { serial { emit 6; } }
  }
}
$ model|run p flat:1:1 = 0
status settled
block 1 chare 0 stmt 1 proc 0 start 0 end 1
block 2 chare 0 stmt 4 proc 0 start 7 end 8
value 8
block 3 chare 0 stmt 6 proc 0 start 1 end 2
value 2
block 4 chare 0 stmt 7 proc 0 start 2 end 3
value 3
block 5 chare 0 stmt 9 proc 0 start 3 end 4
value 0
block 6 chare 0 stmt 9 proc 0 start 8 end 9
value 1
block 7 chare 0 stmt 11 proc 0 start 4 end 5
value 4
block 8 chare 0 stmt 13 proc 0 start 5 end 6
value 5
block 9 chare 0 stmt 15 proc 0 start 6 end 7
value 6
span 9
proc 0 blocks 9 busy 9 use 10000
$ put p
chares 1; var x; var y; var i; var w; var k; entry go(1);
body {
  serial { send go[1](7) to 0; send go[2](8) to 0; }
  for (k = 0; k < 1; k = k + 1) {
    when go[2](y) { serial { emit y; } }
    overlap { serial { emit 2; } serial { emit 3; } }
    for (i = 0; i < 2; i = i + 1) { serial { emit i; } }
    while (w == 0) { serial { w = 1; emit 4; } }
    if (this) { } else { serial { emit 5; } }
    { serial { emit 6; } }
  }
}
$ model|run p flat:1:1 = 0
status settled
block 1 chare 0 stmt 1 proc 0 start 0 end 1
block 2 chare 0 stmt 4 proc 0 start 2 end 3
value 8
block 3 chare 0 stmt 6 proc 0 start 3 end 4
value 2
block 4 chare 0 stmt 7 proc 0 start 4 end 5
value 3
block 5 chare 0 stmt 9 proc 0 start 5 end 6
value 0
block 6 chare 0 stmt 9 proc 0 start 6 end 7
value 1
block 7 chare 0 stmt 11 proc 0 start 7 end 8
value 4
block 8 chare 0 stmt 13 proc 0 start 8 end 9
value 5
block 9 chare 0 stmt 15 proc 0 start 9 end 10
value 6
span 10
proc 0 blocks 9 busy 9 use 9000
$ put p
chares 1; var x; var y; var i; var w; var k; entry go(1);
body {
  serial { send go[1](7) to 0; send go[2](8) to 0; }
  while (k == 0) {
    serial { k = 1; }
    when go[2](y) { serial { emit y; } }
    overlap { serial { emit 2; } serial { emit 3; } }
    for (i = 0; i < 2; i = i + 1) { serial { emit i; } }
    while (w == 0) { serial { w = 1; emit 4; } }
    if (this) { } else { serial { emit 5; } }
    { serial { emit 6; } }
  }
}
$ model|run p flat:1:1 = 0
status settled
block 1 chare 0 stmt 1 proc 0 start 0 end 1
block 2 chare 0 stmt 3 proc 0 start 1 end 2
block 3 chare 0 stmt 5 proc 0 start 2 end 3
value 8
block 4 chare 0 stmt 7 proc 0 start 3 end 4
value 2
block 5 chare 0 stmt 8 proc 0 start 4 end 5
value 3
block 6 chare 0 stmt 10 proc 0 start 5 end 6
value 0
block 7 chare 0 stmt 10 proc 0 start 6 end 7
value 1
block 8 chare 0 stmt 12 proc 0 start 7 end 8
value 4
block 9 chare 0 stmt 14 proc 0 start 8 end 9
value 5
block 10 chare 0 stmt 16 proc 0 start 9 end 10
value 6
span 10
proc 0 blocks 10 busy 10 use 10000
$ put p
chares 1; var x; var y; var i; var w; var k; entry go(1);
body {
  serial { send go[1](7) to 0; send go[2](8) to 0; }
  if (1) {
    when go[2](y) { serial { emit y; } }
    overlap { serial { emit 2; } serial { emit 3; } }
    for (i = 0; i < 2; i = i + 1) { serial { emit i; } }
    while (w == 0) { serial { w = 1; emit 4; } }
    if (this) { } else { serial { emit 5; } }
    { serial { emit 6; } }
  }
}
$ model|run p flat:1:1 = 0
status settled
block 1 chare 0 stmt 1 proc 0 start 0 end 1
block 2 chare 0 stmt 4 proc 0 start 2 end 3
value 8
block 3 chare 0 stmt 6 proc 0 start 3 end 4
value 2
block 4 chare 0 stmt 7 proc 0 start 4 end 5
value 3
block 5 chare 0 stmt 9 proc 0 start 5 end 6
value 0
block 6 chare 0 stmt 9 proc 0 start 6 end 7
value 1
block 7 chare 0 stmt 11 proc 0 start 7 end 8
value 4
block 8 chare 0 stmt 13 proc 0 start 8 end 9
value 5
block 9 chare 0 stmt 15 proc 0 start 9 end 10
value 6
span 10
proc 0 blocks 9 busy 9 use 9000
$ put p
chares 1; var x; var y; var i; var w; var k; entry go(1);
body {
  serial { send go[1](7) to 0; send go[2](8) to 0; }
  {
    when go[2](y) { serial { emit y; } }
    overlap { serial { emit 2; } serial { emit 3; } }
    for (i = 0; i < 2; i = i + 1) { serial { emit i; } }
    while (w == 0) { serial { w = 1; emit 4; } }
    if (this) { } else { serial { emit 5; } }
    { serial { emit 6; } }
  }
}
$ model|run p flat:1:1 = 0
status settled
block 1 chare 0 stmt 1 proc 0 start 0 end 1
block 2 chare 0 stmt 4 proc 0 start 2 end 3
value 8
block 3 chare 0 stmt 6 proc 0 start 3 end 4
value 2
block 4 chare 0 stmt 7 proc 0 start 4 end 5
value 3
block 5 chare 0 stmt 9 proc 0 start 5 end 6
value 0
block 6 chare 0 stmt 9 proc 0 start 6 end 7
value 1
block 7 chare 0 stmt 11 proc 0 start 7 end 8
value 4
block 8 chare 0 stmt 13 proc 0 start 8 end 9
value 5
block 9 chare 0 stmt 15 proc 0 start 9 end 10
value 6
span 10
proc 0 blocks 9 busy 9 use 9000
";

// Times on machines: flat ones, one on which bytes cost, and one with a slow processor.
const TIMES: &str = "$ put corners
[torus]
sizes = [2]
per_node = 1
[place]
kind = \"cycle\"
[speed]
num = 1
den = 1
[latency]
self = 1
local = 1
base = 5
hop = 0
bytes_num = 1
bytes_den = 64
$ put slow
[torus]
sizes = [1]
per_node = 1
[place]
kind = \"block\"
[speed]
num = 3
den = 2
[latency]
self = 1
local = 1
base = 1
hop = 0
bytes_num = 0
bytes_den = 1
$ put p
chares 1; body { serial { } }
$ model|run p flat:1:1 = 0
status settled
block 1 chare 0 stmt 1 proc 0 start 0 end 1
span 1
proc 0 blocks 1 busy 1 use 10000
$ model|run p slow = 0
status settled
block 1 chare 0 stmt 1 proc 0 start 0 end 2
span 2
proc 0 blocks 1 busy 2 use 10000
$ put p
chares 3; var x; body { serial { work 1; } }
$ model|run p flat:1:1 = 0
status settled
block 1 chare 0 stmt 1 proc 0 start 0 end 2
block 2 chare 1 stmt 1 proc 0 start 2 end 4
block 3 chare 2 stmt 1 proc 0 start 4 end 6
span 6
proc 0 blocks 3 busy 6 use 10000
$ put p
chares 2; var x; entry go(1);
body { if (this == 0) { serial { work 3; send go[0](5) to 1; } }
  else { serial { work 20; } when go[0](x) { serial { work 2; emit x; } } } }
$ model|run p flat:2:5 = 0
status settled
block 1 chare 0 stmt 2 proc 0 start 0 end 4
block 2 chare 1 stmt 3 proc 1 start 0 end 21
block 3 chare 1 stmt 5 proc 1 start 21 end 24
value 5
span 24
proc 0 blocks 1 busy 4 use 1666
proc 1 blocks 2 busy 24 use 10000
$ put p
chares 3; var x; entry go(1);
body { if (this == 1) { serial { send go[0](1) to 0 bytes 640; work 1; send go[0](2) to 2; } }
  else { when go[0](x) { serial { work 9; emit x; } } } }
$ model|run p flat:2:5 = 0
status settled
block 1 chare 0 stmt 4 proc 0 start 6 end 16
value 1
block 2 chare 1 stmt 2 proc 1 start 0 end 2
block 3 chare 2 stmt 4 proc 0 start 16 end 26
value 2
span 26
proc 0 blocks 2 busy 20 use 7692
proc 1 blocks 1 busy 2 use 769
$ model|run p corners = 0
status settled
block 1 chare 0 stmt 4 proc 0 start 18 end 28
value 1
block 2 chare 1 stmt 2 proc 1 start 0 end 2
block 3 chare 2 stmt 4 proc 0 start 8 end 18
value 2
span 28
proc 0 blocks 2 busy 20 use 7142
proc 1 blocks 1 busy 2 use 714
$ put p
chares 3; var x; entry go(1); entry done(0);
body { if (this == 1) {
    serial { send go[0](1) to 0 bytes 640; work 1; send go[0](2) to 2; }
    when done[0]() { serial { } }
  } else { when go[0](x) { serial { work 9; if (this == 2) { send done[0]() to 1; } } } } }
$ model|run p corners = 0
status settled
block 1 chare 0 stmt 6 proc 0 start 18 end 28
block 2 chare 1 stmt 2 proc 1 start 0 end 2
block 3 chare 1 stmt 4 proc 1 start 23 end 24
block 4 chare 2 stmt 6 proc 0 start 8 end 18
span 28
proc 0 blocks 2 busy 20 use 7142
proc 1 blocks 2 busy 3 use 1071
";

// Messages that are taken out of order, by nobody, never, and into one variable twice.
const MESSAGES: &str = "$ put p
chares 1; var x; var y; entry a(1); entry b(1);
body { serial { send b[5](1) to 0; work 4; send a[0 - 2](2) to 0; } when a[0 - 2](x), b[5](y) { serial { emit x * 10 + y; } } }
$ model|run p flat:1:3 = 0
status settled
block 1 chare 0 stmt 1 proc 0 start 0 end 5
block 2 chare 0 stmt 3 proc 0 start 8 end 9
value 21
span 9
proc 0 blocks 2 busy 6 use 6666
$ put p
chares 1; entry e(0); body { serial { send e[0]() to 0; } }
$ model|run p flat:1:1 = 0
status settled
block 1 chare 0 stmt 1 proc 0 start 0 end 1
span 1
proc 0 blocks 1 busy 1 use 10000
$ put p
chares 2; entry go(0); body { when go[0]() { serial { send go[0]() to 1 - this; } } }
$ model|run p flat:2:5 = 3
status deadlock
wait chare 0 stmt 1 entry 0 ref 0
wait chare 1 stmt 1 entry 0 ref 0
span 0
$ put p
chares 1; entry a(0); entry b(0);
body { serial { send a[0]() to 0; } when a[0](), b[0](), b[1]() { serial { } } }
$ model|run p flat:1:1 = 3
status deadlock
block 1 chare 0 stmt 1 proc 0 start 0 end 1
wait chare 0 stmt 2 entry 1 ref 0
wait chare 0 stmt 2 entry 1 ref 1
span 1
proc 0 blocks 1 busy 1 use 10000
$ put p
chares 1; var x; var y; entry e(2); body { serial { send e[0](1, 2) to 0; } when e[0](x, x) { serial { emit x; emit y; } } }
$ model|run p flat:1:1 = 0
status settled
block 1 chare 0 stmt 1 proc 0 start 0 end 1
block 2 chare 0 stmt 3 proc 0 start 2 end 3
value 2
value 0
span 3
proc 0 blocks 2 busy 2 use 6666
";

// Overlaps: with nothing in them, with a trap, and with somebody who waits.
const OVERLAPS: &str = "$ put p
chares 1; body { overlap { } serial { emit 1; } }
$ model|run p flat:1:1 = 0
status settled
block 1 chare 0 stmt 2 proc 0 start 0 end 1
value 1
span 1
proc 0 blocks 1 busy 1 use 10000
$ put p
chares 1; var x; var y; body { overlap { serial { x = 1; } serial { y = 2; } } serial { emit x * 10 + y; } }
$ model|run p flat:1:1 = 0
status settled
block 1 chare 0 stmt 2 proc 0 start 0 end 1
block 2 chare 0 stmt 3 proc 0 start 1 end 2
block 3 chare 0 stmt 4 proc 0 start 2 end 3
value 12
span 3
proc 0 blocks 3 busy 3 use 10000
$ put p
chares 1; var x; body { overlap { serial { x = 1 / 0; } serial { emit 1; } { serial { emit 2; } serial { emit 3; } } } serial { emit 4; } }
$ model|run p flat:1:1 = 4
status trapped
block 1 chare 0 stmt 3 proc 0 start 0 end 1
value 1
block 2 chare 0 stmt 5 proc 0 start 1 end 2
value 2
block 3 chare 0 stmt 6 proc 0 start 2 end 3
value 3
trap chare 0 stmt 2 divisor
span 3
proc 0 blocks 3 busy 3 use 10000
$ put p
chares 1; entry e(0); body { overlap { when e[0]() { } serial { emit 1; } } serial { emit 2; } }
$ model|run p flat:1:1 = 3
status deadlock
block 1 chare 0 stmt 3 proc 0 start 0 end 1
value 1
wait chare 0 stmt 2 entry 0 ref 0
span 1
proc 0 blocks 1 busy 1 use 10000
";

// Statements that stop: in a block, in a loop, in a `when`, and behind a send.
const TRAPS: &str = "$ put p
chares 2; var x; body { serial { work 1; } if (this == 1) { serial { x = 9223372036854775807; x = x + 1; } } }
$ model|run p flat:2:1 = 4
status trapped
block 1 chare 0 stmt 1 proc 0 start 0 end 2
block 2 chare 1 stmt 1 proc 1 start 0 end 2
trap chare 1 stmt 3 overflow
span 2
proc 0 blocks 1 busy 2 use 10000
proc 1 blocks 1 busy 2 use 10000
$ put p
chares 1; var i; var a[2]; body { for (i = 0; a[i] == 0; i = i + 1) { serial { emit i; } } serial { } }
$ model|run p flat:1:1 = 4
status trapped
block 1 chare 0 stmt 2 proc 0 start 0 end 1
value 0
block 2 chare 0 stmt 2 proc 0 start 1 end 2
value 1
trap chare 0 stmt 1 index
span 2
proc 0 blocks 2 busy 2 use 10000
$ put p
chares 2; entry e(0);
body { if (this) { when e[1 / 0]() { } } else { when e[0]() { } } }
$ model|run p flat:1:1 = 4
status trapped
trap chare 1 stmt 2 divisor
wait chare 0 stmt 3 entry 0 ref 0
span 0
$ put p
chares 1; entry e(0); body { serial { send e[0]() to 0; emit 1; work 0 - 1; } when e[0]() { } }
$ model|run p flat:1:1 = 4
status trapped
trap chare 0 stmt 1 work
span 0
";

// Sizes at a limit and above it.
const LIMITS: &str = "$ put p
chares 1; var i; body { for (i = 0; i < 2; i = i + 1) { serial { } } }
$ model|run p flat:1:1 --limit 3 = 0
status settled
block 1 chare 0 stmt 2 proc 0 start 0 end 1
block 2 chare 0 stmt 2 proc 0 start 1 end 2
span 2
proc 0 blocks 2 busy 2 use 10000
$ model|run p flat:1:1 --limit 2 = 16
too long: limit 2
$ put p
chares 1; body { while (1) { serial { } } }
$ model|run p flat:1:1 --limit 9 = 16
too long: limit 9
$ put p
chares 1; entry e(1); body { serial { send e[0](1) to 0; send e[0](2) to 0; } }
$ model|run p flat:1:1 --limit 2 = 16
too long: limit 2
$ model p flat:1:1 --limit 0 = 10
bad words
";

// Keys that are sent twice or asked for twice.
const AMBIGUOUS: &str = "$ put p
chares 1; entry e(1); body { serial { send e[0](1) to 0; send e[0](2) to 0; } }
$ model|run p flat:1:1 --limit 3 = 15
ambiguous: chare 0 entry 0 ref 0 sent by chare 0 stmt 1 and chare 0 stmt 1
$ put p
chares 2; var x; entry go(1);
body { if (this == 0) { serial { send go[0](1) to 1; } serial { send go[0](2) to 1; } }
  else { when go[0](x) { serial { } } } }
$ model|run p flat:2:5 = 15
ambiguous: chare 1 entry 0 ref 0 sent by chare 0 stmt 2 and chare 0 stmt 3
$ put p
chares 1; var x; var y; entry go(1); body { overlap { when go[0](x) { serial { } } when go[0](y) { serial { } } } }
$ model|run p flat:1:1 = 15
ambiguous: chare 0 entry 0 ref 0 asked by chare 0 stmt 2 and chare 0 stmt 4
$ put p
chares 1; var x; entry e(1); body { when e[0](x), e[0](x) { } }
$ model|run p flat:1:1 = 15
ambiguous: chare 0 entry 0 ref 0 asked by chare 0 stmt 1 and chare 0 stmt 1
$ put p
chares 3; var x; var y; entry a(1); entry b(1);
body { if (this) { serial { send b[0 - 3](1) to 1; send b[2](1) to 1; } }
  else { overlap { when a[4](x) { } when a[4](y) { } } } }
$ model|run p flat:1:1 = 15
ambiguous: chare 0 entry 0 ref 4 asked by chare 0 stmt 4 and chare 0 stmt 5
$ put p
chares 3; entry a(0); entry b(0);
body { if (this) { serial { send b[0 - 3]() to 1; send b[2]() to 1; } } }
$ model|run p flat:1:1 = 15
ambiguous: chare 1 entry 1 ref -3 sent by chare 1 stmt 2 and chare 2 stmt 2
";

#[test]
fn programs_of_all_forms(rt: HostRuntime) -> Result<(), Fail> {
    for session in [FORMS, TIMES, MESSAGES, OVERLAPS, TRAPS, LIMITS, AMBIGUOUS] {
        play(&rt, session)?;
    }
    Ok(())
}
