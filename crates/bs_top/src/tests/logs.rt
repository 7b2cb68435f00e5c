// Logs of programs, and what is told of logs.
use super::session::play;
use std::test::Fail;

// A log is written, asked, and kept where a command is refused; and it may be written over its program.
const LOGS: &str = "$ put p
chares 2; var x; entry go(1);
body {
  serial { work 3; send go[7](this) to 1 - this; }
  when go[7](x) { serial { work 2; emit x; } }
}
$ emulate p l = 0
$ show l
bslog 1
chares 2 entries 1 rows 4
row 0 1 1 4
send 1 0 7 8 4
row 0 3 2 3
after 1
mail 3 1
emit 1
row 1 1 1 4
send 0 0 7 8 4
row 1 3 2 3
after 3
mail 1 1
emit 0
end
$ predict l flat:2:5 = 0
status settled
block 1 chare 0 stmt 1 proc 0 start 0 end 4
block 2 chare 0 stmt 3 proc 0 start 9 end 12
value 1
block 3 chare 1 stmt 1 proc 1 start 0 end 4
block 4 chare 1 stmt 3 proc 1 start 9 end 12
value 0
span 12
proc 0 blocks 2 busy 7 use 5833
proc 1 blocks 2 busy 7 use 5833
$ put b
[torus]
sizes = [2]
per_node = 1
[place]
kind = \"cycle\"
[speed]
num = 1
den = 1
[latency]
self = 1
local = 1
base = 5
hop = 0
bytes_num = 1
bytes_den = 64
$ model|run p b = 0
status settled
block 1 chare 0 stmt 1 proc 0 start 0 end 4
block 2 chare 0 stmt 3 proc 0 start 10 end 13
value 1
block 3 chare 1 stmt 1 proc 1 start 0 end 4
block 4 chare 1 stmt 3 proc 1 start 10 end 13
value 0
span 13
proc 0 blocks 2 busy 7 use 5384
proc 1 blocks 2 busy 7 use 5384
$ predict l b = 0
status settled
block 1 chare 0 stmt 1 proc 0 start 0 end 4
block 2 chare 0 stmt 3 proc 0 start 10 end 13
value 1
block 3 chare 1 stmt 1 proc 1 start 0 end 4
block 4 chare 1 stmt 3 proc 1 start 10 end 13
value 0
span 13
proc 0 blocks 2 busy 7 use 5384
proc 1 blocks 2 busy 7 use 5384
$ put l
older
$ emulate p l --limit 13 = 16
too long: limit 13
$ show l
older
$ emulate --workers 65 p l = 10
bad words
$ show l
older
$ emulate --workers 64 p l --limit 14 = 0
$ show l
bslog 1
chares 2 entries 1 rows 4
row 0 1 1 4
send 1 0 7 8 4
row 0 3 2 3
after 1
mail 3 1
emit 1
row 1 1 1 4
send 0 0 7 8 4
row 1 3 2 3
after 3
mail 1 1
emit 0
end
$ emulate p p = 0
$ show p
bslog 1
chares 2 entries 1 rows 4
row 0 1 1 4
send 1 0 7 8 4
row 0 3 2 3
after 1
mail 3 1
emit 1
row 1 1 1 4
send 0 0 7 8 4
row 1 3 2 3
after 3
mail 1 1
emit 0
end
";

// The ends of logs.
const ENDS: &str = "$ put p
chares 2; entry go(0);
body { when go[0]() { serial { send go[0]() to 1 - this; } } }
$ emulate p l = 3
$ show l
bslog 1
chares 2 entries 1 rows 0
wait 0 1 0 0
wait 1 1 0 0
end
$ predict l flat:2:5 = 3
status deadlock
wait chare 0 stmt 1 entry 0 ref 0
wait chare 1 stmt 1 entry 0 ref 0
span 0
$ trace l flat:2:5 = 3
$ chain l flat:2:5 = 3
chain rows 0 span 0
last 0
$ predict l flat:2:5 --waves 1 = 3
status deadlock
wait chare 0 stmt 1 entry 0 ref 0
wait chare 1 stmt 1 entry 0 ref 0
span 0
$ predict l flat:2:5 --journal j = 3
status deadlock
wait chare 0 stmt 1 entry 0 ref 0
wait chare 1 stmt 1 entry 0 ref 0
span 0
$ show j
wave 1
settled 1
$ put p
chares 2; var x;
body { serial { work 1; } if (this == 1) { serial { x = 9223372036854775807; x = x + 1; } } }
$ emulate p l = 4
$ show l
bslog 1
chares 2 entries 0 rows 2
row 0 1 1 2
row 1 1 1 2
trap 1 3 1
end
$ put l
older
$ put p
chares 2; var x; entry go(1);
body { if (this == 0) { serial { send go[0](1) to 1; } serial { send go[0](2) to 1; } }
  else { when go[0](x) { serial { } } } }
$ emulate p l = 15
ambiguous: chare 1 entry 0 ref 0 sent by chare 0 stmt 2 and chare 0 stmt 3
$ show l
older
";

// Chare 1 sends a long message to chare 0 and a short one to chare 2. Each of the two works when its
// message comes, and chare 2 then sends word to chare 1.
const WAVES: &str = "$ put p
chares 3; var x; entry go(1); entry done(0);
body { if (this == 1) {
    serial { send go[0](1) to 0 bytes 640; work 1; send go[0](2) to 2; }
    when done[0]() { serial { } }
  } else { when go[0](x) { serial { work 9; if (this == 2) { send done[0]() to 1; } } } } }
$ put m
[torus]
sizes = [2]
per_node = 1
[place]
kind = \"cycle\"
[speed]
num = 1
den = 1
[latency]
self = 1
local = 1
base = 5
hop = 0
bytes_num = 1
bytes_den = 64
$ emulate p l = 0
$ show l
bslog 1
chares 3 entries 2 rows 4
row 0 6 2 10
mail 2 1
row 1 2 1 2
send 0 0 0 640 1
send 2 0 0 8 2
row 1 4 3 1
after 2
mail 4 1
row 2 6 2 10
mail 2 2
send 1 1 0 0 10
end
$ predict l m --journal j = 0
status settled
block 1 chare 0 stmt 6 proc 0 start 18 end 28
block 2 chare 1 stmt 2 proc 1 start 0 end 2
block 3 chare 1 stmt 4 proc 1 start 23 end 24
block 4 chare 2 stmt 6 proc 0 start 8 end 18
span 28
proc 0 blocks 2 busy 20 use 7142
proc 1 blocks 2 busy 3 use 1071
$ show j
wave 1
mail 2 1 from 0 to 16
mail 2 2 from 0 to 8
mail 4 1 from 0 to 25
wave 2
mail 4 1 from 25 to 23
wave 3
settled 3
$ predict --waves 1 l m --journal j = 17
budget spent: waves 1 mail 2 1 kept 0 due 16
$ show j
wave 1
mail 2 1 from 0 to 16
mail 2 2 from 0 to 8
mail 4 1 from 0 to 25
spent 1
$ predict l m --waves 1 = 17
budget spent: waves 1 mail 2 1 kept 0 due 16
$ predict l m --waves 2 = 17
budget spent: waves 2 mail 4 1 kept 25 due 23
$ predict l m --waves 3 = 0
status settled
block 1 chare 0 stmt 6 proc 0 start 18 end 28
block 2 chare 1 stmt 2 proc 1 start 0 end 2
block 3 chare 1 stmt 4 proc 1 start 23 end 24
block 4 chare 2 stmt 6 proc 0 start 8 end 18
span 28
proc 0 blocks 2 busy 20 use 7142
proc 1 blocks 2 busy 3 use 1071
$ run p m --waves 1 = 17
budget spent: waves 1 mail 2 1 kept 0 due 16
$ run p m --waves 2 = 17
budget spent: waves 2 mail 4 1 kept 25 due 23
$ run p m --waves 3 = 0
status settled
block 1 chare 0 stmt 6 proc 0 start 18 end 28
block 2 chare 1 stmt 2 proc 1 start 0 end 2
block 3 chare 1 stmt 4 proc 1 start 23 end 24
block 4 chare 2 stmt 6 proc 0 start 8 end 18
span 28
proc 0 blocks 2 busy 20 use 7142
proc 1 blocks 2 busy 3 use 1071
$ chain l m --workers 1 = 0
chain rows 3 span 28
row 2 chare 1 stmt 2 start 0 step 0 first
row 4 chare 2 stmt 6 start 8 step 8 mail 2 2
row 1 chare 0 stmt 6 start 18 step 10 proc 4
last 10
$ trace l m = 0
proc 0
run 4 ready 8 start 8 end 18
run 1 ready 16 start 18 end 28
proc 1
run 2 ready 0 start 0 end 2
run 3 ready 23 start 23 end 24
mail 2 1 left 1 came 16
mail 2 2 left 2 came 8
mail 4 1 left 18 came 23
";

// Texts that are no logs, among them messages that justify each other, and logs that aren't asked.
const NO_LOGS: &str = "$ put l
bslog 1
chares 2 entries 1 rows 5
row 0 1 1 4
send 1 0 7 8 4
row 0 3 2 3
after 1
mail 3 1
emit 1
row 1 1 1 4
send 0 0 7 8 4
row 1 3 2 3
after 3
mail 1 1
emit 0
end
$ predict|trace|chain l flat:2:5 = 14
bad log: line 15 bad line
$ put l
bslog 1
chares 2 entries 1 rows 3
row 0 1 1 4
send 1 0 7 8 4
row 0 3 2 3
after 1
mail 3 1
emit 1
row 1 1 1 4
send 0 0 7 8 4
row 1 3 2 3
after 3
mail 1 1
emit 0
end
$ predict|trace l flat:2:5 = 14
bad log: line 11 bad line
$ put l
bslog 1
chares 2 entries 1 rows 4
row 0 1 1 4
send 1 0 7 8 4
row 0 3 2 3
after 1
mail 3 1
emit 1
row 1 1 1 4
send 0 0 7 8 4
row 1 3 2 3
after 3
mail 1 1
emit 0
$ predict|trace l flat:2:5 = 14
bad log: line 15 bad line
$ put l
bslog 1
chares 2 entries 1 rows 2
row 0 1 2 1
mail 2 1
send 1 0 0 0 1
row 1 1 2 1
mail 1 1
send 0 0 0 0 1
end
$ predict|trace l flat:2:5 = 14
bad log: line 3 bad depth
$ put l
$ predict l flat:2:5 = 14
bad log: line 1 bad line
$ put l
bslog 1
chares 2 entries 1 rows 4
row 0 1 1 4
send 1 0 7 8 4
row 0 3 2 3
after 1
mail 3 1
emit 1
row 1 1 1 4
send 0 0 7 8 4
row 1 3 2 3
after 3
mail 1 1
emit 0
end
$ put m
[torus]
sizes = [2]
per_node = 1
[place]
kind = \"list\"
list = [0]
[speed]
num = 1
den = 1
[latency]
self = 1
local = 1
base = 5
hop = 0
bytes_num = 1
bytes_den = 64
$ predict|trace l m = 13
bad machine: place length 1 needs 2
$ predict q flat:2:5 = 22
";

#[test]
fn logs_and_their_times(rt: HostRuntime) -> Result<(), Fail> {
    for session in [LOGS, ENDS, WAVES, NO_LOGS] {
        play(&rt, session)?;
    }
    Ok(())
}
