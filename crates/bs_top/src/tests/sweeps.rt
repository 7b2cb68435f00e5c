// A log on several machines, and before and after a statement costs less. What comes of it was worked out by hand.
use super::session::play;
use std::test::Fail;

// Chare 1 sends a long message to chare 0 and a short one to chare 2, which then sends word to chare 1. On the
// machine of the file bytes cost.
const POINTS: &str = "$ put l
bslog 1
chares 3 entries 2 rows 4
row 0 6 2 10
mail 2 1
row 1 2 1 2
send 0 0 0 640 1
send 2 0 0 8 2
row 1 4 3 1
after 2
mail 4 1
row 2 6 2 10
mail 2 2
send 1 1 0 0 10
end
$ put m
[torus]
sizes = [2]
per_node = 1
[place]
kind = \"cycle\"
[speed]
num = 1
den = 1
[latency]
self = 1
local = 1
base = 5
hop = 0
bytes_num = 1
bytes_den = 64
$ put other
[torus]
sizes = [2]
per_node = 1
[place]
kind = \"list\"
list = [0, 1]
[speed]
num = 1
den = 1
[latency]
self = 1
local = 1
base = 5
hop = 0
bytes_num = 1
bytes_den = 64
$ sweep l m m = 0
point 1 waves 3 span 28
point 2 waves 1 span 28
best 1
$ sweep l m flat:2:5 = 0
point 1 waves 3 span 28
point 2 waves 3 span 32
best 1
$ sweep l flat:2:5 m --spans = 0
point 1 span 32
point 2 span 28
best 2
$ sweep l m = 0
point 1 waves 3 span 28
best 1
$ tune l m 6 1 2 = 0
point 1 waves 3 span 28
point 2 waves 2 span 21
best 2
$ tune --spans l m 6 1 2 = 0
point 1 span 28
point 2 span 21
best 2
$ tune l m 7 1 2 --spans = 0
point 1 span 28
point 2 span 28
best 1
$ sweep l m other none = 13
bad machine: place length 2 needs 3
$ sweep l = 10
bad words
$ sweep l m flat = 22
$ sweep l m --waves 9 = 10
bad words
$ predict l m --spans = 10
bad words
$ tune l m 6 2 1 = 10
bad words
$ tune l m 0 1 2 = 10
bad words
$ tune l m 6 1 65536 = 10
bad words
";

#[test]
fn points_of_logs(rt: HostRuntime) -> Result<(), Fail> {
    play(&rt, POINTS)
}
