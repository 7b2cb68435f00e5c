// Programs from a number: their text, and their trials.
use super::session::play;
use std::test::Fail;

// A tree is written, and taken as a program; and what comes of trials was worked out by hand.
const WORKLOADS: &str = "$ gen tree 1 0 = 0
chares 1;
var a;
var b;
var s;
entry up(1);
body {
overlap {
if (2 * this + 1 < chares) { when up[0](a) { serial { work 2; } } }
if (2 * this + 2 < chares) { when up[1](b) { serial { work 2; } } }
}
serial { work (this * 7 + 0) % 50; s = a + b + 1; \
if (this > 0) { send up[(this + 1) % 2](s) to (this - 1) / 2; } else { emit s; } }
}
$ trial tree 1 0 = 0
trial tree 1 0 status settled blocks 1 span 1
$ trial tree 3 0 --workers 1 = 0
trial tree 3 0 status settled blocks 5 span 29
$ trial ring 1 0 = 0
trial ring 1 0 status settled blocks 40 span 720
$ gen tree 0 0 = 10
bad words
$ gen tree 1 0 --limit 5 = 10
bad words
$ trial line 1 0 = 10
bad words
$ trial ring 1 1000000 = 10
bad words
";

#[test]
fn programs_from_a_number(rt: HostRuntime) -> Result<(), Fail> {
    play(&rt, WORKLOADS)
}
