// Each kind once, against its text written out by hand.
use crate::{Workload, generate};
use std::test::Fail;

#[test]
fn a_ring(rt: HostRuntime) -> Result<(), Fail> {
    let text = generate(rt.alloc(), Workload::Ring, 3, 17)?;
    let want = "\
chares 3;
var i;
var v;
entry token(1);
body {
for (i = 0; i < 20; i = i + 1) {
if (this == 0) {
serial { work (i * 7 + 17) % 50; send token[i](i) to (this + 1) % chares; }
when token[i](v) { serial { emit v; } }
} else {
when token[i](v) { serial { work (this * 7 + 17) % 50; send token[i](v + 1) to (this + 1) % chares; } }
}
}
}
";
    assert_eq!(rt; text.as_slice(), want.as_bytes());
    Ok(())
}

#[test]
fn a_stencil(rt: HostRuntime) -> Result<(), Fail> {
    let text = generate(rt.alloc(), Workload::Stencil, 512, 999_999)?;
    let want = "\
chares 512;
var i;
var a;
var b;
var x;
entry left(1);
entry right(1);
body {
serial { x = this * 3 + 999999; }
for (i = 0; i < 20; i = i + 1) {
serial { work (this * 7 + i + 999999) % 50; \
send left[i](x) to (this + chares - 1) % chares bytes 800; \
send right[i](x) to (this + 1) % chares bytes 800; }
overlap {
when left[i](a) { serial { work 3; } }
when right[i](b) { serial { work 3; } }
}
serial { x = (a + b) / 2; }
}
serial { emit x; }
}
";
    assert_eq!(rt; text.as_slice(), want.as_bytes());
    Ok(())
}

#[test]
fn a_tree(rt: HostRuntime) -> Result<(), Fail> {
    let text = generate(rt.alloc(), Workload::Tree, 1, 0)?;
    let want = "\
chares 1;
var a;
var b;
var s;
entry up(1);
body {
overlap {
if (2 * this + 1 < chares) { when up[0](a) { serial { work 2; } } }
if (2 * this + 2 < chares) { when up[1](b) { serial { work 2; } } }
}
serial { work (this * 7 + 0) % 50; s = a + b + 1; \
if (this > 0) { send up[(this + 1) % 2](s) to (this - 1) / 2; } else { emit s; } }
}
";
    assert_eq!(rt; text.as_slice(), want.as_bytes());
    Ok(())
}
