// The serial machine model, a run in one go, and a prediction from the written log give one text.
use super::fixtures::{BY_BYTES, SLOWER};
use super::session::performed;
use bs_desk::{MemoryDesk, Port};
use std::alloc::{AllocError, Global};
use std::process::Abort;
use std::test::Fail;

// 24 programs with a blank line between two of them. Each is clean.
const PROGRAMS: &str = "// Blocks alone.
chares 1; body { serial { } }

chares 3; body { serial { work 1; } }

chares 5; var i; body { for (i = 0; i < 3; i = i + 1) { serial { work this * i; } } }

chares 2; body { }

// Exchanges.
chares 2; var x; entry go(1); body { serial { work 3; send go[7](this) to 1 - this; }
  when go[7](x) { serial { work 2; emit x; } } }

chares 2; var x; entry go(1); body { if (this == 0) { serial { work 3; send go[0](5) to 1; } }
  else { serial { work 20; } when go[0](x) { serial { work 2; emit x; } } } }

chares 4; var x; entry go(1); body { serial { work this; send go[this](x + this) to (this + 1) % 4 bytes 640; }
  when go[(this + 3) % 4](x) { serial { emit x; } } }

chares 2; var i; var x; entry ping(1); body { for (i = 0; i < 6; i = i + 1) {
  if (i % 2 == this) { serial { work i; send ping[i](i * i) to 1 - this; } }
  else { when ping[i](x) { serial { emit x; } } } } }

// A message that comes later lets a block start earlier.
chares 3; var x; entry go(1); body { if (this == 1) { serial { send go[0](1) to 0 bytes 640; work 1; send go[0](2) to 2; } }
  else { when go[0](x) { serial { work 9; emit x; } } } }

chares 3; var x; entry go(1); entry done(0); body { if (this == 1) {
  serial { send go[0](1) to 0 bytes 640; work 1; send go[0](2) to 2; } when done[0]() { serial { } } }
  else { when go[0](x) { serial { work 9; if (this == 2) { send done[0]() to 1; } } } } }

// Overlaps.
chares 2; var a; var b; entry l(1); entry r(1); body { serial { send l[0](1) to this; work 4; send r[0](2) to 1 - this; }
  overlap { when r[0](b) { serial { work 5; emit b; } } when l[0](a) { serial { work 1; emit a; } } }
  serial { emit a + b; } }

chares 3; var x; var y; entry e(1); body { serial { send e[0](7) to (this + 1) % 3; send e[1](8) to (this + 2) % 3 bytes 0; }
  overlap { serial { work 2; } when e[0](x), e[1](y) { serial { emit x; emit y; } } } }

chares 1; var x; entry e(1); body { overlap { serial { send e[0](3) to 0; } when e[0](x) { serial { emit x; } } } }

chares 2; var x; var y; entry e(1); body { overlap { overlap { serial { work 1; } serial { work 2; } }
  when e[0](x) { serial { emit x; } } serial { send e[0](this) to 1 - this; } } serial { work 3; } }

// Loops and arrays.
chares 4; var i; var a[4]; body { serial { repeat 4 { a[i] = i * this; i = i + 1; } emit a[3]; } }

chares 3; var i; var x; entry step(1); body { while (i < 4) {
  serial { send step[i](x) to (this + 1) % chares; } when step[i](x) { serial { x = x + this; i = i + 1; } } } serial { emit x; } }

// A stencil and a tree.
chares 4; var i; var a; var b; var x; entry left(1); entry right(1); body { serial { x = this * 3; }
  for (i = 0; i < 4; i = i + 1) {
  serial { work (this * 7 + i) % 5; send left[i](x) to (this + chares - 1) % chares bytes 80; send right[i](x) to (this + 1) % chares bytes 80; }
  overlap { when left[i](a) { serial { work 3; } } when right[i](b) { serial { work 3; } } }
  serial { x = (a + b) / 2; } }
  serial { emit x; } }

chares 7; var a; var b; var s; entry up(1); body { overlap {
  if (2 * this + 1 < chares) { when up[0](a) { serial { work 2; } } }
  if (2 * this + 2 < chares) { when up[1](b) { serial { work 2; } } } }
  serial { work this % 4; s = a + b + 1; if (this > 0) { send up[(this + 1) % 2](s) to (this - 1) / 2; } else { emit s; } } }

// Somebody waits.
chares 2; entry go(0); body { when go[0]() { serial { send go[0]() to 1 - this; } } }

chares 2; var x; entry e(1); body { serial { send e[this](1) to this; } when e[0](x) { serial { emit x; } }
  overlap { when e[5](x) { serial { } } serial { work 6; } } }

chares 3; entry e(0); body { if (this == 0) { serial { send e[-1]() to 1; send e[3]() to 2; } }
  else { when e[-1](), e[3]() { serial { } } } }

// Somebody traps.
chares 2; var x; body { serial { work 1; } if (this == 1) { serial { x = 9223372036854775807; x = x + 1; } } }

chares 2; var x; entry e(1); body { overlap { when e[0](x) { serial { emit 1 / x; } } serial { work 2; send e[0](this) to 1 - this; } } serial { } }

chares 3; var a[2]; entry e(0); body { serial { send e[this]() to 0; } if (this == 0) { overlap {
  when e[2]() { serial { a[this + 2] = 1; } } when e[1]() { serial { work 3; } } when e[4]() { serial { } } } } }";

// A new desk with the program and two machines.
fn desk_with(alloc: Global, program: &str) -> Result<MemoryDesk, AllocError> {
    let mut desk = MemoryDesk::new(alloc, 4096);
    desk.put_file("p", program.as_bytes())?;
    desk.put_file("b", BY_BYTES.as_bytes())?;
    desk.put_file("s", SLOWER.as_bytes())?;
    Ok(desk)
}

// One program on one machine, three ways.
fn is_one_text(rt: &(impl Abort + AllocGlobal), program: &str, machine: &str) -> Result<(), Fail> {
    let alloc = rt.alloc();
    let names = format!(in alloc; "p {machine}")?;
    let mut model = desk_with(alloc, program)?;
    performed(alloc, &mut model, "model", names.as_str())?;
    let wanted = model.written(Port::Out);
    assert!(rt; !wanted.is_empty(), "{program}");
    let mut run = desk_with(alloc, program)?;
    performed(alloc, &mut run, "run", names.as_str())?;
    assert_eq!(rt; run.written(Port::Out), wanted, "{program}");
    let mut log = desk_with(alloc, program)?;
    performed(alloc, &mut log, "emulate", "p p")?;
    performed(alloc, &mut log, "predict", names.as_str())?;
    assert_eq!(rt; log.written(Port::Out), wanted, "{program}");
    Ok(())
}

#[test]
fn one_text_three_ways(rt: HostRuntime) -> Result<(), Fail> {
    for program in PROGRAMS.split("\n\n") {
        for machine in ["flat:1:3", "flat:2:5", "b", "s"] {
            is_one_text(&rt, program, machine)?;
        }
    }
    Ok(())
}
