use crate::{ParseFault, parse};
use bs_lex::{LexFault, Mark, TokenKind};
use bs_tree::Program;
use std::alloc::{AllocError, Global};
use std::test::Fail;

fn fault(alloc: Global, text: &str) -> Option<ParseFault> {
    parse(alloc, text.as_bytes()).err()
}

fn read(alloc: Global, text: &[u8]) -> Result<Program, Fail> {
    match parse(alloc, text) {
        Ok(program) => Ok(program),
        Err(_) => Err("no program".into()),
    }
}

// A text with a part of it repeated.
fn repeated(
    alloc: Global,
    before: &str,
    part: &str,
    times: u32,
    after: &str,
) -> Result<String, AllocError> {
    let mut text = String::new(alloc);
    text.push_str(before)?;
    for _ in 0..times {
        text.push_str(part)?;
    }
    text.push_str(after)?;
    Ok(text)
}

#[test]
fn the_first_fault_is_told(rt: HostRuntime) {
    for (text, want) in [
        ("", ParseFault::Unexpected(0, TokenKind::End)),
        (
            "chares 1; body { serial { x = 08; } }",
            ParseFault::Lex(LexFault::BadNumber(30)),
        ),
        (
            "chares 1; body { serial { emit 1 < 2 < 3; } }",
            ParseFault::Unexpected(37, TokenKind::Mark(Mark::Less)),
        ),
        (
            "chares 1; body { } x",
            ParseFault::Unexpected(19, TokenKind::Name),
        ),
        (
            "chares 1; body {  ",
            ParseFault::Unexpected(18, TokenKind::End),
        ),
    ] {
        assert!(rt; fault(rt.alloc(), text) == Some(want), "at {text}");
    }
    assert!(rt; parse(rt.alloc(), b"\xff").err() == Some(ParseFault::Lex(LexFault::NotUtf8(0))));
}

#[test]
fn limits_are_kept(rt: HostRuntime) -> Result<(), Fail> {
    for (before, part, times, after, want) in [
        ("chares 1; body ", "{", 65, "", ParseFault::TooDeep(79)),
        (
            "chares 1; body { serial { emit 1",
            "+1",
            65,
            "; } }",
            ParseFault::TooDeep(160),
        ),
        (
            "chares 1; body {",
            "{}",
            10_001,
            "}",
            ParseFault::TooManyStatements(20_016),
        ),
    ] {
        let text = repeated(rt.alloc(), before, part, times, after)?;
        assert!(rt;
            fault(rt.alloc(), text.as_str()) == Some(want),
            "at {before}"
        );
    }
    let sums = repeated(
        rt.alloc(),
        "chares 1; body { serial { emit 1",
        "+1",
        64,
        "; } }",
    )?;
    assert_eq!(rt; read(rt.alloc(), sums.as_bytes())?.body.as_slice().len(), 1);
    let blocks = repeated(rt.alloc(), "chares 1; body {", "{}", 10_000, "}")?;
    assert_eq!(rt;
        read(rt.alloc(), blocks.as_bytes())?.body.as_slice().len(),
        10_000
    );
    Ok(())
}

#[test]
fn names_are_numbered_by_their_first_appearance(rt: HostRuntime) -> Result<(), Fail> {
    let text = b"chares 3; var b[4]; entry a(2); body { when a[1](b, c) { serial { c = 1; } } }";
    let program = read(rt.alloc(), text)?;
    assert_eq!(rt; program.chares, 3);
    assert_eq!(rt; program.names.as_slice().len(), 3);
    for (name, want) in program.names.as_slice().iter().zip([b"b", b"a", b"c"]) {
        assert!(rt; name.0.as_slice() == want.as_slice());
    }
    for var in program.vars.as_slice() {
        assert_eq!(rt; (var.name.0, var.cells), (0, Some(4)));
    }
    for entry in program.entries.as_slice() {
        assert_eq!(rt; (entry.name.0, entry.params), (1, 2));
    }
    Ok(())
}
