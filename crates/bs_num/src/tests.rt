use crate::{NumFault, Tick, decimal, read_decimal, read_signed, scale, signed};
use std::test::Fail;

#[test]
fn plain_decimals_are_read(rt: HostRuntime) {
    let most = u64::MAX;
    for (text, want) in [
        ("0", Ok(0)),
        ("7", Ok(7)),
        ("65536", Ok(65_536)),
        ("18446744073709551615", Ok(u64::MAX)),
        ("18446744073709551616", Err(NumFault::TooLarge)),
        (
            "99999999999999999999999999999999999999999999",
            Err(NumFault::TooLarge),
        ),
        ("", Err(NumFault::NotANumber)),
        ("007", Err(NumFault::NotANumber)),
        ("00", Err(NumFault::NotANumber)),
        ("-1", Err(NumFault::NotANumber)),
        ("+1", Err(NumFault::NotANumber)),
        (" 1", Err(NumFault::NotANumber)),
        ("1x", Err(NumFault::NotANumber)),
    ] {
        assert_eq!(rt; read_decimal(text.as_bytes(), most), want, "at {text}");
    }
    assert_eq!(rt; read_decimal(b"64", 64), Ok(64));
    assert_eq!(rt; read_decimal(b"65", 64), Err(NumFault::TooLarge));
}

#[test]
fn decimals_with_a_sign_are_read(rt: HostRuntime) {
    for (text, want) in [
        ("0", Ok(0)),
        ("-1", Ok(-1)),
        ("9223372036854775807", Ok(i64::MAX)),
        ("-9223372036854775808", Ok(i64::MIN)),
        ("9223372036854775808", Err(NumFault::TooLarge)),
        ("-9223372036854775809", Err(NumFault::TooLarge)),
        ("-0", Err(NumFault::NotANumber)),
        ("-", Err(NumFault::NotANumber)),
        ("-07", Err(NumFault::NotANumber)),
        ("--1", Err(NumFault::NotANumber)),
    ] {
        assert_eq!(rt; read_signed(text.as_bytes()), want, "at {text}");
    }
}

#[test]
fn numbers_are_printed(rt: HostRuntime) {
    let mut room = [b'.'; 40];
    assert_eq!(rt; decimal(0, &mut room), 1);
    assert_eq!(rt; &room[..3], b"0..".as_slice());
    assert_eq!(rt; decimal(u128::MAX, &mut room), 39);
    assert_eq!(rt;
        &room[..],
        b"340282366920938463463374607431768211455.".as_slice()
    );
    assert_eq!(rt; signed(i64::MIN, &mut room), 20);
    assert_eq!(rt; &room[..20], b"-9223372036854775808".as_slice());
}

#[test]
fn quotients_are_rounded_up(rt: HostRuntime) {
    for (x, num, den, want) in [
        (1, 3, 2, 2),
        (640, 1, 64, 10),
        (641, 1, 64, 11),
        (0, 5, 3, 0),
    ] {
        assert_eq!(rt; scale(x, num, den), want, "at {x} * {num} / {den}");
    }
}

#[test]
fn ticks_are_ordered_and_faults_have_texts(rt: HostRuntime) -> Result<(), Fail> {
    assert!(rt; Tick(9) < Tick(10));
    let not_a_number = format!(in rt.alloc(); "{}", NumFault::NotANumber)?;
    assert_eq!(rt; not_a_number.as_str(), "not a number");
    let too_large = format!(in rt.alloc(); "{}", NumFault::TooLarge)?;
    assert_eq!(rt; too_large.as_str(), "too large");
    Ok(())
}
