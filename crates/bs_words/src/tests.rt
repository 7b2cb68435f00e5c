use crate::{Command, Tuning, Verb, WordsFault, asked_tuning, read_words};
use std::alloc::Global;
use std::test::Fail;

fn read(alloc: Global, line: &str) -> Result<Result<Command, WordsFault>, Fail> {
    let mut words = Vec::new(alloc);
    for word in line.split(' ') {
        words.push(String::from_str(alloc, word)?)?;
    }
    Ok(read_words(alloc, &words))
}

fn is_refused(alloc: Global, line: &str) -> Result<bool, Fail> {
    match read(alloc, line)? {
        Err(fault) => Ok(fault == WordsFault::BadWords),
        Ok(_) => Ok(false),
    }
}

#[test]
fn an_option_stands_before_or_behind_the_names(rt: HostRuntime) -> Result<(), Fail> {
    for line in [
        "--waves 3 predict L flat:2:5",
        "predict --waves 3 L flat:2:5",
        "predict L flat:2:5 --waves 3",
    ] {
        match read(rt.alloc(), line)? {
            Ok(command) => {
                assert_eq!(rt; command.verb, Verb::Predict);
                let names = command.names.as_slice();
                assert_eq!(rt; names.len(), 2);
                assert_eq!(rt; names[0].text(), "L");
                assert_eq!(rt; names[1].text(), "flat:2:5");
                assert_eq!(rt; (command.limit, command.workers), (262_144, 1));
                assert_eq!(rt; command.waves, Some(3));
                assert!(rt; command.journal.is_none());
            }
            Err(_) => return Err("not read".into()),
        }
    }
    Ok(())
}

#[test]
fn each_command_has_its_names_and_options(rt: HostRuntime) -> Result<(), Fail> {
    for line in [
        "check a",
        "model a flat:65536:274877906944 --limit 1",
        "emulate flat:0 b --workers 64 --limit 262144",
        "predict a b --journal j --workers 1 --waves 1099511627776",
        "run a b --waves 1 --workers 2 --limit 2",
        "trace a b",
        "chain a b --workers 64",
        "gen stencil 512 999999",
        "trial tree 1 0 --workers 8",
    ] {
        assert!(rt; read(rt.alloc(), line)?.is_ok(), "{line}");
    }
    Ok(())
}

#[test]
fn other_words_are_no_command(rt: HostRuntime) -> Result<(), Fail> {
    for line in [
        "",
        "run",
        "flat",
        "check a b",
        "check a --limit 3",
        "model a flat:0:5",
        "model a flat:65537:5",
        "model a flat:2:05",
        "model a flat:2:274877906945",
        "model a flat:2",
        "model a b --limit 0",
        "model a b --limit 262145",
        "model a --limit 3 b",
        "run a b --workers 0",
        "run a b --workers 65",
        "run a b --waves 0",
        "run a b --waves 1099511627777",
        "run a b --waves 3 --waves 3",
        "run a b --waves",
        "run a b --waves -3",
        "predict a b --journal j --workers 2",
        "predict a b --waves=3",
        "trace a b --journal j",
        "gen ring 513 0",
        "gen ring 0 0",
        "gen ring 1 1000000",
        "gen cube 1 0",
        "-h",
        "--",
        "run a -- b",
    ] {
        assert!(rt; is_refused(rt.alloc(), line)?, "{line}");
    }
    let none = Vec::new(rt.alloc());
    assert_eq!(rt;
        read_words(rt.alloc(), &none).err(),
        Some(WordsFault::BadWords)
    );
    Ok(())
}

// `sweep` with a log and so many machines.
fn sweep_of(alloc: Global, machines: usize) -> Result<Result<Command, WordsFault>, Fail> {
    let mut words = Vec::new(alloc);
    words.push(String::from_str(alloc, "sweep")?)?;
    words.push(String::from_str(alloc, "L")?)?;
    for _ in 0..machines {
        words.push(String::from_str(alloc, "flat:2:5")?)?;
    }
    Ok(read_words(alloc, &words))
}

#[test]
fn sweep_and_tune_have_their_words(rt: HostRuntime) -> Result<(), Fail> {
    for (line, verb, names, spans) in [
        ("sweep L M8 M8", Verb::Sweep, 3, false),
        ("sweep L flat:2:5", Verb::Sweep, 2, false),
        ("sweep L M8 flat:2:5 --spans", Verb::Sweep, 3, true),
        ("sweep --spans L M8", Verb::Sweep, 2, true),
        ("tune L M8 6 1 2", Verb::Tune, 5, false),
        ("--spans tune L M8 10000 65535 65535", Verb::Tune, 5, true),
    ] {
        match read(rt.alloc(), line)? {
            Ok(command) => {
                assert_eq!(rt; (command.verb, command.spans), (verb, spans), "{line}");
                assert_eq!(rt; command.names.as_slice().len(), names, "{line}");
            }
            Err(_) => return Err("not read".into()),
        }
    }
    for line in [
        "sweep L",
        "sweep L flat:0:5",
        "sweep L M8 flat:2:05",
        "sweep L M8 --limit 2",
        "sweep L M8 --workers 2",
        "sweep L M8 --waves 2",
        "sweep L M8 --journal j",
        "sweep L M8 --spans --spans",
        "sweep L --spans M8",
        "sweep L M8 --spans M8",
        "sweep L M8 --spans=true",
        "sweep L M8 --workers --spans",
        "--spans",
        "predict L M8 --spans",
        "check a --spans",
        "tune L M8 6 1",
        "tune L M8 6 1 2 3",
        "tune L flat:2 6 1 2",
        "tune L M8 0 1 2",
        "tune L M8 10001 1 2",
        "tune L M8 06 1 2",
        "tune L M8 6 0 2",
        "tune L M8 6 3 2",
        "tune L M8 6 1 0",
        "tune L M8 6 1 65536",
        "tune L M8 6 1 2 --workers 1",
    ] {
        assert!(rt; is_refused(rt.alloc(), line)?, "{line}");
    }
    assert!(rt; sweep_of(rt.alloc(), 32)?.is_ok());
    assert!(rt; sweep_of(rt.alloc(), 33)?.is_err());
    Ok(())
}

#[test]
fn a_tuning_is_a_statement_and_a_fraction(rt: HostRuntime) -> Result<(), Fail> {
    let half = Tuning {
        stmt: 6,
        num: 1,
        den: 2,
    };
    assert_eq!(rt; asked_tuning("6", "1", "2"), Some(half));
    assert_eq!(rt; asked_tuning("6", "3", "2"), None);
    Ok(())
}
