// Texts whose logs and faults were worked out by hand.
use crate::{LogFault, LogRule, read_log};
use bs_log::Log;
use bs_logtext::write_log;
use std::alloc::Global;
use std::test::Fail;

// Two chares that exchange their numbers.
const EXCHANGE: &str = "bslog 1
chares 2 entries 1 rows 4
row 0 1 1 4
send 1 0 7 8 4
row 0 3 2 3
after 1
mail 3 1
emit 1
row 1 1 1 4
send 0 0 7 8 4
row 1 3 2 3
after 3
mail 1 1
emit 0
end
";

// Two rows, each of which waits for the message of the other.
const CIRCLE: &str = "bslog 1
chares 2 entries 1 rows 2
row 0 1 2 1
mail 2 1
send 1 0 0 0 1
row 1 1 2 1
mail 1 1
send 0 0 0 0 1
end
";

// Each kind of line, and numbers below 0.
const EVERY_LINE: &str = "bslog 1
chares 3 entries 1000 rows 2
row 0 10000 1 4294967296
emit -9223372036854775808
send 0 999 -1 1073741824 4294967296
row 0 2 2 1
after 1
mail 1 1
trap 0 2 1
trap 2 9 8
wait 0 1 0 9223372036854775807
wait 0 1 0 -5
end
";

fn written(alloc: Global, text: &str) -> Result<Vec<u8>, LogFault> {
    let log = read_log(alloc, text.as_bytes())?;
    Ok(write_log(alloc, &log)?)
}

fn fault_of(alloc: Global, text: &str) -> Option<LogFault> {
    read_log(alloc, text.as_bytes()).err()
}

#[test]
fn logs_are_read_and_written_again(rt: HostRuntime) -> Result<(), Fail> {
    for text in [EXCHANGE, EVERY_LINE] {
        let again = written(rt.alloc(), text).ok().ok_or("a log")?;
        assert_eq!(rt; again.as_slice(), text.as_bytes());
    }
    let log: Log = read_log(rt.alloc(), EXCHANGE.as_bytes())
        .ok()
        .ok_or("a log")?;
    assert_eq!(rt; (log.chares, log.entries), (2, 1));
    assert_eq!(rt; log.rows.as_slice().len(), 4);
    Ok(())
}

#[test]
fn faults_of_the_exchange(rt: HostRuntime) -> Result<(), Fail> {
    for (old, new, line, rule) in [
        ("rows 4", "rows 5", 15, LogRule::BadLine),
        ("rows 4", "rows 3", 11, LogRule::BadLine),
        ("end\n", "", 15, LogRule::BadLine),
        ("end\n", "end", 15, LogRule::BadLine),
        ("end\n", "end\n\n", 16, LogRule::BadLine),
        ("end\n", "end\n ", 16, LogRule::BadLine),
        ("end\n", "wait 0 3 0 7\nend\n", 15, LogRule::BadReference),
        ("bslog 1\n", "bslog 1\r\n", 1, LogRule::BadLine),
        ("bslog 1\n", "bslog 2\n", 1, LogRule::BadLine),
        ("chares 2", "chares 0", 2, LogRule::Limits),
        ("chares 2", "chares 4294967295", 2, LogRule::Limits),
        ("chares 2", "chares 4294967296", 2, LogRule::BadLine),
        ("send 1 0 7", "send 1 0 07", 4, LogRule::BadLine),
        ("send 1 0 7", "send 1 0 -0", 4, LogRule::BadLine),
        ("send 1 0 7", "send 2 0 7", 4, LogRule::BadReference),
        ("7 8 4\nrow 0 3", "7 8 5\nrow 0 3", 4, LogRule::BadReference),
        ("row 0 3 2 3", "row 0 3 3 3", 5, LogRule::BadDepth),
        ("after 1", "after 2", 5, LogRule::BadDepth),
        ("after 1", "after 9", 6, LogRule::BadReference),
        ("mail 3 1", "mail 3 2", 7, LogRule::BadReference),
        (
            "8 4\nrow 1 3",
            "8 4\nsend 0 0 7 8 4\nrow 1 3",
            11,
            LogRule::TwiceUsed,
        ),
    ] {
        let text = EXCHANGE.replacen(rt.alloc(), old, new, 1)?;
        let fault = fault_of(rt.alloc(), text.as_str());
        assert_eq!(rt; fault, Some(LogFault::Refused(line, rule)), "at {new}");
    }
    Ok(())
}

#[test]
fn other_faults(rt: HostRuntime) {
    for (text, line, rule) in [
        ("", 1, LogRule::BadLine),
        ("bslog 1\n", 2, LogRule::BadLine),
        (CIRCLE, 3, LogRule::BadDepth),
    ] {
        let fault = fault_of(rt.alloc(), text);
        assert_eq!(rt; fault, Some(LogFault::Refused(line, rule)), "at {text}");
    }
}
