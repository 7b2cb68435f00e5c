// From the text of a log to the log.
ghost use Rattle.std.specs.Prelude.{◌≡◌, ◌≢◌, ◌++◌, ℕ, true, Ok, Err, IfOk, IfErr};
ghost use Rattle.bs_log.specs.declared.log.Log.{Log};
ghost use Rattle.bs_log.specs.Valid.{IsValid};
ghost use Rattle.bs_logtext.specs.Text.{log_text};
ghost use Rattle.bs_logcheck.specs.declared.rule.LogRule.{LogRule};
ghost use Rattle.bs_logread.specs.declared.fault.LogFault.TheVariants.{Refused, Memory};
ghost use Rattle.bs_logread.specs.Line.{line_text};
ghost use Rattle.bs_logread.specs.Order.{fits, has_place};
ghost use Rattle.bs_logread.specs.Fault.{IsRead, IsFault, IsRefusal, IsLineRefusal, StopsAt};

use crate::draft::{empty, finish, take};
use crate::fault::LogFault;
use crate::lines::Line;
use crate::order::{END, Progress, after, has_place, is_within, start};
use crate::spelled::line_of;
use crate::words::cut;
use bs_log::Log;
use bs_logcheck::{LogRule, first_broken};
use std::alloc::Global;

/// The log whose lines a text has: the first pass, which looks at one line after the other.
pub(crate) fn read_lines(alloc: Global, bytes: &[u8]) -> Result<Log, LogFault>
    ensures ok { IfOk result (IsRead bytes.now) }
    ensures err { IfErr result (IsLineRefusal bytes.now) }
{
    let mut draft = empty(alloc);
    let mut progress = start();
    let mut rest = bytes;
    let mut number: u64 = 1;
    while progress.last != END {
        let (line, others) = next_line(progress, rest, number)?;
        take(alloc, &mut draft, line)?;
        progress = after(progress, line);
        rest = others;
        number += 1;
    }
    if !rest.is_empty() {
        return Err(LogFault::Refused(number, LogRule::BadLine));
    }
    Ok(finish(draft)?)
}

// The line at the front of what is left of a text, and what stands behind it.
fn next_line(progress: Progress, rest: &[u8], number: u64) -> Result<(Line, &[u8]), LogFault>
    ensures ok { IfOk result (λ x. (rest.now ≡ line_text x.0 ++ x.1.now) × (fits progress x.0 ≡ true)) }
    ensures err { IfErr result (StopsAt progress rest.now number) }
{
    let Some((text, others)) = cut(b'\n', rest) else {
        return Err(LogFault::Refused(number, LogRule::BadLine));
    };
    let Some(line) = line_of(text) else {
        return Err(LogFault::Refused(number, LogRule::BadLine));
    };
    if !has_place(progress, line) {
        return Err(LogFault::Refused(number, LogRule::BadLine));
    }
    if !is_within(progress, line) {
        return Err(LogFault::Refused(number, LogRule::Limits));
    }
    Ok((line, others))
}

/// The log whose text the bytes are.
///
/// It answers a log exactly where the bytes are the text of a valid one, and then that log. Otherwise
/// the refusal names the first line at fault, counted from 1, and the least rule that it breaks.
///
/// There are two passes. The first takes line after line. `BadLine` comes at the first line that is none
/// of those that may stand there, is cut or is missing, or has a number out of its range. `Limits` comes
/// at the first line that passes a limit. The second pass looks at what lines say of one another:
/// `BadReference`, `BadDepth`, `TwiceUsed`. `docs/log.md` has all rules.
///
/// The time is near-linear in the bytes. Memory may be wanting at any text.
pub fn read_log(alloc: Global, bytes: &[u8]) -> Result<Log, LogFault>
    // What is read is a valid log, and the bytes are its text.
    ensures ok { IfOk result (λ log. IsValid log × (log_text log ≡ bytes.now)) }
    // The text of a valid log is read as that log, unless memory is wanting.
    ensures exact { (log : Log) → IsValid log → bytes.now ≡ log_text log → result ≢ Err Memory → result ≡ Ok log }
    // A refusal is the first fault.
    ensures err { IfErr result (IsRefusal bytes.now) }
    // Where there is a fault, it is the refusal, unless memory is wanting.
    ensures refused { (line : ℕ) (rule : LogRule) → IsFault bytes.now line rule → result ≢ Err Memory → result ≡ Err (Refused line rule) }
{
    read(alloc, bytes)
}

// The two passes.
fn read(alloc: Global, bytes: &[u8]) -> Result<Log, LogFault>
    ensures ok { IfOk result (λ log. IsValid log × (log_text log ≡ bytes.now)) }
    ensures err { IfErr result (IsRefusal bytes.now) }
{
    let log = read_lines(alloc, bytes)?;
    match first_broken(alloc, &log)? {
        None => Ok(log),
        Some(broken) => Err(LogFault::Refused(broken.line, broken.rule)),
    }
}
