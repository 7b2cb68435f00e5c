// The first line of a log that breaks a rule.
ghost use Rattle.std.specs.Prelude.{◌≡◌, ◌≤◌, ◌↔◌, IsTrue, None, IfOk};
ghost use Rattle.bs_log.specs.Valid.{lines_of};
ghost use Rattle.bs_logcheck.specs.Rules.{IsSound};
ghost use Rattle.bs_logcheck.specs.Searched.{first_of, Finds};

use crate::ends::{first_trap, first_wait};
use crate::rows::{first_in_rows, lines};
use crate::rule::Broken;
use bs_log::Log;
use std::alloc::{AllocError, Global};
use std::collections::BTreeSet;

/// The first line of a log's text that breaks a rule between lines, and the least rule that it breaks
/// there: `BadReference`, `BadDepth` or `TwiceUsed`. It is `None` exactly where no line breaks one.
/// Line 1 names the format, line 2 has the counts, and the line of row 1 is line 3.
///
/// The log may have at most 262,144 lines beside the first two and the last. The only refusal is want
/// of memory. Sends and waits are looked up in ordered sets, and rows by their numbers. `docs/log.md`
/// has the rules.
pub fn first_broken(alloc: Global, log: &Log) -> Result<Option<Broken>, AllocError>
    requires room { lines_of log.now ≤ 262144 }
    ensures { IfOk result (λ found. Finds log.now found) }
{
    first_of(alloc, log)
}

/// Whether no line of a log's text breaks a rule between lines. A log whose numbers are each in their
/// range is then valid. It has the limit and the refusal of `first_broken`.
pub fn is_sound(alloc: Global, log: &Log) -> Result<bool, AllocError>
    requires room { lines_of log.now ≤ 262144 }
    ensures { IfOk result (λ sound. IsTrue sound ↔ IsSound log.now) }
{
    Ok(is_none(first_broken(alloc, log)?))
}

fn is_none(found: Option<Broken>) -> bool
    ensures { IsTrue result ↔ (found ≡ None) }
{
    found.is_none()
}

#[tactic(auto, unfolding(crate::specs::Searched::first_of))]
fn first_of(alloc: Global, log: &Log) -> Result<Option<Broken>, AllocError>
    requires room { lines_of log.now ≤ 262144 }
    ensures { IfOk result (λ found. found ≡ first_of log.now) }
{
    let mut sent = BTreeSet::new(alloc);
    if let Some(broken) = first_in_rows(log, &mut sent)? {
        return Ok(Some(broken));
    }
    let traps = lines(log.rows.as_slice()) + 3;
    if let Some(broken) = first_trap(log, traps) {
        return Ok(Some(broken));
    }
    let waits = traps + log.traps.as_slice().len() as u64;
    first_wait(alloc, log, &sent, waits)
}
