// The first line of traps and of waits that breaks a rule.
ghost use Rattle.std.specs.Prelude.{◌≡◌, ◌+◌, ◌≤◌, None, length, IfOk};
ghost use Rattle.bs_logcheck.specs.Lines.{TrapLine, each_line};
ghost use Rattle.bs_logcheck.specs.Places.{has, nowhere};
ghost use Rattle.bs_logcheck.specs.Searched.{first_from, first_wait};

use crate::faults::{trap_fault, wait_fault};
use crate::place::Place;
use crate::rule::Broken;
use bs_log::Log;
use std::alloc::{AllocError, Global};
use std::collections::BTreeSet;

/// The first trap that breaks a rule, where the traps begin at a line.
pub(crate) fn first_trap(log: &Log, line: u64) -> Option<Broken>
    requires room { line + length log.now.traps ≤ 262147 }
    ensures { result ≡ first_from log.now line (each_line TrapLine None log.now.traps) }
{
    let mut line = line;
    let mut before = None;
    for trap in log.traps.as_slice() {
        if let Some(rule) = trap_fault(log, before, *trap) {
            return Some(Broken { line, rule });
        }
        before = Some(*trap);
        line += 1;
    }
    None
}

/// The first wait that breaks a rule, where the waits begin at a line, and these are the places that
/// rows send to.
pub(crate) fn first_wait(
    alloc: Global,
    log: &Log,
    sent: &BTreeSet<Place>,
    line: u64,
) -> Result<Option<Broken>, AllocError>
    requires room { line + length log.now.waits ≤ 262147 }
    ensures { IfOk result (λ found. found ≡ first_wait log.now (has sent.now) nowhere None line log.now.waits) }
{
    let mut seen = BTreeSet::new(alloc);
    let mut line = line;
    let mut before = None;
    for wait in log.waits.as_slice() {
        if let Some(rule) = wait_fault(log, sent, &mut seen, before, *wait)? {
            return Ok(Some(Broken { line, rule }));
        }
        before = Some(*wait);
        line += 1;
    }
    Ok(None)
}
