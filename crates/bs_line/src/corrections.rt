// The arrivals of what a line sends, and which of them changed.
ghost use Rattle.std.specs.Prelude.{◌≡◌, ◌≤◌, ◌++◌, ◌^◌, ℕ, IfOk, OnOk, length, map};
ghost use Rattle.bs_schedule.specs.Plan.{at};
ghost use Rattle.bs_line.specs.Line.{OutsFit, arrive, correction_of, corrections_of};

use crate::layout::Out;
use bs_log::MailRef;
use bs_num::Tick;
use bs_tree::List;
use std::alloc::{AllocError, Global};

/// An arrival that isn't the one that was given last.
#[derive(Clone, Copy, Debug, PartialEq, Eq, Drop)]
pub struct Correction {
    pub mail: MailRef,
    /// The processor that the message goes to, from 0.
    pub to: u32,
    /// The tick that was given last.
    pub was: Tick,
    pub tick: Tick,
}

// When each message arrives.
pub(crate) fn arrivals(
    alloc: Global,
    outs: &[Out],
    starts: &[u128],
) -> Result<Vec<u128>, AllocError>
    requires fit { OutsFit outs.now (length starts.now) }
    requires small { (i : ℕ) → at starts.now i ≤ 2 ^ 120 }
    ensures { IfOk result (λ ticks. ticks.items ≡ map (arrive (at starts.now)) outs.now) }
{
    let mut ticks = Vec::new(alloc);
    for out in outs {
        ticks.push(starts[out.row as usize] + u128::from(out.travel))?;
    }
    Ok(ticks)
}

// The arrivals that aren't those last given, in the order of the messages.
pub(crate) fn corrections(
    alloc: Global,
    outs: &[Out],
    given: &[u128],
    ticks: &[u128],
) -> Result<List<Correction>, AllocError>
    requires given { length given.now ≡ length outs.now }
    requires ticks { length ticks.now ≡ length outs.now }
    ensures { IfOk result (λ list. list ≡ corrections_of outs.now given.now ticks.now) }
{
    let mut list = List::new(alloc);
    for k in 0..outs.len() {
        correct(&mut list, outs[k], given[k], ticks[k])?;
    }
    Ok(list)
}

// Adds the correction of a message, if its arrival isn't the one last given.
fn correct(list: &mut List<Correction>, out: Out, was: u128, tick: u128) -> Result<(), AllocError>
    ensures { OnOk result (list.new ≡ list.old ++ correction_of out.mail out.to was tick) }
{
    if was != tick {
        list.push(Correction {
            mail: out.mail,
            to: out.to,
            was: Tick(was),
            tick: Tick(tick),
        })?;
    }
    Ok(())
}
