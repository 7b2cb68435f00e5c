// `sweep`: a log on one machine after the other.
ghost use Rattle.std.specs.Prelude.{◌≡◌, ◌≤◌, ◌<◌, ◌++◌, IfOk, IfSome, OnOk, Ok, Some, length, map};
ghost use Rattle.bs_desk.specs.Outside.{IsReading};
ghost use Rattle.bs_log.specs.Valid.{IsValid};
ghost use Rattle.bs_whatif.specs.Figures.{AreFitted, swept as swept_nets};
ghost use Rattle.bs_words.specs.Machine.{machine_word as machine_word_of, word_of};
ghost use Rattle.bs_top.specs.Answer.{reply_to};
ghost use Rattle.bs_top.specs.Causes.{StepCause};
ghost use Rattle.bs_top.specs.Inputs.{log_limit};
ghost use Rattle.bs_top.specs.Seen.{said_of};
ghost use Rattle.bs_top.specs.Step.{Told};
ghost use Rattle.bs_top.specs.Words.{sweep as sweep_asked, with_word, words_of as words_in};
ghost use Rattle.bs_top.specs.commands.Points.{IsTextOf};
ghost use Rattle.bs_top.specs.commands.Sweep.{sweep_on, views};

use crate::commands::points::points_reply;
use crate::inputs::{log_named, machines_behind};
use crate::reply::Reply;
use crate::stopped::Stopped;
use bs_desk::Desk;
use bs_log::Log;
use bs_machine::Fitted;
use bs_whatif::{points_text, spans_text, sweep as figures_of, sweep_spans};
use bs_words::{Argument, MachineWord, machine_word};
use std::alloc::{AllocError, Global};

/// Reads a log and then one machine after the other, and gives the points of the log on these machines, with
/// their waves or by their spans alone.
pub(crate) fn sweep<D: Desk>(
    alloc: Global,
    desk: &mut D,
    name: &str,
    machines: &[Argument],
    spans: bool,
) -> Result<Reply, Stopped>
    requires { 0 < length (words_in machines.now) }
    ensures reading { IsReading (D.world desk.old) (D.world desk.new) }
    ensures later { (D.world desk.old).read_faults ≤ (D.world desk.new).read_faults }
    ensures cause { StepCause log_limit (D.world desk.old) (D.world desk.new) result }
    ensures told { IfSome (D.world desk.old).files (λ files. Told said_of (reply_to files (Some (sweep_asked name.now (words_in machines.now) spans))) result) }
{
    let log = log_named(alloc, desk, name)?;
    let words = words_of(alloc, machines)?;
    let machines = machines_behind(alloc, Vec::new(alloc), desk, words.as_slice(), log.chares)?;
    Ok(swept(alloc, &log, machines.as_slice(), spans)?)
}

// The words of machines among some names.
fn words_of<'a>(alloc: Global, names: &'a [Argument]) -> Result<Vec<MachineWord<'a>>, AllocError>
    ensures { IfOk result (λ words. map word_of words.items ≡ words_in names.now) }
{
    let mut words = Vec::new(alloc);
    for name in names {
        if let Some(word) = machine_word(name.text()) {
            words.push(word)?;
        }
    }
    Ok(words)
}

// The points of a valid log on machines that fit it, of which there is at least one.
fn swept(alloc: Global, log: &Log, machines: &[Fitted], spans: bool) -> Result<Reply, AllocError>
    requires valid { IsValid log.now }
    requires fitted { AreFitted log.now machines.now }
    requires some { 0 < length machines.now }
    ensures { IfOk result (λ reply. sweep_on spans log.now (views machines.now) (Ok (said_of reply))) }
{
    let text = text_of(alloc, log, machines, spans)?;
    Ok(points_reply(log, text))
}

fn text_of(
    alloc: Global,
    log: &Log,
    machines: &[Fitted],
    spans: bool,
) -> Result<Vec<u8>, AllocError>
    requires valid { IsValid log.now }
    requires fitted { AreFitted log.now machines.now }
    requires some { 0 < length machines.now }
    ensures { IfOk result (λ text. IsTextOf spans (swept_nets log.now machines.now) text.items) }
{
    if spans {
        let spans = sweep_spans(alloc, log, machines)?;
        spans_text(alloc, spans.as_slice())
    } else {
        let figures = figures_of(alloc, log, machines)?;
        points_text(alloc, figures.as_slice())
    }
}
