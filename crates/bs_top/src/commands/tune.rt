// `tune`: a log on a machine, before and after one statement costs a fraction.
ghost use Rattle.std.specs.Prelude.{◌≡◌, ◌≤◌, IfOk, IfSome, Ok, Some};
ghost use Rattle.bs_desk.specs.Outside.{IsReading};
ghost use Rattle.bs_log.specs.Valid.{IsValid};
ghost use Rattle.bs_machine.specs.Machine.{machine_view};
ghost use Rattle.bs_whatif.specs.Figures as points;
ghost use Rattle.bs_words.specs.Machine.{word_of};
ghost use Rattle.bs_words.specs.Tuning.{IsTuning};
ghost use Rattle.bs_top.specs.Answer.{reply_to};
ghost use Rattle.bs_top.specs.Causes.{StepCause};
ghost use Rattle.bs_top.specs.Computing.{Computes};
ghost use Rattle.bs_top.specs.Inputs.{log_limit};
ghost use Rattle.bs_top.specs.Seen.{said_of};
ghost use Rattle.bs_top.specs.Step.{Told};
ghost use Rattle.bs_top.specs.Words.{tune as tune_asked};
ghost use Rattle.bs_top.specs.commands.Points.{IsTextOf};
ghost use Rattle.bs_top.specs.commands.Tune.{tune_on, tuned as tuned_of};

use crate::commands::points::points_reply;
use crate::inputs::{LOG_LIMIT, fit, log_named, machine};
use crate::reply::Reply;
use crate::stopped::Stopped;
use bs_desk::Desk;
use bs_log::Log;
use bs_machine::{Fitted, Machine};
use bs_whatif::{points_text, spans_text, tune as figures_of, tune_spans};
use bs_words::{MachineWord, Tuning};
use std::alloc::{AllocError, Global};

/// Reads a log and a machine, and gives the points of the log on the machine before and after the tuning, with
/// their waves or by their spans alone.
pub(crate) fn tune<D: Desk>(
    alloc: Global,
    desk: &mut D,
    name: &str,
    word: MachineWord<'_>,
    tuning: Tuning,
    spans: bool,
) -> Result<Reply, Stopped>
    requires { IsTuning tuning }
    ensures reading { IsReading (D.world desk.old) (D.world desk.new) }
    ensures later { (D.world desk.old).read_faults ≤ (D.world desk.new).read_faults }
    ensures cause { StepCause log_limit (D.world desk.old) (D.world desk.new) result }
    ensures told { IfSome (D.world desk.old).files (λ files. Told said_of (reply_to files (Some (tune_asked name.now (word_of word.entry) tuning spans))) result) }
{
    let log = log_named(alloc, desk, name)?;
    let machine = machine(alloc, desk, word, LOG_LIMIT)?;
    tuned(alloc, &log, machine, tuning, spans)
}

// The two points of a valid log on a machine.
fn tuned(
    alloc: Global,
    log: &Log,
    machine: Machine,
    tuning: Tuning,
    spans: bool,
) -> Result<Reply, Stopped>
    requires valid { IsValid log.now }
    requires tuning { IsTuning tuning }
    ensures kind { Computes result }
    ensures told { Told said_of (tuned_of tuning spans log.now (machine_view machine)) result }
{
    let fitted = fit(machine, log.chares)?;
    Ok(tuned_on(alloc, log, &fitted, tuning, spans)?)
}

fn tuned_on(
    alloc: Global,
    log: &Log,
    fitted: &Fitted,
    tuning: Tuning,
    spans: bool,
) -> Result<Reply, AllocError>
    requires valid { IsValid log.now }
    requires chares { fitted.now.chares ≡ log.now.chares }
    requires tuning { IsTuning tuning }
    ensures { IfOk result (λ reply. tune_on tuning spans log.now (machine_view fitted.now.machine) (Ok (said_of reply))) }
{
    let text = text_of(alloc, log, fitted, tuning, spans)?;
    Ok(points_reply(log, text))
}

fn text_of(
    alloc: Global,
    log: &Log,
    fitted: &Fitted,
    tuning: Tuning,
    spans: bool,
) -> Result<Vec<u8>, AllocError>
    requires valid { IsValid log.now }
    requires chares { fitted.now.chares ≡ log.now.chares }
    requires tuning { IsTuning tuning }
    ensures { IfOk result (λ text. IsTextOf spans (points.tuned log.now fitted.now tuning.stmt tuning.num tuning.den) text.items) }
{
    let Tuning { stmt, num, den } = tuning;
    if spans {
        let spans = tune_spans(alloc, log, fitted, stmt, num, den)?;
        spans_text(alloc, spans.as_slice())
    } else {
        let figures = figures_of(alloc, log, fitted, stmt, num, den)?;
        points_text(alloc, figures.as_slice())
    }
}
