// The outcome of a log, and the report of an outcome.
ghost use Rattle.std.specs.Prelude.{◌≡◌, IfOk};
ghost use Rattle.bs_log.specs.Valid.{IsValid};
ghost use Rattle.bs_log.specs.Reportable.{IsReportable};
ghost use Rattle.bs_settle.specs.Timed.{AreTimes};
ghost use Rattle.bs_times.specs.Machine.{machine_of};
ghost use Rattle.bs_top.specs.Computing.{IsOutcomeOf};
ghost use Rattle.bs_top.specs.Reports.{reported};
ghost use Rattle.bs_top.specs.Seen.{said_of};

use crate::reply::{Ending, Reply, Target};
use bs_log::{Log, Outcome};
use bs_machine::Fitted;
use bs_report::{end, outcome, report};
use bs_settle::Times;
use std::alloc::{AllocError, Global};

/// The outcome of a valid log on a machine at these times, which are those of its one consistent table.
pub(crate) fn outcome_at(
    alloc: Global,
    log: &Log,
    fitted: &Fitted,
    times: &Times,
) -> Result<Outcome, AllocError>
    requires valid { IsValid log.now }
    requires chares { fitted.now.chares ≡ log.now.chares }
    requires times { AreTimes log.now (machine_of fitted.now) times.now }
    ensures value { IfOk result (IsOutcomeOf log.now (machine_of fitted.now)) }
    ensures reportable { IfOk result IsReportable }
{
    outcome(alloc, log, fitted, times)
}

/// The report of an outcome.
pub(crate) fn report_of(alloc: Global, outcome: &Outcome) -> Result<Reply, AllocError>
    requires { IsReportable outcome.now }
    ensures { IfOk result (λ reply. said_of reply ≡ reported outcome.now) }
{
    let text = report(alloc, outcome)?;
    Ok(Reply {
        ending: Ending::Run(end(outcome)),
        note: None,
        target: Target::Output,
        text,
    })
}
