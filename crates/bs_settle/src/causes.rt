// Rows and messages of a valid log as causes.
ghost use Rattle.std.specs.Prelude.{◌≡◌, ◌≤◌, length};
ghost use Rattle.bs_log.specs.Valid.{IsValid};
ghost use Rattle.bs_schedule.specs.Whole.{block_cause, mail_cause};
ghost use Rattle.bs_rows.specs.Rows.{net_on, IsSend};

use bs_log::{Log, MailRef};
use bs_machine::Fitted;
use bs_rows::{duration, travel};
use bs_schedule::Cause;

// A row as a cause: it lets others start when it ends.
pub(crate) fn block_cause(log: &Log, machine: &Fitted, number: u32) -> Cause
    requires valid { IsValid log.now }
    requires some { 1 ≤ number }
    requires most { number ≤ length log.now.rows }
    ensures { result ≡ block_cause (net_on log.now machine.now) number }
{
    Cause {
        row: number,
        delay: duration(log, machine, number),
    }
}

// A message as a cause: it lets its row start when it arrives, which is the duration of its offset and
// its latency after its sender's start.
pub(crate) fn mail_cause(log: &Log, machine: &Fitted, mail: MailRef) -> Cause
    requires valid { IsValid log.now }
    requires fitted { machine.now.chares ≡ log.now.chares }
    requires is_send { IsSend log.now mail }
    ensures { result ≡ mail_cause (net_on log.now machine.now) mail }
{
    Cause {
        row: mail.row,
        delay: travel(log, machine, mail),
    }
}
