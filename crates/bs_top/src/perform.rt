// Does what the words of a command line ask for.
ghost use Rattle.std.specs.Prelude.{◌≤◌, IfSome, map, string_bytes};
ghost use Rattle.bs_desk.specs.Outside.{IsReading};
ghost use Rattle.bs_top.specs.Answer.{reply_to};
ghost use Rattle.bs_top.specs.Causes.{ReplyCause};
ghost use Rattle.bs_top.specs.Performs.{Answers, Cause, NeverFall};
ghost use Rattle.bs_top.specs.Seen.{said_of};
ghost use Rattle.bs_top.specs.Step.{Told};
ghost use Rattle.bs_top.specs.Words.{asked_by};

use crate::asked::{Asked, built};
use crate::commands::chain::chain;
use crate::commands::check::check_text;
use crate::commands::emulate::emulate;
use crate::commands::generate::generated_text;
use crate::commands::model::model;
use crate::commands::predict::predict;
use crate::commands::run::run;
use crate::commands::sweep::sweep;
use crate::commands::trace::trace;
use crate::commands::trial::trial;
use crate::commands::tune::tune;
use crate::reply::Reply;
use crate::status::{Status, status_of};
use crate::stopped::Stopped;
use crate::writing::{refuse, tell, written_status};
use bs_desk::Desk;
use bs_report::Fault;
use bs_words::read_words;
use std::alloc::Global;

/// Does what the words ask for, and says how it ended. The words don't hold the program's own name.
///
/// It writes one text: a report or a trace to standard output, a log to its file, or the line of a refusal
/// to standard error; and before it a journal to its file, where the words ask for one. A file is made or
/// replaced only after all is computed. What is written is known where the desk tells the contents of its
/// files. `docs/promises.md` says when each status comes, and what is then written.
pub fn perform_alone<D: Desk>(alloc: Global, words: &[String], desk: &mut D) -> Status
    ensures cause { Cause (asked_by (map string_bytes words.now)) (D.world desk.old) (D.world desk.new) result }
    ensures counts { NeverFall (D.world desk.old) (D.world desk.new) }
    ensures told { IfSome (D.world desk.old).files (λ files. Answers files (asked_by (map string_bytes words.now)) (D.world desk.old) (D.world desk.new) result) }
{
    match reply(alloc, words, desk) {
        Ok(reply) => written_status(status_of(reply.ending), tell(desk, &reply)),
        Err(Stopped::Refused(fault)) => refuse(alloc, desk, &fault),
        Err(Stopped::NoFile) => Status::NoFile,
        Err(Stopped::ReadFault) => Status::ReadFault,
        Err(Stopped::Memory) => Status::Memory,
    }
}

// Reads and computes all, and writes nothing.
fn reply<D: Desk>(alloc: Global, words: &[String], desk: &mut D) -> Result<Reply, Stopped>
    ensures reading { IsReading (D.world desk.old) (D.world desk.new) }
    ensures later { (D.world desk.old).read_faults ≤ (D.world desk.new).read_faults }
    ensures cause { ReplyCause (asked_by (map string_bytes words.now)) (D.world desk.old) (D.world desk.new) result }
    ensures told { IfSome (D.world desk.old).files (λ files. Told said_of (reply_to files (asked_by (map string_bytes words.now))) result) }
{
    let command = read_words(alloc, words)?;
    match built(&command) {
        Some(Asked::Check(name)) => check_text(alloc, desk, name),
        Some(Asked::Model(name, word, limit)) => model(alloc, desk, name, word, limit),
        Some(Asked::Emulate(name, into, limit)) => emulate(alloc, desk, name, into, limit),
        Some(Asked::Run(name, word, limit, waves)) => run(alloc, desk, name, word, limit, waves),
        Some(Asked::Predict(name, word, waves, journal)) => {
            predict(alloc, desk, name, word, waves, journal)
        }
        Some(Asked::Trace(name, word)) => trace(alloc, desk, name, word),
        Some(Asked::Chain(name, word)) => chain(alloc, desk, name, word),
        Some(Asked::Sweep(name, machines, spans)) => sweep(alloc, desk, name, machines, spans),
        Some(Asked::Tune(name, word, tuning, spans)) => {
            tune(alloc, desk, name, word, tuning, spans)
        }
        Some(Asked::Gen(program)) => Ok(generated_text(alloc, program)?),
        Some(Asked::Trial(program)) => trial(alloc, program),
        None => Err(Stopped::Refused(Fault::BadWords)),
    }
}
