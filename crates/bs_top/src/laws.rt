// Laws of what is answered. Each is a function whose contract is the law.
ghost use Rattle.std.specs.Prelude.{◌≡◌, ◌↔◌, ℕ, Bool, List, None, Ok, Option, Some, length};
ghost use Rattle.bs_desk.specs.Outside.{Files, Outside};
ghost use Rattle.bs_log.specs.Collected.{log_of};
ghost use Rattle.bs_log.specs.declared.history.History.{History};
ghost use Rattle.bs_log.specs.declared.log.Log.{Log};
ghost use Rattle.bs_machine.specs.Machine.{MachineOf};
ghost use Rattle.bs_semantics.specs.Verdict.{IsVerdict, clean};
ghost use Rattle.bs_tree.specs.declared.tree.Program.{Program};
ghost use Rattle.bs_top.specs.Answer.{Answer, IsAnswer, answer_of};
ghost use Rattle.bs_top.specs.commands.Check.{printed};
ghost use Rattle.bs_top.specs.commands.Gen.{generated};
ghost use Rattle.bs_top.specs.Complete.{CanEmulate, CanForetell, CanPredict, CanRun, CanSweep, CanTry, Ends, HasProgram, IsAmple, IsAmpleFor, IsChained, IsJournaled, IsPredicted, IsReported, IsSwept, IsTraced, IsTried, IsTuned, logged_in};
ghost use Rattle.bs_top.specs.Known.{Known, SomeLaws};
ghost use Rattle.bs_top.specs.Performs.{Answers};
ghost use Rattle.bs_top.specs.Words.{Asked, IsLimit, asked_by, chain, check, emulate, gen, model, predict, run, sweep, trace, trial, tune};
ghost use Rattle.bs_words.specs.Machine.{MachineWord};
ghost use Rattle.bs_words.specs.declared.generated.Generated.{Generated};
ghost use Rattle.bs_words.specs.declared.tuning.Tuning.{Tuning};
ghost use Rattle.bs_top.specs.declared.status.Status.{Status};

// The laws of the crates below that those here rest on.
fn known()
    ensures { Known }
{
    bs_parse::text_laws::one_program();
    bs_parse::text_laws::one_fault();
    bs_parse::text_laws::no_both();
    bs_semantics::laws::verdict();
    bs_semantics::laws::one_serial();
    bs_logread::one_text();
    bs_logread::one_fault();
    bs_logtext::texts_are_small();
    bs_times::laws::timely_machines();
    bs_times::laws::causal_nets();
    bs_times::laws::uniqueness();
    bs_times::laws::one_outcome();
    bs_settle::laws::one_settling();
    bs_settle::laws::one_noting();
    bs_serial::laws::verdict_times();
    bs_path::laws::one_chain();
    bs_whatif::laws::one_sweep();
    bs_whatif::laws::one_tuning();
}

// And the laws by which there is something.
fn some_laws()
    ensures { SomeLaws }
{
    bs_parse::text_laws::some_answer();
    bs_logread::some_answer();
    bs_semantics::laws::verdict();
    bs_semantics::laws::some_serial();
    bs_serial::laws::verdict_times();
    bs_times::laws::uniqueness();
    bs_settle::laws::some_answer();
    bs_settle::laws::one_noting();
    bs_machine::laws::fitted_machines();
    bs_path::laws::one_chain();
    bs_whatif::laws::one_sweep();
    bs_whatif::laws::one_tuning();
}

/// For given contents of the files a command has one answer.
pub fn one_answer()
    ensures { (files : Files) (asked : Option Asked) (a b : Answer) → IsAnswer files asked a → IsAnswer files asked b → a ≡ b }
{
    known();
}

/// For all words, and for all contents of the files, there is an answer. So there is just one, by the law
/// `one_answer`.
pub fn some_answer()
    ensures { (files : Files) (words : List (List ℕ)) → (a : Answer) × IsAnswer files (asked_by words) a }
{
    known();
    some_laws();
}

/// **Completeness.** Where the file of a program is there, of no more bytes than a file may have, and
/// holds a program that keeps all rules, the answer to `check` is its canonical text (`check`). Where
/// there is also a machine that fits the program, and the program's verdict at the limit is Clean, the
/// answer to `model` is the report of an outcome that the serial machine model gives, with the status
/// of its end (`model`). So is the answer to `run`, where no number of waves is given or one that is
/// enough for the log of the program (`run`).
///
/// Where the file of a log is there and holds the text of a valid log, and there is a machine that fits
/// it, the answer to `trace` is the trace of the log at its one consistent table, with the status of the
/// log's end (`trace`), and the answer to `chain` is the critical chain of the log at that table, with the
/// same status (`chain`). Where there are machines that each fit the log, the answer to `sweep` is the text of
/// its points on them (`sweep`), and the answer to `tune` is the text of its two points on one machine
/// (`tune`), with the same status. Where no number of waves is given or one that is enough for the log, the answer to
/// `predict` is the report of the log's outcome at that table, with the status of its end (`predict`), and
/// where a journal is asked for, the journal of its waves before that report (`journal`).
///
/// Where the program's verdict at the limit is Clean, the answer to `emulate` is the text of the log of
/// its Clean round for the log's file, with the status of the log's end (`emulate`).
///
/// The answer to `gen` is the text of the program (`generate`). Where this text spells a program that keeps all
/// rules, and its verdict at the greatest limit is Clean, the answer to `trial` is the line of an outcome that
/// the serial machine model gives on the flat machine of 64 processors with latency 10 (`trial`).
///
/// So a call that answers such a command over such files writes these texts whole and ends with that
/// status, or its status is read fault, write fault or want of memory (`checks`, `models`,
/// `runs`, `emulates`, `predicts`, `journals`, `traces`, `chains`, `sweeps`, `tunes`, `generates`,
/// `trials`). When the first two come is said by the clause
/// `cause` of `perform_alone`.
pub fn complete()
    ensures check { (files : Files) (name : List ℕ) (p : Program) (a : Answer) → HasProgram files name p → IsAnswer files (Some (check name)) a → a ≡ answer_of (Ok (printed p)) }
    ensures model { (files : Files) (name : List ℕ) (word : MachineWord) (limit : ℕ) (p : Program) (m : MachineOf) (a : Answer) → CanRun files name word limit p m → IsAnswer files (Some (model name word limit)) a → IsReported p m limit a }
    ensures run { (files : Files) (name : List ℕ) (word : MachineWord) (limit : ℕ) (waves : Option ℕ) (p : Program) (m : MachineOf) (a : Answer) → CanRun files name word limit p m → IsAmpleFor waves p limit → IsAnswer files (Some (run name word limit waves)) a → IsReported p m limit a }
    ensures emulate { (files : Files) (name into : List ℕ) (limit : ℕ) (p : Program) (histories : List History) (a : Answer) → CanEmulate files name limit p histories → IsAnswer files (Some (emulate name into limit)) a → a ≡ logged_in into p histories }
    ensures predict { (files : Files) (name : List ℕ) (word : MachineWord) (waves : Option ℕ) (kept : Log) (m : MachineOf) (a : Answer) → CanPredict files name word kept m → IsAmple waves kept → IsAnswer files (Some (predict name word waves None)) a → IsPredicted kept m a }
    ensures journal { (files : Files) (name into : List ℕ) (word : MachineWord) (waves : Option ℕ) (kept : Log) (m : MachineOf) (a : Answer) → CanPredict files name word kept m → IsAmple waves kept → IsAnswer files (Some (predict name word waves (Some into))) a → IsJournaled waves into kept m a }
    ensures trace { (files : Files) (name : List ℕ) (word : MachineWord) (kept : Log) (m : MachineOf) (a : Answer) → CanPredict files name word kept m → IsAnswer files (Some (trace name word)) a → IsTraced kept m a }
    ensures chain { (files : Files) (name : List ℕ) (word : MachineWord) (kept : Log) (m : MachineOf) (a : Answer) → CanPredict files name word kept m → IsAnswer files (Some (chain name word)) a → IsChained kept m a }
    ensures sweep { (files : Files) (name : List ℕ) (words : List MachineWord) (spans : Bool) (kept : Log) (ms : List MachineOf) (a : Answer) → CanSweep files name words kept ms → IsAnswer files (Some (sweep name words spans)) a → IsSwept spans kept ms a }
    ensures tune { (files : Files) (name : List ℕ) (word : MachineWord) (tuning : Tuning) (spans : Bool) (kept : Log) (m : MachineOf) (a : Answer) → CanPredict files name word kept m → IsAnswer files (Some (tune name word tuning spans)) a → IsTuned tuning spans kept m a }
    ensures generate { (files : Files) (program : Generated) (a : Answer) → IsAnswer files (Some (gen program)) a → a ≡ answer_of (Ok (generated program)) }
    ensures trial { (files : Files) (program : Generated) (p : Program) (m : MachineOf) (a : Answer) → CanTry program p m → IsAnswer files (Some (trial program)) a → IsTried program p m a }
    ensures checks { (files : Files) (name : List ℕ) (p : Program) (old new : Outside) (s : Status) → HasProgram files name p → Answers files (Some (check name)) old new s → Ends (λ a. a ≡ answer_of (Ok (printed p))) old new s }
    ensures models { (files : Files) (name : List ℕ) (word : MachineWord) (limit : ℕ) (p : Program) (m : MachineOf) (old new : Outside) (s : Status) → CanRun files name word limit p m → Answers files (Some (model name word limit)) old new s → Ends (IsReported p m limit) old new s }
    ensures runs { (files : Files) (name : List ℕ) (word : MachineWord) (limit : ℕ) (waves : Option ℕ) (p : Program) (m : MachineOf) (old new : Outside) (s : Status) → CanRun files name word limit p m → IsAmpleFor waves p limit → Answers files (Some (run name word limit waves)) old new s → Ends (IsReported p m limit) old new s }
    ensures emulates { (files : Files) (name into : List ℕ) (limit : ℕ) (p : Program) (histories : List History) (old new : Outside) (s : Status) → CanEmulate files name limit p histories → Answers files (Some (emulate name into limit)) old new s → Ends (λ a. a ≡ logged_in into p histories) old new s }
    ensures predicts { (files : Files) (name : List ℕ) (word : MachineWord) (waves : Option ℕ) (kept : Log) (m : MachineOf) (old new : Outside) (s : Status) → CanPredict files name word kept m → IsAmple waves kept → Answers files (Some (predict name word waves None)) old new s → Ends (IsPredicted kept m) old new s }
    ensures journals { (files : Files) (name into : List ℕ) (word : MachineWord) (waves : Option ℕ) (kept : Log) (m : MachineOf) (old new : Outside) (s : Status) → CanPredict files name word kept m → IsAmple waves kept → Answers files (Some (predict name word waves (Some into))) old new s → Ends (IsJournaled waves into kept m) old new s }
    ensures traces { (files : Files) (name : List ℕ) (word : MachineWord) (kept : Log) (m : MachineOf) (old new : Outside) (s : Status) → CanPredict files name word kept m → Answers files (Some (trace name word)) old new s → Ends (IsTraced kept m) old new s }
    ensures chains { (files : Files) (name : List ℕ) (word : MachineWord) (kept : Log) (m : MachineOf) (old new : Outside) (s : Status) → CanPredict files name word kept m → Answers files (Some (chain name word)) old new s → Ends (IsChained kept m) old new s }
    ensures sweeps { (files : Files) (name : List ℕ) (words : List MachineWord) (spans : Bool) (kept : Log) (ms : List MachineOf) (old new : Outside) (s : Status) → CanSweep files name words kept ms → Answers files (Some (sweep name words spans)) old new s → Ends (IsSwept spans kept ms) old new s }
    ensures tunes { (files : Files) (name : List ℕ) (word : MachineWord) (tuning : Tuning) (spans : Bool) (kept : Log) (m : MachineOf) (old new : Outside) (s : Status) → CanPredict files name word kept m → Answers files (Some (tune name word tuning spans)) old new s → Ends (IsTuned tuning spans kept m) old new s }
    ensures generates { (files : Files) (program : Generated) (old new : Outside) (s : Status) → Answers files (Some (gen program)) old new s → Ends (λ a. a ≡ answer_of (Ok (generated program))) old new s }
    ensures trials { (files : Files) (program : Generated) (p : Program) (m : MachineOf) (old new : Outside) (s : Status) → CanTry program p m → Answers files (Some (trial program)) old new s → Ends (IsTried program p m) old new s }
{
    known();
}

/// **The headline.** What `run` answers is what `model` answers, whatever the files hold (`run`); and so it
/// is with a number of waves that is enough for the log of the program (`within`). And where a file holds
/// the text of the log of a program's Clean round, at a limit that a command may have, what `predict`
/// answers on a machine is what `model` answers to the program on that machine (`predict`): the report of
/// the serial machine model, from the log alone. With a journal it is the same behind the journal
/// (`journal`).
///
/// That log is what `emulate` writes (the law `complete`). It is valid, by the law
/// `clean_logs_are_valid` of `bs_range`. At a number above each such limit the log may have too many
/// lines; where it is valid the same holds there (`valid`).
pub fn headline()
    ensures run { (files : Files) (name : List ℕ) (word : MachineWord) (limit : ℕ) (a : Answer) → IsAnswer files (Some (run name word limit None)) a ↔ IsAnswer files (Some (model name word limit)) a }
    ensures within { (files : Files) (name : List ℕ) (word : MachineWord) (limit : ℕ) (waves : Option ℕ) (p : Program) (m : MachineOf) (a b : Answer) →
        CanRun files name word limit p m → IsAmpleFor waves p limit →
        IsAnswer files (Some (model name word limit)) a → IsAnswer files (Some (run name word limit waves)) b → b ≡ a }
    ensures predict { (files later : Files) (name into : List ℕ) (word other : MachineWord) (limit : ℕ) (waves : Option ℕ) (p : Program) (histories : List History) (m : MachineOf) (a b : Answer) →
        IsLimit limit → CanRun files name word limit p m → IsVerdict p limit (clean histories) → CanForetell later into other (log_of histories (length p.entries)) m → IsAmple waves (log_of histories (length p.entries)) →
        IsAnswer files (Some (model name word limit)) a → IsAnswer later (Some (predict into other waves None)) b → b ≡ a }
    ensures journal { (files later : Files) (name into beside : List ℕ) (word other : MachineWord) (limit : ℕ) (waves : Option ℕ) (p : Program) (histories : List History) (m : MachineOf) (a b : Answer) →
        IsLimit limit → CanRun files name word limit p m → IsVerdict p limit (clean histories) → CanForetell later into other (log_of histories (length p.entries)) m → IsAmple waves (log_of histories (length p.entries)) →
        IsAnswer files (Some (model name word limit)) a → IsAnswer later (Some (predict into other waves (Some beside))) b → record b { note = None } ≡ a }
    ensures valid { (files later : Files) (name into : List ℕ) (word other : MachineWord) (limit : ℕ) (waves : Option ℕ) (p : Program) (histories : List History) (m : MachineOf) (a b : Answer) →
        CanRun files name word limit p m → IsVerdict p limit (clean histories) → CanPredict later into other (log_of histories (length p.entries)) m → IsAmple waves (log_of histories (length p.entries)) →
        IsAnswer files (Some (model name word limit)) a → IsAnswer later (Some (predict into other waves None)) b → b ≡ a }
{
    known();
    bs_serial::laws::verdict_times();
    bs_range::laws::clean_logs_are_valid();
}
