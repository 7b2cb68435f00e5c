// Laws of the logs that emulations write. Each is a function without a body, whose contract is the law.
ghost use Rattle.std.specs.Prelude.{ℕ, List, length, None, ◌≡◌, ◌≤◌, ◌<◌};
ghost use Rattle.bs_tree.specs.declared.tree.Program.{Program};
ghost use Rattle.bs_tree.specs.Count.{statements_in};
ghost use Rattle.bs_log.specs.declared.history.History.{History};
ghost use Rattle.bs_log.specs.Collected.{log_of};
ghost use Rattle.bs_log.specs.Valid.{IsValid};
ghost use Rattle.bs_log.specs.declared.log.Log.{Log};
ghost use Rattle.bs_semantics.specs.Run.{Lookup, history};
ghost use Rattle.bs_semantics.specs.Rounds.{Closed};
ghost use Rattle.bs_semantics.specs.Verdict.{IsVerdict, clean};
ghost use Rattle.bs_check.specs.Refusal.{IsWhole, refusal};
ghost use Rattle.bs_logtext.specs.Declared.{AreDeclared, AreEntries, HasWords};
ghost use Rattle.bs_logtext.specs.Text.{log_text};

/// Each key that a chare of an accepted program sends, asks or waits for is of one of the program's
/// entries, under every mail and at every limit.
pub fn keys_are_declared()
    ensures { (p : Program) (limit c : ℕ) (mail : Lookup) → refusal p ≡ None → AreEntries (length p.entries) (history p limit c mail) }
{}

/// The log of closed histories is valid, and so is that of the Clean round of a program, which is closed.
///
/// The premises are that the program has 1 to 65,536 chares, at most 1,000 entries and at most 10,000
/// statements, that the limit is at most 262,144, and that all keys and values in the histories are
/// ones that the program can name.
pub fn logs_are_valid()
    ensures { (p : Program) (limit : ℕ) (hs : List History) → limit ≤ 262144 → 1 ≤ p.chares → p.chares ≤ 65536 →
        length p.entries ≤ 1000 → statements_in p.body ≤ 10000 → AreDeclared (length p.entries) hs → Closed p limit hs →
        IsValid (log_of hs (length p.entries)) }
{}

/// The log of closed histories of an accepted program is valid (`closed`), and so is a log that is that
/// of the histories of a Clean verdict (`verdict`), as `bs_rounds::verdict` answers it.
///
/// The premises are that the limit is at most 262,144, that the program is one that some text spells,
/// as that of each accepted program is, and that the log's numbers are of 64 bits, which `has_words`
/// says of every log in memory.
pub fn logs_are_written()
    ensures closed { (p : Program) (limit : ℕ) (hs : List History) → limit ≤ 262144 → IsWhole p → refusal p ≡ None → Closed p limit hs →
        HasWords (log_of hs (length p.entries)) → IsValid (log_of hs (length p.entries)) }
    ensures verdict { (p : Program) (limit : ℕ) (hs : List History) (log : Log) → limit ≤ 262144 → IsWhole p → refusal p ≡ None →
        IsVerdict p limit (clean hs) → log ≡ log_of hs (length p.entries) → HasWords log → IsValid log }
{}

/// The text of a valid log has less than 67,108,864 bytes: each of its lines has less than 80 bytes, and
/// there are at most 262,147 of them.
pub fn texts_are_small()
    ensures { (log : Log) → IsValid log → length (log_text log) < 67108864 }
{}
