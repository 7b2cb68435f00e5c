// Laws of the texts of logs. Each is a function without a body, whose contract is the law.
ghost use Rattle.std.specs.Prelude.{◌≡◌, ◌⊎◌, ℕ, List};
ghost use Rattle.bs_log.specs.declared.log.Log.{Log};
ghost use Rattle.bs_log.specs.Valid.{IsValid};
ghost use Rattle.bs_logtext.specs.Text.{log_text};
ghost use Rattle.bs_logcheck.specs.declared.rule.LogRule.{LogRule};
ghost use Rattle.bs_logread.specs.Fault.{IsRead, IsFault};

/// No two valid logs have one text.
pub fn one_text()
    ensures { (a b : Log) → IsValid a → IsValid b → log_text a ≡ log_text b → a ≡ b }
{}

/// A text has at most one first fault: one line, and one rule (`one`). The text of a valid log has none
/// (`none`).
pub fn one_fault()
    ensures one { (text : List ℕ) (m n : ℕ) (r s : LogRule) → IsFault text m r → IsFault text n s → (m ≡ n) × (r ≡ s) }
    ensures none { (log : Log) (line : ℕ) (rule : LogRule) → IsValid log → IsFault (log_text log) line rule → ⊥ }
{}

/// Each line of the text of a valid log stands where it may, and the lines are those of this log alone.
/// So `read_log` gives back each valid log that `write_log` has written, unless memory is wanting.
pub fn written_logs_are_read()
    ensures read { (log : Log) → IsValid log → IsRead (log_text log) log }
    ensures only { (a b : Log) → IsValid a → IsRead (log_text a) b → a ≡ b }
{}

/// Every text is that of a valid log, or has a first fault. So by the other laws it is just one of the two,
/// and `read_log` answers that one wherever memory is found.
pub fn some_answer()
    ensures { (text : List ℕ) → ((log : Log) × IsValid log × (log_text log ≡ text)) ⊎ ((line : ℕ) × (rule : LogRule) × IsFault text line rule) }
{}
