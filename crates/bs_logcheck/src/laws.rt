// Laws of the rules between the lines of a log's text.
ghost use Rattle.std.specs.Prelude.{◌≡◌, ◌↔◌, ℕ};
ghost use Rattle.bs_log.specs.declared.log.Log.{Log};
ghost use Rattle.bs_log.specs.Valid.{IsValid};
ghost use Rattle.bs_logcheck.specs.declared.rule.LogRule.{LogRule};
ghost use Rattle.bs_logcheck.specs.Rules.{IsFirstBroken, IsSound};
ghost use Rattle.bs_logcheck.specs.Ranges.{IsInRange};

/// There is at most one first line that breaks a rule, and one least rule that it breaks.
pub fn one_broken()
    ensures { (l : Log) (m n : ℕ) (r s : LogRule) → IsFirstBroken l m r → IsFirstBroken l n s → (m ≡ n) × (r ≡ s) }
{}

/// A log is valid exactly where each number by itself is in its range, and no line breaks a rule
/// between lines.
pub fn sound_logs_are_valid()
    ensures { (l : Log) → (IsInRange l × IsSound l) ↔ IsValid l }
{}
