// Laws of the range of numbers. Each is a function without code, whose contract is the law.
ghost use Rattle.std.specs.Prelude.{◌≡◌, ◌≤◌, ◌<◌, ◌^◌, ℕ, List, None, length};
ghost use Rattle.bs_tree.specs.declared.tree.Program.{Program};
ghost use Rattle.bs_log.specs.declared.history.Message.{Message};
ghost use Rattle.bs_log.specs.declared.history.History.{History};
ghost use Rattle.bs_log.specs.Collected.{log_of};
ghost use Rattle.bs_log.specs.Valid.{IsValid};
ghost use Rattle.bs_log.specs.Lists.{Mem};
ghost use Rattle.bs_parse.specs.Text.{Spells};
ghost use Rattle.bs_semantics.specs.Run.{Lookup, history};
ghost use Rattle.bs_semantics.specs.Rounds.{Closed, mail, round};
ghost use Rattle.bs_semantics.specs.Verdict.{IsVerdict, clean};
ghost use Rattle.bs_check.specs.Refusal.{refusal};
ghost use Rattle.bs_logtext.specs.Declared.{AreDeclared, HasWords};
ghost use Rattle.bs_range.specs.Numbers.{HasSmallNumbers};
ghost use Rattle.bs_range.specs.Words.{MessageHasWords, HistoryHasWords, MailHasWords};

use bs_logtext::{keys_are_declared, logs_are_valid};

/// Each number in the program that a text spells is at most 2^63 - 1: a greater one is no token.
pub fn spelled_numbers()
    ensures { (text : List ℕ) (p : Program) → Spells text p → HasSmallNumbers p }
{}

/// Each value that a chare emits or sends, and each reference that it sends, asks or waits for, has 64
/// bits, at every limit: an operator whose result has more is a trap.
///
/// The premises are that each number in the program is at most 2^63 - 1, and so is the chare's own, and
/// that the arguments in the mail have 64 bits.
pub fn values_are_words()
    ensures { (p : Program) (limit c : ℕ) (held : Lookup) → HasSmallNumbers p → c < 2 ^ 63 → MailHasWords held → HistoryHasWords (history p limit c held) }
{}

/// So have those of each round of such a program (`rounds`), with the references and the arguments of
/// the mail that the round is taken under (`mail`), and those of the round's log (`logs`). Where a text
/// spells the program and it keeps all rules, each key in a round is moreover of one of its entries
/// (`declared`).
pub fn rounds_are_words()
    ensures rounds { (p : Program) (limit n : ℕ) → HasSmallNumbers p → (h : History) → Mem h (round p limit n) → HistoryHasWords h }
    ensures mail { (p : Program) (limit n : ℕ) → HasSmallNumbers p → (m : Message) → Mem m (mail p limit n) → MessageHasWords m }
    ensures logs { (p : Program) (limit n : ℕ) → HasSmallNumbers p → HasWords (log_of (round p limit n) (length p.entries)) }
    ensures declared { (text : List ℕ) (p : Program) (limit n : ℕ) → Spells text p → refusal p ≡ None → AreDeclared (length p.entries) (round p limit n) }
{
    keys_are_declared();
}

/// **The log of a program is valid.** Where a text spells a program that keeps all rules, and the limit
/// is at most 262,144, the log of its closed histories is valid (`closed`), and so is the log of the
/// histories of a Clean verdict (`verdict`).
///
/// There is no premise on the log or on the numbers in it.
pub fn clean_logs_are_valid()
    ensures closed { (text : List ℕ) (p : Program) (limit : ℕ) (hs : List History) → limit ≤ 262144 → Spells text p → refusal p ≡ None → Closed p limit hs → IsValid (log_of hs (length p.entries)) }
    ensures verdict { (text : List ℕ) (p : Program) (limit : ℕ) (hs : List History) → limit ≤ 262144 → Spells text p → refusal p ≡ None → IsVerdict p limit (clean hs) → IsValid (log_of hs (length p.entries)) }
{
    keys_are_declared();
    logs_are_valid();
}
