// Laws of settling. Each is a function without a body, whose contract is the law.
ghost use Rattle.std.specs.Prelude.{◌≡◌, ◌≤◌, ◌^◌, ◌⊎◌, ℕ, List, false, suc, true};
ghost use Rattle.bs_log.specs.Valid.{IsValid};
ghost use Rattle.bs_log.specs.declared.log.Log.{Log};
ghost use Rattle.bs_line.specs.declared.corrections.Correction.{Correction};
ghost use Rattle.bs_semantics.specs.Serial.{Machine};
ghost use Rattle.bs_times.specs.Budget.{budget_of};
ghost use Rattle.bs_times.specs.Net.{Causal, Net, Starts, Ticks, net_of};
ghost use Rattle.bs_times.specs.Times.{IsConsistent, SameTicks, arrival, budget};
ghost use Rattle.bs_settle.specs.declared.settling.BudgetSpent.{BudgetSpent};
ghost use Rattle.bs_settle.specs.Settled.{IsSpent, SettlesAt, StillAt};

/// **Few waves.** So many waves as are always enough are the same on every machine (`one`), and at most 2^40
/// (`few`).
pub fn budget_is_few()
    ensures one { (log : Log) (machine : Machine) → budget (net_of log machine) ≡ budget_of log }
    ensures few { (log : Log) → IsValid log → (1 ≤ budget_of log) × (budget_of log ≤ 2 ^ 40) }
{}

/// **One wave confirms.** From the arrivals of the consistent table the first wave changes no tick, and so
/// it is with each wave after it.
pub fn arrivals_settle()
    ensures { (net : Net) → Causal net → (s : Starts) → IsConsistent net s → (estimates : Ticks) → SameTicks net estimates (arrival net s) → (k : ℕ) → StillAt net estimates (suc k) }
{}

/// **One answer.** Waves from the same estimates with the same budget either settle or don't: what is told
/// of a budget that is spent is one (`spent`), and then its last wave isn't one that changes no tick
/// (`either`). A budget that is enough settles (`enough`).
pub fn one_settling()
    ensures spent { (net : Net) → Causal net → (estimates : Ticks) (most : ℕ) (s z : BudgetSpent) → IsSpent net estimates most s → IsSpent net estimates most z → s ≡ z }
    ensures either { (net : Net) → Causal net → (estimates : Ticks) (most : ℕ) (s : BudgetSpent) → IsSpent net estimates most s → StillAt net estimates most → ⊥ }
    ensures enough { (net : Net) → Causal net → (estimates : Ticks) (most : ℕ) → budget net ≤ most → StillAt net estimates most }
{}

ghost use Rattle.std.specs.Prelude.{Bool};
ghost use Rattle.bs_settle.specs.Noted.{AreNoted};

/// **One list of each wave.** From the same estimates the lists of a budget are determined, and whether
/// they settle (`one`). Where they settle the budget's last wave changes no tick (`still`), and where they
/// don't it changes one (`moving`), which a budget that is enough never does (`enough`). All budgets that
/// settle have the same lists (`any`).
pub fn one_noting()
    ensures one { (net : Net) → Causal net → (estimates : Ticks) (most : ℕ) (a b : List (List Correction)) (p q : Bool) → AreNoted net estimates most a p → AreNoted net estimates most b q → (a ≡ b) × (p ≡ q) }
    ensures still { (net : Net) → Causal net → (estimates : Ticks) (most : ℕ) (lists : List (List Correction)) → AreNoted net estimates most lists true → StillAt net estimates most }
    ensures moving { (net : Net) → Causal net → (estimates : Ticks) (most : ℕ) (lists : List (List Correction)) → AreNoted net estimates most lists false → StillAt net estimates most → ⊥ }
    ensures enough { (net : Net) → Causal net → (estimates : Ticks) (most : ℕ) (lists : List (List Correction)) → budget net ≤ most → AreNoted net estimates most lists false → ⊥ }
    ensures any { (net : Net) → Causal net → (estimates : Ticks) (most other : ℕ) (a b : List (List Correction)) → AreNoted net estimates most a true → AreNoted net estimates other b true → a ≡ b }
{}

/// **Some answer.** A budget of at least one wave settles, or it is spent (`settling`); and it has lists of
/// what its waves change (`noting`).
pub fn some_answer()
    ensures settling { (net : Net) → Causal net → (estimates : Ticks) (most : ℕ) → 1 ≤ most → StillAt net estimates most ⊎ ((s : BudgetSpent) × IsSpent net estimates most s) }
    ensures noting { (net : Net) → Causal net → (estimates : Ticks) (most : ℕ) → 1 ≤ most → (lists : List (List Correction)) × (settled : Bool) × AreNoted net estimates most lists settled }
{}

/// **One number of waves.** From any estimates there is a first wave that changes no tick, at most the one
/// of a budget that is enough (`some`), and from the same ticks of all listed messages it has one number
/// (`one`).
pub fn one_counting()
    ensures some { (net : Net) → Causal net → (estimates : Ticks) → (n : ℕ) × (n ≤ budget net) × SettlesAt net estimates n }
    ensures one { (net : Net) → Causal net → (a b : Ticks) (m n : ℕ) → SameTicks net a b → SettlesAt net a m → SettlesAt net b n → m ≡ n }
{}
