// Laws of chains. Each is a function without a body, whose contract is the law.
ghost use Rattle.std.specs.Prelude.{◌≡◌, ◌<◌, ◌+◌, ◌↔◌, ◌∷◌, ℕ, List};
ghost use Rattle.std.specs.List.{sum_by};
ghost use Rattle.bs_log.specs.Valid.{IsValid};
ghost use Rattle.bs_log.specs.declared.log.Log.{Log};
ghost use Rattle.bs_semantics.specs.Serial.{Machine};
ghost use Rattle.bs_settle.specs.declared.times.Times.{Times};
ghost use Rattle.bs_settle.specs.Timed.{AreTimes};
ghost use Rattle.bs_times.specs.Machine.{IsTimely};
ghost use Rattle.bs_times.specs.Net.{Causal, Net, Starts, net_of};
ghost use Rattle.bs_times.specs.Times.{Comes, IsConsistent, IsOn, arrival, ready};
ghost use Rattle.bs_path.specs.declared.links.Chain.{Chain};
ghost use Rattle.bs_path.specs.declared.links.ChainRow.{ChainRow};
ghost use Rattle.bs_path.specs.Chain.{IsCritical, starts_of};
ghost use Rattle.bs_path.specs.Sound.{IsSound};

/// The times of a valid log have the starts of its consistent table.
pub fn times_are_the_table()
    ensures { (log : Log) (m : Machine) (times : Times) → IsValid log → IsTimely m → AreTimes log m times → IsConsistent (net_of log m) (starts_of times) }
{}

/// **The row before.** In the consistent table the rows of a processor start in the order of (ready tick,
/// number), in which it runs them, no two at once: so the row that started last before another one is the
/// one before it in that order.
pub fn starts_keep_the_order()
    ensures { (net : Net) → Causal net → (s : Starts) → IsConsistent net s → (p i j : ℕ) → IsOn net p i → IsOn net p j → Comes (ready net (arrival net s) s) i j ↔ (s i < s j) }
{}

/// **One chain.** A valid log has a critical chain on each machine, at its consistent table (`some`), and
/// only one, whichever such table is taken (`one`).
pub fn one_chain()
    ensures some { (log : Log) (m : Machine) → IsValid log → IsTimely m → (s : Starts) → IsConsistent (net_of log m) s → (c : Chain) × IsCritical (net_of log m) s c }
    ensures one { (net : Net) → Causal net → (s z : Starts) → IsConsistent net s → IsConsistent net z → (c d : Chain) → IsCritical net s c → IsCritical net z d → c ≡ d }
{}

/// **A certificate.** The critical chain is sound.
pub fn critical_is_sound()
    ensures { (net : Net) → Causal net → (s : Starts) → IsConsistent net s → (c : Chain) → IsCritical net s c → IsSound net s c }
{}

/// **It adds up.** In a sound chain the first row starts at tick 0 (`first`), and the steps and the rest add up
/// to the span (`sum`).
pub fn sound_adds_up()
    ensures first { (net : Net) (s : Starts) (c : Chain) → IsSound net s c → (r : ChainRow) (rest : List ChainRow) → c.rows ≡ r ∷ rest → (r.start ≡ 0) × (r.step ≡ 0) }
    ensures sum { (net : Net) (s : Starts) (c : Chain) → IsSound net s c → sum_by (λ r. r.step) c.rows + c.rest ≡ c.span }
{}
