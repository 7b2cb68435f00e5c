// Laws of the serial machine model and its times. Each is a function without a body, whose contract is the law.
ghost use Rattle.std.specs.Prelude.{◌≡◌, ◌↔◌, ℕ, List};
ghost use Rattle.bs_tree.specs.declared.tree.Program.{Program};
ghost use Rattle.bs_log.specs.declared.history.Block.{Block};
ghost use Rattle.bs_log.specs.declared.outcome.Outcome.{Outcome};
ghost use Rattle.bs_semantics.specs.Rounds.{CleanAt};
ghost use Rattle.bs_semantics.specs.Serial.{
  Machine,
  Started,
  IsEnabled,
  IsSerial,
  timed,
  unclean,
};
ghost use Rattle.bs_semantics.specs.Reached.{IsReached};
ghost use Rattle.bs_times.specs.Machine.{IsTimely};
ghost use Rattle.bs_times.specs.Net.{Causal, Starts, net_of};
ghost use Rattle.bs_times.specs.Times.{IsConsistent};
ghost use Rattle.bs_times.specs.Outcomes.{outcome_of};
ghost use Rattle.bs_serial.specs.Times.{log_at, IsTold, IsDue};

/// Where the verdict is Clean, a block can be started in a state that the serial machine model reaches
/// exactly where it is one of the Clean round's that wasn't started and whose causes all were, the
/// senders of its messages among them.
///
/// There is no premise on the program or on the machine. The state's histories are taken under the
/// mail of the started blocks alone: nothing but its causes keeps a block out of them.
pub fn due_blocks()
    ensures { (p : Program) (limit n : ℕ) (m : Machine) (bs : List Started) → CleanAt p limit n → IsReached p limit m bs → (c : ℕ) (x : Block) → IsEnabled p limit bs c x ↔ IsDue p limit n bs c x }
{}

/// In the log of a Clean round every cause is a row that is less deep, and at least one tick passes
/// from its start to what it causes.
///
/// There is no premise on the program, so the log need not be one that can be kept as a text.
pub fn causal_net()
    ensures { (p : Program) (limit n : ℕ) (m : Machine) → IsTimely m → CleanAt p limit n → Causal (net_of (log_at p limit n) m) }
{}

/// **Serial.** Where the serial machine model gives an outcome, the verdict is Clean, the log of the
/// Clean round has a consistent table, and the outcome is that of the log at this table (`timed`): so
/// the log alone tells when each block starts and ends. The other way round, where the verdict is
/// Clean, the model gives the outcome of the log at each consistent table (`told`). And it gives
/// `unclean` exactly where the verdict isn't Clean (`unclean`).
///
/// There is no premise on the program, and on the machine only that its messages and blocks take one
/// tick or more, and not too many, as on every fitted machine.
pub fn serial_times()
    ensures timed { (p : Program) (limit : ℕ) (m : Machine) (o : Outcome) → IsTimely m → IsSerial p limit m (timed o) → (n : ℕ) × CleanAt p limit n × IsTold m (log_at p limit n) o }
    ensures told { (p : Program) (limit n : ℕ) (m : Machine) (s : Starts) → IsTimely m → CleanAt p limit n → IsConsistent (net_of (log_at p limit n) m) s → IsSerial p limit m (timed (outcome_of (log_at p limit n) m s)) }
    ensures unclean { (p : Program) (limit : ℕ) (m : Machine) → IsSerial p limit m unclean ↔ ((n : ℕ) → CleanAt p limit n → ⊥) }
{}

ghost use Rattle.std.specs.Prelude.{length};
ghost use Rattle.bs_log.specs.declared.history.History.{History};
ghost use Rattle.bs_log.specs.Collected.{log_of};
ghost use Rattle.bs_semantics.specs.Verdict.{Verdict, IsVerdict, clean};

/// The same in the words of the verdict. Where it is Clean with some histories, the net of their log
/// has causes that come before (`causal`); an outcome of the model is that of their log at its
/// consistent table, which there is (`timed`); and the model gives the outcome of their log at each
/// consistent table (`told`). The model gives `unclean` exactly where the verdict is another one
/// (`unclean`).
pub fn verdict_times()
    ensures causal { (p : Program) (limit : ℕ) (m : Machine) (hs : List History) → IsTimely m → IsVerdict p limit (clean hs) → Causal (net_of (log_of hs (length p.entries)) m) }
    ensures timed { (p : Program) (limit : ℕ) (m : Machine) (hs : List History) (o : Outcome) → IsTimely m → IsVerdict p limit (clean hs) → IsSerial p limit m (timed o) → IsTold m (log_of hs (length p.entries)) o }
    ensures told { (p : Program) (limit : ℕ) (m : Machine) (hs : List History) (s : Starts) → IsTimely m → IsVerdict p limit (clean hs) → IsConsistent (net_of (log_of hs (length p.entries)) m) s → IsSerial p limit m (timed (outcome_of (log_of hs (length p.entries)) m s)) }
    ensures unclean { (p : Program) (limit : ℕ) (m : Machine) (v : Verdict) → IsVerdict p limit v → IsSerial p limit m unclean ↔ ((hs : List History) → v ≡ clean hs → ⊥) }
{}

ghost use Rattle.bs_semantics.specs.Examples.{exchange, both_histories};
ghost use Rattle.bs_serial.specs.Example.{log, machine, starts, outcome};

/// The program in which two chares send to each other, on two processors with a latency of 5: its log
/// (`log`), the consistent table of this (`table`), and what the serial machine model gives (`gives`).
pub fn worked_times()
    ensures log { log_of both_histories 1 ≡ log }
    ensures table { IsConsistent (net_of log machine) starts }
    ensures gives { IsSerial exchange 262144 machine (timed outcome) }
{}
