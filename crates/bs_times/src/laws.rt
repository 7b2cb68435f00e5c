// Laws of the definitions. Each is a function without a body, whose contract is the law.
ghost use Rattle.std.specs.Prelude.{◌≡◌, ◌≤◌, ◌<◌, ◌+◌, ℕ, List};
ghost use Rattle.bs_log.specs.declared.log.Log.{Log};
ghost use Rattle.bs_log.specs.Valid.{IsValid};
ghost use Rattle.bs_machine.specs.declared.fitted.Fitted.{Fitted};
ghost use Rattle.bs_semantics.specs.Serial.{Machine};
ghost use Rattle.bs_times.specs.Machine.{IsTimely, machine_of};
ghost use Rattle.bs_times.specs.Net.{Causal, net_of};

/// On every fitted machine a message of at most 2^30 bytes takes from 1 to below 2^40 ticks, and a
/// block of a cost from 1 to 2^32 takes from 1 to below 2^48 ticks.
///
/// It is the only premise on machines in the laws below.
pub fn timely_machines()
    ensures { (m : Fitted) → IsTimely (machine_of m) }
{}

/// In a valid log on such a machine every cause is a row that is less deep, and at least one tick
/// passes from its start to what it causes.
///
/// It is the only premise in the laws below that speak of a net, but for the bounds.
pub fn causal_nets()
    ensures { (log : Log) (machine : Machine) → IsValid log → IsTimely machine → Causal (net_of log machine) }
{}

ghost use Rattle.bs_times.specs.Net.{Net, HasRow, Starts, Ticks};
ghost use Rattle.bs_times.specs.Times.{IsOn, IsLine, IsTable};

/// Whatever ticks the messages are held at, there is a table for all processors.
pub fn table_exists()
    ensures { (net : Net) → Causal net → (held : Ticks) → (s : Starts) × IsTable net held s }
{}

/// With the ticks of the messages held, there is only one table: of one processor at each of its rows
/// (`line`), and so of all processors at each row (`all`).
pub fn one_table()
    ensures line { (net : Net) → Causal net → (p : ℕ) (held : Ticks) (s z : Starts) → IsLine net p held s → IsLine net p held z → (i : ℕ) → IsOn net p i → s i ≡ z i }
    ensures all { (net : Net) → Causal net → (held : Ticks) (s z : Starts) → IsTable net held s → IsTable net held z → (i : ℕ) → HasRow net i → s i ≡ z i }
{}

ghost use Rattle.bs_times.specs.Times.{IsConsistent};

/// **Uniqueness.** A valid log and a machine have exactly one consistent table: there is one (`some`),
/// and two of them have the same start at each row (`one`). It rests on this alone, that each cause is
/// less deep, and comes at least one tick before what it causes (`some_of`, `one_of`).
pub fn uniqueness()
    ensures some { (log : Log) (machine : Machine) → IsValid log → IsTimely machine → (s : Starts) × IsConsistent (net_of log machine) s }
    ensures one { (log : Log) (machine : Machine) → IsValid log → IsTimely machine → (s z : Starts) → IsConsistent (net_of log machine) s → IsConsistent (net_of log machine) z → (i : ℕ) → HasRow (net_of log machine) i → s i ≡ z i }
    ensures some_of { (net : Net) → Causal net → (s : Starts) × IsConsistent net s }
    ensures one_of { (net : Net) → Causal net → (s z : Starts) → IsConsistent net s → IsConsistent net z → (i : ℕ) → HasRow net i → s i ≡ z i }
{}

ghost use Rattle.bs_log.specs.Lists.{Mem};
ghost use Rattle.bs_log.specs.declared.log.MailRef.{MailRef};
ghost use Rattle.bs_times.specs.Times.{arrival, end_of};

/// **Causes first.** In the consistent table a block cause ends before or when its row starts (`blocks`),
/// and a message cause arrives before or when its row starts (`messages`). So each cause starts at least
/// one tick before what it causes.
pub fn causes_first()
    ensures blocks { (net : Net) → Causal net → (s : Starts) → IsConsistent net s → (i x : ℕ) → HasRow net i → Mem x (net.after i) → (end_of net s x ≤ s i) × (s x < s i) }
    ensures messages { (net : Net) → Causal net → (s : Starts) → IsConsistent net s → (i : ℕ) (m : MailRef) → HasRow net i → Mem m (net.mail i) → (arrival net s m ≤ s i) × (s m.row < s i) }
{}

ghost use Rattle.bs_times.specs.Serial.{IsRun, IsEnabled};

/// **One at a time.** Rows are started one at a time: of each processor's rows whose causes were
/// started the one of least (ready tick, number) is its candidate, and a candidate of least start is
/// started, at the greater of its ready tick and the last end on its processor. Where in the end no
/// such row is left, the starts are the consistent table.
pub fn run_is_consistent()
    ensures { (net : Net) → Causal net → (s : Starts) (done : List ℕ) → IsRun net s done → ((k : ℕ) → IsEnabled net done k → ⊥) → IsConsistent net s }
{}

/// The consistent table comes of such a run.
pub fn some_run()
    ensures { (net : Net) → Causal net → (s : Starts) → IsConsistent net s → (done : List ℕ) × IsRun net s done × ((k : ℕ) → IsEnabled net done k → ⊥) }
{}

ghost use Rattle.std.specs.Prelude.{suc};
ghost use Rattle.bs_times.specs.Times.{AreWaves, IsWave, SameTicks, budget};

/// **Waves.** From any estimates there are waves (`some`), and they give one tick for each message
/// (`one`). No tick changes after so many waves as the budget says (`rest`), and the ticks are then the
/// arrivals of the consistent table (`right`).
pub fn waves()
    ensures some { (net : Net) → Causal net → (estimates : Ticks) → (ticks : ℕ → Ticks) × AreWaves net ticks × (ticks 0 ≡ estimates) }
    ensures one { (net : Net) → Causal net → (a b : ℕ → Ticks) → AreWaves net a → AreWaves net b → SameTicks net (a 0) (b 0) → (k : ℕ) → SameTicks net (a k) (b k) }
    ensures rest { (log : Log) (machine : Machine) → IsValid log → IsTimely machine → (ticks : ℕ → Ticks) → AreWaves (net_of log machine) ticks → (k : ℕ) → budget (net_of log machine) ≤ suc k → SameTicks (net_of log machine) (ticks (suc k)) (ticks k) }
    ensures right { (net : Net) → Causal net → (s : Starts) → IsConsistent net s → (ticks : ℕ → Ticks) → AreWaves net ticks → (k : ℕ) → budget net ≤ suc k → SameTicks net (ticks (suc k)) (ticks k) × SameTicks net (ticks k) (arrival net s) }
{}

ghost use Rattle.bs_times.specs.Times.{IsStill, Settles};

/// The waves from any estimates have a first one that changes no tick, whose number is at most the
/// budget (`some`), and only one (`one`). No wave after one that changes no tick changes any (`stays`).
pub fn settles()
    ensures some { (net : Net) → Causal net → (ticks : ℕ → Ticks) → AreWaves net ticks → (k : ℕ) × (suc k ≤ budget net) × Settles net ticks k }
    ensures one { (net : Net) (ticks : ℕ → Ticks) (j k : ℕ) → Settles net ticks j → Settles net ticks k → j ≡ k }
    ensures stays { (net : Net) → Causal net → (ticks : ℕ → Ticks) → AreWaves net ticks → (k : ℕ) → IsStill net ticks k → (j : ℕ) → k ≤ j → IsStill net ticks j }
{}

/// The table of a wave that changes no tick is the consistent one.
pub fn settled_is_consistent()
    ensures { (net : Net) (held given : Ticks) → Causal net → (wave : IsWave net held given) → SameTicks net given held → IsConsistent net wave.table }
{}

/// Waves from the arrivals of the consistent table change no tick.
pub fn arrivals_stay()
    ensures { (net : Net) → Causal net → (s : Starts) → IsConsistent net s → (ticks : ℕ → Ticks) → AreWaves net ticks → SameTicks net (ticks 0) (arrival net s) → (k : ℕ) → SameTicks net (ticks k) (arrival net s) }
{}

ghost use Rattle.bs_times.specs.Racing.{
  World,
  IsDirty,
  IsEven,
  IsRacingWave,
  AreRacingWaves,
  IsBatch,
  Raced,
  first_world,
};

/// The first world from estimates is even.
pub fn first_even()
    ensures { (net : Net) (estimates : Ticks) → IsEven net (first_world estimates) }
{}

/// **Racing waves.** A racing wave of an even world changes the ticks that are held as one wave does,
/// to the same values, whatever the order of its steps; and it leads to an even world.
pub fn racing_wave()
    ensures { (net : Net) → Causal net → (w v : World) → IsEven net w → IsRacingWave net w v → Raced net w v }
{}

/// So does a wave whose dirty lines are recomputed from what they held at the beginning, in any order or
/// side by side.
pub fn batch_wave()
    ensures { (net : Net) → Causal net → (w v : World) → IsEven net w → IsBatch net w v → Raced net w v }
{}

/// From any world there are racing waves (`some`). After as many of them as the budget says no line is
/// dirty, from estimates (`rest`) and from any even world (`rest_of`).
pub fn racing_waves()
    ensures some { (net : Net) → Causal net → (w : World) → (worlds : ℕ → World) × AreRacingWaves net worlds × (worlds 0 ≡ w) }
    ensures rest { (log : Log) (machine : Machine) → IsValid log → IsTimely machine → (worlds : ℕ → World) (estimates : Ticks) → worlds 0 ≡ first_world estimates → AreRacingWaves (net_of log machine) worlds → (k : ℕ) → budget (net_of log machine) ≤ suc k → (p : ℕ) → IsDirty (net_of log machine) (worlds (suc k)) p → ⊥ }
    ensures rest_of { (net : Net) → Causal net → (s : Starts) → IsConsistent net s → (worlds : ℕ → World) → IsEven net (worlds 0) → AreRacingWaves net worlds → (k : ℕ) → budget net ≤ suc k → (p : ℕ) → IsDirty net (worlds (suc k)) p → ⊥ }
{}

/// An even world without a dirty line has the consistent table.
pub fn clean_is_consistent()
    ensures { (net : Net) → Causal net → (w : World) → IsEven net w → ((p : ℕ) → IsDirty net w p → ⊥) → (s : Starts) × IsConsistent net s × ((p : ℕ) → IsLine net p w.held s) }
{}

ghost use Rattle.std.specs.Prelude.{◌*◌, ◌^◌, Some, length};
ghost use Rattle.bs_times.specs.Times.{IsListed};
ghost use Rattle.bs_times.specs.Racing.{Race, Races};
ghost use Rattle.bs_times.specs.Bounds.{IsShort, Fits, AllFit, FitAt};

/// A valid log on a machine has at most 262,144 rows, of depths from 1 to 262,144, each of which takes
/// less than 2^48 ticks, and each of its messages arrives less than 2^49 ticks after its row's start.
pub fn short_nets()
    ensures { (log : Log) (machine : Machine) → IsValid log → IsTimely machine → IsShort (net_of log machine) }
{}

/// **Bounds.** Where the ticks that a line holds are above `most` by at most 2^67 for each step of the
/// sender's depth, so are the ends of its rows (`ends`) and the ticks that it gives (`gives`): a block
/// ends at most the durations of its line after its ready tick.
///
/// Such ticks are below 2^110 where `most` is below 2^107 (`small`), and below 2^111 where `most` is
/// below 2^110 (`alone`).
pub fn line_fits()
    ensures ends { (net : Net) → Causal net → IsShort net → (p most : ℕ) (held : Ticks) (s : Starts) → IsLine net p held s → FitAt net p most held → (i : ℕ) → IsOn net p i → end_of net s i ≤ most + net.depth i * 2 ^ 67 }
    ensures gives { (net : Net) → Causal net → IsShort net → (p most : ℕ) (held : Ticks) (s : Starts) → IsLine net p held s → FitAt net p most held → (m : MailRef) → IsListed net m → net.home m.row ≡ p → Fits net most m (arrival net s m) }
    ensures small { (net : Net) → Causal net → IsShort net → (most : ℕ) → most < 2 ^ 107 → (m : MailRef) (tick : ℕ) → IsListed net m → Fits net most m tick → tick < 2 ^ 110 }
    ensures alone { (net : Net) → Causal net → IsShort net → (most : ℕ) → most < 2 ^ 110 → (m : MailRef) (tick : ℕ) → IsListed net m → Fits net most m tick → tick < 2 ^ 111 }
{}

/// So it is with all ticks of a wave (`wave`), and of all waves from estimates of which the greatest is
/// `most` (`waves`).
pub fn waves_fit()
    ensures wave { (net : Net) → Causal net → IsShort net → (most : ℕ) (held given : Ticks) → IsWave net held given → AllFit net most held → AllFit net most given }
    ensures waves { (net : Net) → Causal net → IsShort net → (most : ℕ) (ticks : ℕ → Ticks) → AreWaves net ticks → AllFit net most (ticks 0) → (k : ℕ) → AllFit net most (ticks k) }
{}

/// And with all ticks in the course of a racing wave: those that are held, those given last, and those
/// of the corrections that aren't set yet (`course`); so too after it (`wave`), and after each of several
/// (`waves`).
pub fn racing_waves_fit()
    ensures course { (net : Net) → Causal net → IsShort net → (most : ℕ) (w : World) → AllFit net most w.held → AllFit net most w.given → (a : Race) → Races net w a → AllFit net most a.world.held × AllFit net most a.world.given × ((m : MailRef) (tick : ℕ) → IsListed net m → a.unset m ≡ Some tick → Fits net most m tick) }
    ensures wave { (net : Net) → Causal net → IsShort net → (most : ℕ) (w v : World) → AllFit net most w.held → AllFit net most w.given → IsRacingWave net w v → AllFit net most v.held × AllFit net most v.given }
    ensures waves { (net : Net) → Causal net → IsShort net → (most : ℕ) (worlds : ℕ → World) → AreRacingWaves net worlds → AllFit net most (worlds 0).held → AllFit net most (worlds 0).given → (k : ℕ) → AllFit net most (worlds k).held × AllFit net most (worlds k).given }
{}

ghost use Rattle.std.specs.List.{All};
ghost use Rattle.bs_times.specs.Outcomes.{outcome_of};
ghost use Rattle.bs_times.specs.Bounds.{IsSmall};

/// On every machine the consistent table of a valid log is small: each row ends before tick 2^109
/// (`ends`), so that its outcome can be told, and each message arrives before tick 2^107 (`arrivals`), so
/// that waves may begin from there. The outcome has at most 262,144 blocks, each of which takes from 1 to
/// 2^48 ticks and ends before tick 2^110 (`outcome`).
pub fn times_are_small()
    ensures ends { (log : Log) (machine : Machine) → IsValid log → IsTimely machine → (s : Starts) → IsConsistent (net_of log machine) s → (i : ℕ) → HasRow (net_of log machine) i → end_of (net_of log machine) s i < 2 ^ 109 }
    ensures arrivals { (log : Log) (machine : Machine) → IsValid log → IsTimely machine → (s : Starts) → IsConsistent (net_of log machine) s → (m : MailRef) → IsListed (net_of log machine) m → arrival (net_of log machine) s m < 2 ^ 107 }
    ensures outcome { (log : Log) (machine : Machine) → IsValid log → IsTimely machine → (s : Starts) → IsConsistent (net_of log machine) s → (length (outcome_of log machine s).rows ≤ 262144) × All IsSmall (outcome_of log machine s).rows }
{}

/// All consistent tables of a valid log on a machine give one outcome.
pub fn one_outcome()
    ensures { (log : Log) (machine : Machine) → IsValid log → IsTimely machine → (s z : Starts) → IsConsistent (net_of log machine) s → IsConsistent (net_of log machine) z → outcome_of log machine s ≡ outcome_of log machine z }
{}

ghost use Rattle.bs_times.specs.Example as example;

/// **A worked example.** Four rows of three chares on two processors: a valid log and a timely machine
/// (`valid`, `timely`). The first wave from ticks 0 has the starts 0, 0, 2 and 10 (`first`), the second
/// 18, 0, 25 and 8 (`second`), and the third the consistent table, 18, 0, 23 and 8, by which no tick
/// changes any more (`third`). Its budget is 18 waves (`budget_is`).
pub fn worked_example()
    ensures valid { IsValid example.log }
    ensures timely { IsTimely example.machine }
    ensures first { IsTable example.net (example.ticks 0 0 0) (example.starts 0 0 2 10) × (arrival example.net (example.starts 0 0 2 10) (example.message 2 1) ≡ 16) × (arrival example.net (example.starts 0 0 2 10) (example.message 2 2) ≡ 8) × (arrival example.net (example.starts 0 0 2 10) (example.message 4 1) ≡ 25) }
    ensures second { IsTable example.net (example.ticks 16 8 25) (example.starts 18 0 25 8) × (arrival example.net (example.starts 18 0 25 8) (example.message 2 1) ≡ 16) × (arrival example.net (example.starts 18 0 25 8) (example.message 2 2) ≡ 8) × (arrival example.net (example.starts 18 0 25 8) (example.message 4 1) ≡ 23) }
    ensures third { IsTable example.net (example.ticks 16 8 23) (example.starts 18 0 23 8) × (arrival example.net (example.starts 18 0 23 8) (example.message 2 1) ≡ 16) × (arrival example.net (example.starts 18 0 23 8) (example.message 2 2) ≡ 8) × (arrival example.net (example.starts 18 0 23 8) (example.message 4 1) ≡ 23) × IsConsistent example.net (example.starts 18 0 23 8) }
    ensures budget_is { budget example.net ≡ 18 }
{}
