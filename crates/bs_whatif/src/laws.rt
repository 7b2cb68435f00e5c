// Laws of points. Each is a function without a body, whose contract is the law.
ghost use Rattle.std.specs.Prelude.{◌≡◌, ◌≤◌, ◌<◌, ◌+◌, ℕ, List, length};
ghost use Rattle.bs_log.specs.Valid.{IsValid};
ghost use Rattle.bs_log.specs.declared.log.Log.{Log};
ghost use Rattle.bs_machine.specs.declared.fitted.Fitted.{Fitted};
ghost use Rattle.bs_num.specs.declared.ticks.Tick.{Tick};
ghost use Rattle.bs_rows.specs.Rows.{net_on};
ghost use Rattle.bs_semantics.specs.Serial.{Machine};
ghost use Rattle.bs_settle.specs.Shares.{AreEarly};
ghost use Rattle.bs_settle.specs.Timed.{AreTimes};
ghost use Rattle.bs_settle.specs.declared.times.Times.{Times};
ghost use Rattle.bs_times.specs.Budget.{budget_of};
ghost use Rattle.bs_times.specs.Machine.{machine_of};
ghost use Rattle.bs_times.specs.Net.{net_of};
ghost use Rattle.bs_whatif.specs.Points.{IsPoint};
ghost use Rattle.bs_whatif.specs.declared.points.Point.{Point};

/// **Any ticks.** Waves come to the same times and arrivals from whatever ticks they begin (`times`,
/// `ticks`), so too from tick 0, and these are the times by the consistent table (`table`).
pub fn any_ticks()
    ensures times { (log : Log) (m : Fitted) → IsValid log → (before other : List Tick) (p q : Point) → IsPoint log m before p → IsPoint log m other q → p.times ≡ q.times }
    ensures ticks { (log : Log) (m : Fitted) → IsValid log → (before other : List Tick) (p q : Point) → IsPoint log m before p → IsPoint log m other q → p.ticks ≡ q.ticks }
    ensures table { (log : Log) (m : Fitted) → IsValid log → (before : List Tick) (p : Point) (times : Times) → IsPoint log m before p → AreTimes log (machine_of m) times → p.times ≡ times }
{}

/// **One point.** From ticks below 2^107, one for each listed message, there is a point (`some`), and only
/// one (`one`). It never has more waves than the default budget of its log (`few`).
pub fn one_point()
    ensures some { (log : Log) (m : Fitted) → IsValid log → (before : List Tick) → AreEarly (net_on log m) before → (p : Point) × IsPoint log m before p }
    ensures one { (log : Log) (m : Fitted) → IsValid log → (before : List Tick) (p q : Point) → AreEarly (net_on log m) before → IsPoint log m before p → IsPoint log m before q → p ≡ q }
    ensures few { (log : Log) (m : Fitted) → IsValid log → (before : List Tick) (p : Point) → AreEarly (net_on log m) before → IsPoint log m before p → p.waves ≤ budget_of log }
{}

ghost use Rattle.bs_whatif.specs.Rescaled.{IsFraction, SameMessages, rescaled};

/// **Rescaling.** A valid log in which one statement costs a fraction is valid (`valid`), and lists the same
/// messages (`listed`).
pub fn rescaling()
    ensures valid { (log : Log) (stmt num den : ℕ) → IsValid log → IsFraction num den → IsValid (rescaled log stmt num den) }
    ensures listed { (log : Log) (stmt num den : ℕ) (machine : Machine) → SameMessages (net_of log machine) (net_of (rescaled log stmt num den) machine) }
{}

ghost use Rattle.bs_whatif.specs.Figures.{AreFigures, AreSpans, at_zero, swept, tuned};
ghost use Rattle.bs_whatif.specs.Texts.{IsPointsText, IsSpansText, spans_of};

/// **One sweep.** A valid log has one text of its points on some machines (`some`, `one`), and one text of
/// their spans alone (`some_spans`, `one_spans`).
pub fn one_sweep()
    ensures some { (log : Log) (ms : List Fitted) → IsValid log → (text : List ℕ) × IsPointsText (swept log ms) text }
    ensures one { (log : Log) (ms : List Fitted) → IsValid log → (a b : List ℕ) → IsPointsText (swept log ms) a → IsPointsText (swept log ms) b → a ≡ b }
    ensures some_spans { (log : Log) (ms : List Fitted) → IsValid log → (text : List ℕ) × IsSpansText (swept log ms) text }
    ensures one_spans { (log : Log) (ms : List Fitted) → IsValid log → (a b : List ℕ) → IsSpansText (swept log ms) a → IsSpansText (swept log ms) b → a ≡ b }
{}

/// **One tuning.** So it is of a valid log on a machine, before and after one statement costs a fraction.
pub fn one_tuning()
    ensures some { (log : Log) (m : Fitted) (stmt num den : ℕ) → IsValid log → IsFraction num den → (text : List ℕ) × IsPointsText (tuned log m stmt num den) text }
    ensures one { (log : Log) (m : Fitted) (stmt num den : ℕ) → IsValid log → IsFraction num den → (a b : List ℕ) → IsPointsText (tuned log m stmt num den) a → IsPointsText (tuned log m stmt num den) b → a ≡ b }
    ensures some_spans { (log : Log) (m : Fitted) (stmt num den : ℕ) → IsValid log → IsFraction num den → (text : List ℕ) × IsSpansText (tuned log m stmt num den) text }
    ensures one_spans { (log : Log) (m : Fitted) (stmt num den : ℕ) → IsValid log → IsFraction num den → (a b : List ℕ) → IsSpansText (tuned log m stmt num den) a → IsSpansText (tuned log m stmt num den) b → a ≡ b }
{}

ghost use Rattle.bs_times.specs.Net.{Net};
ghost use Rattle.bs_whatif.specs.declared.figures.Figures.{Figures};

/// **The same spans.** The spans among figures are those that are told alone, wherever the waves begin.
pub fn same_spans()
    ensures { (nets : List Net) (figures : List Figures) → AreFigures at_zero nets figures → AreSpans nets (spans_of figures) }
{}

ghost use Rattle.bs_whatif.specs.Best.{IsFirstLeast, best_of};

/// **The best.** Of some spans the one at the place before the number of the best is the first of the least.
pub fn best_is_least()
    ensures { (spans : List ℕ) (place : ℕ) → 0 < length spans → best_of spans ≡ place + 1 → IsFirstLeast spans place }
{}
