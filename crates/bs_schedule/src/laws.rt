// Laws of plans.
ghost use Rattle.std.specs.Prelude.{◌≡◌, List, ℕ};
ghost use Rattle.bs_times.specs.Net.{Net, Starts};
ghost use Rattle.bs_times.specs.Times.{IsConsistent};
ghost use Rattle.bs_schedule.specs.declared.plan.Plan.{Plan};
ghost use Rattle.bs_schedule.specs.Plan.{IsSchedule, at};
ghost use Rattle.bs_schedule.specs.Whole.{IsWholePlan};

/// A schedule of the plan of all rows of a log, where each base tick is 0, is the consistent table.
pub fn whole_schedule()
    ensures { (net : Net) (plan : Plan) (base : List ℕ) (s : Starts) → IsWholePlan net plan → ((i : ℕ) → at base i ≡ 0) → IsSchedule plan base s → IsConsistent net s }
{}

ghost use Rattle.bs_times.specs.Net.{Ticks};
ghost use Rattle.bs_times.specs.Times.{IsLine};
ghost use Rattle.bs_schedule.specs.Local.{IsHeld, IsLocalPlan};
ghost use Rattle.bs_schedule.specs.Plan.{IsRow};

/// A schedule of the plan of one processor's rows, in numbers of their own and with base ticks from the
/// ticks that are held for their messages, is the table of that processor.
pub fn line_schedule()
    ensures { (net : Net) (p : ℕ) (held : Ticks) (plan : Plan) (base : List ℕ) (g : ℕ → ℕ) (s z : Starts) → IsLocalPlan net p plan g → IsHeld net held plan base g → IsSchedule plan base s → ((k : ℕ) → IsRow plan k → s k ≡ z (g k)) → IsLine net p held z }
{}
