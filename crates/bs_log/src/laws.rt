// A law of the logs of histories.
ghost use Rattle.std.specs.Prelude.{ℕ, List};
ghost use Rattle.bs_log.specs.declared.history.Block.{Block};
ghost use Rattle.bs_log.specs.declared.history.History.{History};
ghost use Rattle.bs_log.specs.declared.log.Row.{Row};
ghost use Rattle.bs_log.specs.ClosedTest.{LooksClosed};
ghost use Rattle.bs_log.specs.Collected.{log_of};
ghost use Rattle.bs_log.specs.Rising.{CausesRise, RowRises};
ghost use Rattle.bs_log.specs.Lists.{Mem};

/// Rows are numbered in the order of (chare, path): where the causes of all blocks of histories that
/// look closed stand in their order, so do the causes of each row of their log.
pub fn numbers_rise()
    ensures { (hs : List History) (entries : ℕ) → LooksClosed hs →
        ((h : History) → Mem h hs → (x : Block) → Mem x h.blocks → CausesRise x) →
        (r : Row) → Mem r (log_of hs entries).rows → RowRises r }
{}
