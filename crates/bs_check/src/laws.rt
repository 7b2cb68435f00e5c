//! What the rules of the language come to, each law as a function that does nothing.
ghost use Rattle.std.specs.Prelude.{◌≡◌, ◌↔◌, ℕ, IsTrue, List, None, true};
ghost use Rattle.bs_log.specs.Lists.{Mem};
ghost use Rattle.bs_check.specs.Agreeing.{WriteApart, WritesOwner, writes_cell};
ghost use Rattle.bs_check.specs.Every.{every};
ghost use Rattle.bs_check.specs.Fits.{are_fit};
ghost use Rattle.bs_check.specs.Refusal.{refusal};
ghost use Rattle.bs_semantics.specs.Spending.{HasNoIdleLoop, spending};
ghost use Rattle.bs_tree.specs.Spends.{stmt_spends};
ghost use Rattle.bs_tree.specs.declared.tree.Program.{Program};
ghost use Rattle.bs_tree.specs.declared.tree.Stmt.{Stmt, roll-Stmt};
ghost use Rattle.bs_tree.specs.declared.tree.Stmt.TheOpen.{Stmt-F};

/// What the rules come to for a program that breaks none. Each statement of its body, however deep it
/// stands, uses each name as what the name is declared as, and sends and waits for messages with as
/// many arguments as their entries have parameters (`fits`). No loop is idle, so each turn that ends
/// has made a block (`busy`).
pub fn accepted_programs()
    ensures fits { (p : Program) → refusal p ≡ None → IsTrue (are_fit p p.body) }
    ensures busy { (p : Program) → refusal p ≡ None → HasNoIdleLoop p }
{}

/// The rules of the language speak of variables by their names, and runs by their cells. By both a statement
/// is sure to make a block (`spends`), and it writes a cell exactly where it writes, by name, the variable
/// that has the cell (`writes`): for every program, with each bound on the turns of loops and for each chare.
///
/// In a program that breaks no rule no cell is written by two parts of an `overlap`, however deep it stands
/// (`apart`).
pub fn names_and_cells()
    ensures spends { (s : Stmt) → stmt_spends s ≡ (spending s).spends }
    ensures writes { (p : Program) (limit this : ℕ) (s : Stmt) (cell : ℕ) → (writes_cell p limit this s cell ≡ true) ↔ WritesOwner p s cell }
    ensures apart { (p : Program) → refusal p ≡ None → (limit this : ℕ) (parts : List Stmt) → Mem (roll-Stmt (Stmt-F.Overlap parts)) (every p.body) → WriteApart p limit this parts }
{}
