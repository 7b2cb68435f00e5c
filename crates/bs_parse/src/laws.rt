// Laws of the grammar. Each is a function without a body, whose contract is the law.
ghost use Rattle.std.specs.Prelude.{◌≡◌, ℕ, List};
ghost use Rattle.bs_tree.specs.Rule.{Terminal};
ghost use Rattle.bs_tree.specs.Grammar.{Parts};
ghost use Rattle.bs_tree.specs.Limits.{Reason};
ghost use Rattle.bs_tree.specs.Fault.{IsProgram, IsFirstFault};

/// A list of terminals has at most one first fault (`one`), and one that spells a program within the
/// limits has none (`none`).
pub fn one_fault()
    ensures one { (ts : List Terminal) (m n : ℕ) (a b : Reason) → IsFirstFault ts m a → IsFirstFault ts n b → (m ≡ n) × (a ≡ b) }
    ensures none { (ts : List Terminal) (n : ℕ) (a : Reason) (parts : Parts) → IsProgram ts parts → IsFirstFault ts n a → ⊥ }
{}

ghost use Rattle.std.specs.Prelude.{◌≤◌};
ghost use Rattle.bs_tree.specs.Count.{statements_in};
ghost use Rattle.bs_parse.specs.Names.{names_among, names_in_program};

/// What a list of terminals spells within the limits has at most 10,000 statements (`statements`), and
/// the names of its tree are those of the terminals, in their order (`names`).
pub fn counted()
    ensures statements { (ts : List Terminal) (parts : Parts) → IsProgram ts parts → statements_in parts.3 ≤ 10000 }
    ensures names { (ts : List Terminal) (parts : Parts) → IsProgram ts parts → names_among ts ≡ names_in_program parts }
{}

ghost use Rattle.std.specs.Prelude.{◌<◌, length};
ghost use Rattle.std.specs.List.{Contains};
ghost use Rattle.bs_tree.specs.declared.tree.Program.{Program};
ghost use Rattle.bs_parse.specs.Text.{Spells};

/// The program that a text spells has at most 10,000 statements (`statements`). Each name in its tree
/// is the number of one of its names, counted from 0 (`known`), and each of its names is in its tree
/// (`used`).
pub fn spelled_programs()
    ensures statements { (text : List ℕ) (p : Program) → Spells text p → statements_in p.body ≤ 10000 }
    ensures known { (text : List ℕ) (p : Program) (n : ℕ) → Spells text p → Contains (names_in_program (p.chares, p.vars, p.entries, p.body)) n → n < length p.names }
    ensures used { (text : List ℕ) (p : Program) (n : ℕ) → Spells text p → n < length p.names → Contains (names_in_program (p.chares, p.vars, p.entries, p.body)) n }
{}
