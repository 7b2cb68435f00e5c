//! The list type of the product, the words and marks of the language, and the syntax tree of a
//! program.
//!
//! `List` is a vector that contracts see as a plain list. The tree is plain data, so a contract can
//! speak of it by cases. `docs/program-text.md` says how a program is written.
#![tactic(auto)]

mod count;
mod lists;
mod names;
mod symbols;
mod tree;

pub use count::statements;
pub use lists::List;
pub use names::{reads, spends, writes};
pub use sqlite_items::Boxed;
pub use symbols::{Mark, Word};
pub use tree::{Act, EntryDecl, Expr, Name, NameId, Op2, Path, Program, Stmt, VarDecl, Wait};

#[cfg(test)]
mod tests;
