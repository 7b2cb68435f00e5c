// The syntax tree of a program.
use crate::lists::List;
use sqlite_items::Boxed;

/// A name of a program: its bytes as they stand in the text.
#[derive(Debug, Drop)]
pub struct Name(pub List<u8>);

/// The place of a name among a program's names, counted from 0.
#[derive(Clone, Copy, Debug, PartialEq, Eq, Drop)]
pub struct NameId(pub u32);

/// The declaration of a variable: a scalar where `cells` is `None`, otherwise an array of that many
/// cells.
#[derive(Clone, Copy, Debug, PartialEq, Eq, Drop)]
pub struct VarDecl {
    pub name: NameId,
    pub cells: Option<u64>,
}

/// The declaration of an entry, with the number of its parameters.
#[derive(Clone, Copy, Debug, PartialEq, Eq, Drop)]
pub struct EntryDecl {
    pub name: NameId,
    pub params: u64,
}

/// A program. `names` stand in the order of their first appearance in the text, and the
/// declarations in the order of the text.
#[derive(Debug, Drop)]
pub struct Program {
    pub chares: u64,
    pub names: List<Name>,
    pub vars: List<VarDecl>,
    pub entries: List<EntryDecl>,
    pub body: List<Stmt>,
}

/// What a `when` waits for: one message of an entry with a reference number. The message's
/// arguments go to the parameters, from left to right.
#[derive(Debug, Drop)]
pub struct Wait {
    pub entry: NameId,
    pub reference: Expr,
    pub params: List<NameId>,
}

/// A statement. It counts as one statement, and so does each statement inside it.
#[derive(Debug, Drop)]
pub enum Stmt {
    Serial(List<Act>),
    When(List<Wait>, List<Stmt>),
    /// Each statement of the list is one part.
    Overlap(List<Stmt>),
    /// The variable that is set first, its first value, the test, the variable that is stepped and
    /// its next value, and the body.
    For(NameId, Expr, Expr, NameId, Expr, List<Stmt>),
    While(Expr, List<Stmt>),
    /// The test, the first branch, and the branch after `else` where there is one.
    If(Expr, List<Stmt>, Option<List<Stmt>>),
    /// A block in braces.
    Seq(List<Stmt>),
}

/// An act inside a `serial`.
#[derive(Debug, Drop)]
pub enum Act {
    Set(NameId, Expr),
    /// An array, the index of a cell, counted from 0, and the cell's new value.
    SetAt(NameId, Expr, Expr),
    /// The entry, the reference number, the arguments, the chare that it goes to, and the number of
    /// bytes where one is given.
    Send(NameId, Expr, List<Expr>, Expr, Option<Expr>),
    Work(Expr),
    Emit(Expr),
    If(Expr, List<Act>, Option<List<Act>>),
    Repeat(Expr, List<Act>),
}

/// An expression over whole numbers.
#[derive(Debug, Drop)]
pub enum Expr {
    Number(i64),
    Var(NameId),
    /// A cell of an array, at an index that counts from 0.
    At(NameId, Boxed<Expr>),
    /// The number of the chare that runs, counted from 0.
    This,
    /// The number of chares.
    Chares,
    Neg(Boxed<Expr>),
    Not(Boxed<Expr>),
    Two(Op2, Boxed<Expr>, Boxed<Expr>),
}

/// An operator of two operands, from the loosest level to the tightest.
#[derive(Clone, Copy, Debug, PartialEq, Eq, Drop)]
pub enum Op2 {
    Or,
    And,
    Eq,
    Ne,
    Lt,
    Le,
    Gt,
    Ge,
    Add,
    Sub,
    Mul,
    Div,
    Rem,
}

/// Where something stands in a run: the places from the root on. Paths are ordered as lists of
/// numbers (`docs/model.md`).
#[derive(Debug, Drop)]
pub struct Path(pub List<u32>);
