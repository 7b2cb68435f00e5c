// The tokens that are left, and what those before them come to.
ghost use Rattle.std.specs.Prelude.{◌≡◌, [], ◌∷◌, MatchOption, drop, length, map};
ghost use Rattle.bs_tree.specs.Rule.{the_word, the_mark};
ghost use Rattle.bs_tree.specs.Limits.{most_allowed, none_yet};
ghost use Rattle.bs_parse.specs.Reading.{read_one, starts, chosen, take_any};
ghost use Rattle.bs_parse.specs.Seen.{terminal, role_of, Reads, Input};

use bs_tree::{Mark, NameId, Op2, Word};
use std::marker::Model;

/// A token of a program, with the number of a name in place of its bytes. The end of the text is
/// none of them.
#[derive(Clone, Copy, Debug, PartialEq, Eq, Drop)]
pub enum Lexeme {
    Name(NameId),
    Number(i64),
    Word(Word),
    Mark(Mark),
}

/// What a token is to the limits: the first token of a statement, another one outside of
/// expressions, or a token of an expression, which is an operator of two operands or isn't.
#[derive(Clone, Copy, Debug, PartialEq, Eq, Drop)]
pub enum Role {
    Opening,
    Outside,
    Operand,
    Operator,
}

/// What is wrong with the next token.
#[derive(Clone, Copy, Debug, PartialEq, Eq, Drop)]
pub enum Reason {
    Unexpected,
    TooDeep,
    TooMany,
}

/// Why reading stops.
#[derive(Clone, Copy, Debug, PartialEq, Eq, Drop)]
pub enum Stop {
    Memory,
    At(Reason),
}

/// A level of operators of two operands, from the loosest to the tightest.
#[derive(Clone, Copy, Debug, PartialEq, Eq, Drop)]
pub enum Level {
    Or,
    And,
    Comparison,
    Sum,
    Product,
}

const MOST_BRACKETS: usize = 64;

const MOST_OPERATORS: usize = 64;

const MOST_STATEMENTS: usize = 10_000;

/// A place among the tokens of a program, with the brackets that are open there, the operators
/// since the beginning of the outermost expression, and the statements begun.
#[derive(Drop)]
pub struct Cursor<'a> {
    all: &'a [Lexeme],
    at: usize,
    brackets: usize,
    operators: usize,
    statements: usize,
}

impl<'a> Model for Cursor<'a> {
    ghost use Rattle.std.specs.Prelude.{◌≤◌, length, map, drop};
    ghost use Rattle.bs_parse.specs.Seen.{terminal, Input};

    ghost Value = { Input };

    ghost view = { λ c. record {
      counts = record { brackets = c.brackets; operators = c.operators; statements = c.statements };
      rest = map terminal (drop c.at c.all.now);
    } };

    ghost invariant = { λ c. (c.at ≤ length c.all.now) × (c.brackets ≤ c.at) × (c.operators ≤ c.at) × (c.statements ≤ c.at) };
}

impl<'a> Cursor<'a> {
    pub fn new(all: &'a [Lexeme]) -> Cursor<'a>
        ensures { result ≡ record { counts = none_yet; rest = map terminal all.now } }
    {
        Cursor {
            all,
            at: 0,
            brackets: 0,
            operators: 0,
            statements: 0,
        }
    }

    /// How many tokens are left.
    pub fn left(&self) -> usize
        ensures { result ≡ length self.now.rest }
    {
        self.all.len() - self.at
    }

    /// The next token, which stays.
    pub fn peek(&self) -> Option<Lexeme>
        ensures { MatchOption result (self.now.rest ≡ []) (λ next. self.now.rest ≡ terminal next ∷ drop 1 self.now.rest) }
    {
        self.all.get(self.at).copied()
    }

    /// Takes the next token in a role, unless it passes a limit.
    pub fn take(&mut self, role: Role) -> Result<(), Stop>
        ensures { Reads (take_any most_allowed (role_of role) self.old.counts self.old.rest) result self.old self.new }
    {
        let Some(next) = self.peek() else {
            return Err(Stop::At(Reason::Unexpected));
        };
        match self.refusal(next, role) {
            Some(reason) => return Err(Stop::At(reason)),
            None => {}
        }
        self.brackets = brackets_after(self.brackets, next);
        self.operators = operators_after(self.operators, role);
        self.statements = statements_after(self.statements, role);
        self.at += 1;
        Ok(())
    }
}

impl Cursor<'_> {
    // The limit that this token passes next in this role: too deep comes before too many.
    fn refusal(&self, next: Lexeme, role: Role) -> Option<Reason>
        ensures { option_map reason_of result ≡ refused most_allowed self.now.counts (role_of role, terminal next) }
    {
        if opens(next) && self.brackets >= MOST_BRACKETS {
            return Some(Reason::TooDeep);
        }
        match role {
            Role::Operator if self.operators >= MOST_OPERATORS => Some(Reason::TooDeep),
            Role::Opening if self.statements >= MOST_STATEMENTS => Some(Reason::TooMany),
            _ => None,
        }
    }
}

fn brackets_after(brackets: usize, next: Lexeme) -> usize
    requires { brackets + 1 < 2 ^ 64 }
    ensures value { result ≡ (if is_open (terminal next) then suc brackets else if is_close (terminal next) then pred brackets else brackets) }
    ensures bound { result ≤ brackets + 1 }
{
    if opens(next) {
        brackets + 1
    } else if closes(next) {
        brackets.saturating_sub(1)
    } else {
        brackets
    }
}

fn operators_after(operators: usize, role: Role) -> usize
    requires { operators + 1 < 2 ^ 64 }
    ensures value { result ≡ operators_then operators (role_of role) }
    ensures bound { result ≤ operators + 1 }
{
    match role {
        Role::Opening | Role::Outside => 0,
        Role::Operand => operators,
        Role::Operator => operators + 1,
    }
}

fn statements_after(statements: usize, role: Role) -> usize
    requires { statements + 1 < 2 ^ 64 }
    ensures value { result ≡ statements_then statements (role_of role) }
    ensures bound { result ≤ statements + 1 }
{
    match role {
        Role::Opening => statements + 1,
        Role::Outside | Role::Operand | Role::Operator => statements,
    }
}

ghost use Rattle.std.specs.Prelude.{◌+◌, ◌<◌, ◌≤◌, ◌^◌, suc, pred, if◌then◌else◌, option_map};
ghost use Rattle.bs_tree.specs.Limits.{refused, operators_after as operators_then, statements_after as statements_then};
ghost use Rattle.bs_parse.specs.Seen.{reason_of};
ghost use Rattle.bs_tree.specs.Limits.{opens as is_open, closes as is_close};

fn opens(token: Lexeme) -> bool
    ensures { result ≡ is_open (terminal token) }
{
    matches!(
        token,
        Lexeme::Mark(Mark::BraceLeft | Mark::ParenLeft | Mark::BracketLeft)
    )
}

fn closes(token: Lexeme) -> bool
    ensures { result ≡ is_close (terminal token) }
{
    matches!(
        token,
        Lexeme::Mark(Mark::BraceRight | Mark::ParenRight | Mark::BracketRight)
    )
}
