// One token of a kind.
ghost use Rattle.std.specs.Prelude.{◌≡◌, IsTrue, Option, is_some};
ghost use Rattle.bs_tree.specs.Rule.{the_word, the_mark, a_name, a_number, an_operator, outside, operand, operator};
ghost use Rattle.bs_tree.specs.Grammar.{as_name, natural as natural_of, literal as literal_of};
ghost use Rattle.bs_tree.specs.Limits.{most_allowed};
ghost use Rattle.bs_parse.specs.Reading.{read_one, starts, chosen};
ghost use Rattle.bs_parse.specs.Seen.{role_of, Reads, Shuts, operators_of};

use crate::cursor::{Cursor, Level, Lexeme, Reason, Role, Stop};
use bs_tree::{Expr, Mark, NameId, Op2, Word};

const UNEXPECTED: Stop = Stop::At(Reason::Unexpected);

impl Cursor<'_> {
    pub fn is_word(&self, word: Word) -> bool
        ensures { result ≡ starts (chosen {A = Unit {0}} (the_word word tt)) self.now.rest }
    {
        match self.peek() {
            Some(Lexeme::Word(next)) => next == word,
            _ => false,
        }
    }

    pub fn is_mark(&self, mark: Mark) -> bool
        ensures { result ≡ starts (chosen {A = Unit {0}} (the_mark mark tt)) self.now.rest }
    {
        match self.peek() {
            Some(Lexeme::Mark(next)) => next == mark,
            _ => false,
        }
    }

    /// Takes this word.
    pub fn word(&mut self, role: Role, word: Word) -> Result<(), Stop>
        ensures { Reads (read_one {A = Unit {0}} most_allowed (role_of role) (the_word word tt) self.old.counts self.old.rest) result self.old self.new }
    {
        if self.is_word(word) {
            self.take(role)
        } else {
            Err(UNEXPECTED)
        }
    }

    /// Takes this mark.
    pub fn mark(&mut self, role: Role, mark: Mark) -> Result<(), Stop>
        ensures { Reads (read_one {A = Unit {0}} most_allowed (role_of role) (the_mark mark tt) self.old.counts self.old.rest) result self.old self.new }
    {
        if self.is_mark(mark) {
            self.take(role)
        } else {
            Err(UNEXPECTED)
        }
    }

    /// Takes the closing bracket behind what was read, unless reading stopped there.
    pub fn close<T: Drop>(
        &mut self,
        role: Role,
        right: Mark,
        inner: Result<T, Stop>,
    ) -> Result<T, Stop>
        ensures { Shuts (role_of role) right inner result self.old self.new }
    {
        let inner = inner?;
        self.mark(role, right)?;
        Ok(inner)
    }

    /// Takes a name.
    pub fn name(&mut self, role: Role) -> Result<NameId, Stop>
        ensures { Reads (read_one most_allowed (role_of role) (a_name as_name) self.old.counts self.old.rest) result self.old self.new }
    {
        match self.peek() {
            Some(Lexeme::Name(name)) => {
                self.take(role)?;
                Ok(name)
            }
            _ => Err(UNEXPECTED),
        }
    }

    /// Takes a number outside of expressions.
    pub fn natural(&mut self) -> Result<u64, Stop>
        ensures { Reads (read_one most_allowed outside (a_number natural_of) self.old.counts self.old.rest) result self.old self.new }
    {
        match self.peek() {
            Some(Lexeme::Number(number)) if number >= 0 => {
                self.take(Role::Outside)?;
                Ok(number as u64)
            }
            _ => Err(UNEXPECTED),
        }
    }

    /// Takes a number of an expression.
    pub fn literal(&mut self) -> Result<Expr, Stop>
        ensures { Reads (read_one most_allowed operand (a_number literal_of) self.old.counts self.old.rest) result self.old self.new }
    {
        match self.peek() {
            Some(Lexeme::Number(number)) if number >= 0 => {
                self.take(Role::Operand)?;
                Ok(Expr::Number(number))
            }
            _ => Err(UNEXPECTED),
        }
    }

    pub fn is_operator(&self, level: Level) -> bool
        ensures { result ≡ starts (chosen (an_operator (operators_of level))) self.now.rest }
    {
        match self.peek() {
            Some(Lexeme::Mark(mark)) => operator_at(level, mark).is_some(),
            _ => false,
        }
    }

    /// Takes an operator of the level.
    pub fn operator(&mut self, level: Level) -> Result<Op2, Stop>
        ensures { Reads (read_one most_allowed operator (an_operator (operators_of level)) self.old.counts self.old.rest) result self.old self.new }
    {
        let Some(Lexeme::Mark(mark)) = self.peek() else {
            return Err(UNEXPECTED);
        };
        match operator_at(level, mark) {
            Some(op) => {
                self.take(Role::Operator)?;
                Ok(op)
            }
            None => Err(UNEXPECTED),
        }
    }

    pub fn is_name(&self) -> bool
        ensures { result ≡ starts (chosen (a_name as_name)) self.now.rest }
    {
        matches!(self.peek(), Some(Lexeme::Name(_)))
    }

    pub fn is_number(&self) -> bool
        ensures { result ≡ starts (chosen (a_number literal_of)) self.now.rest }
    {
        matches!(self.peek(), Some(Lexeme::Number(_)))
    }
}

fn operator_at(level: Level, mark: Mark) -> Option<Op2>
    ensures { result ≡ operators_of level mark }
{
    match (level, mark) {
        (Level::Or, Mark::Or) => Some(Op2::Or),
        (Level::And, Mark::And) => Some(Op2::And),
        (Level::Comparison, Mark::Equal) => Some(Op2::Eq),
        (Level::Comparison, Mark::NotEqual) => Some(Op2::Ne),
        (Level::Comparison, Mark::Less) => Some(Op2::Lt),
        (Level::Comparison, Mark::LessEqual) => Some(Op2::Le),
        (Level::Comparison, Mark::Greater) => Some(Op2::Gt),
        (Level::Comparison, Mark::GreaterEqual) => Some(Op2::Ge),
        (Level::Sum, Mark::Plus) => Some(Op2::Add),
        (Level::Sum, Mark::Minus) => Some(Op2::Sub),
        (Level::Product, Mark::Star) => Some(Op2::Mul),
        (Level::Product, Mark::Slash) => Some(Op2::Div),
        (Level::Product, Mark::Percent) => Some(Op2::Rem),
        _ => None,
    }
}
