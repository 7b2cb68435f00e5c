// A word of a command.
ghost use Rattle.std.specs.Prelude.{◌≡◌, string_bytes};

use std::marker::Model;

/// A text that contracts see as its bytes.
#[derive(Debug, Drop)]
pub struct Argument {
    text: String,
}

impl Model for Argument {
    ghost use Rattle.std.specs.Prelude.{List, ℕ, string_bytes};

    ghost Value = { List ℕ };

    ghost view = { λ argument. string_bytes argument.text };
}

impl Argument {
    /// The argument of a text. It takes no memory.
    pub fn new(text: String) -> Argument
        ensures { result ≡ string_bytes text }
    {
        Argument { text }
    }

    /// The text. It takes no memory.
    pub fn text(&self) -> &str
        ensures { result.now ≡ self.now }
    {
        self.text.as_str()
    }
}
