// The kinds of programs, and their words.
ghost use Rattle.std.specs.Prelude.{◌≡◌};
ghost use Rattle.bs_gen.specs.Words.{workload_of, workload_word};

/// What a generated program does. In a ring the chare with the next number comes after each, and chare 0 after the
/// last one.
#[derive(Clone, Copy, Debug, PartialEq, Eq, Drop)]
pub enum Workload {
    /// A token goes round all chares, 20 times.
    Ring,
    /// Chares in a ring exchange numbers with both neighbours, 20 times.
    Stencil,
    /// Sums go up a binary tree, from its leaves to chare 0.
    Tree,
}

impl Workload {
    /// The kind that a word names: `ring`, `stencil` or `tree`.
    pub fn named(word: &str) -> Option<Workload>
        ensures { result ≡ workload_of word.now }
    {
        match word {
            "ring" => Some(Workload::Ring),
            "stencil" => Some(Workload::Stencil),
            "tree" => Some(Workload::Tree),
            _ => None,
        }
    }

    /// The word that names the kind.
    pub fn word(self) -> &'static str
        ensures { result.now ≡ workload_word self }
    {
        match self {
            Workload::Ring => "ring",
            Workload::Stencil => "stencil",
            Workload::Tree => "tree",
        }
    }
}
