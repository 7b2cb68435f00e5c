// The options without a value.
ghost use Rattle.std.specs.Prelude.{◌≡◌};
ghost use Rattle.bs_words.specs.Plain.{flag_of};

/// An option that stands without a value.
#[derive(Clone, Copy, Debug, PartialEq, Eq, Drop)]
pub enum Flag {
    Spans,
}

/// The option without a value that a word names.
pub(crate) fn flag_named(word: &str) -> Option<Flag>
    ensures { result ≡ flag_of word.now }
{
    match word {
        "--spans" => Some(Flag::Spans),
        _ => None,
    }
}
