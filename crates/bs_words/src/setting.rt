// The options with a value.
ghost use Rattle.std.specs.Prelude.{◌≡◌};
ghost use Rattle.bs_words.specs.Plain.{setting_of};

/// An option, which stands with a value.
#[derive(Clone, Copy, Debug, PartialEq, Eq, Drop)]
pub enum Setting {
    Limit,
    Workers,
    Waves,
    Journal,
}

/// The option that a word names.
pub(crate) fn setting_named(word: &str) -> Option<Setting>
    ensures { result ≡ setting_of word.now }
{
    match word {
        "--limit" => Some(Setting::Limit),
        "--workers" => Some(Setting::Workers),
        "--waves" => Some(Setting::Waves),
        "--journal" => Some(Setting::Journal),
        _ => None,
    }
}
