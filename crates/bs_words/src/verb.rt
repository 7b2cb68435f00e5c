// The commands, with the names and the options of each.
ghost use Rattle.std.specs.Prelude.{◌≡◌};
ghost use Rattle.bs_words.specs.Verbs.{verb_of, roles_of, more_of, has, has_flag};

use crate::flag::Flag;
use crate::roles::Role;
use crate::setting::Setting;

/// A command.
#[derive(Clone, Copy, Debug, PartialEq, Eq, Drop)]
pub enum Verb {
    Check,
    Model,
    Emulate,
    Predict,
    Run,
    Trace,
    Chain,
    Gen,
    Trial,
    Sweep,
    Tune,
}

pub(crate) fn verb_named(word: &str) -> Option<Verb>
    ensures { result ≡ verb_of word.now }
{
    match word {
        "check" => Some(Verb::Check),
        "model" => Some(Verb::Model),
        "emulate" => Some(Verb::Emulate),
        "predict" => Some(Verb::Predict),
        "run" => Some(Verb::Run),
        "trace" => Some(Verb::Trace),
        "chain" => Some(Verb::Chain),
        "gen" => Some(Verb::Gen),
        "trial" => Some(Verb::Trial),
        "sweep" => Some(Verb::Sweep),
        "tune" => Some(Verb::Tune),
        _ => None,
    }
}

impl Verb {
    // What each name of the command stands for.
    pub(crate) fn roles(self) -> &'static [Role]
        ensures { result.now ≡ roles_of self }
    {
        match self {
            Verb::Check => &[Role::File],
            Verb::Emulate => &[Role::File, Role::File],
            Verb::Model | Verb::Predict | Verb::Run | Verb::Trace | Verb::Chain | Verb::Sweep => &[
                Role::File,
                Role::Machine,
            ],
            Verb::Gen | Verb::Trial => &[Role::Workload, Role::Size, Role::Seed],
            Verb::Tune => &[
                Role::File,
                Role::Machine,
                Role::Statement,
                Role::Term,
                Role::Term,
            ],
        }
    }

    // How many machines may stand behind those names.
    pub(crate) fn more(self) -> usize
        ensures { result ≡ more_of self }
    {
        match self {
            Verb::Sweep => 31,
            _ => 0,
        }
    }

    // Whether the command has the option.
    pub(crate) fn has(self, setting: Setting) -> bool
        ensures { result ≡ has self setting }
    {
        match setting {
            Setting::Limit => matches!(self, Verb::Model | Verb::Emulate | Verb::Run),
            Setting::Workers => matches!(
                self,
                Verb::Emulate | Verb::Predict | Verb::Run | Verb::Chain | Verb::Trial
            ),
            Setting::Waves => matches!(self, Verb::Predict | Verb::Run),
            Setting::Journal => matches!(self, Verb::Predict),
        }
    }

    // Whether the command has the option without a value.
    pub(crate) fn has_flag(self, flag: Flag) -> bool
        ensures { result ≡ has_flag self flag }
    {
        match flag {
            Flag::Spans => matches!(self, Verb::Sweep | Verb::Tune),
        }
    }
}
