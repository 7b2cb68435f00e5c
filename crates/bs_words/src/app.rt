// The one simple command that `clap` reads a plain list as.
ghost use Rattle.std.specs.Prelude.{◌≡◌, IfOk, IfErr, IsTrue, is_some, map, string_bytes, false};
ghost use Rattle.clap.specs.Words.{app_of, rule_of, HasMatchesOf, kind_of};
ghost use Rattle.clap.specs.declared.error.kind.ErrorKind.TheVariants.{OutOfMemory};
ghost use Rattle.bs_words.specs.App.{words_app, option_rule, flag_rule, command_rule, names_rule, bare};
ghost use Rattle.bs_words.specs.Plain.{plain};

use clap::{Arg, ArgAction, ArgMatches, Command as Parser, Error};
use std::alloc::{AllocError, Global};

/// The matches of a plain list. It fails only for want of memory.
pub(crate) fn matches_of_plain<'a>(
    parser: Parser<'a>,
    words: &'a [String],
) -> Result<ArgMatches<'a>, Error>
    requires parser { app_of parser ≡ words_app }
    requires plain { IsTrue (is_some (plain (map string_bytes words.now))) }
    ensures ok { IfOk result (HasMatchesOf words_app (map string_bytes words.now)) }
    ensures err { IfErr result (λ e. kind_of e ≡ OutOfMemory) }
{
    parser.try_get_matches_from(words)
}

/// A first positional `command`, which is needed, four options with one value each, one without a
/// value, and a last positional `names` of any number of words.
pub(crate) fn words_parser<'a>(alloc: Global) -> Result<Parser<'a>, AllocError>
    ensures { IfOk result (λ parser. app_of parser ≡ words_app) }
{
    bare_parser(alloc)
        .arg(option_arg(alloc, "limit"))?
        .arg(option_arg(alloc, "workers"))?
        .arg(option_arg(alloc, "waves"))?
        .arg(option_arg(alloc, "journal"))?
        .arg(flag_arg(alloc, "spans"))?
        .arg(command_arg(alloc))?
        .arg(names_arg(alloc))
}

fn bare_parser<'a>(alloc: Global) -> Parser<'a>
    ensures { app_of result ≡ bare }
{
    Parser::new(alloc, "pochvean")
        .no_binary_name(true)
        .disable_help_flag(true)
        .disable_version_flag(true)
}

fn option_arg<'a>(alloc: Global, name: &'a str) -> Arg<'a>
    ensures rule { rule_of result ≡ option_rule name.now }
    ensures local { result.global ≡ false }
{
    Arg::new(alloc, name).long(name)
}

fn flag_arg<'a>(alloc: Global, name: &'a str) -> Arg<'a>
    ensures rule { rule_of result ≡ flag_rule name.now }
    ensures local { result.global ≡ false }
{
    Arg::new(alloc, name).long(name).action(ArgAction::SetTrue)
}

fn command_arg<'a>(alloc: Global) -> Arg<'a>
    ensures rule { rule_of result ≡ command_rule }
    ensures local { result.global ≡ false }
{
    Arg::new(alloc, "command").required(true)
}

fn names_arg<'a>(alloc: Global) -> Arg<'a>
    ensures rule { rule_of result ≡ names_rule }
    ensures local { result.global ≡ false }
{
    Arg::new(alloc, "names")
        .action(ArgAction::Append)
        .num_args(1..)
}
