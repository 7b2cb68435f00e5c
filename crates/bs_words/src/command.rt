// The command that words are.
ghost use Rattle.std.specs.Prelude.{◌≡◌, ◌≢◌, ◌&&◌, ◌≤◌, IfOk, IfErr, IfSome, Some, None, map, string_bytes, option_map, option_and_then};
ghost use Rattle.bs_words.specs.Command.{may_stand, flag_may_stand, are_together, names_fit, settings_fit, number_or, number_if, numbers_of, command_of};
ghost use Rattle.bs_words.specs.Parts.{command_in};
ghost use Rattle.bs_words.specs.Texts.{texts_of, plain_texts};
ghost use Rattle.bs_words.specs.declared.fault.WordsFault.TheVariants.{Memory};

use crate::argument::Argument;
use crate::fault::WordsFault;
use crate::flag::Flag;
use crate::reading::{Reading, read_plain};
use crate::roles::{in_roles, number};
use crate::setting::Setting;
use crate::tuning::asked_tuning;
use crate::verb::{Verb, verb_named};
use bs_tree::List;
use std::alloc::{AllocError, Global};

/// A command with its names and options.
#[derive(Debug, Drop)]
pub struct Command {
    pub verb: Verb,
    /// The names in their order, as many as the command has.
    pub names: List<Argument>,
    /// The greatest size, from 1 to 262,144, which is also what stands for it where it isn't given.
    pub limit: u64,
    /// From 1 to 64; 1 where it isn't given.
    pub workers: u32,
    /// From 1 to 2^40; nothing where it isn't given.
    pub waves: Option<u64>,
    /// The file of the journal; nothing where it isn't given. It stands only with one worker.
    pub journal: Option<Argument>,
    /// Whether the spans alone are asked for.
    pub spans: bool,
}

/// Reads the words of a command line, without the program's own name.
///
/// `BadWords` comes exactly where the words are no command.
pub fn read_words(alloc: Global, words: &[String]) -> Result<Command, WordsFault>
    ensures ok { IfOk result (λ command. command_in (map string_bytes words.now) ≡ Some command) }
    ensures err { IfErr result (λ fault. fault ≢ Memory → command_in (map string_bytes words.now) ≡ None) }
{
    read_word_by_word(alloc, words)
}

fn read_word_by_word(alloc: Global, words: &[String]) -> Result<Command, WordsFault>
    ensures ok { IfOk result (λ command. option_and_then command_of (plain_texts (map string_bytes words.now)) ≡ Some command) }
    ensures err { IfErr result (λ fault. fault ≢ Memory → option_and_then command_of (plain_texts (map string_bytes words.now)) ≡ None) }
{
    match read_plain(alloc, words)? {
        Some(reading) => command_from(alloc, &reading),
        None => Err(WordsFault::BadWords),
    }
}

fn command_from(alloc: Global, reading: &Reading<'_>) -> Result<Command, WordsFault>
    ensures ok { IfOk result (λ command. command_of (texts_of reading.now) ≡ Some command) }
    ensures err { IfErr result (λ fault. fault ≢ Memory → command_of (texts_of reading.now) ≡ None) }
{
    let verb = match verb_named(reading.command) {
        Some(verb) => verb,
        None => return Err(WordsFault::BadWords),
    };
    if !suits(verb, reading) {
        return Err(WordsFault::BadWords);
    }
    let numbers = match numbers_from(reading) {
        Some(numbers) => numbers,
        None => return Err(WordsFault::BadWords),
    };
    Ok(Command {
        verb,
        names: arguments(alloc, &reading.names)?,
        limit: numbers.limit,
        workers: numbers.workers,
        waves: numbers.waves,
        journal: argument(alloc, reading.journal)?,
        spans: reading.spans,
    })
}

// The command has such names and such options.
fn suits(verb: Verb, reading: &Reading<'_>) -> bool
    ensures { result ≡ (names_fit verb (texts_of reading.now).names && settings_fit verb (texts_of reading.now)) }
{
    has_names(verb, &reading.names) && has_settings(verb, reading)
}

fn has_names(verb: Verb, names: &[&str]) -> bool
    ensures { result ≡ names_fit verb (map (λ name. name.now) names.now) }
{
    in_roles(verb.roles(), verb.more(), names) && stand_together(verb, names)
}

// What no name says by itself: the fraction of `tune` is at most 1.
fn stand_together(verb: Verb, names: &[&str]) -> bool
    ensures { result ≡ are_together verb (map (λ name. name.now) names.now) }
{
    match verb {
        Verb::Tune => match names {
            [_, _, stmt, num, den] => asked_tuning(stmt, num, den).is_some(),
            _ => true,
        },
        _ => true,
    }
}

fn has_settings(verb: Verb, reading: &Reading<'_>) -> bool
    ensures { result ≡ settings_fit verb (texts_of reading.now) }
{
    allows(verb, Setting::Limit, reading.limit)
        && allows(verb, Setting::Workers, reading.workers)
        && allows(verb, Setting::Waves, reading.waves)
        && allows(verb, Setting::Journal, reading.journal)
        && allows_flag(verb, Flag::Spans, reading.spans)
}

fn allows(verb: Verb, setting: Setting, value: Option<&str>) -> bool
    ensures { result ≡ may_stand verb setting (option_map (λ n. n.now) value.entry) }
{
    verb.has(setting) || value.is_none()
}

fn allows_flag(verb: Verb, flag: Flag, stands: bool) -> bool
    ensures { result ≡ flag_may_stand verb flag stands }
{
    verb.has_flag(flag) || !stands
}

// The numbers that the options give.
#[derive(Clone, Copy, Drop)]
pub(crate) struct Numbers {
    pub(crate) limit: u64,
    pub(crate) workers: u32,
    pub(crate) waves: Option<u64>,
}

fn numbers_from(reading: &Reading<'_>) -> Option<Numbers>
    ensures { result ≡ numbers_of (texts_of reading.now) }
{
    let limit = number_or_default(reading.limit, 262_144, 1, 262_144)?;
    let workers = number_or_default(reading.workers, 1, 1, 64)?;
    let waves = number_if_given(reading.waves, 1, 1_099_511_627_776)?;
    if reading.journal.is_some() && workers != 1 {
        return None;
    }
    Some(Numbers {
        limit,
        workers: workers as u32,
        waves,
    })
}

fn number_or_default(value: Option<&str>, default: u64, low: u64, high: u64) -> Option<u64>
    requires { default ≤ high }
    ensures value { result ≡ number_or default low high (option_map (λ n. n.now) value.entry) }
    ensures range { IfSome result (λ n. n ≤ high) }
{
    match value {
        Some(text) => number(text.as_bytes(), low, high),
        None => Some(default),
    }
}

fn number_if_given(value: Option<&str>, low: u64, high: u64) -> Option<Option<u64>>
    ensures { result ≡ number_if low high (option_map (λ n. n.now) value.entry) }
{
    match value {
        Some(text) => Some(Some(number(text.as_bytes(), low, high)?)),
        None => Some(None),
    }
}

fn arguments(alloc: Global, names: &[&str]) -> Result<List<Argument>, AllocError>
    ensures { IfOk result (λ arguments. arguments ≡ map (λ n. n.now) names.now) }
{
    let mut arguments = List::new(alloc);
    for name in names {
        arguments.push(Argument::new(String::from_str(alloc, name)?))?;
    }
    Ok(arguments)
}

fn argument(alloc: Global, name: Option<&str>) -> Result<Option<Argument>, AllocError>
    ensures { IfOk result (λ argument. argument ≡ option_map (λ n. n.now) name.entry) }
{
    match name {
        Some(name) => Ok(Some(Argument::new(String::from_str(alloc, name)?))),
        None => Ok(None),
    }
}
