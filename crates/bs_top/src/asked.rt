// What a command asks for, as far as it is built.
ghost use Rattle.std.specs.Prelude.{◌≡◌, IfSome, option_map};
ghost use Rattle.bs_top.specs.Seen.{HasLimit, asked_of};
ghost use Rattle.bs_top.specs.Words.{AreWaves, IsLimit, asked_with, built as built_of};

use bs_words::{
    Argument, Command, Generated, MachineWord, Tuning, Verb, asked_program, asked_tuning,
    machine_word,
};

/// A command that is built, with the name of the file of its program or its log, and what else it has: a
/// machine or the words of several, the name of the log's file, the limit of sizes, the number of waves, the
/// name of the journal's file, a tuning, whether only spans are wanted; or with a program to generate.
#[derive(Clone, Copy, Drop)]
pub(crate) enum Asked<'a> {
    Check(&'a str),
    Model(&'a str, MachineWord<'a>, u64),
    Emulate(&'a str, &'a str, u64),
    Run(&'a str, MachineWord<'a>, u64, Option<u64>),
    Predict(&'a str, MachineWord<'a>, Option<u64>, Option<&'a str>),
    Trace(&'a str, MachineWord<'a>),
    Chain(&'a str, MachineWord<'a>),
    Sweep(&'a str, &'a [Argument], bool),
    Tune(&'a str, MachineWord<'a>, Tuning, bool),
    Gen(Generated),
    Trial(Generated),
}

/// What the command asks for, where it is built. It takes no memory.
pub(crate) fn built(command: &Command) -> Option<Asked<'_>>
    requires limit { IsLimit command.now.limit }
    requires waves { AreWaves command.now.waves }
    ensures value { option_map asked_of result ≡ built_of command.now }
    ensures limit { IfSome result HasLimit }
{
    let options = Options {
        limit: command.limit,
        waves: command.waves,
        journal: journal(command),
        spans: command.spans,
    };
    with_names(options, command.verb, command.names.as_slice())
}

// What the options of a command say.
#[derive(Clone, Copy, Drop)]
struct Options<'a> {
    limit: u64,
    waves: Option<u64>,
    journal: Option<&'a str>,
    spans: bool,
}

// The name of the journal's file.
fn journal(command: &Command) -> Option<&str>
    ensures { option_map (λ name. name.now) result ≡ command.now.journal }
{
    match &command.journal {
        Some(name) => Some(name.text()),
        None => None,
    }
}

fn with_names<'a>(options: Options<'a>, verb: Verb, names: &'a [Argument]) -> Option<Asked<'a>>
    requires limit { IsLimit options.limit }
    requires waves { AreWaves options.waves }
    ensures value { option_map asked_of result ≡ asked_with options.entry.limit options.entry.waves (option_map (λ name. name.now) options.entry.journal) options.entry.spans verb names.now }
    ensures limit { IfSome result HasLimit }
{
    let Options {
        limit,
        waves,
        journal,
        spans,
    } = options;
    match (verb, names) {
        (Verb::Check, [program]) => Some(Asked::Check(program.text())),
        (Verb::Model, [program, machine]) => {
            let machine = machine_word(machine.text())?;
            Some(Asked::Model(program.text(), machine, limit))
        }
        (Verb::Emulate, [program, log]) => {
            Some(Asked::Emulate(program.text(), log.text(), limit))
        }
        (Verb::Run, [program, machine]) => {
            let machine = machine_word(machine.text())?;
            Some(Asked::Run(program.text(), machine, limit, waves))
        }
        (Verb::Predict, [log, machine]) => {
            let machine = machine_word(machine.text())?;
            Some(Asked::Predict(log.text(), machine, waves, journal))
        }
        (Verb::Trace, [log, machine]) => {
            let machine = machine_word(machine.text())?;
            Some(Asked::Trace(log.text(), machine))
        }
        (Verb::Chain, [log, machine]) => {
            let machine = machine_word(machine.text())?;
            Some(Asked::Chain(log.text(), machine))
        }
        (Verb::Sweep, [log, machines @ ..]) => {
            machine_word(machines.first()?.text())?;
            Some(Asked::Sweep(log.text(), machines, spans))
        }
        (Verb::Tune, [log, machine, stmt, num, den]) => {
            let machine = machine_word(machine.text())?;
            let tuning = asked_tuning(stmt.text(), num.text(), den.text())?;
            Some(Asked::Tune(log.text(), machine, tuning, spans))
        }
        (Verb::Gen, [kind, chares, seed]) => {
            let generated = asked_program(kind.text(), chares.text(), seed.text())?;
            Some(Asked::Gen(generated))
        }
        (Verb::Trial, [kind, chares, seed]) => {
            let generated = asked_program(kind.text(), chares.text(), seed.text())?;
            Some(Asked::Trial(generated))
        }
        _ => None,
    }
}
