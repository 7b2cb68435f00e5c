// What a command reads: files, machines, programs and logs.
ghost use Rattle.std.specs.Prelude.{◌≡◌, ◌≤◌, ◌+◌, ◌++◌, ◌∷◌, [], IfOk, IfSome, length, map};
ghost use Rattle.bs_check.specs.Refusal.{IsWhole};
ghost use Rattle.bs_desk.specs.Outside.{IsReading};
ghost use Rattle.bs_log.specs.Valid.{IsValid};
ghost use Rattle.bs_machine.specs.File.{machine_in};
ghost use Rattle.bs_machine.specs.Machine.{flat_in, machine_view};
ghost use Rattle.bs_parse.specs.Text.{HasText};
ghost use Rattle.bs_words.specs.Machine.{word_of};
ghost use Rattle.bs_top.specs.Causes.{HasRead, StepCause};
ghost use Rattle.bs_top.specs.Computing.{Computes};
ghost use Rattle.bs_top.specs.Inputs.{accepted as accepted_of, checked, contents, file_limit, fits, fitting_machine as fitting_machine_of, log_in, log_limit, log_named as log_named_of, machine_named, machines_behind as machines_behind_of, or_bad_machine, program_in};
ghost use Rattle.bs_top.specs.Seen.{AreFittedTo};
ghost use Rattle.bs_top.specs.Step.{Told, gives};
ghost use Rattle.bs_top.specs.commands.Sweep.{views};

use crate::stopped::Stopped;
use bs_check::{Accepted, check};
use bs_desk::{Desk, ReadAllFault, read_all};
use bs_log::Log;
use bs_logread::read_log;
use bs_machine::{Fitted, Machine, flat, read_machine};
use bs_parse::laws::spelled_programs;
use bs_parse::parse;
use bs_report::Fault;
use bs_tree::Program;
use bs_words::MachineWord;
use std::alloc::{AllocError, Global};

/// How many bytes the file of a program or a machine may have.
pub(crate) const FILE_LIMIT: u64 = 1_048_576;

/// How many bytes the file of a log may have.
pub(crate) const LOG_LIMIT: u64 = 67_108_864;

/// Reads the file of that name, which has at most so many bytes.
pub(crate) fn file<D: Desk>(
    alloc: Global,
    desk: &mut D,
    name: &str,
    most: u64,
) -> Result<Vec<u8>, Stopped>
    ensures reading { IsReading (D.world desk.old) (D.world desk.new) }
    ensures later { (D.world desk.old).read_faults ≤ (D.world desk.new).read_faults }
    ensures cause { StepCause most (D.world desk.old) (D.world desk.new) result }
    ensures told { IfSome (D.world desk.old).files (λ files. Told (λ bytes. bytes.items) (contents most files name.now) result) }
{
    match read_all(alloc, desk, name, most) {
        Ok(bytes) => Ok(bytes),
        Err(ReadAllFault::Failed) => Err(Stopped::ReadFault),
        Err(ReadAllFault::Missing) => Err(Stopped::NoFile),
        Err(ReadAllFault::TooBig(limit)) => Err(Stopped::Refused(Fault::TooBig(limit))),
        Err(ReadAllFault::Memory) => Err(Stopped::Memory),
    }
}

/// Makes the machine of a word, for a command whose files have at most so many bytes.
pub(crate) fn machine<D: Desk>(
    alloc: Global,
    desk: &mut D,
    word: MachineWord<'_>,
    _most: u64,
) -> Result<Machine, Stopped>
    requires { file_limit ≤ _most }
    ensures reading { IsReading (D.world desk.old) (D.world desk.new) }
    ensures later { (D.world desk.old).read_faults ≤ (D.world desk.new).read_faults }
    ensures cause { HasRead _most (D.world desk.old) → StepCause _most (D.world desk.old) (D.world desk.new) result }
    ensures told { IfSome (D.world desk.old).files (λ files. Told machine_view (machine_named files (word_of word.entry)) result) }
{
    match word {
        MachineWord::Flat(processors, latency) => flat_machine(alloc, processors, latency),
        MachineWord::File(name) => {
            let bytes = file(alloc, desk, name, FILE_LIMIT)?;
            machine_of_file(alloc, bytes.as_slice())
        }
    }
}

/// The machine of so many processors, from 1 to 65,536, that has this latency, from 1 to 2^38.
pub(crate) fn flat_machine(alloc: Global, processors: u32, latency: u64) -> Result<Machine, Stopped>
    ensures kind { Computes result }
    ensures told { Told machine_view (gives (or_bad_machine (flat_in processors latency))) result }
{
    Ok(flat(alloc, processors, latency)?)
}

fn machine_of_file(alloc: Global, bytes: &[u8]) -> Result<Machine, Stopped>
    ensures kind { Computes result }
    ensures told { Told machine_view (gives (or_bad_machine (machine_in bytes.now))) result }
{
    Ok(read_machine(alloc, bytes)?)
}

/// Reads the program in the file of that name, which keeps all rules of the language.
pub(crate) fn accepted<D: Desk>(
    alloc: Global,
    desk: &mut D,
    name: &str,
) -> Result<Accepted, Stopped>
    ensures reading { IsReading (D.world desk.old) (D.world desk.new) }
    ensures later { (D.world desk.old).read_faults ≤ (D.world desk.new).read_faults }
    ensures cause { StepCause file_limit (D.world desk.old) (D.world desk.new) result }
    ensures spelled { IfOk result (λ accepted. HasText accepted.program) }
    ensures chares { IfOk result (λ accepted. (1 ≤ accepted.program.chares) × (accepted.program.chares ≤ 65536)) }
    ensures told { IfSome (D.world desk.old).files (λ files. Told (λ accepted. accepted.program) (accepted_of files name.now) result) }
{
    let text = file(alloc, desk, name, FILE_LIMIT)?;
    let program = program_of_text(alloc, text.as_slice())?;
    accept(alloc, program)
}

/// The program that a text spells.
pub(crate) fn program_of_text(alloc: Global, text: &[u8]) -> Result<Program, Stopped>
    ensures kind { Computes result }
    ensures spelled { IfOk result HasText }
    ensures whole { IfOk result IsWhole }
    ensures told { Told (λ program. program) (program_in text.now) result }
{
    spelled_programs();
    Ok(parse(alloc, text)?)
}

/// The program, where it keeps all rules of the language.
pub(crate) fn accept(alloc: Global, program: Program) -> Result<Accepted, Stopped>
    requires { IsWhole program }
    ensures kind { Computes result }
    ensures program { IfOk result (λ accepted. accepted.program ≡ program) }
    ensures chares { IfOk result (λ accepted. (1 ≤ accepted.program.chares) × (accepted.program.chares ≤ 65536)) }
    ensures told { Told (λ _. tt) (checked program) result }
{
    Ok(check(alloc, program)?)
}

/// Reads the log in the file of that name.
pub(crate) fn log_named<D: Desk>(alloc: Global, desk: &mut D, name: &str) -> Result<Log, Stopped>
    ensures reading { IsReading (D.world desk.old) (D.world desk.new) }
    ensures later { (D.world desk.old).read_faults ≤ (D.world desk.new).read_faults }
    ensures cause { StepCause log_limit (D.world desk.old) (D.world desk.new) result }
    ensures valid { IfOk result IsValid }
    ensures told { IfSome (D.world desk.old).files (λ files. Told (λ log. log) (log_named_of files name.now) result) }
{
    let text = file(alloc, desk, name, LOG_LIMIT)?;
    log_of_text(alloc, text.as_slice())
}

// The log whose text this is.
fn log_of_text(alloc: Global, text: &[u8]) -> Result<Log, Stopped>
    ensures kind { Computes result }
    ensures valid { IfOk result IsValid }
    ensures told { Told (λ log. log) (log_in text.now) result }
{
    Ok(read_log(alloc, text)?)
}

pub(crate) fn fit(machine: Machine, chares: u32) -> Result<Fitted, Stopped>
    requires { (1 ≤ chares) × (chares ≤ 65536) }
    ensures kind { Computes result }
    ensures fitted { IfOk result (λ fitted. (fitted.machine ≡ machine) × (fitted.chares ≡ chares)) }
    ensures told { Told (λ _. tt) (fits chares (machine_view machine)) result }
{
    Ok(machine.fit(chares)?)
}

/// The machines of some words, for a command that has read a log of so many chares: each is read and fitted
/// before the next one, and comes behind those that are there already.
pub(crate) fn machines_behind<D: Desk>(
    alloc: Global,
    machines: Vec<Fitted>,
    desk: &mut D,
    words: &[MachineWord<'_>],
    chares: u32,
) -> Result<Vec<Fitted>, Stopped>
    requires chares { (1 ≤ chares) × (chares ≤ 65536) }
    requires fitted { AreFittedTo chares machines.items }
    ensures reading { IsReading (D.world desk.old) (D.world desk.new) }
    ensures later { (D.world desk.old).read_faults ≤ (D.world desk.new).read_faults }
    ensures cause { HasRead log_limit (D.world desk.old) → StepCause log_limit (D.world desk.old) (D.world desk.new) result }
    ensures fitted { IfOk result (λ fitted. AreFittedTo chares fitted.items) }
    ensures each { IfOk result (λ fitted. length fitted.items ≡ length machines.items + length words.now) }
    ensures told { IfSome (D.world desk.old).files (λ files. Told (λ fitted. views fitted.items) (machines_behind_of (views machines.items) files chares (map word_of words.now)) result) }
{
    match words {
        [word, words @ ..] => {
            let machine = fitting_machine(alloc, desk, *word, chares)?;
            let machines = with_machine(machines, machine)?;
            machines_behind(alloc, machines, desk, words, chares)
        }
        [] => Ok(machines),
    }
}

// The machines with one more.
fn with_machine(mut machines: Vec<Fitted>, machine: Fitted) -> Result<Vec<Fitted>, AllocError>
    ensures { IfOk result (λ all. all.items ≡ machines.items ++ machine ∷ []) }
{
    machines.push(machine)?;
    Ok(machines)
}

// The machine of a word, fitted to so many chares, for a command that has read a log.
fn fitting_machine<D: Desk>(
    alloc: Global,
    desk: &mut D,
    word: MachineWord<'_>,
    chares: u32,
) -> Result<Fitted, Stopped>
    requires { (1 ≤ chares) × (chares ≤ 65536) }
    ensures reading { IsReading (D.world desk.old) (D.world desk.new) }
    ensures later { (D.world desk.old).read_faults ≤ (D.world desk.new).read_faults }
    ensures cause { HasRead log_limit (D.world desk.old) → StepCause log_limit (D.world desk.old) (D.world desk.new) result }
    ensures fitted { IfOk result (λ fitted. fitted.chares ≡ chares) }
    ensures told { IfSome (D.world desk.old).files (λ files. Told (λ fitted. machine_view fitted.machine) (fitting_machine_of files chares (word_of word.entry)) result) }
{
    let machine = machine(alloc, desk, word, LOG_LIMIT)?;
    fit(machine, chares)
}
