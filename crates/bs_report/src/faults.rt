// Why a command is refused, and the line that says so.
ghost use Rattle.std.specs.Prelude.{◌≡◌, ◌++◌, IfOk, OnOk, string_bytes};
ghost use Rattle.bs_report.specs.Fault.{at_text, check_line, check_text, fault_text, interference_line, key_of_chare, log_line as log_line_of, log_rule_word, log_text, machine_text, parse_text, place_text, program_line as program_line_of, spent_text, twice_text, twice_word as twice_word_of};

use bs_check::{CheckFault, Rule};
use bs_lex::LexFault;
use bs_log::Key;
use bs_logcheck::LogRule;
use bs_logread::LogFault;
use bs_machine::{MachineFault, PlaceLength};
use bs_parse::ParseFault;
use bs_rounds::{At, Twice};
use bs_settle::BudgetSpent;
use std::alloc::{AllocError, Global};
use std::fmt::Write;

/// Why a command is refused.
#[derive(Debug, Drop)]
pub enum Fault {
    /// The words of the command line are no command.
    BadWords,
    /// The text is no program. Want of memory has no line, and never stands here.
    BadProgram(ParseFault),
    /// The program breaks a rule of the language. Want of memory has no line, and never stands here.
    CheckFailed(CheckFault),
    /// The machine's file is no machine. Want of memory has no line, and never stands here.
    BadMachine(MachineFault),
    /// The machine's list of homes has another length than there are chares.
    BadPlace(PlaceLength),
    /// The log's file is the text of no valid log. Want of memory has no line, and never stands here.
    BadLog(LogFault),
    /// A chare is sent one key twice, or asks for one key twice.
    Ambiguous(Twice),
    /// The size of the run is above this limit.
    TooLong(u64),
    /// The last wave of the budget still changed a tick. The message is the least whose tick changed,
    /// with its tick before that wave and after it.
    BudgetSpent(BudgetSpent),
    /// A file has more bytes than this limit.
    TooBig(u64),
}

/// The line of a refusal, with its line feed. The only refusal of this call is want of memory.
pub fn fault_line(alloc: Global, fault: &Fault) -> Result<Vec<u8>, AllocError>
    ensures { IfOk result (λ line. line.items ≡ fault_text fault.now) }
{
    match fault {
        Fault::BadWords => b"bad words\n".to_vec(alloc),
        Fault::BadProgram(fault) => parse_line(alloc, *fault),
        Fault::CheckFailed(fault) => check_failed_line(alloc, *fault),
        Fault::BadMachine(fault) => machine_line(alloc, *fault),
        Fault::BadPlace(length) => place_line(alloc, *length),
        Fault::BadLog(fault) => log_line(alloc, *fault),
        Fault::Ambiguous(twice) => ambiguous_line(alloc, *twice),
        Fault::TooLong(limit) => {
            let line = format!(in alloc; "too long: limit {limit}\n")?;
            Ok(line.into_bytes())
        }
        Fault::BudgetSpent(spent) => spent_line(alloc, *spent),
        Fault::TooBig(limit) => {
            let line = format!(in alloc; "too big: limit {limit} bytes\n")?;
            Ok(line.into_bytes())
        }
    }
}

fn parse_line(alloc: Global, fault: ParseFault) -> Result<Vec<u8>, AllocError>
    ensures { IfOk result (λ line. line.items ≡ parse_text fault) }
{
    match fault {
        ParseFault::Lex(LexFault::NotUtf8(byte)) => program_line(alloc, byte, "not utf-8"),
        ParseFault::Lex(LexFault::BadCharacter(byte)) => program_line(alloc, byte, "bad character"),
        ParseFault::Lex(LexFault::BadNumber(byte)) => program_line(alloc, byte, "bad number"),
        ParseFault::Unexpected(byte, _) => program_line(alloc, byte, "unexpected"),
        ParseFault::TooDeep(byte) => program_line(alloc, byte, "too deep"),
        ParseFault::TooManyStatements(byte) => program_line(alloc, byte, "too many statements"),
        ParseFault::Lex(LexFault::Memory) | ParseFault::Memory => Ok(Vec::new(alloc)),
    }
}

fn program_line(alloc: Global, byte: u64, why: &str) -> Result<Vec<u8>, AllocError>
    ensures { IfOk result (λ line. line.items ≡ program_line_of byte why.now) }
{
    let line = format!(in alloc; "bad program: byte {byte} {why}\n")?;
    Ok(line.into_bytes())
}

fn check_failed_line(alloc: Global, fault: CheckFault) -> Result<Vec<u8>, AllocError>
    ensures { IfOk result (λ line. line.items ≡ check_text fault) }
{
    match fault {
        CheckFault::Refused(stmt, Rule::UnknownName) => rule_line(alloc, stmt, "unknown name"),
        CheckFault::Refused(stmt, Rule::TwiceDeclared) => rule_line(alloc, stmt, "declared twice"),
        CheckFault::Refused(stmt, Rule::Arity) => rule_line(alloc, stmt, "arity"),
        CheckFault::Refused(stmt, Rule::Interference(variable, first, second)) => {
            parts_line(alloc, stmt, variable, first, second)
        }
        CheckFault::Refused(stmt, Rule::IdleLoop) => rule_line(alloc, stmt, "idle loop"),
        CheckFault::Refused(stmt, Rule::Limits) => rule_line(alloc, stmt, "limits"),
        CheckFault::Memory => Ok(Vec::new(alloc)),
    }
}

fn rule_line(alloc: Global, stmt: u32, why: &str) -> Result<Vec<u8>, AllocError>
    ensures { IfOk result (λ line. line.items ≡ check_line stmt why.now) }
{
    let line = format!(in alloc; "check failed: stmt {stmt} {why}\n")?;
    Ok(line.into_bytes())
}

fn parts_line(
    alloc: Global,
    stmt: u32,
    variable: u32,
    first: u32,
    second: u32,
) -> Result<Vec<u8>, AllocError>
    ensures { IfOk result (λ line. line.items ≡ interference_line stmt variable first second) }
{
    let line = format!(in alloc;
        "check failed: stmt {stmt} interference var {variable} parts {first} {second}\n"
    )?;
    Ok(line.into_bytes())
}

fn machine_line(alloc: Global, fault: MachineFault) -> Result<Vec<u8>, AllocError>
    ensures { IfOk result (λ line. line.items ≡ machine_text fault) }
{
    let line = match fault {
        MachineFault::NotToml => format!(in alloc; "bad machine: not toml\n")?,
        MachineFault::UnknownKey => format!(in alloc; "bad machine: unknown key\n")?,
        MachineFault::Missing(key) => {
            format!(in alloc; "bad machine: missing {}.{}\n", key.table(), key.name())?
        }
        MachineFault::OutOfRange(key, _) => {
            format!(in alloc;
                "bad machine: out of range {}.{}\n",
                key.table(),
                key.name()
            )?
        }
        MachineFault::Memory => String::new(alloc),
    };
    Ok(line.into_bytes())
}

fn place_line(alloc: Global, length: PlaceLength) -> Result<Vec<u8>, AllocError>
    ensures { IfOk result (λ line. line.items ≡ place_text length) }
{
    let PlaceLength { given, needed } = length;
    let line = format!(in alloc; "bad machine: place length {given} needs {needed}\n")?;
    Ok(line.into_bytes())
}

fn log_line(alloc: Global, fault: LogFault) -> Result<Vec<u8>, AllocError>
    ensures { IfOk result (λ line. line.items ≡ log_text fault) }
{
    match fault {
        LogFault::Refused(line, why) => log_rule_line(alloc, line, why),
        LogFault::Memory => Ok(Vec::new(alloc)),
    }
}

fn log_rule_line(alloc: Global, line: u64, why: LogRule) -> Result<Vec<u8>, AllocError>
    ensures { IfOk result (λ text. text.items ≡ log_line_of line why) }
{
    let why = rule_word(why);
    let text = format!(in alloc; "bad log: line {line} {why}\n")?;
    Ok(text.into_bytes())
}

fn rule_word(rule: LogRule) -> &'static str
    ensures { result.now ≡ log_rule_word rule }
{
    match rule {
        LogRule::BadLine => "bad line",
        LogRule::BadReference => "bad reference",
        LogRule::BadDepth => "bad depth",
        LogRule::TwiceUsed => "twice used",
        LogRule::Limits => "limits",
    }
}

fn ambiguous_line(alloc: Global, twice: Twice) -> Result<Vec<u8>, AllocError>
    ensures { IfOk result (λ line. line.items ≡ twice_text twice) }
{
    let mut line = String::new(alloc);
    write_key(&mut line, twice.chare, twice.key)?;
    line.push_str(twice_word(twice.asked))?;
    write_at(&mut line, twice.first)?;
    line.push_str(" and ")?;
    write_at(&mut line, twice.second)?;
    line.push_str("\n")?;
    Ok(line.into_bytes())
}

fn write_key(line: &mut String, chare: u32, key: Key) -> Result<(), AllocError>
    ensures { OnOk result (string_bytes line.new ≡ string_bytes line.old ++ key_of_chare chare key) }
{
    write!(
        line,
        "ambiguous: chare {chare} entry {} ref {}",
        key.entry, key.reference
    )
}

fn twice_word(asked: bool) -> &'static str
    ensures { result.now ≡ twice_word_of asked }
{
    if asked { " asked by " } else { " sent by " }
}

fn write_at(line: &mut String, at: At) -> Result<(), AllocError>
    ensures { OnOk result (string_bytes line.new ≡ string_bytes line.old ++ at_text at) }
{
    write!(line, "chare {} stmt {}", at.chare, at.stmt)
}

fn spent_line(alloc: Global, spent: BudgetSpent) -> Result<Vec<u8>, AllocError>
    ensures { IfOk result (λ line. line.items ≡ spent_text spent) }
{
    let BudgetSpent {
        waves,
        mail,
        kept,
        due,
    } = spent;
    let line = format!(in alloc;
        "budget spent: waves {waves} mail {} {} kept {} due {}\n",
        mail.row, mail.index, kept.0, due.0
    )?;
    Ok(line.into_bytes())
}
