// The line of a trial.
ghost use Rattle.std.specs.Prelude.{◌≡◌, ◌++◌, IfOk, OnOk, string_bytes};
ghost use Rattle.bs_report.specs.Report.{end_word};
ghost use Rattle.bs_report.specs.Trial.{program_words, run_words, trial_text};

use crate::ending::end;
use crate::text::span;
use bs_gen::Workload;
use bs_log::{End, Outcome};
use std::alloc::{AllocError, Global};
use std::fmt::Write;

/// The line of a trial: the kind of the generated program, its number of chares and its seed, and of its
/// outcome how the run ended, how many blocks there are, and the greatest end of a block, in ticks. The only
/// refusal is want of memory.
pub fn trial_line(
    alloc: Global,
    kind: Workload,
    chares: u32,
    seed: u32,
    outcome: &Outcome,
) -> Result<Vec<u8>, AllocError>
    ensures { IfOk result (λ text. text.items ≡ trial_text kind chares seed outcome.now) }
{
    let rows = outcome.rows.as_slice();
    let mut text = String::new(alloc);
    write_program(&mut text, kind.word(), chares, seed)?;
    write_run(&mut text, word_of(end(outcome)), rows.len(), span(rows))?;
    Ok(text.into_bytes())
}

fn write_program(text: &mut String, kind: &str, chares: u32, seed: u32) -> Result<(), AllocError>
    ensures { OnOk result (string_bytes text.new ≡ string_bytes text.old ++ program_words kind.now chares seed) }
{
    write!(text, "trial {kind} {chares} {seed}")
}

fn write_run(text: &mut String, status: &str, blocks: usize, span: u128) -> Result<(), AllocError>
    ensures { OnOk result (string_bytes text.new ≡ string_bytes text.old ++ run_words status.now blocks span) }
{
    writeln!(text, " status {status} blocks {blocks} span {span}")
}

fn word_of(end: End) -> &'static str
    ensures { result.now ≡ end_word end }
{
    match end {
        End::Settled => "settled",
        End::Deadlock => "deadlock",
        End::Trapped => "trapped",
    }
}
