// The journal of waves.
ghost use Rattle.std.specs.Prelude.{◌≡◌, ◌++◌, IfOk, OnOk, string_bytes};
ghost use Rattle.std.specs.List.{flat_map};
ghost use Rattle.bs_report.specs.Journal.{correction_line, end_line, end_word, journal_text, wave_line, wave_lines};

use bs_settle::Correction;
use bs_tree::List;
use std::alloc::{AllocError, Global};
use std::fmt::Write;

/// The journal of waves: each with its corrections, in their order, and at last how many waves there
/// were, as `settled` where the last of them changed no tick, otherwise as `spent`.
///
/// Waves are numbered from 1. Rows are numbered from 1, and so are the sends of a row. The only refusal
/// is want of memory.
pub fn journal(
    alloc: Global,
    waves: &[List<Correction>],
    settled: bool,
) -> Result<Vec<u8>, AllocError>
    ensures { IfOk result (λ text. text.items ≡ journal_text waves.now settled) }
{
    let mut text = String::new(alloc);
    write_waves(&mut text, waves)?;
    write_end(&mut text, settled, waves.len())?;
    Ok(text.into_bytes())
}

fn write_waves(text: &mut String, waves: &[List<Correction>]) -> Result<(), AllocError>
    ensures { OnOk result (string_bytes text.new ≡ string_bytes text.old ++ wave_lines 1 waves.now) }
{
    for (index, wave) in waves.iter().enumerate() {
        write_wave(text, index + 1)?;
        write_corrections(text, wave.as_slice())?;
    }
    Ok(())
}

fn write_wave(text: &mut String, number: usize) -> Result<(), AllocError>
    ensures { OnOk result (string_bytes text.new ≡ string_bytes text.old ++ wave_line number) }
{
    writeln!(text, "wave {number}")
}

fn write_corrections(text: &mut String, corrections: &[Correction]) -> Result<(), AllocError>
    ensures { OnOk result (string_bytes text.new ≡
        string_bytes text.old ++ flat_map correction_line corrections.now) }
{
    for correction in corrections {
        write_correction(text, *correction)?;
    }
    Ok(())
}

fn write_correction(text: &mut String, correction: Correction) -> Result<(), AllocError>
    ensures { OnOk result (string_bytes text.new ≡
        string_bytes text.old ++ correction_line correction) }
{
    let mail = correction.mail;
    writeln!(
        text,
        "mail {} {} from {} to {}",
        mail.row, mail.index, correction.was.0, correction.tick.0
    )
}

fn write_end(text: &mut String, settled: bool, waves: usize) -> Result<(), AllocError>
    ensures { OnOk result (string_bytes text.new ≡
        string_bytes text.old ++ end_line settled waves) }
{
    let word = word_of(settled);
    writeln!(text, "{word}{waves}")
}

fn word_of(settled: bool) -> &'static str
    ensures { result.now ≡ end_word settled }
{
    if settled { "settled " } else { "spent " }
}
