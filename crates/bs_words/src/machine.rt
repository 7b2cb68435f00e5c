// The word of a machine.
ghost use Rattle.std.specs.Prelude.{◌≡◌, ◌≤◌, drop, length, option_map, take};
ghost use Rattle.bs_words.specs.Machine.{before_colon, flat_numbers, machine_word as machine_word_of, word_of};

use crate::roles::number;

/// A machine: its processors, from 1 to 65,536, and its latency, from 1 to 2^38, or the name of its file.
#[derive(Clone, Copy, Debug, PartialEq, Eq, Drop)]
pub enum MachineWord<'a> {
    Flat(u32, u64),
    File(&'a str),
}

/// The machine that a word names: `flat:P:L`, or a file. There is none exactly where the word begins with
/// `flat:`, and no two numbers in their ranges stand behind it. It takes no memory.
pub fn machine_word(word: &str) -> Option<MachineWord<'_>>
    ensures { option_map word_of result ≡ machine_word_of word.now }
{
    match word.as_bytes() {
        [b'f', b'l', b'a', b't', b':', numbers @ ..] => read_numbers(numbers),
        _ => Some(MachineWord::File(word)),
    }
}

// `P:L`
fn read_numbers<'a>(text: &[u8]) -> Option<MachineWord<'a>>
    ensures { option_map word_of result ≡ flat_numbers text.now }
{
    let at = colon(text);
    if at >= text.len() {
        return None;
    }
    let processors = number(front(text, at), 1, 65_536)?;
    let latency = number(back(text, at + 1), 1, 274_877_906_944)?;
    Some(MachineWord::Flat(processors as u32, latency))
}

// The place of the first colon, or the length where there is none.
fn colon(text: &[u8]) -> usize
    ensures { result ≡ before_colon text.now }
{
    text.iter().take_while(|byte| **byte != b':').count()
}

fn front(text: &[u8], at: usize) -> &[u8]
    requires { at ≤ length text.now }
    ensures { result.now ≡ take at text.now }
{
    &text[..at]
}

fn back(text: &[u8], at: usize) -> &[u8]
    requires { at ≤ length text.now }
    ensures { result.now ≡ drop at text.now }
{
    &text[at..]
}
