// The words of a line.
ghost use Rattle.std.specs.Prelude.{◌≡◌, ◌≤◌, ◌==◌, not, length, take_while, IfSome, option_map};
ghost use Rattle.bs_logread.specs.Words.{cut, behind, number_of, number_before, signed_of, signed_before};

use bs_num::{read_decimal, read_signed};

// How many bytes stand before the first mark, or in the whole text where there is none.
fn front_length(mark: u8, text: &[u8]) -> usize
    ensures { result ≡ length (take_while (λ b. not (b == mark)) text.now) }
{
    text.iter().take_while(|byte| **byte != mark).count()
}

/// The text up to the first mark, and what stands behind that mark.
pub(crate) fn cut(mark: u8, text: &[u8]) -> Option<(&[u8], &[u8])>
    ensures { option_map (λ p. (p.0.now, p.1.now)) result ≡ cut mark text.now }
{
    let length = front_length(mark, text);
    if length == text.len() {
        return None;
    }
    Some((&text[..length], &text[length + 1..]))
}

/// What stands behind a word at the front of the text.
pub(crate) fn behind<'a>(word: &[u8], text: &'a [u8]) -> Option<&'a [u8]>
    ensures { option_map (λ t. t.now) result ≡ behind word.now text.now }
{
    if text.starts_with(word) {
        Some(&text[word.len()..])
    } else {
        None
    }
}

/// A number in a range.
#[tactic(auto, unfolding(crate::specs::Words::number_of))]
pub(crate) fn number_of(least: u64, most: u64, text: &[u8]) -> Option<u64>
    ensures value { result ≡ number_of least most text.now }
    ensures range { IfSome result (λ n. n ≤ most) }
{
    match read_decimal(text, most) {
        Ok(number) if number >= least => Some(number),
        _ => None,
    }
}

/// A number of 32 bits in a range.
#[tactic(auto, unfolding(crate::specs::Words::number_of))]
pub(crate) fn small_of(least: u32, most: u32, text: &[u8]) -> Option<u32>
    ensures { result ≡ number_of least most text.now }
{
    let number = number_of(u64::from(least), u64::from(most), text)?;
    Some(number as u32)
}

/// A number in a range, and what stands behind the space after it.
#[tactic(auto, unfolding(crate::specs::Words::number_before))]
pub(crate) fn number_before(least: u64, most: u64, text: &[u8]) -> Option<(u64, &[u8])>
    ensures { option_map (λ p. (p.0, p.1.now)) result ≡ number_before least most text.now }
{
    let (word, rest) = cut(b' ', text)?;
    let number = number_of(least, most, word)?;
    Some((number, rest))
}

/// A number of 32 bits in a range, and what stands behind the space after it.
#[tactic(auto, unfolding(crate::specs::Words::number_before))]
pub(crate) fn small_before(least: u32, most: u32, text: &[u8]) -> Option<(u32, &[u8])>
    ensures { option_map (λ p. (p.0, p.1.now)) result ≡ number_before least most text.now }
{
    let (word, rest) = cut(b' ', text)?;
    let number = small_of(least, most, word)?;
    Some((number, rest))
}

/// A number of 64 bits with its sign.
#[tactic(auto, unfolding(crate::specs::Words::signed_of))]
pub(crate) fn signed_of(text: &[u8]) -> Option<i64>
    ensures { result ≡ signed_of text.now }
{
    match read_signed(text) {
        Ok(number) => Some(number),
        Err(_) => None,
    }
}

/// A number of 64 bits with its sign, and what stands behind the space after it.
#[tactic(auto, unfolding(crate::specs::Words::signed_before))]
pub(crate) fn signed_before(text: &[u8]) -> Option<(i64, &[u8])>
    ensures { option_map (λ p. (p.0, p.1.now)) result ≡ signed_before text.now }
{
    let (word, rest) = cut(b' ', text)?;
    let number = signed_of(word)?;
    Some((number, rest))
}
