// Numbers from decimal text.
ghost use Rattle.std.specs.Prelude.{◌≡◌, ℕ, ℤ, ◌≤◌, ◌-◌, ◌^◌, IfOk, nat_lt, if◌then◌else◌};
ghost use Rattle.std.specs.Int.{w64};
ghost use Rattle.std.specs.Int.RustNames.{FitsSigned};
ghost use Rattle.std.specs.List.{list_all};
ghost use Rattle.std.specs.Fmt.{decimal as decimal_text, signed_decimal};
ghost use Rattle.bs_num.specs.Decimal.{is_digit, is_plain, value_of, number_in, signed_in, from_zero, below_zero};

use crate::fault::NumFault;

// The greatest number of 64 bits with a sign. The least is one further from 0.
const GREATEST: u64 = 9_223_372_036_854_775_807;

/// The number of a plain decimal text: `0`, or digits that don't begin with `0`.
///
/// `NotANumber` comes exactly where the text is no such thing, and `TooLarge` exactly where its
/// number is above `most`. It takes no memory.
pub fn read_decimal(text: &[u8], most: u64) -> Result<u64, NumFault>
    ensures value { result ≡ number_in most text.now }
    ensures printed { IfOk result (λ n. decimal_text n ≡ text.now) }
    ensures read { (n : ℕ) → n ≤ most → text.now ≡ decimal_text n → result ≡ Ok n }
{
    if !is_plain_text(text) {
        return Err(NumFault::NotANumber);
    }
    value_up_to(text, most)
}

/// The number of a plain decimal text, or of one other than `0` behind a `-`.
///
/// `NotANumber` comes exactly where the text is no such thing, and `TooLarge` exactly where its
/// number is not in the range of `i64`. It takes no memory.
pub fn read_signed(text: &[u8]) -> Result<i64, NumFault>
    ensures value { result ≡ signed_in text.now }
    ensures printed { IfOk result (λ n. signed_decimal n ≡ text.now) }
    ensures read { (n : ℤ) → FitsSigned w64 n → text.now ≡ signed_decimal n → result ≡ Ok n }
{
    match text {
        [b'-', digits @ ..] => read_below_zero(digits),
        _ => read_from_zero(text),
    }
}

fn read_from_zero(text: &[u8]) -> Result<i64, NumFault>
    ensures { result ≡ from_zero (number_in (2 ^ 63 - 1) text.now) }
{
    let number = read_decimal(text, GREATEST)?;
    Ok(number as i64)
}

// The number of the digits behind a `-`.
fn read_below_zero(digits: &[u8]) -> Result<i64, NumFault>
    ensures { result ≡ below_zero digits.now }
{
    let size = read_decimal(digits, GREATEST + 1)?;
    if size == 0 {
        return Err(NumFault::NotANumber);
    }
    Ok(-i128::from(size) as i64)
}

fn is_digit_byte(byte: u8) -> bool
    ensures { result ≡ is_digit byte }
{
    byte.is_ascii_digit()
}

fn is_plain_text(text: &[u8]) -> bool
    ensures { result ≡ is_plain text.now }
{
    match text {
        [] => false,
        [digit] => is_digit_byte(*digit),
        [first, ..] => *first != b'0' && all_digits(text),
    }
}

fn all_digits(text: &[u8]) -> bool
    ensures { result ≡ list_all is_digit text.now }
{
    text.iter().all(|byte| is_digit_byte(*byte))
}

// The number of some digits. More than the greatest number of 64 bits is never held, so the product
// fits 128 bits.
fn value_up_to(digits: &[u8], most: u64) -> Result<u64, NumFault>
    ensures { result ≡ (if nat_lt most (value_of digits.now) then Err NumFault.TooLarge else Ok (value_of digits.now)) }
{
    let most = u128::from(most);
    let mut number: u128 = 0;
    for digit in digits {
        number = number * 10 + u128::from(digit.saturating_sub(b'0'));
        if number > most {
            return Err(NumFault::TooLarge);
        }
    }
    Ok(number as u64)
}
