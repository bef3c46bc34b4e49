//! Reading numbers from texts of decimal digits.
ghost use Rattle.std.specs.Prelude.{◌≡◌, ◌<◌, ◌≤◌, ◌^◌, pos, IfSome, is_some, option_map};
ghost use Rattle.numerals.specs.Decimals.{decimal_of, fraction_of, unsigned_of};
ghost use Rattle.numerals.specs.Numbers.{is_number, number_of};

use crate::decimals::Decimal;
use text_parts::cut;

/// Reads a text of `least` to `most` ASCII digits as a decimal number. Returns `None` for any other
/// text. `most` is at most 18. Takes no memory.
#[tactic(auto, using(crate::proofs::DecimalLemmas::digit_steps))]
pub fn digits(text: &[u8], least: usize, most: usize) -> Option<u64>
    requires { most ≤ 18 }
    ensures digits { is_some result ≡ is_number least most text.now }
    ensures value { IfSome result (λ number. number ≡ number_of text.now) }
    ensures small { IfSome result (λ number. number < 10 ^ most) }
{
    if text.len() < least || text.len() > most {
        return None;
    }
    let mut number = 0u64;
    for byte in text {
        if !byte.is_ascii_digit() {
            return None;
        }
        number = number * 10 + u64::from(*byte - b'0');
    }
    Some(number)
}

/// Reads the text after the `#` of a concrete value as a decimal number: an optional sign, 1 to 18
/// digits, and optionally a point with 1 to 18 more digits (Release File Specification,
/// "Relationship concrete values file"). Returns `None` for any other text. Takes no memory.
pub fn decimal(text: &[u8]) -> Option<Decimal>
    ensures { option_map (λ found. found.0) result ≡ decimal_of text.now }
{
    match text {
        [b'-', rest @ ..] => {
            let number = unsigned(rest)?;
            Some(Decimal(-number))
        }
        [b'+', rest @ ..] => {
            let number = unsigned(rest)?;
            Some(Decimal(number))
        }
        _ => {
            let number = unsigned(text)?;
            Some(Decimal(number))
        }
    }
}

// Reads a decimal number without a sign, in units of 10^-18. Returns `None` if `text` is none.
#[tactic(auto, using(crate::proofs::DecimalLemmas::parts_of_number))]
fn unsigned(text: &[u8]) -> Option<i128>
    ensures { result ≡ option_map pos (unsigned_of text.now) }
{
    let (whole, following) = cut(text, b'.');
    let whole = digits(whole, 1, 18)?;
    let fraction = match following {
        Some(following) => fraction(following)?,
        None => 0,
    };
    Some(i128::from(whole) * 1_000_000_000_000_000_000 + i128::from(fraction))
}

// Reads the 1 to 18 digits after a point as a fraction, in units of 10^-18. Returns `None` if
// `text` has other bytes or another length.
#[tactic(auto, using(crate::proofs::DecimalLemmas::fraction_small))]
fn fraction(text: &[u8]) -> Option<u64>
    ensures digits { is_some result ≡ is_number 1 18 text.now }
    ensures value { IfSome result (λ number. number ≡ fraction_of text.now) }
    ensures small { IfSome result (λ number. number < 10 ^ 18) }
{
    let number = digits(text, 1, 18)?;
    Some(number * 10u64.pow(18 - text.len() as u32))
}
