//! Reading eight digits at once.
ghost use Rattle.std.specs.Prelude.{◌≡◌, ◌<◌, ◌^◌, true, IfSome, is_some};
ghost use Rattle.std.specs.Char.{is_ascii_digit};
ghost use Rattle.std.specs.List.{list_all};
ghost use Rattle.std.specs.Str.Parse.{digits_value};

/// Reads a block of eight ASCII digits as a decimal number. Returns `None` if a byte is no digit.
#[inline]
pub fn eight_digits(block: &[u8; 8]) -> Option<u64>
    ensures digits { is_some result ≡ list_all is_ascii_digit block.now }
    ensures value { IfSome result (λ number. number ≡ digits_value 10 block.now) }
    ensures small { IfSome result (λ number. number < 10 ^ 8) }
{
    if !are_digits(block) {
        return None;
    }
    Some(value_of(block))
}

/// Whether eight bytes are decimal digits. It tests every byte, even after one that is no digit, so
/// that it compiles to a few steps for all eight.
#[inline]
pub fn are_digits(block: &[u8; 8]) -> bool
    ensures { result ≡ list_all is_ascii_digit block.now }
{
    let mut all = true;
    for byte in block {
        all &= byte.is_ascii_digit();
    }
    all
}

// Returns the number that eight digits write. There is no test in the loop, so that it is unrolled.
#[inline]
#[tactic(auto, using(crate::proofs::DecimalLemmas::digit_steps, crate::proofs::DigitLemmas::digit_in))]
fn value_of(block: &[u8; 8]) -> u64
    requires { list_all is_ascii_digit block.now ≡ true }
    ensures value { result ≡ digits_value 10 block.now }
    ensures small { result < 10 ^ 8 }
{
    let mut number = 0u64;
    for byte in block {
        number = number * 10 + u64::from(*byte - b'0');
    }
    number
}
