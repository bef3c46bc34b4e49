//! Reads a text of digits in one pass: its number and its check product. The text is cut into
//! blocks of eight digits from its end on, and what is left in front of them is read digit by
//! digit.

ghost use Rattle.std.specs.Prelude.{◌≡◌, ◌+◌, ◌*◌, ◌^◌, ◌<◌, ◌≤◌, true, IfSome, is_some, length};
ghost use Rattle.std.specs.Char.{is_ascii_digit};
ghost use Rattle.std.specs.List.{list_all};
ghost use Rattle.std.specs.Str.Parse.{digits_value};
ghost use Rattle.sctid.specs.Identifier.{check_product, times};

use crate::check::{pair_product, permuted, times};
use numerals::are_digits;

/// The number and the check product of a text of digits.
#[derive(Clone, Copy)]
pub struct Digits {
    /// The digits as a decimal number.
    pub number: u64,
    /// The product of the permuted digits, the factor of the rightmost first. It is 0 exactly if
    /// the check digit is right.
    pub check_product: u8,
}

/// Reads a text of at most 18 bytes. Returns `None` if a byte is no decimal digit.
pub fn read_digits(text: &[u8]) -> Option<Digits>
    requires { length text.now ≤ 18 }
    ensures digits { is_some result ≡ list_all is_ascii_digit text.now }
    ensures number { IfSome result (λ read. read.number ≡ digits_value 10 text.now) }
    ensures small { IfSome result (λ read. read.number < 10 ^ 18) }
    ensures product { IfSome result (λ read. read.check_product ≡ check_product text.now) }
{
    let (front, blocks) = text.as_rchunks::<8>();
    let Some(read) = read_front(front) else {
        return None;
    };
    match blocks {
        [] => Some(read),
        [block] => with_block(read, block),
        // a text of at most 18 bytes has no third block
        [left, block, ..] => {
            let Some(read) = with_block(read, left) else {
                return None;
            };
            with_block(read, block)
        }
    }
}

// Reads a block of eight digits that follows the digits `read`. Returns `None` if a byte of it is
// no decimal digit. The permutation repeats after eight places, so the block does not change the
// product of the digits in front of it.
#[inline(always)]
fn with_block(read: Digits, block: &[u8; 8]) -> Option<Digits>
    requires small { read.number < 10 ^ 10 }
    requires element { read.check_product < 10 }
    ensures digits { is_some result ≡ list_all is_ascii_digit block.now }
    ensures number { IfSome result (λ more. more.number
        ≡ read.number * 10 ^ 8 + digits_value 10 block.now) }
    ensures product { IfSome result (λ more. more.check_product
        ≡ times (check_product block.now) read.check_product) }
{
    if !are_digits(block) {
        return None;
    }
    let right = read_block(block);
    Some(Digits {
        number: read.number * 100_000_000 + right.number,
        check_product: times(right.check_product, read.check_product),
    })
}

// Reads the part in front of the blocks. Returns `None` if a byte is no decimal digit. Most
// identifiers have nine digits, so that one stands in front: it is the number and the product.
#[inline(always)]
fn read_front(text: &[u8]) -> Option<Digits>
    requires { length text.now ≤ 18 }
    ensures digits { is_some result ≡ list_all is_ascii_digit text.now }
    ensures number { IfSome result (λ read. read.number ≡ digits_value 10 text.now) }
    ensures product { IfSome result (λ read. read.check_product ≡ check_product text.now) }
{
    let [byte] = text else {
        return read_each(text);
    };
    if !byte.is_ascii_digit() {
        return None;
    }
    let digit = *byte - b'0';
    Some(Digits {
        number: u64::from(digit),
        check_product: digit,
    })
}

// Reads a text digit by digit from the left. The factor of each digit goes in front of the product
// of the digits before it. Returns `None` if a byte is no decimal digit.
fn read_each(text: &[u8]) -> Option<Digits>
    requires { length text.now ≤ 18 }
    ensures digits { is_some result ≡ list_all is_ascii_digit text.now }
    ensures number { IfSome result (λ read. read.number ≡ digits_value 10 text.now) }
    ensures product { IfSome result (λ read. read.check_product ≡ check_product text.now) }
{
    let mut number = 0u64;
    let mut product = 0u8;
    let mut place = text.len();
    for byte in text {
        if !byte.is_ascii_digit() {
            return None;
        }
        place -= 1;
        let digit = *byte - b'0';
        number = number * 10 + u64::from(digit);
        product = times(permuted(place, digit), product);
    }
    Some(Digits {
        number,
        check_product: product,
    })
}

// Reads eight digits as four numbers of two digits.
#[inline(always)]
fn read_block(block: &[u8; 8]) -> Digits
    requires { list_all is_ascii_digit block.now ≡ true }
    ensures number { result.number ≡ digits_value 10 block.now }
    ensures product { result.check_product ≡ check_product block.now }
{
    // `digits` has a digit in each byte, the leftmost digit in the lowest byte. Ten times `digits`
    // plus `digits` moved down by a byte has in each byte the number of a digit and its right
    // neighbour. Every second of these numbers is used.
    let digits = u64::from_le_bytes(*block) - 0x3030_3030_3030_3030;
    let [first, _, second, _, third, _, last, _] = (digits * 10 + digits / 0x100).to_le_bytes();
    let left = times(pair_product(2, second), pair_product(3, first));
    let right = times(pair_product(0, last), pair_product(1, third));
    let front = u64::from(first) * 100 + u64::from(second);
    Digits {
        number: (front * 100 + u64::from(third)) * 100 + u64::from(last),
        check_product: times(right, left),
    }
}
