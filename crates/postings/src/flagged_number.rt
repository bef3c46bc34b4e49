//! A number and a flag in one `u32`.
ghost use Rattle.std.specs.Prelude.{◌≡◌, ◌<◌, ◌^◌};

use std::marker::Model;

/// A number below 2^31 and a flag, packed in 32 bits. A cell of a column holds one: the number of
/// an attribute row's source or group, and whether the row is the first with its type and value in
/// that source or group.
#[derive(Clone, Copy, Debug)]
pub struct FlaggedNumber {
    // twice the number, plus 1 if the flag is set
    packed: u32,
}

impl Model for FlaggedNumber {
    ghost use Rattle.std.specs.Prelude.{◌/◌, ◌%◌, ◌==◌};
    ghost use Rattle.postings.specs.Columns.{Flagged};
    ghost use Rattle.postings.specs.inside.Packed.{packed_again, packed_of};

    ghost Value = { Flagged };

    ghost view = { λ mark. record { number = mark.packed / 2; is_first = (mark.packed % 2) == 1 } };

    ghost inverse = { λ mark. record { packed = packed_of mark } };

    ghost inverse_ok = { λ mark _ i. record { packed = packed_again mark.packed i } };
}

impl FlaggedNumber {
    /// Packs `number`, which must be below 2^31, with the flag `is_first`.
    #[inline]
    pub fn new(number: u32, is_first: bool) -> FlaggedNumber
        requires { number < 2 ^ 31 }
        ensures number { result.number ≡ number }
        ensures first { result.is_first ≡ is_first }
    {
        let flag = if is_first { 1 } else { 0 };
        FlaggedNumber {
            packed: number * 2 + flag,
        }
    }

    /// Returns the number, which is below 2^31.
    #[inline]
    pub fn number(self) -> u32
        ensures number { result ≡ self.number }
        ensures small { result < 2 ^ 31 }
    {
        self.packed / 2
    }

    /// Returns the flag: whether the row is the first with its pair.
    #[inline]
    pub fn is_first(self) -> bool
        ensures { result ≡ self.is_first }
    {
        self.packed % 2 == 1
    }
}
