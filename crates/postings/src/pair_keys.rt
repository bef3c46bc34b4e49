//! The pairs of attribute rows, packed in one number as hash keys.
ghost use Rattle.std.specs.Prelude.{◌≡◌};
ghost use Rattle.postings.specs.inside.Coded.{pair_code};
ghost use Rattle.postings.specs.inside.PairKeys.{IsShort, grouped_key, pair_key};

use held_release::CodedRow;

/// Packs the pair of `row` into one number: the place of the type times 2^32, plus the number of
/// the value.
pub fn pair_key(row: &CodedRow) -> u128
    ensures key { result ≡ pair_key row.now }
    ensures short { IsShort (pair_code row.now) }
{
    row.type_place as u128 * 2u128.pow(32) + row.value as u128
}

/// Packs the relationship group number and the pair of `row` into one number: the group number
/// times 2^64, plus `pair_key`.
pub fn grouped_key(row: &CodedRow) -> u128
    ensures key { result ≡ grouped_key row.now }
    ensures short { IsShort (pair_code row.now) }
{
    row.group as u128 * 2u128.pow(64) + pair_key(row)
}
