//! Tests of cardinalities, and the cardinalities that rules make.
ghost use Rattle.std.specs.Prelude.{◌≡◌};
ghost use Rattle.rewrites.specs.Counts.{asks_some, asks_none, asks_nothing, asks_too_much, at_least, up_to, split, complement};

use constraint_tree::Cardinality;

// Whether `count` is [1..*].
pub(crate) fn asks_some(count: Cardinality) -> bool
    ensures { result ≡ asks_some count }
{
    count.min == 1 && count.max.is_none()
}

// Whether `count` is [0..0].
pub(crate) fn asks_none(count: Cardinality) -> bool
    ensures { result ≡ asks_none count }
{
    count.min == 0 && count.max == Some(0)
}

// Whether `count` is [0..*], which each number satisfies.
pub(crate) fn asks_nothing(count: Cardinality) -> bool
    ensures { result ≡ asks_nothing count }
{
    count.min == 0 && count.max.is_none()
}

// Whether the minimum of `count` is above its maximum, so that no number satisfies it.
pub(crate) fn asks_too_much(count: Cardinality) -> bool
    ensures { result ≡ asks_too_much count }
{
    match count.max {
        Some(most) => most < count.min,
        None => false,
    }
}

// Returns the cardinality [least..*].
pub(crate) fn at_least(least: u64) -> Cardinality
    ensures { result ≡ at_least least }
{
    Cardinality {
        min: least,
        max: None,
    }
}

// Returns the cardinality [0..most].
fn up_to(most: u64) -> Cardinality
    ensures { result ≡ up_to most }
{
    Cardinality {
        min: 0,
        max: Some(most),
    }
}

// Returns [m..*] and [0..k] if `count` is [m..k] with m at least 1, or else `None`. A number lies
// in [m..k] if it lies in both.
pub(crate) fn split(count: Cardinality) -> Option<(Cardinality, Cardinality)>
    ensures { result ≡ split (λ least most. (least, most)) count }
{
    match count.max {
        Some(most) if count.min >= 1 => Some((at_least(count.min), up_to(most))),
        _ => None,
    }
}

// Returns [k+1..*] if `count` is [0..k] with k below `u64::MAX`, or else `None`. A number lies in
// [k+1..*] if it does not lie in [0..k].
pub(crate) fn complement(count: Cardinality) -> Option<Cardinality>
    ensures { result ≡ complement (λ above. above) count }
{
    match count.max {
        Some(most) if count.min == 0 && most < u64::MAX => Some(at_least(most + 1)),
        _ => None,
    }
}
