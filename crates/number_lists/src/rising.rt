//! Sorting a list of numbers, without repeats.
ghost use Rattle.std.specs.Prelude.{ℕ, ◌≡◌, ◌<◌, All};
ghost use Rattle.number_lists.specs.Rising.{listed_numbers};

/// Sorts `numbers` into rising order and drops repeats, in place. Allocates nothing.
pub fn keep_rising(numbers: &mut Vec<u32>)
    ensures { (bound : ℕ) → All (λ number. number < bound) numbers.old.items
        → numbers.new.items ≡ listed_numbers bound numbers.old.items }
{
    numbers.sort_unstable();
    numbers.dedup();
}
