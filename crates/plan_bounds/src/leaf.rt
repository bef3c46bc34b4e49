//! The alternatives of a leaf, how many rows each reads, and the choice with the least bound.
ghost use Rattle.std.specs.Prelude.{◌≡◌};
ghost use Rattle.plan_bounds.specs.Bounds.{capped};
ghost use Rattle.plan_bounds.specs.Alternatives.{least_choice as least_choice_of, leaf_bound, leaf_size};

use crate::counts::NodeCost;
use set_algebra::Choice;

/// The counts from which a leaf's size and bounds follow. None is capped.
#[derive(Clone, Copy, Debug)]
pub struct Leaf {
    /// How many concepts, or for a leaf of groups how many groups, the release has.
    pub all: u64,
    /// Whether the leaf also finds concepts or groups without a matching pair: the minimum of its
    /// count is 0.
    pub none_pass: bool,
    /// How many attribute rows the indexes have.
    pub rows: u64,
    /// At most this many rows have a value that passes the test; for a leaf read backwards, a
    /// source.
    pub value_rows: u64,
    /// At most this many rows have a type of the leaf.
    pub type_rows: u64,
    /// How many values the plan of the test finds at most, or 0 if the test has no plan.
    pub value_size: u64,
    /// How many types the plan of the types finds at most.
    pub type_size: u64,
    /// Whether the test is `Within`. Only then the leaf offers `ByValue`.
    pub is_within: bool,
}

impl Leaf {
    /// Returns how many concepts or groups the leaf finds at most under `choice`.
    pub fn size(&self, choice: Choice) -> u64
        ensures { result ≡ leaf_size self.now choice }
    {
        let rows = match choice {
            Choice::ByValue => self.value_rows,
            Choice::ByType => self.type_rows,
            Choice::Scan => self.rows,
        };
        if self.none_pass {
            self.all
        } else {
            self.all.min(rows)
        }
    }

    /// Returns how many items the leaf visits at most under `choice`. The visits of its types and
    /// its test are not counted. The result has 128 bits because the sum of three numbers of 64
    /// bits may need 66.
    pub fn bound(&self, choice: Choice) -> u128
        ensures { result ≡ leaf_bound self.now choice }
    {
        let passed_over = if self.none_pass { self.all } else { 0 };
        match choice {
            Choice::ByValue => {
                self.value_size as u128 + self.value_rows as u128 + passed_over as u128
            }
            Choice::ByType => {
                self.type_size as u128 + self.type_rows as u128 + passed_over as u128
            }
            Choice::Scan => self.all as u128 + self.rows as u128,
        }
    }

    /// Returns the size of the leaf under `choice`, and its bound, or `u64::MAX` if the bound is
    /// larger.
    pub fn cost(&self, choice: Choice) -> NodeCost
        ensures size { result.size ≡ leaf_size self.now choice }
        ensures bound { result.bound ≡ capped (leaf_bound self.now choice) }
    {
        NodeCost {
            size: self.size(choice),
            bound: capped_number(self.bound(choice)),
        }
    }

    /// Returns the choice with the least bound among those that the leaf offers. Of equal bounds it
    /// takes the first of `ByValue`, `ByType` and `Scan`.
    pub fn least(&self) -> Choice
        ensures { result ≡ least_choice_of self.now }
    {
        let by_value = self.bound(Choice::ByValue);
        let by_type = self.bound(Choice::ByType);
        let scan = self.bound(Choice::Scan);
        if self.is_within && by_value <= by_type && by_value <= scan {
            return Choice::ByValue;
        }
        if by_type <= scan {
            Choice::ByType
        } else {
            Choice::Scan
        }
    }
}

// Returns `number`, or `u64::MAX` if it is larger.
fn capped_number(number: u128) -> u64
    ensures { result ≡ capped number }
{
    if number < u64::MAX as u128 {
        number as u64
    } else {
        u64::MAX
    }
}
