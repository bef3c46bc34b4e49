//! Sets of concept numbers.
//!
//! Contracts see a set as a strictly rising list of numbers below a bound. The trait `ConceptSet`
//! states what each operation gives, in terms of such lists. Three types implement it: `SortedSet`
//! is the list itself; `WordSet` is a bitmap, with a bit for each number below the bound; and
//! `MixedSet` is one of these two, by how many items it has.
#![tactic(auto)]

mod bitmap;
mod concept_set;
mod kernels;
mod lists;
mod mixed_set;
mod sorted_set;
mod word_set;

pub use bitmap::{bitmap_of, is_marked, mark, word_count};
pub use concept_set::ConceptSet;
pub use lists::{every_number, has_number, put_union, put_with};
pub use mixed_set::MixedSet;
pub use sorted_set::SortedSet;
pub use word_set::WordSet;
