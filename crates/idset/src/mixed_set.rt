//! The set as a list or as a bitmap, by how many items it has.
ghost use Rattle.std.specs.Prelude.{◌≡◌, IfOk};
ghost use Rattle.idset.specs.inside.MixedForm.{form_bound, form_items, form_rises, list_items, word_items};
ghost use Rattle.idset.specs.Sets.{all_items, common_items, other_items};
ghost use Rattle.number_lists.specs.Rising.{IsRisingBelow};

use crate::bitmap::{count_marked, marked_among};
use crate::concept_set::ConceptSet;
use crate::lists::union_of;
use crate::sorted_set::SortedSet;
use crate::word_set::WordSet;
use std::alloc::{AllocError, Global};

// A set of at most `bound / WIDE` items is a list. A larger set is a bitmap, because that answers
// `has` faster and is combined with other sets faster.
const WIDE: u32 = 256;

/// A set that is a rising list if it has few items for its bound, and otherwise a bitmap. The
/// number of items decides what a small set costs in time and memory, and the bound what a large
/// one costs.
#[derive(Drop)]
pub struct MixedSet {
    form: Form,
}

#[derive(Drop)]
enum Form {
    Few(SortedSet),
    Many(WordSet),
}

impl ConceptSet for MixedSet {
    ghost items_of = { λ set. form_items set.form };

    ghost bound_of = { λ set. form_bound set.form };

    ghost rising = { λ set. form_rises set.form };

    fn from_items(alloc: Global, items: &[u32], bound: u32) -> Result<MixedSet, AllocError> {
        if items.len() > (bound / WIDE) as usize {
            let set = WordSet::from_items(alloc, items, bound)?;
            Ok(many(set))
        } else {
            let set = SortedSet::from_items(alloc, items, bound)?;
            Ok(few(set))
        }
    }

    fn from_numbers(alloc: Global, numbers: &[u32], bound: u32) -> Result<MixedSet, AllocError> {
        if numbers.len() > (bound / WIDE) as usize {
            let set = WordSet::from_numbers(alloc, numbers, bound)?;
            from_wide(alloc, set)
        } else {
            let set = SortedSet::from_numbers(alloc, numbers, bound)?;
            Ok(few(set))
        }
    }

    fn from_words(alloc: Global, words: &[u64], bound: u32) -> Result<MixedSet, AllocError> {
        if count_marked(words, bound) > bound / WIDE {
            let set = WordSet::from_words(alloc, words, bound)?;
            Ok(many(set))
        } else {
            let set = SortedSet::from_words(alloc, words, bound)?;
            Ok(few(set))
        }
    }

    fn every(alloc: Global, bound: u32) -> Result<MixedSet, AllocError> {
        let set = WordSet::every(alloc, bound)?;
        from_wide(alloc, set)
    }

    fn and(&self, alloc: Global, other: &MixedSet) -> Result<MixedSet, AllocError> {
        match &self.form {
            Form::Few(own) => and_few(alloc, own, other),
            Form::Many(own) => and_many(alloc, own, other),
        }
    }

    fn or(&self, alloc: Global, other: &MixedSet) -> Result<MixedSet, AllocError> {
        match &self.form {
            Form::Few(own) => or_few(alloc, own, other),
            Form::Many(own) => or_many(alloc, own, other),
        }
    }

    fn minus(&self, alloc: Global, other: &MixedSet) -> Result<MixedSet, AllocError> {
        match &self.form {
            Form::Few(own) => minus_few(alloc, own, other),
            Form::Many(own) => minus_many(alloc, own, other),
        }
    }

    fn others(&self, alloc: Global) -> Result<MixedSet, AllocError> {
        match &self.form {
            Form::Few(own) => {
                let mut set = WordSet::every(alloc, own.bound())?;
                set.remove_all(own.list());
                from_wide(alloc, set)
            }
            Form::Many(own) => {
                let set = own.others(alloc)?;
                from_wide(alloc, set)
            }
        }
    }

    fn add_all(&mut self, alloc: Global, items: &[u32]) -> Result<(), AllocError> {
        match &mut self.form {
            Form::Few(own) => {
                let grown = grown_few(alloc, own, items)?;
                *self = grown;
                Ok(())
            }
            Form::Many(own) => own.add_all(alloc, items),
        }
    }

    fn items(&self, alloc: Global) -> Result<Vec<u32>, AllocError> {
        match &self.form {
            Form::Few(own) => own.items(alloc),
            Form::Many(own) => own.items(alloc),
        }
    }

    fn some_items(&self, alloc: Global, skipped: u64, most: u64) -> Result<Vec<u32>, AllocError> {
        match &self.form {
            Form::Few(own) => own.some_items(alloc, skipped, most),
            Form::Many(own) => own.some_items(alloc, skipped, most),
        }
    }

    fn for_asking(self, alloc: Global) -> Result<MixedSet, AllocError> {
        match self.form {
            Form::Few(own) => {
                let set = WordSet::from_items(alloc, own.list(), own.bound())?;
                Ok(many(set))
            }
            Form::Many(own) => Ok(many(own)),
        }
    }

    fn copy(&self, alloc: Global) -> Result<MixedSet, AllocError> {
        match &self.form {
            Form::Few(own) => {
                let set = own.copy(alloc)?;
                Ok(few(set))
            }
            Form::Many(own) => {
                let set = own.copy(alloc)?;
                Ok(many(set))
            }
        }
    }

    fn bound(&self) -> u32 {
        match &self.form {
            Form::Few(own) => own.bound(),
            Form::Many(own) => own.bound(),
        }
    }

    fn has(&self, number: u32) -> bool {
        match &self.form {
            Form::Few(own) => own.has(number),
            Form::Many(own) => own.has(number),
        }
    }

    fn count(&self) -> u32 {
        match &self.form {
            Form::Few(own) => own.count(),
            Form::Many(own) => own.count(),
        }
    }
}

fn few(set: SortedSet) -> MixedSet
    ensures { result.form ≡ Form.Few set }
{
    MixedSet {
        form: Form::Few(set),
    }
}

fn many(set: WordSet) -> MixedSet
    ensures { result.form ≡ Form.Many set }
{
    MixedSet {
        form: Form::Many(set),
    }
}

// Makes a mixed set of a bitmap set, which it turns into a list if it has few items.
fn from_wide(alloc: Global, set: WordSet) -> Result<MixedSet, AllocError>
    ensures items { IfOk result (λ mixed. form_items mixed.form ≡ word_items set) }
    ensures bound { IfOk result (λ mixed. form_bound mixed.form ≡ set.bound) }
{
    if set.count() > set.bound() / WIDE {
        Ok(many(set))
    } else {
        let list = SortedSet::from_words(alloc, set.words(), set.bound())?;
        Ok(few(list))
    }
}

// Makes a mixed set of a list set, which it turns into a bitmap if it has many items.
fn from_narrow(alloc: Global, set: SortedSet) -> Result<MixedSet, AllocError>
    ensures items { IfOk result (λ mixed. form_items mixed.form ≡ list_items set) }
    ensures bound { IfOk result (λ mixed. form_bound mixed.form ≡ set.bound) }
{
    if set.count() > set.bound() / WIDE {
        let words = WordSet::from_items(alloc, set.list(), set.bound())?;
        Ok(many(words))
    } else {
        Ok(few(set))
    }
}

// Makes the union of the list set `own` and the rising list `items`.
#[tactic(auto, using(crate::proofs::Rising::rules_of_rising))]
fn grown_few(alloc: Global, own: &SortedSet, items: &[u32]) -> Result<MixedSet, AllocError>
    requires { IsRisingBelow own.now.bound items.now }
    ensures items { IfOk result
        (λ mixed. form_items mixed.form ≡ all_items own.now.bound (list_items own.now) items.now) }
    ensures bound { IfOk result (λ mixed. form_bound mixed.form ≡ own.now.bound) }
{
    let bound = own.bound();
    if items.len() > (bound / WIDE) as usize {
        let mut set = WordSet::from_items(alloc, own.list(), bound)?;
        set.add_all(alloc, items)?;
        Ok(many(set))
    } else {
        let list = union_of(alloc, own.list(), items, bound)?;
        from_narrow(alloc, SortedSet::from_list(list, bound))
    }
}

// Intersects the list set `own` with `other`.
fn and_few(alloc: Global, own: &SortedSet, other: &MixedSet) -> Result<MixedSet, AllocError>
    requires { own.now.bound ≡ form_bound other.now.form }
    ensures items { IfOk result (λ mixed. form_items mixed.form
        ≡ common_items (list_items own.now) (form_items other.now.form)) }
    ensures bound { IfOk result (λ mixed. form_bound mixed.form ≡ own.now.bound) }
{
    match &other.form {
        Form::Few(other) => {
            let set = own.and(alloc, other)?;
            Ok(few(set))
        }
        Form::Many(other) => {
            let set = common_of_both(alloc, own, other)?;
            Ok(few(set))
        }
    }
}

// Intersects the bitmap set `own` with `other`.
fn and_many(alloc: Global, own: &WordSet, other: &MixedSet) -> Result<MixedSet, AllocError>
    requires { own.now.bound ≡ form_bound other.now.form }
    ensures items { IfOk result (λ mixed. form_items mixed.form
        ≡ common_items (word_items own.now) (form_items other.now.form)) }
    ensures bound { IfOk result (λ mixed. form_bound mixed.form ≡ own.now.bound) }
{
    match &other.form {
        Form::Few(other) => {
            let set = common_of_both(alloc, other, own)?;
            Ok(few(set))
        }
        Form::Many(other) => {
            let set = own.and(alloc, other)?;
            from_wide(alloc, set)
        }
    }
}

// Subtracts `other` from the list set `own`.
fn minus_few(alloc: Global, own: &SortedSet, other: &MixedSet) -> Result<MixedSet, AllocError>
    requires { own.now.bound ≡ form_bound other.now.form }
    ensures items { IfOk result (λ mixed. form_items mixed.form
        ≡ other_items (list_items own.now) (form_items other.now.form)) }
    ensures bound { IfOk result (λ mixed. form_bound mixed.form ≡ own.now.bound) }
{
    match &other.form {
        Form::Few(other) => {
            let set = own.minus(alloc, other)?;
            Ok(few(set))
        }
        Form::Many(other) => {
            let set = list_alone(alloc, own, other)?;
            Ok(few(set))
        }
    }
}

// Subtracts `other` from the bitmap set `own`.
fn minus_many(alloc: Global, own: &WordSet, other: &MixedSet) -> Result<MixedSet, AllocError>
    requires { own.now.bound ≡ form_bound other.now.form }
    ensures items { IfOk result (λ mixed. form_items mixed.form
        ≡ other_items (word_items own.now) (form_items other.now.form)) }
    ensures bound { IfOk result (λ mixed. form_bound mixed.form ≡ own.now.bound) }
{
    match &other.form {
        Form::Few(other) => {
            let mut set = own.copy(alloc)?;
            set.remove_all(other.list());
            from_wide(alloc, set)
        }
        Form::Many(other) => {
            let set = own.minus(alloc, other)?;
            from_wide(alloc, set)
        }
    }
}

// Unites the list set `own` with `other`.
fn or_few(alloc: Global, own: &SortedSet, other: &MixedSet) -> Result<MixedSet, AllocError>
    requires { own.now.bound ≡ form_bound other.now.form }
    ensures items { IfOk result (λ mixed. form_items mixed.form
        ≡ all_items own.now.bound (list_items own.now) (form_items other.now.form)) }
    ensures bound { IfOk result (λ mixed. form_bound mixed.form ≡ own.now.bound) }
{
    match &other.form {
        Form::Few(other) => {
            let set = own.or(alloc, other)?;
            from_narrow(alloc, set)
        }
        Form::Many(other) => {
            let mut set = other.copy(alloc)?;
            set.add_all(alloc, own.list())?;
            Ok(many(set))
        }
    }
}

// Unites the bitmap set `own` with `other`.
fn or_many(alloc: Global, own: &WordSet, other: &MixedSet) -> Result<MixedSet, AllocError>
    requires { own.now.bound ≡ form_bound other.now.form }
    ensures items { IfOk result (λ mixed. form_items mixed.form
        ≡ all_items own.now.bound (word_items own.now) (form_items other.now.form)) }
    ensures bound { IfOk result (λ mixed. form_bound mixed.form ≡ own.now.bound) }
{
    match &other.form {
        Form::Few(other) => {
            let mut set = own.copy(alloc)?;
            set.add_all(alloc, other.list())?;
            Ok(many(set))
        }
        Form::Many(other) => {
            let set = own.or(alloc, other)?;
            Ok(many(set))
        }
    }
}

// Makes the list set of the items of `few` that are also in `many`.
fn common_of_both(alloc: Global, few: &SortedSet, many: &WordSet) -> Result<SortedSet, AllocError>
    ensures items { IfOk result
        (λ set. list_items set ≡ common_items (list_items few.now) (word_items many.now)) }
    ensures bound { IfOk result (λ set. set.bound ≡ few.now.bound) }
{
    let items = marked_among(alloc, few.list(), many.words(), true)?;
    Ok(SortedSet::from_list(items, few.bound()))
}

// Makes the list set of the items of `few` that are not in `many`.
fn list_alone(alloc: Global, few: &SortedSet, many: &WordSet) -> Result<SortedSet, AllocError>
    ensures items { IfOk result
        (λ set. list_items set ≡ other_items (list_items few.now) (word_items many.now)) }
    ensures bound { IfOk result (λ set. set.bound ≡ few.now.bound) }
{
    let items = marked_among(alloc, few.list(), many.words(), false)?;
    Ok(SortedSet::from_list(items, few.bound()))
}
