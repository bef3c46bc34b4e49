//! The form of an answer: which of its lines are written.
ghost use Rattle.std.specs.Prelude.{◌≡◌, IfOk};
ghost use Rattle.answer_printer.specs.AnswerText.{shown_of, whole_form};

use idset::ConceptSet;
use std::alloc::{AllocError, Global};

/// Says which lines of concepts an answer has, and whether they have names. In each form, the count
/// on the first line is that of all concepts found.
#[derive(Clone, Copy, Debug)]
pub struct AnswerForm {
    /// How many lines of concepts are skipped before the first that is written.
    pub offset: u64,
    /// How many lines of concepts are written at most, after the skipped ones; `None` writes all.
    pub first: Option<u64>,
    /// Whether the line of a concept has the concept's name.
    pub names: bool,
}

impl AnswerForm {
    /// Returns the form without options: every line, with names.
    pub fn whole() -> AnswerForm
        ensures { result ≡ whole_form }
    {
        AnswerForm {
            offset: 0,
            first: None,
            names: true,
        }
    }

    /// Returns the numbers of the concepts in `set` whose lines this form writes, in rising order.
    pub(crate) fn shown<S: ConceptSet>(
        &self,
        alloc: Global,
        set: &S,
    ) -> Result<Vec<u32>, AllocError>
        ensures { IfOk result (λ shown. shown.items
            ≡ shown_of self.now.offset self.now.first (S.items_of set.now)) }
    {
        let most = self.first.unwrap_or(u64::MAX);
        let shown = set.some_items(alloc, self.offset, most)?;
        Ok(shown)
    }
}
