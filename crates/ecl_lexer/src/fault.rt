//! Refusals: why a text is not read as an expression constraint.
ghost use Rattle.std.specs.Prelude.{◌≡◌, codes};

use std::alloc::{AllocError, AllocFailed};
use thiserror::Error;

/// A form of the Expression Constraint Language 2.2 that this engine does not support.
#[derive(Clone, Copy, Debug, PartialEq, Eq)]
pub enum Feature {
    /// A filter, as `{{ C active = 1 }}` ("Description Filters", "Concept Filters", "Member
    /// Filters").
    Filter,
    /// A history supplement, as `{{ +HISTORY-MIN }}` ("History Supplements").
    History,
    /// Fields of a reference set, as `^ [targetComponentId]` ("Simple Expression Constraints").
    Fields,
    /// An alternate identifier, as `LOINC#54486-6` ("Simple Expression Constraints").
    Identifier,
    /// A comparison with `true` or `false` ("Refinements").
    Boolean,
    /// A comparison with a string, as `"PANADOL"` ("Refinements").
    String,
}

impl Feature {
    ghost use Rattle.ecl_lexer.specs.Refusals.{feature_name};

    /// Returns the name of the form, in lower case, as a refusal line prints it.
    pub fn name(self) -> &'static str
        ensures { result.now ≡ feature_name self }
    {
        match self {
            Feature::Filter => "filter",
            Feature::History => "history",
            Feature::Fields => "fields",
            Feature::Identifier => "identifier",
            Feature::Boolean => "boolean",
            Feature::String => "string",
        }
    }
}

/// Why a text is refused. A text with several faults gets the one with the least `number`, and
/// among the faults with number 3 the one at the least offset. An offset counts bytes, from 0.
#[derive(Clone, Copy, Debug, PartialEq, Eq, Error)]
pub enum QueryFault {
    /// The text has more than 65,535 bytes.
    #[error("the text has more than 65,535 bytes")]
    Long,
    /// The text is not UTF-8.
    #[error("the text is not UTF-8")]
    Utf8,
    /// Neither a token nor a blank begins at the offset.
    #[error("no token begins at byte {0}")]
    Token(usize),
    /// An unsupported form of the language begins at the offset.
    #[error("at byte {0} a form begins that is not read: {name}", name = .1.name())]
    Unsupported(usize, Feature),
    /// Digits or a number with a run of more than 18 digits begin at the offset.
    #[error("more than 18 digits at byte {0}")]
    Limit(usize),
    /// More than 64 brackets are open at once.
    #[error("more than 64 brackets are open at once")]
    Depth,
    /// The tokens do not form a constraint.
    #[error("the text is no expression constraint")]
    Syntax,
    /// Memory ran out.
    #[error("out of memory")]
    Memory,
}

impl QueryFault {
    ghost use Rattle.ecl_lexer.specs.Refusals.{fault_number};

    /// Returns the number of the fault, from 1, in the order in which the reader looks for faults.
    /// `Memory` has the last number, though memory may run out at any step.
    pub fn number(self) -> u8
        ensures { result ≡ fault_number self }
    {
        match self {
            QueryFault::Long => 1,
            QueryFault::Utf8 => 2,
            QueryFault::Token(_) | QueryFault::Unsupported(_, _) | QueryFault::Limit(_) => 3,
            QueryFault::Depth => 4,
            QueryFault::Syntax => 5,
            QueryFault::Memory => 6,
        }
    }
}

impl From<AllocError> for QueryFault {
    ghost use Rattle.ecl_lexer.specs.declared.fault.QueryFault.TheVariants.{Memory};

    ghost from_gives = { λ _ fault. fault ≡ Memory };

    fn from(_error: AllocError) -> QueryFault {
        QueryFault::Memory
    }
}

impl<T: Drop> From<AllocFailed<T>> for QueryFault {
    ghost use Rattle.ecl_lexer.specs.declared.fault.QueryFault.TheVariants.{Memory};

    ghost from_gives = { λ _ fault. fault ≡ Memory };

    fn from(_error: AllocFailed<T>) -> QueryFault {
        QueryFault::Memory
    }
}
