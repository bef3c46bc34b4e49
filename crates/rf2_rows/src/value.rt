//! The values of attributes.
use numerals::Decimal;
use sctid::SctId;

/// The value of an attribute. A text is borrowed from the line.
#[derive(Clone, Copy, Debug, PartialEq, Eq)]
pub enum Value<'a> {
    /// A concept (Release File Specification, "Relationship file", destinationId).
    Concept(SctId),
    /// A number (Release File Specification, "Relationship concrete values file", value).
    Decimal(Decimal),
    /// Any other text, as bytes in UTF-8.
    Other(&'a [u8]),
}
