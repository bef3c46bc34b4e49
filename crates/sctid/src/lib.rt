//! SNOMED CT identifiers (SCTIDs), as the Release File Specification defines them in its section
//! "Component identifiers": decimal texts with a partition and a Verhoeff check digit.
//!
//! An `SctId` is always valid: the one way to make one is `SctId::parse`, which accepts exactly the
//! valid texts and names the first fault of any other.
#![tactic(auto)]

ghost use Rattle.std.specs.Prelude.{◌≡◌, ◌^◌, ◌<◌, ◌≤◌, true, None, Some, IfOk, IfErr, length, decimal};
ghost use Rattle.std.specs.Char.{is_ascii_digit};
ghost use Rattle.std.specs.List.{list_all};
ghost use Rattle.sctid.specs.Identifier.{has_partition};

mod check;
mod digits;

use arrayvec::ArrayVec;
use digits::read_digits;
use std::marker::Model;
use thiserror::Error;

/// The kind of component that an identifier names. The second digit of its partition decides it, in
/// the short and in the long format (Release File Specification, "Partition identifier").
#[derive(Clone, Copy, Debug, PartialEq, Eq)]
pub enum Part {
    /// Partitions 00 and 10.
    Concept,
    /// Partitions 01 and 11.
    Description,
    /// Partitions 02 and 12.
    Relationship,
}

/// Why a text is no identifier: the first of these causes that applies.
#[derive(Clone, Copy, Debug, PartialEq, Eq, Error)]
pub enum IdFault {
    /// Fewer than 6 or more than 18 bytes.
    #[error("an identifier has 6 to 18 digits")]
    Length,
    /// A byte that is no decimal digit.
    #[error("an identifier is made of digits alone")]
    Digit,
    /// The first digit is 0.
    #[error("an identifier does not begin with 0")]
    LeadingZero,
    /// The two digits before the last are none of the six partitions; or they stand for the long
    /// format, which has a namespace, and the text has fewer than 11 digits.
    #[error("the partition is none of 00, 01, 02, 10, 11 and 12, or has no room for its namespace")]
    Partition,
    /// The last digit is not the check digit of the others.
    #[error("the check digit does not fit")]
    Check,
}

impl IdFault {
    ghost use Rattle.sctid.specs.Identifier.{fault_number};

    /// Returns the number of the fault, from 1, in the order in which `parse` looks for faults.
    pub fn number(self) -> u8
        ensures { result ≡ fault_number self }
    {
        match self {
            IdFault::Length => 1,
            IdFault::Digit => 2,
            IdFault::LeadingZero => 3,
            IdFault::Partition => 4,
            IdFault::Check => 5,
        }
    }
}

/// A valid SNOMED CT identifier (Release File Specification, "Component identifiers"). Contracts
/// see it as a number below 10^18 whose decimal text is a valid identifier. Identifiers are ordered
/// by these numbers.
#[derive(Clone, Copy, Debug, PartialEq, Eq, PartialOrd, Ord, Hash)]
pub struct SctId {
    number: u64,
}

impl Model for SctId {
    ghost use Rattle.std.specs.Prelude.{ℕ, ◌≡◌, ◌^◌, ◌<◌, None, decimal};

    ghost Value = { ℕ };

    ghost use Rattle.sctid.specs.Identifier.{fault_of};

    ghost view = { λ id. id.number };

    ghost invariant = { λ id. (id.number < 10 ^ 18) × (fault_of (decimal id.number) ≡ None) };

    ghost inverse = { λ n. record { number = n } };
}

impl SctId {
    ghost use Rattle.sctid.specs.Identifier.{fault_of, part_of};

    /// Reads an identifier from its decimal text. It answers `Ok` exactly if the text is valid, and
    /// otherwise the first fault in the order of `IdFault`.
    pub fn parse(text: &[u8]) -> Result<SctId, IdFault>
        ensures valid { IfOk result (λ id. fault_of text.now ≡ None) }
        ensures same { IfOk result (λ id. decimal id ≡ text.now) }
        ensures first { IfErr result (λ fault. fault_of text.now ≡ Some fault) }
    {
        if text.len() < 6 || text.len() > 18 {
            return Err(IdFault::Length);
        }
        let Some(digits) = read_digits(text) else {
            return Err(IdFault::Digit);
        };
        if text[0] == b'0' {
            return Err(IdFault::LeadingZero);
        }
        if !has_partition(text) {
            return Err(IdFault::Partition);
        }
        if digits.check_product != 0 {
            return Err(IdFault::Check);
        }
        Ok(SctId {
            number: digits.number,
        })
    }

    /// Returns the kind of component that the identifier names.
    pub fn part(self) -> Part
        ensures { result ≡ part_of (decimal self) }
    {
        match self.number / 10 % 10 {
            0 => Part::Concept,
            1 => Part::Description,
            _ => Part::Relationship,
        }
    }

    /// Returns the identifier as a whole number, whose decimal text is the text that was parsed.
    pub fn number(self) -> u64
        ensures number { result ≡ self }
        ensures small { result < 10 ^ 18 }
        ensures valid { fault_of (decimal result) ≡ None }
    {
        self.number
    }

    /// Replaces the content of `digits` by the decimal text of the identifier, in ASCII.
    pub fn write_to(self, digits: &mut ArrayVec<u8, 18>)
        ensures { digits.new.items ≡ decimal self }
    {
        let mut buffer = itoa::Buffer::new();
        digits.clear();
        let _ = digits.try_extend_from_slice(buffer.format(self.number).as_bytes());
    }
}

// Whether the two digits before the last are a partition, and the text has room for a namespace of
// seven digits if they stand for the long format. `text` has only digits, at least 3.
fn has_partition(text: &[u8]) -> bool
    requires room { 3 ≤ length text.now }
    requires digits { list_all is_ascii_digit text.now ≡ true }
    ensures { result ≡ has_partition text.now }
{
    let form = text[text.len() - 3];
    let part = text[text.len() - 2];
    let has_form = form == b'0' || form == b'1' && text.len() >= 11;
    has_form && part <= b'2'
}
