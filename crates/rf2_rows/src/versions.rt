//! Whether two lines are one row: they have equal values in all columns, even if the texts differ.
ghost use Rattle.std.specs.Prelude.{◌≡◌, ◌==◌, true, map, None, bytes_eq};
ghost use Rattle.rf2_rows.specs.Columns.{cause_of, columns_of, time_format, uuid_format, value_format};
ghost use Rattle.rf2_rows.specs.inside.Formats.{format_of};
ghost use Rattle.numerals.specs.Numbers.{is_number, number_of};
ghost use Rattle.release_model.specs.Pairs.{value_eq};
ghost use Rattle.rf2_rows.specs.Rows.{active_of, fields_fault, row_fault, time_of, uuid_of};
ghost use Rattle.rf2_rows.specs.Values.{value_of};
ghost use Rattle.rf2_rows.specs.Versions.{same_row, same_time, same_value, same_values};

use crate::fields::hyphenated;
use crate::kind::FileKind;
use crate::tabs::{Fields, cut_fields};
use numerals::{decimal, digits};
use sctid::Part;
use uuid::Uuid;

// The format of a column: what its texts may be.
#[derive(Clone, Copy)]
enum Format {
    // The identifier of a component of this kind.
    Id(Part),
    // The identifier of a component of any kind.
    Component,
    // A UUID.
    Uuid,
    // A date, or an empty text if the row is not published yet.
    Time,
    // 0 or 1.
    Active,
    // The number of a group.
    Group,
    // A text in UTF-8.
    Text,
    // A number after `#`, or another text.
    Value,
}

// The formats of the columns of the Concept file.
static CONCEPT: [Format; 5] = [
    Format::Id(Part::Concept),
    Format::Time,
    Format::Active,
    Format::Id(Part::Concept),
    Format::Id(Part::Concept),
];

// The formats of the columns of the Description file.
static DESCRIPTION: [Format; 9] = [
    Format::Id(Part::Description),
    Format::Time,
    Format::Active,
    Format::Id(Part::Concept),
    Format::Id(Part::Concept),
    Format::Text,
    Format::Id(Part::Concept),
    Format::Text,
    Format::Id(Part::Concept),
];

// The formats of the columns of the Relationship file.
static RELATIONSHIP: [Format; 10] = [
    Format::Id(Part::Relationship),
    Format::Time,
    Format::Active,
    Format::Id(Part::Concept),
    Format::Id(Part::Concept),
    Format::Id(Part::Concept),
    Format::Group,
    Format::Id(Part::Concept),
    Format::Id(Part::Concept),
    Format::Id(Part::Concept),
];

// The formats of the columns of the Relationship concrete values file.
static CONCRETE: [Format; 10] = [
    Format::Id(Part::Relationship),
    Format::Time,
    Format::Active,
    Format::Id(Part::Concept),
    Format::Id(Part::Concept),
    Format::Value,
    Format::Group,
    Format::Id(Part::Concept),
    Format::Id(Part::Concept),
    Format::Id(Part::Concept),
];

// The formats of the columns of a simple reference set file.
static MEMBER: [Format; 6] = [
    Format::Uuid,
    Format::Time,
    Format::Active,
    Format::Id(Part::Concept),
    Format::Id(Part::Concept),
    Format::Component,
];

/// Whether `one` and `other`, two lines that are accepted as rows of `kind`, are one row: each
/// column has equal values in both. Texts are compared by their bytes; identifiers, groups and
/// times by their numbers; UUIDs by their 16 bytes. Concrete values are compared by their numbers,
/// or by their bytes if they are texts. Takes no memory.
#[tactic(auto, unfolding(crate::specs::Rows::row_fault), using(crate::proofs::VersionLemmas::accepted_lines))]
pub fn same_row(kind: FileKind, one: &[u8], other: &[u8]) -> bool
    requires one { row_fault kind one.now ≡ None }
    requires other { row_fault kind other.now ≡ None }
    ensures { result ≡ same_row kind one.now other.now }
{
    if one == other {
        return true;
    }
    // a row has at most 10 fields, so both lines can be cut
    let Some(ones) = cut_fields(one) else {
        return false;
    };
    let Some(others) = cut_fields(other) else {
        return false;
    };
    same_fields(kind, &ones, &others)
}

// Whether the fields of two rows of `kind` have equal values in each column.
fn same_fields(kind: FileKind, ones: &Fields<'_>, others: &Fields<'_>) -> bool
    requires one { fields_fault kind ones.now ≡ None }
    requires other { fields_fault kind others.now ≡ None }
    ensures { result ≡ same_values (columns_of kind) ones.now others.now }
{
    for (place, format) in formats(kind).iter().enumerate() {
        let one = ones.at(place);
        let other = others.at(place);
        if !same_value(*format, one, other) {
            return false;
        }
    }
    true
}

// Returns the formats of the columns of a kind of file, from left to right.
fn formats(kind: FileKind) -> &'static [Format]
    ensures { map format_of result.now ≡ map (λ column. column.format) (columns_of kind) }
{
    match kind {
        FileKind::Concept => &CONCEPT,
        FileKind::Description => &DESCRIPTION,
        FileKind::Relationship => &RELATIONSHIP,
        FileKind::Concrete => &CONCRETE,
        FileKind::Member => &MEMBER,
    }
}

// Whether two texts of a column with this format have equal values.
#[tactic(auto, unfolding(crate::specs::Columns::cause_of), using(std::proofs::lemmas::Bool::Decides::nat_tests))]
fn same_value(format: Format, one: &[u8], other: &[u8]) -> bool
    requires one { cause_of (format_of format) one.now ≡ None }
    requires other { cause_of (format_of format) other.now ≡ None }
    ensures { result ≡ same_value (format_of format) one.now other.now }
{
    match format {
        Format::Id(_) | Format::Component => same_number(one, other),
        Format::Uuid => same_uuid(one, other),
        Format::Time => same_time(one, other),
        Format::Active => is_active(one) == is_active(other),
        Format::Group => same_number(one, other),
        Format::Text => one == other,
        Format::Value => same_concrete(one, other),
    }
}

// Whether two texts of 1 to 18 digits are equal as numbers.
fn same_number(one: &[u8], other: &[u8]) -> bool
    requires one { is_number 1 18 one.now ≡ true }
    requires other { is_number 1 18 other.now ≡ true }
    ensures { result ≡ (number_of one.now == number_of other.now) }
{
    digits(one, 1, 18) == digits(other, 1, 18)
}

// Whether two texts of UUIDs have the same 16 bytes.
fn same_uuid(one: &[u8], other: &[u8]) -> bool
    requires one { cause_of uuid_format one.now ≡ None }
    requires other { cause_of uuid_format other.now ≡ None }
    ensures { result ≡ bytes_eq (uuid_of one.now) (uuid_of other.now) }
{
    // both texts are accepted, so no fault arises, and the column number 0 is never used
    match (hyphenated(one, 0), hyphenated(other, 0)) {
        (Ok(one), Ok(other)) => one == other,
        _ => false,
    }
}

// Whether two texts of effective times are the same date, or both empty.
#[tactic(auto, unfolding(crate::specs::Columns::cause_of))]
fn same_time(one: &[u8], other: &[u8]) -> bool
    requires one { cause_of time_format one.now ≡ None }
    requires other { cause_of time_format other.now ≡ None }
    ensures { result ≡ same_time (time_of one.now) (time_of other.now) }
{
    digits(one, 8, 8) == digits(other, 8, 8)
}

// Whether the text of the column `active` is `1`.
fn is_active(text: &[u8]) -> bool
    ensures { result ≡ active_of text.now }
{
    text == b"1".as_slice()
}

// Whether two texts of concrete values have equal values: equal numbers after `#`, or equal texts.
#[tactic(auto, unfolding(crate::specs::Columns::cause_of))]
fn same_concrete(one: &[u8], other: &[u8]) -> bool
    requires one { cause_of value_format one.now ≡ None }
    requires other { cause_of value_format other.now ≡ None }
    ensures { result ≡ value_eq (value_of one.now) (value_of other.now) }
{
    match one {
        [b'#', one @ ..] => match other {
            [b'#', other @ ..] => decimal(one) == decimal(other),
            _ => false,
        },
        _ => one == other,
    }
}
