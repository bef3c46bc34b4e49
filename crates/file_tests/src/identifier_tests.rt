//! Tests with texts that are identifiers and texts that are not.
use arrayvec::ArrayVec;
use sctid::{IdFault, Part, SctId};
use std::process::Abort;

// For each text, its part as an identifier, or the number of its fault.
const TEXTS: &[(&[u8], Result<Part, IdFault>)] = &[
    (b"100005", Ok(Part::Concept)),
    (b"138875005", Ok(Part::Concept)),
    (b"116680003", Ok(Part::Concept)),
    (b"73211009", Ok(Part::Concept)),
    (b"731000124108", Ok(Part::Concept)),
    (b"32506021000036107", Ok(Part::Concept)),
    (b"900000000000207008", Ok(Part::Concept)),
    (b"100014", Ok(Part::Description)),
    (b"122026", Ok(Part::Relationship)),
    (b"10000", Err(IdFault::Length)),
    (b"", Err(IdFault::Length)),
    (b"1234567890123456789", Err(IdFault::Length)),
    (b"10000a", Err(IdFault::Digit)),
    (b"+10005", Err(IdFault::Digit)),
    (b"13887500:", Err(IdFault::Digit)),
    (b"9/0000000000207008", Err(IdFault::Digit)),
    (b"010005", Err(IdFault::LeadingZero)),
    (b"100035", Err(IdFault::Partition)),
    (b"100105", Err(IdFault::Partition)),
    (b"100006", Err(IdFault::Check)),
    (b"100016", Err(IdFault::Check)),
];

fn part_of(text: &[u8]) -> Result<Part, IdFault> {
    Ok(SctId::parse(text)?.part())
}

fn assert_parsed(rt: &impl Abort, texts: &[(&[u8], Result<Part, IdFault>)]) {
    for (text, want) in texts {
        assert!(rt; part_of(text) == *want, "{text:?}");
    }
}

#[test]
fn parses(rt: HostRuntime) {
    assert_parsed(&rt, TEXTS);
}

// Returns the number of the identifier in `text`. It writes the identifier into `digits` twice,
// because the second write has to replace the first.
fn number_written(digits: &mut ArrayVec<u8, 18>, text: &[u8]) -> Result<u64, IdFault> {
    let id = SctId::parse(text)?;
    id.write_to(digits);
    id.write_to(digits);
    Ok(id.number())
}

#[test]
fn writes_digits(rt: HostRuntime) {
    let mut digits = ArrayVec::new();
    let number = number_written(&mut digits, b"138875005");
    assert!(rt;
        number == Ok(138875005) && digits.as_slice() == b"138875005".as_slice(),
        "138875005 is valid"
    );
}
