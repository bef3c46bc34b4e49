//! Tests of loading thousands of rows of each kind of file.
use crate::load_tests::{
    NAME, RELATIONSHIP_NAME, chain_file, concept_file, identifiers, push_number,
};
use release_files::NamedBytes;
use rf2_rows::{FileKind, header};
use sctid::SctId;
use snapshot::{Limits, LoadSnapshot, Snapshot};
use std::alloc::{AllocError, Global};
use std::process::Abort;
use std::test::Fail;

const ROWS: u64 = 3_000;

// Returns a file of a kind that has no more than its header.
fn begun(alloc: Global, kind: FileKind) -> Result<Vec<u8>, AllocError> {
    let mut bytes = Vec::from_slice(alloc, header(kind).as_bytes())?;
    bytes.push(b'\n')?;
    Ok(bytes)
}

// Returns a description file with a fully specified name for each concept.
fn description_file(
    alloc: Global,
    ids: &[SctId],
    concepts: &[SctId],
) -> Result<Vec<u8>, AllocError> {
    let mut bytes = begun(alloc, FileKind::Description)?;
    for (id, concept) in ids.iter().zip(concepts) {
        push_number(&mut bytes, *id)?;
        bytes.extend_from_slice(b"\t20240101\t1\t900000000000207008\t")?;
        push_number(&mut bytes, *concept)?;
        bytes.extend_from_slice(b"\ten\t900000000000003001\tName (test)\t900000000000448009\n")?;
    }
    Ok(bytes)
}

// Returns a file with a concrete value for each concept.
fn concrete_file(alloc: Global, ids: &[SctId], concepts: &[SctId]) -> Result<Vec<u8>, AllocError> {
    let mut bytes = begun(alloc, FileKind::Concrete)?;
    for (id, concept) in ids.iter().zip(concepts) {
        push_number(&mut bytes, *id)?;
        bytes.extend_from_slice(b"\t20240101\t1\t900000000000207008\t")?;
        push_number(&mut bytes, *concept)?;
        bytes.extend_from_slice(b"\t#2.5\t1\t105000\t900000000000011006\t900000000000451002\n")?;
    }
    Ok(bytes)
}

// Returns a file in which each concept is a member of the reference set of the first concept.
fn member_file(alloc: Global, concepts: &[SctId]) -> Result<Vec<u8>, AllocError> {
    let mut bytes = begun(alloc, FileKind::Member)?;
    let first = concepts.first();
    for (number, concept) in (100_000u64..).zip(concepts) {
        let mut digits = itoa::Buffer::new();
        bytes.extend_from_slice(b"00000000-0000-4000-8000-000000")?;
        bytes.extend_from_slice(digits.format(number).as_bytes())?;
        bytes.extend_from_slice(b"\t20240101\t1\t900000000000207008\t")?;
        if let Some(first) = first {
            push_number(&mut bytes, *first)?;
        }
        bytes.push(b'\t')?;
        push_number(&mut bytes, *concept)?;
        bytes.push(b'\n')?;
    }
    Ok(bytes)
}

// The loaded release has all rows of all five kinds.
#[test]
fn loads_some_thousand_rows_of_each_kind(rt: HostRuntime) -> Result<(), Fail> {
    let alloc = rt.alloc();
    let concepts = identifiers(&rt, alloc, b"00", ROWS)?;
    let descriptions = identifiers(&rt, alloc, b"01", ROWS)?;
    let relationships = identifiers(&rt, alloc, b"02", ROWS)?;
    let concept_bytes = concept_file(alloc, concepts.as_slice())?;
    let description_bytes = description_file(alloc, descriptions.as_slice(), concepts.as_slice())?;
    let isa_bytes = chain_file(alloc, relationships.as_slice(), concepts.as_slice())?;
    let concrete_bytes = concrete_file(alloc, relationships.as_slice(), concepts.as_slice())?;
    let member_bytes = member_file(alloc, concepts.as_slice())?;
    let file = |name, bytes| NamedBytes { name, bytes };
    let files = [
        file(
            "der2_Refset_SimpleSnapshot_INT_20240101.txt",
            member_bytes.as_slice(),
        ),
        file(NAME, concept_bytes.as_slice()),
        file(
            "sct2_Description_Snapshot-en_INT_20240101.txt",
            description_bytes.as_slice(),
        ),
        file(
            "sct2_RelationshipConcreteValues_Snapshot_INT_20240101.txt",
            concrete_bytes.as_slice(),
        ),
        file(RELATIONSHIP_NAME, isa_bytes.as_slice()),
    ];
    assert_loaded(&rt, alloc, &files)
}

fn assert_loaded(rt: &impl Abort, alloc: Global, files: &[NamedBytes<'_>]) -> Result<(), Fail> {
    let snapshot = Snapshot::load(alloc, files, "en", Limits::standard())?;
    assert_all_kept(rt, &snapshot);
    Ok(())
}

fn assert_all_kept(rt: &impl Abort, snapshot: &Snapshot) {
    assert_eq!(rt; snapshot.concept_count(), 3_000);
    assert_eq!(rt; snapshot.isa_rows().len(), 2_999);
    assert_eq!(rt; snapshot.member_rows().len(), 3_000);
    for number in 0..snapshot.concept_count() {
        assert!(rt; snapshot.name(number) == Some("Name (test)"));
    }
}
