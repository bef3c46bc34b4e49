//! Tests of the kinds of files by their names, and of rows of each kind.
use rf2_rows::{
    ConceptRow, ConcreteRow, Decimal, DescriptionRow, FileKind, MemberRow, RelationshipRow, Row,
    RowCause, RowFault, RowReader, Value, file_kind, header, read_row,
};
use sctid::{IdFault, SctId};
use std::alloc::{AllocError, Global};
use std::process::Abort;

const CONCEPT_FILES: &[&str] = &[
    "sct2_Concept_Snapshot_INT_20240101.txt",
    "xsct2_Concept_Snapshot_INT_20240101.txt",
    "Snapshot/Terminology/sct2_Concept_Snapshot-en_INT_20240101.txt",
    "a_b/c/sct2_Concept_XYSnapshot_XY_20240101.txt",
    "sct2_Concept_XYSnapshot-en-XY_XY_20240101.txt",
    "sct2_Concept_Snapshot.txt",
];

fn assert_kind(rt: &impl Abort, kind: Option<FileKind>, names: &[&str]) {
    for name in names {
        assert!(rt; file_kind(name) == kind, "{name}");
    }
}

#[test]
fn knows_snapshots(rt: HostRuntime) {
    assert_kind(&rt, Some(FileKind::Concept), CONCEPT_FILES);
    assert_kind(
        &rt,
        Some(FileKind::Relationship),
        &["sct2_Relationship_Snapshot_INT_20240101.txt"],
    );
    assert_kind(
        &rt,
        Some(FileKind::Description),
        &[
            "sct2_Description_Snapshot-en_INT_20240101.txt",
            "Snapshot/Terminology/xsct2_Description_XYSnapshot-en-XY_XY_20240101.txt",
            "sct2_Description_Snapshot_INT_20240101.txt",
        ],
    );
    assert_kind(
        &rt,
        Some(FileKind::Concrete),
        &[
            "sct2_RelationshipConcreteValues_Snapshot_INT_20240101.txt",
            "Snapshot/Terminology/xsct2_RelationshipConcreteValues_XYSnapshot-en_XY_20240101.txt",
        ],
    );
    assert_kind(
        &rt,
        Some(FileKind::Member),
        &[
            "der2_Refset_SimpleSnapshot_INT_20240101.txt",
            "Snapshot/Refset/Content/xder2_Refset_SimpleSnapshot-en_INT_20240101.txt",
            "der2_Refset_Snapshot.txt",
        ],
    );
}

#[test]
fn passes_over_other_files(rt: HostRuntime) {
    assert_kind(
        &rt,
        None,
        &[
            "sct2_Concept_Delta_INT_20240101.txt",
            "sct2_Concept_Full_INT_20240101.txt",
            "sct2_Concept_Full_Snapshot.txt",
            "sct2_Description_Delta-en_INT_20240101.txt",
            "sct2_Descriptions_Snapshot-en_INT_20240101.txt",
            "sct2_TextDefinition_Snapshot-en_INT_20240101.txt",
            "sct2_Concept_SnapshotXY_INT_20240101.txt",
            "sct2_StatedRelationship_Snapshot_INT_20240101.txt",
            "der2_cRefset_LanguageSnapshot-en_INT_20240101.txt",
            "der2_sRefset_SimpleMapSnapshot_INT_20240101.txt",
            "der2_Refset_SimpleDelta_INT_20240101.txt",
            "der2_Concept_Snapshot_INT_20240101.txt",
            "sct2_Refset_SimpleSnapshot_INT_20240101.txt",
            "sct2_RelationshipConcreteValues_Full_INT_20240101.txt",
            "sct2_RelationshipConcreteValue_Snapshot_INT_20240101.txt",
            "zder2_Refset_SimpleSnapshot_INT_20240101.txt",
            "zsct2_Concept_Snapshot_INT_20240101.txt",
            "sct2_Concept_Snapshot_INT_20240101.txt.zip",
            "sct2_Concept_Snapshot_INT_20240101.txt/",
            "sct2_Concept.txt",
            "sct2_Concept_Snapshot",
            "",
        ],
    );
}

fn assert_headers(rt: &impl Abort, headers: &[(FileKind, &str)]) {
    for (kind, text) in headers {
        assert!(rt; header(*kind) == *text, "{text}");
    }
}

fn has_ends_of_relationships(text: &str) -> bool {
    text.starts_with("id\teffectiveTime\tactive\tmoduleId\tsourceId\t")
        && text.ends_with("\ttypeId\tcharacteristicTypeId\tmodifierId")
}

#[test]
fn has_the_headers_of_the_standard(rt: HostRuntime) {
    let concept = "id\teffectiveTime\tactive\tmoduleId\tdefinitionStatusId";
    let description =
        "id\teffectiveTime\tactive\tmoduleId\tconceptId\tlanguageCode\ttypeId\tterm\tcaseSignificanceId";
    let concrete =
        "id\teffectiveTime\tactive\tmoduleId\tsourceId\tvalue\trelationshipGroup\ttypeId\tcharacteristicTypeId\tmodifierId";
    let member = "id\teffectiveTime\tactive\tmoduleId\trefsetId\treferencedComponentId";
    assert_headers(
        &rt,
        &[
            (FileKind::Concept, concept),
            (FileKind::Description, description),
            (FileKind::Concrete, concrete),
            (FileKind::Member, member),
        ],
    );
    assert!(rt; has_ends_of_relationships(header(FileKind::Relationship)));
}

#[test]
fn reads_a_concept(rt: HostRuntime) {
    let line = b"100005\t20240101\t1\t900000000000207008\t900000000000074008";
    assert!(rt;
        matches!(read_row(FileKind::Concept, line), Ok(Row::Concept(row)) if is_concept(&row))
    );
}

fn is_concept(row: &ConceptRow) -> bool {
    let ids = [row.id, row.module_id, row.definition_status_id];
    are_numbered(&ids, &[100005, 900000000000207008, 900000000000074008])
        && row.effective_time == Some(20240101)
        && row.active
}

fn are_numbered(ids: &[SctId], numbers: &[u64]) -> bool {
    ids.len() == numbers.len()
        && ids
            .iter()
            .zip(numbers)
            .all(|(id, number)| id.number() == *number)
}

#[test]
fn reads_a_description(rt: HostRuntime) {
    let line = "100014\t20240101\t1\t100005\t101009\tfr\t102002\tMaladie de Ménière\t103007";
    let row = read_row(FileKind::Description, line.as_bytes());
    assert!(rt; matches!(row, Ok(Row::Description(row)) if is_description(&row)));
}

fn is_description(row: &DescriptionRow<'_>) -> bool {
    let ids = [
        row.id,
        row.module_id,
        row.concept_id,
        row.type_id,
        row.case_significance_id,
    ];
    are_numbered(&ids, &[100014, 100005, 101009, 102002, 103007])
        && row.effective_time == Some(20240101)
        && row.active
        && has_texts(row, "fr", "Maladie de Ménière")
}

fn has_texts(row: &DescriptionRow<'_>, language_code: &str, term: &str) -> bool {
    row.language_code == language_code && row.term == term
}

#[test]
fn reads_a_relationship(rt: HostRuntime) {
    let line = b"100022\t\t0\t100005\t101009\t102002\t999999999\t103007\t104001\t105000";
    let row = read_row(FileKind::Relationship, line);
    assert!(rt; matches!(row, Ok(Row::Relationship(row)) if is_relationship(&row)));
}

fn is_relationship(row: &RelationshipRow) -> bool {
    let ids = [
        row.id,
        row.module_id,
        row.source_id,
        row.destination_id,
        row.type_id,
        row.characteristic_type_id,
        row.modifier_id,
    ];
    are_numbered(
        &ids,
        &[100022, 100005, 101009, 102002, 103007, 104001, 105000],
    ) && row.effective_time.is_none()
        && !row.active
        && row.relationship_group == 999999999
}

#[test]
fn reads_a_concrete_value(rt: HostRuntime) {
    let line = b"100022\t20240101\t1\t100005\t101009\t#2.5\t7\t103007\t104001\t105000";
    let row = read_row(FileKind::Concrete, line);
    assert!(rt; matches!(row, Ok(Row::Concrete(row)) if is_concrete_value(&row)));
}

fn is_concrete_value(row: &ConcreteRow<'_>) -> bool {
    let ids = [
        row.id,
        row.module_id,
        row.source_id,
        row.type_id,
        row.characteristic_type_id,
        row.modifier_id,
    ];
    are_numbered(&ids, &[100022, 100005, 101009, 103007, 104001, 105000])
        && row.effective_time == Some(20240101)
        && row.active
        && row.value == Value::Decimal(Decimal(2_500_000_000_000_000_000))
        && row.relationship_group == 7
}

fn value_of(line: &[u8]) -> Option<Value<'_>> {
    match read_row(FileKind::Concrete, line) {
        Ok(Row::Concrete(row)) => Some(row.value),
        _ => None,
    }
}

// Checks that the value of each line is the given number, in units of 10^-18.
fn assert_numbers(rt: &impl Abort, lines: &[(&[u8], i128)]) {
    for (line, number) in lines {
        let value = Value::Decimal(Decimal(*number));
        assert!(rt; value_of(line) == Some(value), "{number}");
    }
}

// Checks that the value of each line is the given text.
fn assert_texts(rt: &impl Abort, lines: &[(&[u8], &[u8])]) {
    for (line, text) in lines {
        assert!(rt; value_of(line) == Some(Value::Other(text)), "{text:?}");
    }
}

#[test]
fn reads_numbers(rt: HostRuntime) {
    const ONE: i128 = 1_000_000_000_000_000_000;
    assert_numbers(
        &rt,
        &[
            (
                b"100022\t\t1\t100005\t100005\t#0\t0\t100005\t100005\t100005",
                0,
            ),
            (
                b"100022\t\t1\t100005\t100005\t#007\t0\t100005\t100005\t100005",
                7 * ONE,
            ),
            (
                b"100022\t\t1\t100005\t100005\t#+12\t0\t100005\t100005\t100005",
                12 * ONE,
            ),
            (
                b"100022\t\t1\t100005\t100005\t#-12\t0\t100005\t100005\t100005",
                -12 * ONE,
            ),
            (
                b"100022\t\t1\t100005\t100005\t#-0.5\t0\t100005\t100005\t100005",
                -ONE / 2,
            ),
            (
                b"100022\t\t1\t100005\t100005\t#-0\t0\t100005\t100005\t100005",
                0,
            ),
            (
                b"100022\t\t1\t100005\t100005\t#1.05\t0\t100005\t100005\t100005",
                ONE + ONE / 20,
            ),
            (
                b"100022\t\t1\t100005\t100005\t#1.500\t0\t100005\t100005\t100005",
                ONE + ONE / 2,
            ),
            (
                b"100022\t\t1\t100005\t100005\t#-0.000000000000000001\t0\t100005\t100005\t100005",
                -1,
            ),
            (
                b"100022\t\t1\t100005\t100005\t#999999999999999999.999999999999999999\t0\t100005\t100005\t100005",
                ONE * ONE - 1,
            ),
        ],
    );
}

#[test]
fn reads_other_values(rt: HostRuntime) {
    assert_texts(
        &rt,
        &[
            (
                b"100022\t\t1\t100005\t100005\t\t0\t100005\t100005\t100005",
                b"",
            ),
            (
                b"100022\t\t1\t100005\t100005\t2.5\t0\t100005\t100005\t100005",
                b"2.5",
            ),
            (
                b"100022\t\t1\t100005\t100005\t-#2\t0\t100005\t100005\t100005",
                b"-#2",
            ),
            (
                b"100022\t\t1\t100005\t100005\ttrue\t0\t100005\t100005\t100005",
                b"true",
            ),
        ],
    );
}

#[test]
fn reads_a_member(rt: HostRuntime) {
    let line = b"80000a05-c6db-5a02-9b8a-0b1c2d3e4f50\t20240101\t1\t100005\t101009\t100014";
    let upper = b"80000A05-C6DB-5A02-9B8A-0B1C2D3E4F50\t20240101\t1\t100005\t101009\t100014";
    let row = read_row(FileKind::Member, line);
    assert!(rt; matches!(row, Ok(Row::Member(row)) if is_member(&row)));
    assert!(rt; is_one_member(upper, line));
}

fn is_one_member(one: &[u8], other: &[u8]) -> bool {
    read_row(FileKind::Member, one) == read_row(FileKind::Member, other)
}

fn is_member(row: &MemberRow) -> bool {
    let ids = [row.module_id, row.refset_id, row.referenced_component_id];
    row.id.as_u128() == 0x80000a05_c6db_5a02_9b8a_0b1c2d3e4f50
        && are_numbered(&ids, &[100005, 101009, 100014])
        && row.effective_time == Some(20240101)
        && row.active
}

// Returns a description row whose language code has `code` bytes and whose term has `term` bytes.
fn description_with(alloc: Global, code: usize, term: usize) -> Result<Vec<u8>, AllocError> {
    let mut line = Vec::from_slice(alloc, b"100014\t20240101\t1\t900000000000207008\t100005\t")?;
    push_letters(&mut line, code)?;
    line.extend_from_slice(b"\t900000000000013009\t")?;
    push_letters(&mut line, term)?;
    line.extend_from_slice(b"\t900000000000448009")?;
    Ok(line)
}

fn push_letters(line: &mut Vec<u8>, count: usize) -> Result<(), AllocError> {
    for _ in 0..count {
        line.push(b'x')?;
    }
    Ok(())
}

// Fields are cut at tabs. The two texts have each length from 0 to 65, so that a tab occurs at each
// place of a block of 64 bytes.
#[test]
fn cuts_at_a_tab_anywhere(rt: HostRuntime) -> Result<(), AllocError> {
    for code in 0..66usize {
        for term in 0..66usize {
            let line = description_with(rt.alloc(), code, term)?;
            assert_lengths(&rt, line.as_slice(), code, term);
        }
    }
    Ok(())
}

fn assert_lengths(rt: &impl Abort, line: &[u8], code: usize, term: usize) {
    let lengths = match read_row(FileKind::Description, line) {
        Ok(Row::Description(row)) => Some((row.language_code.len(), row.term.len())),
        _ => None,
    };
    assert!(rt; lengths == Some((code, term)), "{code} and {term}");
}

// A line that consists of tabs has one field more than tabs.
#[test]
fn counts_fields(rt: HostRuntime) {
    for length in 0..66usize {
        let line = [b'\t'; 66];
        assert!(rt; has_fields(&line[..length]) == (length == 9), "{length}");
    }
}

fn has_fields(line: &[u8]) -> bool {
    match read_row(FileKind::Relationship, line) {
        Ok(_) => true,
        Err(fault) => fault.cause != RowCause::Fields,
    }
}

// Returns the module and the definition status of a concept row, or `None` for a row of another
// kind.
fn concept_of(reader: &mut RowReader, line: &[u8]) -> Result<Option<(u64, u64)>, RowFault> {
    match reader.read_row(FileKind::Concept, line) {
        Ok(Row::Concept(row)) => Ok(Some((
            row.module_id.number(),
            row.definition_status_id.number(),
        ))),
        Ok(_) => Ok(None),
        Err(fault) => Err(fault),
    }
}

// Checks the module and the definition status of each row, or its fault. One reader reads all rows,
// one after the other, because a reader keeps identifiers from one row to the next.
fn assert_concepts(rt: &impl Abort, rows: &[(&[u8], Result<Option<(u64, u64)>, RowFault>)]) {
    let mut reader = RowReader::new();
    for (line, expected) in rows {
        let found = concept_of(&mut reader, line);
        assert!(rt; found == *expected, "{found:?} in place of {expected:?}");
    }
}

#[test]
fn reads_concepts_in_turn(rt: HostRuntime) {
    assert_concepts(
        &rt,
        &[
            (
                b"100005\t20240101\t1\t900000000000207008\t900000000000074008",
                Ok(Some((900000000000207008, 900000000000074008))),
            ),
            (
                b"101009\t20240101\t1\t900000000000207008\t900000000000073002",
                Ok(Some((900000000000207008, 900000000000073002))),
            ),
            (
                b"102002\t20240101\t1\t900000000000012004\t900000000000073002",
                Ok(Some((900000000000012004, 900000000000073002))),
            ),
            (
                b"103007\t20240101\t1\t900000000000012005\t900000000000073002",
                Err(RowFault {
                    cause: RowCause::Id(IdFault::Check),
                    column: 4,
                }),
            ),
            (
                b"104001\t20240101\t1\t9000000000000120044\t900000000000073002",
                Err(RowFault {
                    cause: RowCause::Id(IdFault::Length),
                    column: 4,
                }),
            ),
            (
                b"105000\t20240101\t1\t900000000000012004\t900000000000073003",
                Err(RowFault {
                    cause: RowCause::Id(IdFault::Check),
                    column: 5,
                }),
            ),
            (
                b"106004\t20240101\t1\t\t900000000000073002",
                Err(RowFault {
                    cause: RowCause::Id(IdFault::Length),
                    column: 4,
                }),
            ),
            (
                b"107008\t20240101\t1\t900000000000012004\t900000000000074008",
                Ok(Some((900000000000012004, 900000000000074008))),
            ),
        ],
    );
}

// Returns the characteristic type and the modifier of a relationship row, or `None` for any other
// line.
fn relationship_of(reader: &mut RowReader, line: &[u8]) -> Option<(u64, u64)> {
    match reader.read_row(FileKind::Relationship, line) {
        Ok(Row::Relationship(row)) => {
            Some((
                row.characteristic_type_id.number(),
                row.modifier_id.number(),
            ))
        }
        _ => None,
    }
}

// Checks the characteristic type and the modifier of each row. One reader reads all rows, one after
// the other.
fn assert_relationships(rt: &impl Abort, rows: &[(&[u8], (u64, u64))]) {
    let mut reader = RowReader::new();
    for (line, expected) in rows {
        let found = relationship_of(&mut reader, line);
        assert!(rt;
            found == Some(*expected),
            "{found:?} in place of {expected:?}"
        );
    }
}

#[test]
fn reads_relationships_in_turn(rt: HostRuntime) {
    assert_relationships(
        &rt,
        &[
            (
                b"100022\t20240101\t1\t900000000000207008\t100005\t138875005\t0\t116680003\t900000000000011006\t900000000000451002",
                (900000000000011006, 900000000000451002),
            ),
            (
                b"101021\t20240101\t1\t900000000000207008\t100005\t138875005\t0\t116680003\t900000000000010007\t900000000000451002",
                (900000000000010007, 900000000000451002),
            ),
            (
                b"102025\t20240101\t1\t900000000000207008\t100005\t138875005\t0\t116680003\t900000000000011006\t900000000000450001",
                (900000000000011006, 900000000000450001),
            ),
        ],
    );
}
