//! Tests that the built-in files have exactly the rows of the tables in the definitions.
use sample_release::sample_files;
use std::alloc::{AllocError, Global};
use std::test::Fail;

// A table: the header with spaces for tabs, then for each row its identifier, whether it is active,
// and the columns after the module, with bars for tabs.
const TABLES: [(&str, &[&str]); 5] = [
    (
        "id effectiveTime active moduleId refsetId referencedComponentId",
        &[
            "00000000-0000-4000-8000-000000000001|1|108003|101009",
            "00000000-0000-4000-8000-000000000002|1|108003|103007",
            "00000000-0000-4000-8000-000000000003|1|108003|109006",
        ],
    ),
    (
        "id effectiveTime active moduleId definitionStatusId",
        &[
            "138875005|1|900000000000074008",
            "100005|1|900000000000074008",
            "101009|1|900000000000074008",
            "102002|1|900000000000074008",
            "103007|1|900000000000074008",
            "104001|1|900000000000074008",
            "105000|1|900000000000074008",
            "106004|1|900000000000074008",
            "107008|1|900000000000074008",
            "108003|1|900000000000074008",
            "109006|0|900000000000074008",
        ],
    ),
    (
        "id effectiveTime active moduleId conceptId languageCode typeId term caseSignificanceId",
        &[
            "100014|1|100005|en|900000000000013009|Alpha|900000000000448009",
            "101013|1|100005|en|900000000000003001|Alpha (finding)|900000000000448009",
            "102018|1|101009|en|900000000000003001|Beta (finding)|900000000000448009",
            "103011|1|102002|en|900000000000003001|Gamma (finding)|900000000000448009",
            "104017|1|103007|en|900000000000003001|Delta (finding)|900000000000448009",
            "105016|1|104001|en|900000000000003001|Type T (attribute)|900000000000448009",
            "106015|1|105000|en|900000000000003001|Type U (attribute)|900000000000448009",
            "107012|1|106004|en|900000000000003001|Value X (value)|900000000000448009",
            "108019|1|107008|en|900000000000003001|Value Y (value)|900000000000448009",
            "109010|1|138875005|en|900000000000003001|Root (test)|900000000000448009",
            "110017|1|103007|da|900000000000003001|Delta (fund)|900000000000448009",
        ],
    ),
    (
        "id effectiveTime active moduleId sourceId value relationshipGroup typeId characteristicTypeId modifierId",
        &[
            "114022|1|102002|#2.5|0|105000|900000000000011006|900000000000451002",
            "117026|1|103007|#3|1|105000|900000000000011006|900000000000451002",
        ],
    ),
    (
        "id effectiveTime active moduleId sourceId destinationId relationshipGroup typeId characteristicTypeId modifierId",
        &[
            "100022|1|100005|138875005|0|116680003|900000000000011006|900000000000451002",
            "101021|1|106004|138875005|0|116680003|900000000000011006|900000000000451002",
            "102025|1|104001|138875005|0|116680003|900000000000011006|900000000000451002",
            "103024|1|105000|138875005|0|116680003|900000000000011006|900000000000451002",
            "104029|1|108003|138875005|0|116680003|900000000000011006|900000000000451002",
            "105028|1|101009|100005|0|116680003|900000000000011006|900000000000451002",
            "106027|1|102002|100005|0|116680003|900000000000011006|900000000000451002",
            "107020|1|103007|101009|0|116680003|900000000000011006|900000000000451002",
            "108026|1|103007|102002|0|116680003|900000000000011006|900000000000451002",
            "109023|1|107008|106004|0|116680003|900000000000011006|900000000000451002",
            "110029|1|101009|106004|1|104001|900000000000011006|900000000000451002",
            "111025|1|101009|107008|1|105000|900000000000011006|900000000000451002",
            "112021|1|102002|106004|1|104001|900000000000011006|900000000000451002",
            "113027|1|102002|107008|2|105000|900000000000011006|900000000000451002",
            "115023|1|103007|107008|0|104001|900000000000011006|900000000000451002",
            "116024|1|103007|107008|0|105000|900000000000011006|900000000000451002",
            "118020|1|103007|107008|2|105000|900000000000011006|900000000000451002",
            "119028|1|100005|106004|0|104001|900000000000010007|900000000000451002",
            "120023|1|100005|109006|0|105000|900000000000011006|900000000000451002",
            "121022|0|100005|107008|0|104001|900000000000011006|900000000000451002",
        ],
    ),
];

// Appends a line, with tabs in place of the byte `between`. If the line is a row, it also gets the
// effective time and the module.
fn push_line(bytes: &mut Vec<u8>, text: &str, between: u8, is_row: bool) -> Result<(), AllocError> {
    let mut column = 0u32;
    for byte in text.as_bytes() {
        if *byte != between {
            bytes.push(*byte)?;
            continue;
        }
        column = column.saturating_add(1);
        bytes.push(b'\t')?;
        if is_row && column == 1 {
            bytes.extend_from_slice(b"20240101\t")?;
        }
        if is_row && column == 2 {
            bytes.extend_from_slice(b"900000000000207008\t")?;
        }
    }
    bytes.extend_from_slice(b"\r\n")
}

// Returns the file that a table stands for.
fn file_of(alloc: Global, header: &str, rows: &[&str]) -> Result<Vec<u8>, AllocError> {
    let mut bytes = Vec::new(alloc);
    push_line(&mut bytes, header, b' ', false)?;
    for row in rows {
        push_line(&mut bytes, row, b'|', true)?;
    }
    Ok(bytes)
}

#[test]
fn files_are_those_of_the_tables(rt: HostRuntime) -> Result<(), Fail> {
    let files = sample_files();
    for (file, (header, rows)) in files.iter().zip(&TABLES) {
        let wanted = file_of(rt.alloc(), header, rows)?;
        assert!(rt; file.bytes == wanted.as_slice(), "{}", file.name);
    }
    for pair in files.windows(2) {
        assert!(rt; pair[0].name.as_bytes() < pair[1].name.as_bytes());
    }
    Ok(())
}
