//! The kinds of file that the engine reads, by the names of the files, and the header of each kind.
ghost use Rattle.std.specs.Prelude.{◌≡◌, None, Some, IsNone, IfSome};
ghost use Rattle.rf2_rows.specs.Columns.{header_of};
ghost use Rattle.rf2_rows.specs.Files.{file_kind_of, file_name, stem_of, elements_of, kind_of_elements, kind_named};
ghost use Rattle.rf2_rows.specs.Files.{component_kind, reference_set_kind, is_snapshot, is_terminology, is_reference_set};

use bstr::ByteSlice;
use text_parts::cut;

/// The kind of a file: what its rows describe.
#[derive(Clone, Copy, Debug, PartialEq, Eq)]
pub enum FileKind {
    /// Concepts (Release File Specification, "Concept file").
    Concept,
    /// Descriptions of concepts (Release File Specification, "Description file").
    Description,
    /// Relationships between concepts (Release File Specification, "Relationship file").
    Relationship,
    /// Attributes of concepts whose values are numbers or texts (Release File Specification,
    /// "Relationship concrete values file").
    Concrete,
    /// Members of simple reference sets, whose files have only the columns that all reference set
    /// files have (Release File Specification, "Simple reference set").
    Member,
}

/// Returns the kind of a Snapshot file by its name (Release File Specification, "File naming
/// convention"). `name` may be a path: only the part after the last `/` counts. Returns `None` for
/// a file that the engine does not read.
#[tactic(auto, unfolding(crate::specs::Files::file_kind_of))]
pub fn file_kind(name: &str) -> Option<FileKind>
    ensures { result ≡ file_kind_of name.now }
{
    kind_of_stem(stem_of(file_name(name.as_bytes()))?)
}

/// Returns the header, which is the first line of each file of `kind`: the names of its columns,
/// joined by tabs.
#[tactic(auto, unfolding(crate::specs::Columns::header_of))]
pub fn header(kind: FileKind) -> &'static str
    ensures { result.now ≡ header_of kind }
{
    match kind {
        FileKind::Concept => "id\teffectiveTime\tactive\tmoduleId\tdefinitionStatusId",
        FileKind::Description => {
            "id\teffectiveTime\tactive\tmoduleId\tconceptId\tlanguageCode\ttypeId\tterm\tcaseSignificanceId"
        }
        FileKind::Relationship => {
            "id\teffectiveTime\tactive\tmoduleId\tsourceId\tdestinationId\trelationshipGroup\ttypeId\tcharacteristicTypeId\tmodifierId"
        }
        FileKind::Concrete => {
            "id\teffectiveTime\tactive\tmoduleId\tsourceId\tvalue\trelationshipGroup\ttypeId\tcharacteristicTypeId\tmodifierId"
        }
        FileKind::Member => "id\teffectiveTime\tactive\tmoduleId\trefsetId\treferencedComponentId",
    }
}

// Returns what follows the last `/` of `path`, or all of it if it has no `/`.
#[tactic(auto, using(crate::proofs::Texts::names_in_paths))]
fn file_name(path: &[u8]) -> &[u8]
    ensures { result.now ≡ file_name path.now }
{
    match path.rfind_byte(b'/') {
        Some(at) => &path[at + 1..],
        None => path,
    }
}

// Returns a file's name without the extension `.txt`, or `None` if the name does not end so.
fn stem_of(name: &[u8]) -> Option<&[u8]>
    ensures other { IsNone result → stem_of name.now ≡ None }
    ensures stem { IfSome result (λ stem. stem_of name.now ≡ Some stem.now) }
{
    if name.ends_with(b".txt") {
        Some(&name[..name.len() - 4])
    } else {
        None
    }
}

// Returns the kind of a Snapshot file. `stem` is its name without the extension; the first three
// elements of it, with `_` between them, decide.
fn kind_of_stem(stem: &[u8]) -> Option<FileKind>
    ensures { result ≡ kind_of_elements (elements_of stem.now) }
{
    let (file_type, rest) = cut(stem, b'_');
    let (content, rest) = cut(rest?, b'_');
    let (subtype, _) = cut(rest?, b'_');
    if is_snapshot(subtype) {
        kind_named(file_type, content)
    } else {
        None
    }
}

// Returns the kind of a file by the first two elements of its name, `file_type` and `content`.
fn kind_named(file_type: &[u8], content: &[u8]) -> Option<FileKind>
    ensures { result ≡ kind_named file_type.now content.now }
{
    if is_terminology(file_type) {
        component_kind(content)
    } else if is_reference_set(file_type) {
        reference_set_kind(content)
    } else {
        None
    }
}

// Whether `file_type`, the first element of a file's name, is that of a terminology file, released
// or for test.
fn is_terminology(file_type: &[u8]) -> bool
    ensures { result ≡ is_terminology file_type.now }
{
    file_type == b"sct2".as_slice() || file_type == b"xsct2".as_slice()
}

// Whether `file_type`, the first element of a file's name, is that of a reference set file,
// released or for test.
fn is_reference_set(file_type: &[u8]) -> bool
    ensures { result ≡ is_reference_set file_type.now }
{
    file_type == b"der2".as_slice() || file_type == b"xder2".as_slice()
}

// Returns the kind of a terminology file by `content`, the second element of its name.
fn component_kind(content: &[u8]) -> Option<FileKind>
    ensures { result ≡ component_kind content.now }
{
    if content == b"Concept".as_slice() {
        Some(FileKind::Concept)
    } else if content == b"Description".as_slice() {
        Some(FileKind::Description)
    } else if content == b"Relationship".as_slice() {
        Some(FileKind::Relationship)
    } else if content == b"RelationshipConcreteValues".as_slice() {
        Some(FileKind::Concrete)
    } else {
        None
    }
}

// Returns the kind of a reference set file by `content`, the second element of its name.
fn reference_set_kind(content: &[u8]) -> Option<FileKind>
    ensures { result ≡ reference_set_kind content.now }
{
    if content == b"Refset".as_slice() {
        Some(FileKind::Member)
    } else {
        None
    }
}

// Whether `subtype`, the third element of a file's name, is that of a Snapshot file. `Snapshot`
// ends it, or is followed by a hyphen and a language. The mark of an extension may stand before.
#[tactic(auto, using(crate::proofs::Texts::holds_tells))]
fn is_snapshot(subtype: &[u8]) -> bool
    ensures { result ≡ is_snapshot subtype.now }
{
    subtype.ends_with(b"Snapshot") || subtype.contains_str(b"Snapshot-")
}
