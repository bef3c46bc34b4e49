//! Tests of the source of folders: which files it lists and opens, and its faults.
use crate::test_folders::{Node, TestFolders};
use query_tool::FolderSource;
use release_files::{FileSource, SourceFault};
use std::alloc::{AllocError, Global};
use std::io::ErrorKind;

// The nodes of the file system. The folder `edition/one/two/again` is the same folder as `edition`,
// as if it were a link to it.
const NODES: &[(&str, Node)] = &[
    ("edition", Node::Folder(b"top\0one\0", "/")),
    ("edition/top", Node::File(b"of edition")),
    ("edition/one", Node::Folder(b"two\0closed\0", "/dev")),
    (
        "edition/one/closed",
        Node::Unopened(ErrorKind::PermissionDenied),
    ),
    (
        "edition/one/two",
        Node::Folder(b"spoiled\0again\0large\0file\0", "/tmp"),
    ),
    ("edition/one/two/again", Node::Folder(b"top\0", "/")),
    ("edition/one/two/file", Node::File(b"of two")),
    (
        "edition/one/two/large",
        Node::Unread(ErrorKind::OutOfMemory),
    ),
    ("edition/one/two/spoiled", Node::Unread(ErrorKind::Other)),
    ("extension", Node::Folder(b"top\0", "/")),
    ("extension/top", Node::File(b"of extension")),
    ("locked", Node::Folder(b"one\0", "/")),
    ("locked/one", Node::Unlisted(ErrorKind::PermissionDenied)),
    ("unseen", Node::Folder(b"file\0", "/")),
    ("unseen/file", Node::Unseen(ErrorKind::OutOfMemory)),
];

type Source<'a> = FolderSource<'a, TestFolders>;

// The name of a file that is opened and read, its first bytes or the fault, and the source's count
// of failures after that.
type Reading<'a> = (&'a str, Result<&'a [u8], SourceFault>, u64);

// Folders, the names of their files or the fault of listing them, and the files that are read then.
type Case<'a> = (
    &'a [&'a str],
    Result<&'a [&'a str], SourceFault>,
    &'a [Reading<'a>],
);

const CASES: &[Case<'static>] = &[
    (
        &["edition"],
        Ok(&[
            "top",
            "one/closed",
            "one/two/file",
            "one/two/large",
            "one/two/spoiled",
        ]),
        &[
            ("top", Ok(b"of edition"), 0),
            ("one/closed", Err(SourceFault::Device), 1),
            ("one/two/file", Ok(b"of two"), 1),
            ("one/two/large", Err(SourceFault::Memory), 1),
            ("one/two/spoiled", Err(SourceFault::Device), 2),
            ("one", Err(SourceFault::Device), 3),
            ("1/top", Err(SourceFault::Device), 4),
        ],
    ),
    (
        &["extension", "edition"],
        Ok(&[
            "1/top",
            "2/top",
            "2/one/closed",
            "2/one/two/file",
            "2/one/two/large",
            "2/one/two/spoiled",
        ]),
        &[
            ("1/top", Ok(b"of extension"), 0),
            ("2/top", Ok(b"of edition"), 0),
            ("3/top", Err(SourceFault::Device), 1),
            ("top", Err(SourceFault::Device), 2),
        ],
    ),
    (
        &["locked"],
        Err(SourceFault::Device),
        &[("one", Err(SourceFault::Device), 2)],
    ),
    (
        &["unseen"],
        Err(SourceFault::Memory),
        &[("file", Err(SourceFault::Memory), 0)],
    ),
    (&["extension", "nowhere"], Err(SourceFault::Device), &[]),
];

#[test]
fn gives_the_files_of_folders(rt: HostRuntime) {
    for (place, case) in CASES.iter().enumerate() {
        assert!(rt; holds(&rt, case) == Ok(true), "{place}");
    }
}

#[test]
fn draws_the_seed_from_the_system(rt: HostRuntime) {
    assert!(rt; seed_of(&rt, Some(0x5a)) == Ok(0x5a5a5a5a_5a5a5a5a_5a5a5a5a_5a5a5a5a));
}

// Returns the seed of a source over a file system where each random byte has the value `random`.
fn seed_of(rt: &HostRuntime, random: Option<u8>) -> Result<u128, AllocError> {
    let folders = texts(rt.alloc(), &["extension"])?;
    let system = TestFolders::new(rt.clone()?, NODES, random);
    let source = FolderSource::new(&system, folders.as_slice());
    Ok(source.seed().bits)
}

#[test]
fn lists_nothing_where_no_seed_is_drawn(rt: HostRuntime) {
    assert!(rt; fails_without_seed(&rt) == Ok(true));
}

// Whether each listing fails as a failing device does, if the system gives no random bytes.
fn fails_without_seed(rt: &HostRuntime) -> Result<bool, AllocError> {
    let folders = texts(rt.alloc(), &["extension"])?;
    let system = TestFolders::new(rt.clone()?, NODES, None);
    let mut source = FolderSource::new(&system, folders.as_slice());
    Ok(
        lists(&mut source, Err(SourceFault::Device))
            && source.failures() == 1
            && lists(&mut source, Err(SourceFault::Device))
            && source.failures() == 2,
    )
}

// Whether a source over the folders of a case gives the names and the bytes of the case.
fn holds(rt: &HostRuntime, case: &Case<'_>) -> Result<bool, AllocError> {
    let folders = texts(rt.alloc(), case.0)?;
    let system = TestFolders::new(rt.clone()?, NODES, Some(0));
    Ok(source_gives(&system, folders.as_slice(), case))
}

fn texts(alloc: Global, words: &[&str]) -> Result<Vec<String>, AllocError> {
    let mut texts = Vec::new(alloc);
    for word in words {
        texts.push(String::from_str(alloc, word)?)?;
    }
    Ok(texts)
}

fn source_gives(system: &TestFolders, folders: &[String], case: &Case<'_>) -> bool {
    let mut source = FolderSource::new(system, folders);
    lists(&mut source, case.1) && gives_all(&mut source, case.2)
}

fn lists(source: &mut Source<'_>, expected: Result<&[&str], SourceFault>) -> bool {
    match (source.list(), expected) {
        (Ok(names), Ok(expected)) => are_texts(names.as_slice(), expected),
        (Err(fault), Err(expected)) => fault == expected,
        _ => false,
    }
}

fn are_texts(names: &[String], expected: &[&str]) -> bool {
    for (name, expected) in names.iter().zip(expected) {
        if name.as_str() != *expected {
            return false;
        }
    }
    names.len() == expected.len()
}

fn gives_all(source: &mut Source<'_>, readings: &[Reading<'_>]) -> bool {
    for (name, expected, failures) in readings {
        if !gives(source, name, *expected) || source.failures() != *failures {
            return false;
        }
    }
    true
}

fn gives(source: &mut Source<'_>, name: &str, expected: Result<&[u8], SourceFault>) -> bool {
    let mut buffer = [0u8; 16];
    match (first_bytes(source, name, &mut buffer), expected) {
        (Ok(count), Ok(bytes)) => buffer.get(..count) == Some(bytes),
        (Err(fault), Err(expected)) => fault == expected,
        _ => false,
    }
}

fn first_bytes(
    source: &mut Source<'_>,
    name: &str,
    buffer: &mut [u8],
) -> Result<usize, SourceFault> {
    source.open(name)?;
    source.read(buffer)
}
