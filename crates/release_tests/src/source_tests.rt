//! Tests of loading the sample release from a source that gives its files in pieces, and from one
//! that fails.
use crate::load_tests::sample;
use release_files::{MemoryFiles, NamedBytes};
use rf2_rows::{FileKind, header};
use snapshot::{Limits, LoadFault, LoadSnapshot, Report, Snapshot};
use std::alloc::{AllocError, Global};
use std::process::Abort;
use std::test::Fail;

// The row counts of the sample.
const SAMPLE: Report = Report {
    files: 5,
    concepts: 10,
    isa: 10,
    attributes: 9,
    members: 2,
    names: 10,
    passed: 6,
};

// Checks the row counts of the sample. It borrows the snapshot, because a function that owns one is
// slow to prove.
fn assert_sample(rt: &impl Abort, snapshot: &Snapshot) {
    assert!(rt; snapshot.report() == SAMPLE);
}

// Checks that a load leaves the names of the sample's files, in byte order.
fn assert_names(rt: &impl Abort, names: &[String]) {
    let files = sample();
    assert!(rt; names.len() == files.len());
    for (name, file) in names.iter().zip(files.iter()) {
        assert!(rt; name.as_str() == file.name);
    }
}

// Loads the sample from pieces of `piece` bytes, and checks its row counts.
fn check_pieces(
    rt: &impl Abort,
    alloc: Global,
    files: &[NamedBytes<'_>],
    piece: usize,
) -> Result<(), LoadFault> {
    let mut source = MemoryFiles::new(alloc, files, piece.max(1), 0);
    let mut names = Vec::new(alloc);
    let snapshot = Snapshot::load_from(alloc, &mut source, &mut names, "en", Limits::standard())?;
    assert_sample(rt, &snapshot);
    assert_names(rt, names.as_slice());
    Ok(())
}

#[test]
fn loads_in_pieces(rt: HostRuntime) -> Result<(), Fail> {
    let [members, concepts, descriptions, values, relationships] = sample();
    // a source may list its files in any order
    let files = [relationships, concepts, values, members, descriptions];
    for piece in [1, 2, 3, 7, 4_096] {
        assert!(rt;
            check_pieces(&rt, rt.alloc(), &files, piece).is_ok(),
            "{piece}"
        );
    }
    Ok(())
}

// Returns the files of the sample, and `count` more files that have no more than a header.
fn with_headers(alloc: Global, count: usize) -> Result<Vec<NamedBytes<'static>>, AllocError> {
    let mut files = Vec::from_array(alloc, sample())?;
    for _ in 0..count {
        files.push(NamedBytes {
            name: "der2_Refset_SimpleSnapshot_INT_20240102.txt",
            bytes: header(FileKind::Member).as_bytes(),
        })?;
    }
    Ok(files)
}

// Loads files from pieces. Returns the row counts, and how many names the load leaves.
fn report_in_pieces(alloc: Global, files: &[NamedBytes<'_>]) -> Result<(Report, usize), LoadFault> {
    let mut source = MemoryFiles::new(alloc, files, PIECE, 0);
    let mut names = Vec::new(alloc);
    let snapshot = Snapshot::load_from(alloc, &mut source, &mut names, "en", Limits::standard())?;
    Ok((snapshot.report(), names.len()))
}

// Thousands of files load, if there is memory for them.
#[test]
fn loads_thousands_of_files(rt: HostRuntime) -> Result<(), Fail> {
    let files = with_headers(rt.alloc(), 5_000)?;
    let wanted = Report {
        files: 5_005,
        ..SAMPLE
    };
    assert!(rt; report_in_pieces(rt.alloc(), &files) == Ok((wanted, 5_005)));
    Ok(())
}

// How many bytes a read of the source returns, unless a test asks for another number.
const PIECE: usize = 1_000;

// Returns the index of the sample's file that call number `call` of the source uses, or `None`
// after the last call. Calls count from 1. The first call lists the files. For each file, one call
// opens it, one call reads each piece, and one more finds the end.
fn file_at_call(call: u64) -> Option<usize> {
    let mut calls = 1u64;
    for (place, file) in sample().iter().enumerate() {
        calls = calls.saturating_add(2 + file.bytes.len().div_ceil(PIECE) as u64);
        if call <= calls {
            return Some(place);
        }
    }
    None
}

// Loads the sample from a source whose call number `fail_at` fails. Returns the fault of the load,
// and how many names the load leaves.
fn failed(alloc: Global, fail_at: u64) -> (Option<LoadFault>, usize) {
    let files = sample();
    let mut source = MemoryFiles::new(alloc, &files, PIECE, fail_at);
    let mut names = Vec::new(alloc);
    let loaded = Snapshot::load_from(alloc, &mut source, &mut names, "en", Limits::standard());
    (loaded.err(), names.len())
}

// Returns what `failed` should return: a device fault with the file in use, or no fault if the load
// makes fewer calls.
fn failure_at(fail_at: u64) -> (Option<LoadFault>, usize) {
    if fail_at == 1 {
        return (Some(LoadFault::Device { file: None }), 0);
    }
    match file_at_call(fail_at) {
        Some(place) => (Some(LoadFault::Device { file: Some(place) }), 5),
        None => (None, 5),
    }
}

// Lets each call of the source fail, one load after another, until `fail_at` is past the last call.
#[test]
fn fails_with_its_source(rt: HostRuntime) {
    for fail_at in 1..100 {
        assert!(rt;
            failed(rt.alloc(), fail_at) == failure_at(fail_at),
            "{fail_at}"
        );
    }
}

// Returns the fault of loading files from pieces, or `None` if they load.
fn fault_in_pieces(alloc: Global, files: &[NamedBytes<'_>], piece: usize) -> Option<LoadFault> {
    let mut source = MemoryFiles::new(alloc, files, piece.max(1), 0);
    let mut names = Vec::new(alloc);
    Snapshot::load_from(alloc, &mut source, &mut names, "en", Limits::standard()).err()
}

// Returns whether loading files gives the same result for each size of pieces, and whether the
// files load.
fn are_loaded_alike(alloc: Global, files: &[NamedBytes<'_>]) -> (bool, bool) {
    let fault = Snapshot::load(alloc, files, "en", Limits::standard()).err();
    let is_alike = fault_in_pieces(alloc, files, 1) == fault
        && fault_in_pieces(alloc, files, 7) == fault
        && fault_in_pieces(alloc, files, 4_096) == fault;
    (
        is_alike && fault != Some(LoadFault::Memory),
        fault.is_none(),
    )
}

// Returns whether loading the sample, with one file cut after `length` bytes, gives the same result
// for each size of pieces, and whether it loads.
fn are_cut_alike(alloc: Global, place: usize, length: usize) -> (bool, bool) {
    let mut files = sample();
    if let Some(file) = files.get_mut(place) {
        *file = NamedBytes {
            name: file.name,
            bytes: file.bytes.get(..length).unwrap_or(file.bytes),
        };
    }
    are_loaded_alike(alloc, &files)
}

// Loads the sample with a file cut after each number of bytes up to `length`. Checks that the size
// of pieces does not matter. Returns how many of the loads succeed.
fn count_loaded(rt: &impl Abort, alloc: Global, place: usize, length: usize) -> u32 {
    let mut loaded = 0u32;
    for cut in 0..=length {
        let (is_alike, loads) = are_cut_alike(alloc, place, cut);
        assert!(rt; is_alike, "{place} {cut}");
        loaded = loaded.saturating_add(u32::from(loads));
    }
    loaded
}

// The number of lines of each of the sample's files.
const LINES: [u32; 5] = [4, 12, 12, 3, 21];

// The sample with a file cut after any byte is loaded or refused, whatever the size of pieces is.
// It loads if the cut comes after the last character of the header or of a row, after the CR, or
// after the LF.
#[test]
fn loads_or_refuses_what_is_cut(rt: HostRuntime) {
    for ((place, file), lines) in sample().iter().enumerate().zip(&LINES) {
        let loaded = count_loaded(&rt, rt.alloc(), place, file.bytes.len());
        assert!(rt; loaded == 3 * *lines, "{place} {loaded}");
    }
}
