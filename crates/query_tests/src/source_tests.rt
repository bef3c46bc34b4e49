//! Tests of loading engines from a source that fails.
use crate::test_release::sample;
use query_tool::Engine;
use release_files::MemoryFiles;
use snapshot::{Limits, LoadFault};
use std::alloc::Global;

// How many bytes a read of the source returns.
const PIECE: usize = 1_000;

// Returns the index of the sample's file that call number `call` of the source uses, or `None`
// after the last call. Calls count from 1. The first call lists the files. For each file, one call
// opens it, one call reads each piece, and one more finds the end.
fn file_at_call(call: u64) -> Option<usize> {
    let mut calls = 1u64;
    for (place, file) in sample().iter().enumerate() {
        calls = calls.saturating_add(2 + file.bytes.len().div_ceil(PIECE) as u64);
        if call <= calls {
            return Some(place);
        }
    }
    None
}

// Returns the fault of loading an engine from a source whose call number `fail_at` fails.
fn fault_at(alloc: Global, fail_at: u64) -> Option<LoadFault> {
    let files = sample();
    let mut source = MemoryFiles::new(alloc, &files, PIECE, fail_at);
    let mut names = Vec::new(alloc);
    Engine::load_from(alloc, &mut source, &mut names, "en", Limits::standard()).err()
}

// Lets each call of the source fail, one load after another, until `fail_at` is past the last call.
// The fault names the file in use, or no file if listing them failed.
#[test]
fn fails_with_its_source(rt: HostRuntime) {
    let unlisted = Some(LoadFault::Device { file: None });
    assert!(rt; fault_at(rt.alloc(), 1) == unlisted);
    for fail_at in 2..100 {
        let fault = fault_at(rt.alloc(), fail_at);
        let unread = file_at_call(fail_at).map(|place| LoadFault::Device { file: Some(place) });
        assert!(rt; fault == unread, "{fail_at}");
    }
}
