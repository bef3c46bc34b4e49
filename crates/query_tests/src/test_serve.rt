//! Serving the sample release, for the tests.
use crate::test_release::sample;
use crate::test_streams::{PieceInput, PieceOutput, ROOM};
use query_tool::{Mode, Request, Status, serve};
use release_files::MemoryFiles;
use std::alloc::{AllocError, Global};

// How many bytes a read of the source returns.
const PIECE: usize = 4_096;

/// Whether serving `lines` in a mode over the sample's files writes exactly `wanted` to the output,
/// and nothing to the errors.
pub fn is_answered(
    alloc: Global,
    mode: Mode,
    lines: &[u8],
    wanted: &[u8],
) -> Result<bool, AllocError> {
    let request = Request {
        mode,
        folders: Vec::new(alloc),
        lang: String::from_str(alloc, "en")?,
    };
    let files = sample();
    let mut source = MemoryFiles::new(alloc, &files, PIECE, 0);
    let mut input = PieceInput::new(lines, ROOM, usize::MAX);
    let mut output = PieceOutput::new(alloc, ROOM, ROOM);
    let mut errors = PieceOutput::new(alloc, ROOM, ROOM);
    let status = serve(
        alloc,
        &request,
        &mut source,
        &mut input,
        &mut output,
        &mut errors,
    );
    Ok(status == Status::Done && output.bytes.as_slice() == wanted && errors.bytes.is_empty())
}
