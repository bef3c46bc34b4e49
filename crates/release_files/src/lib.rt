//! Reads the files of a release as lines (Release File Specification, "File format": UTF-8 text
//! with one row to a line, lines ended by CR LF). The files are in memory, or come from a source
//! that reads them in pieces.
#![tactic(auto)]

mod feeds;
mod held;
mod lines;
mod memory_files;
mod piece_lines;
mod source;

pub use crate::lines::{Line, Lines, parts_are_lines};
pub use crate::memory_files::MemoryFiles;
pub use crate::piece_lines::PieceLines;
pub use crate::source::{FileSource, SourceFault};

/// A file of a release that is whole in memory.
#[derive(Clone, Copy, Debug)]
pub struct NamedBytes<'a> {
    /// The path of the file below the folder of the release, with `/` between its parts.
    pub name: &'a str,
    /// The contents of the file.
    pub bytes: &'a [u8],
}
