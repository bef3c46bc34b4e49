//! The faults for which a load refuses a list of files.
use rf2_rows::RowFault;
use sctid::SctId;
use std::alloc::{AllocError, AllocFailed};
use thiserror::Error;

/// Why a load failed: the first fault of a list of files, or want of memory. A `file` is an index
/// into the caller's list of files, from 0, and a `line` is the number of a line in that file, from
/// 1.
#[derive(Clone, Copy, Debug, PartialEq, Eq, Error)]
pub enum LoadFault {
    /// No file of the list has the name of a Concept file. A load looks for this fault first.
    #[error("there is no Snapshot file of concepts")]
    NoConceptFile,
    /// The first line is not the header of the file's kind, or the file has no line.
    #[error("file {file}: the first line is not the header of its kind")]
    Header {
        /// The file.
        file: usize,
    },
    /// A line is not a row of the file's kind.
    #[error("file {file}, line {line}: {fault}")]
    Row {
        /// The file.
        file: usize,
        /// The line.
        line: u64,
        /// The first fault of the row.
        fault: RowFault,
    },
    /// An earlier row of the same kind, active or not, has the same identifier and the same
    /// effective time, and differs in another column.
    #[error("file {file}, line {line}: the row conflicts with an earlier one")]
    Conflict {
        /// The file.
        file: usize,
        /// The line of the later row.
        line: u64,
    },
    /// The line ends past the limit of bytes of a file, or its row is one more than the limit of
    /// rows of its kind.
    #[error("file {file}, line {line}: more than the limits allow")]
    TooMany {
        /// The file.
        file: usize,
        /// The first line past the limit.
        line: u64,
    },
    /// This concept is its own descendant by is-a rows, and has the least identifier of all such
    /// concepts. A load looks for this fault last.
    #[error("concept {} is its own descendant", .0.number())]
    Cycle(SctId),
    /// The file, or the list of files, could not be read.
    #[error("a file could not be read")]
    Device {
        /// The file, or `None` if the files could not be listed.
        file: Option<usize>,
    },
    /// Memory was refused.
    #[error("out of memory")]
    Memory,
}

impl LoadFault {
    ghost use Rattle.std.specs.Prelude.{◌≡◌};
    ghost use Rattle.row_lists.specs.FaultNumbers.{fault_number};

    /// Returns the number of the fault, from 1 to 8.
    pub fn number(self) -> u8
        ensures { result ≡ fault_number self }
    {
        match self {
            LoadFault::NoConceptFile => 1,
            LoadFault::Header { .. } => 2,
            LoadFault::Row { .. } => 3,
            LoadFault::Conflict { .. } => 4,
            LoadFault::TooMany { .. } => 5,
            LoadFault::Cycle(_) => 6,
            LoadFault::Device { .. } => 7,
            LoadFault::Memory => 8,
        }
    }
}

impl From<AllocError> for LoadFault {
    ghost use Rattle.std.specs.Prelude.{◌≡◌};
    ghost use Rattle.row_lists.specs.declared.fault.LoadFault.TheVariants.{Memory};

    ghost from_gives = { λ _ fault. fault ≡ Memory };

    fn from(_refused: AllocError) -> LoadFault {
        LoadFault::Memory
    }
}

impl<T: Drop> From<AllocFailed<T>> for LoadFault {
    ghost use Rattle.std.specs.Prelude.{◌≡◌};
    ghost use Rattle.row_lists.specs.declared.fault.LoadFault.TheVariants.{Memory};

    ghost from_gives = { λ _ fault. fault ≡ Memory };

    fn from(_refused: AllocFailed<T>) -> LoadFault {
        LoadFault::Memory
    }
}
