//! The first pass over the files of a release: reads each line as a row, and keeps the row's key
//! and its values.
ghost use Rattle.std.specs.Prelude.{◌≡◌, ◌≢◌, ◌++◌, [], IfErr, IfOk, None, OnOk, Some, false};
ghost use Rattle.release_files.specs.Lines.{line_text};
ghost use Rattle.rf2_rows.specs.RowTexts.{text_in};
ghost use Rattle.release_rows.specs.Faults.{fault_of_first};
ghost use Rattle.release_rows.specs.Files.{later_line};
ghost use Rattle.release_rows.specs.inside.RowStore.{IsAdded, IsCrowded, IsRead, IsStopped, nothing_kept};
ghost use Rattle.release_rows.specs.inside.RowsInside.{kept_in};
ghost use Rattle.release_rows.specs.DeviceFaults.{FileIs, is_device};

use crate::keys::RowKeys;
use crate::limits::Limits;
use crate::places::{Met, PlaceTaker};
use key_interner::Seed;
use release_files::Line;
use rf2_rows::{FileKind, Row, RowReader, header};
use row_lists::{LoadFault, RowLists};
use std::alloc::Global;

/// The state of the first pass: the keys of the rows read until now, the lists made of these rows,
/// and how many rows may still follow.
#[derive(Drop)]
pub struct Rows {
    // parses a line as a row
    reader: RowReader,
    /// The key of each row, in the order of the files and their lines.
    pub keys: RowKeys,
    // how many more rows of each kind are allowed, and the limit of bytes of a file
    left: Limits,
    /// The lists that a snapshot is later made of: concepts, names, is-a rows, attribute rows and
    /// members.
    pub lists: RowLists,
}

impl Rows {
    /// Starts a first pass that has read no row. `limits` bounds the rows of each kind and the
    /// bytes of a file. The UUIDs of member rows are hashed with `seed`.
    pub fn new(alloc: Global, limits: Limits, seed: Seed) -> Rows
        ensures { kept_in result ≡ nothing_kept limits }
    {
        Rows {
            reader: RowReader::new(),
            keys: RowKeys::new(alloc, seed),
            left: limits,
            lists: RowLists::new(alloc),
        }
    }

    // Reads `line`, a line after the header of the file at index `file`, and keeps its row. Ignores
    // an empty line. Fails if the line ends past the limit of bytes, if it is no row of `kind`, if
    // its kind already has as many rows as the limit allows, or if memory is refused.
    fn read_line(&mut self, file: usize, kind: FileKind, line: Line<'_>) -> Result<(), LoadFault>
        ensures ok { OnOk result (IsRead (kept_in self.old)
            (later_line file kind (line_text line.entry)) (kept_in self.new)) }
        ensures err { IfErr result (λ fault. fault ≢ LoadFault.Memory
            → IsStopped (kept_in self.old) (later_line file kind (line_text line.entry))
            (kept_in self.new) fault) }
        ensures own { IfErr result (λ fault. is_device fault ≡ false) }
        ensures named { IfErr result (FileIs (λ at. at ≡ file)) }
        ensures found { IfErr result (λ fault. fault ≢ LoadFault.NoConceptFile) }
    {
        let number = line.number;
        if line.end > self.left.bytes {
            return Err(LoadFault::TooMany { file, line: number });
        }
        if line.bytes.is_empty() {
            return Ok(());
        }
        // `row` is a borrow, so that the row is not copied out of the result
        match &self.reader.read_row(kind, line.bytes) {
            Ok(row) => self.add(file, number, kind, row),
            Err(fault) => Err(LoadFault::Row {
                file,
                line: number,
                fault: *fault,
            }),
        }
    }

    // Keeps the key and the values of `row`, and counts it against the limit of its kind. Fails if
    // the limit was already reached. `file` and `line` are the place that the fault names.
    fn add(
        &mut self,
        file: usize,
        line: u64,
        kind: FileKind,
        row: &Row<'_>,
    ) -> Result<(), LoadFault>
        ensures ok { OnOk result (IsAdded (kept_in self.old) kind (text_in row.now)
            (kept_in self.new)) }
        ensures err { IfErr result (λ fault. fault ≢ LoadFault.Memory
            → IsCrowded file line (kept_in self.old) kind (text_in row.now) (kept_in self.new)
            fault) }
        ensures own { IfErr result (λ fault. is_device fault ≡ false) }
        ensures named { IfErr result (FileIs (λ at. at ≡ file)) }
        ensures found { IfErr result (λ fault. fault ≢ LoadFault.NoConceptFile) }
    {
        self.keys.add(row)?;
        self.lists.add(row)?;
        if !self.left.take(kind) {
            return Err(LoadFault::TooMany { file, line });
        }
        Ok(())
    }
}

impl PlaceTaker for Rows {
    ghost use Rattle.release_rows.specs.inside.RowStore.{IsRead, IsStopped};
    ghost use Rattle.release_rows.specs.inside.RowsInside.{kept_in};

    ghost takes = { λ old place new. IsRead (kept_in old) place (kept_in new) };

    ghost refuses = { λ old place new fault. IsStopped (kept_in old) place (kept_in new) fault };

    fn take(&mut self, file: usize, kind: FileKind, met: Met<'_>) -> Result<(), LoadFault> {
        match met {
            Met::NoLine => Err(LoadFault::Header { file }),
            Met::First(line) => check_header(file, kind, line, &self.left),
            Met::Later(line) => self.read_line(file, kind, line),
        }
    }
}

// Checks the first line of a file: it must end within the limit of bytes and be exactly the header
// of `kind`.
fn check_header(
    file: usize,
    kind: FileKind,
    line: Line<'_>,
    limits: &Limits,
) -> Result<(), LoadFault>
    ensures clean { OnOk result (fault_of_first limits.now file kind (line_text line.entry)
        ≡ None) }
    ensures err { IfErr result (λ fault. fault_of_first limits.now file kind (line_text line.entry)
        ≡ Some fault) }
    ensures own { IfErr result (λ fault. is_device fault ≡ false) }
    ensures named { IfErr result (FileIs (λ at. at ≡ file)) }
    ensures found { IfErr result (λ fault. fault ≢ LoadFault.NoConceptFile) }
{
    if line.end > limits.bytes {
        return Err(LoadFault::TooMany {
            file,
            line: line.number,
        });
    }
    if line.bytes != header(kind).as_bytes() {
        return Err(LoadFault::Header { file });
    }
    Ok(())
}
