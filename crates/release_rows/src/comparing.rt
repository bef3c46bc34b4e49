//! The second pass over the files of a release. It reads again the rows whose key occurs more than
//! once, and compares them.
ghost use Rattle.std.specs.Prelude.{◌≡◌, ◌≢◌, ◌<◌, ◌^◌, IfErr, OnOk, false, length};
ghost use Rattle.release_files.specs.Lines.{line_text};
ghost use Rattle.rf2_rows.specs.Rows.{IsRow, row_fault};
ghost use Rattle.release_rows.specs.inside.Comparison.{IsCompared, IsDenied, IsRefused, IsTaken, compared_in};
ghost use Rattle.release_rows.specs.Files.{later_line};
ghost use Rattle.release_rows.specs.DeviceFaults.{FileIs, is_device};

use crate::keys::RowKeys;
use crate::places::{Met, PlaceTaker};
use crate::versions::{NotedRow, Versions};
use release_files::Line;
use rf2_rows::{FileKind, Row, RowReader};
use row_lists::LoadFault;

/// The state of the second pass. The pass visits the rows in the order of the first pass, and takes
/// for each the key that the first pass gave to it. It parses again only a row whose key occurs
/// more than once.
#[derive(Drop)]
pub struct Comparing<'a> {
    // parses a line as a row
    reader: RowReader,
    // the keys that the first pass gave to the rows
    keys: &'a RowKeys,
    /// The table of the rows that the second pass has met.
    pub versions: Versions,
    /// The keys of the rows that the second pass has not met yet, in the order of the first pass.
    pub left: &'a [u64],
    /// The index of the file, and the line in it, of the row that was met last; `(0, 0)` before the
    /// first row.
    pub last: (usize, u64),
}

impl<'a> Comparing<'a> {
    /// Starts the second pass. `keys` are those of the first pass; `versions` is a table without
    /// rows.
    pub fn new(keys: &'a RowKeys, versions: Versions) -> Comparing<'a>
        ensures uuids { (compared_in result).uuids ≡ keys.now.uuids }
        ensures taken { (compared_in result).taken ≡ versions }
        ensures left { (compared_in result).left ≡ keys.now.keys }
        ensures few { length keys.now.uuids < 2 ^ 63 }
    {
        Comparing {
            reader: RowReader::new(),
            keys,
            versions,
            left: keys.keys(),
            last: (0, 0),
        }
    }

    // Takes the next key of `left` for the row on `line`, a line after the header. If that key
    // occurs more than once, parses the row and compares it with the earlier rows of its component.
    // Ignores an empty line, and any line once no key is left. Fails if the row conflicts with an
    // earlier one, or if the line is no row of `kind` any more because the file has changed.
    fn compare_line(&mut self, file: usize, kind: FileKind, line: Line<'_>) -> Result<(), LoadFault>
        ensures ok { OnOk result (IsCompared (compared_in self.old)
            (later_line file kind (line_text line.entry)) (compared_in self.new)) }
        ensures err { IfErr result (λ fault. fault ≢ LoadFault.Memory
            → IsDenied (compared_in self.old) (later_line file kind (line_text line.entry)) fault) }
        ensures own { IfErr result (λ fault. is_device fault ≡ false) }
        ensures named { IfErr result (FileIs (λ at. at ≡ file)) }
        ensures found { IfErr result (λ fault. fault ≢ LoadFault.NoConceptFile) }
    {
        if line.bytes.is_empty() {
            return Ok(());
        }
        let Some((first, left)) = self.left.split_first() else {
            return Ok(());
        };
        let key = *first;
        self.left = left;
        self.last = (file, line.number);
        if !self.versions.is_repeated(key) {
            self.versions.skip()?;
            return Ok(());
        }
        match self.reader.read_row(kind, line.bytes) {
            Ok(row) => self.compare(file, kind, line, key, &row),
            Err(fault) => Err(LoadFault::Row {
                file,
                line: line.number,
                fault,
            }),
        }
    }

    // Compares `row`, which was parsed from `line`, with the earlier rows of its component. `key`
    // is the key that the first pass gave to the row at this position. Fails with a conflict if an
    // earlier row with the same effective time differs, and also if `row` has another key or none:
    // then the files have changed since the first pass.
    fn compare(
        &mut self,
        file: usize,
        kind: FileKind,
        line: Line<'_>,
        key: u64,
        row: &Row<'_>,
    ) -> Result<(), LoadFault>
        requires row { IsRow kind line.bytes.now row.now }
        requires accepted { row_fault kind line.bytes.now ≡ None }
        ensures ok { OnOk result (IsTaken (compared_in self.old) key kind line.entry.bytes.now
            (compared_in self.new)) }
        ensures err { IfErr result (λ fault. fault ≢ LoadFault.Memory
            → IsRefused (compared_in self.old) file line.entry.number key kind line.entry.bytes.now
            fault) }
        ensures own { IfErr result (λ fault. is_device fault ≡ false) }
        ensures named { IfErr result (FileIs (λ at. at ≡ file)) }
        ensures found { IfErr result (λ fault. fault ≢ LoadFault.NoConceptFile) }
    {
        let conflict = LoadFault::Conflict {
            file,
            line: line.number,
        };
        let Some(found) = self.keys.key_of(row) else {
            return Err(conflict);
        };
        if found != key {
            return Err(conflict);
        }
        let noted = NotedRow {
            key,
            time: row.effective_time(),
            kind,
            text: line.bytes,
        };
        let fits = self.versions.take(&noted)?;
        if !fits {
            return Err(conflict);
        }
        Ok(())
    }
}

impl<'a> PlaceTaker for Comparing<'a> {
    ghost use Rattle.release_rows.specs.inside.Comparison.{IsCompared, IsDenied, compared_in};

    ghost takes = { λ old place new. IsCompared (compared_in old) place (compared_in new) };

    ghost refuses = { λ old place new fault. IsDenied (compared_in old) place fault };

    fn take(&mut self, file: usize, kind: FileKind, met: Met<'_>) -> Result<(), LoadFault> {
        match met {
            Met::NoLine | Met::First(_) => Ok(()),
            Met::Later(line) => self.compare_line(file, kind, line),
        }
    }
}
