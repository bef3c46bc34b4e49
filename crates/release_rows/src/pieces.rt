//! Passes over files that a `FileSource` reads in pieces, such as the files of folders.
ghost use Rattle.rf2_rows.specs.Files.{file_kind_of};
ghost use Rattle.std.specs.Prelude.{is_some, ◌≡◌, ◌≢◌, ◌⊎◌, ◌+◌, ◌^◌, ◌<◌, ◌≤◌, ℕ, true, IfErr, IfSome, List, OnOk, Some, length, map, string_bytes, take};
ghost use Rattle.release_files.specs.Held.{ReadsOn, reachable};
ghost use Rattle.release_files.specs.Lines.{lines_of};
ghost use Rattle.release_files.specs.PieceLines.{lines_to_come};
ghost use Rattle.release_files.specs.Source.{FileText, IsToldAs};
ghost use Rattle.release_rows.specs.Files.{later_line, places_from, places_of_file, places_of_lines};
ghost use Rattle.release_rows.specs.Pieces.{cut_file, has_kind_at, FailsAt, FailsAtFile, GoesOver, fault_of, listed, text_named};
ghost use Rattle.release_rows.specs.Traversal.{StopsAt, TakesAll};
ghost use Rattle.release_rows.specs.DeviceFaults.{FailsAtRead, FailsOnlyAt, FileIs, RaisesOnlyAtDevice, ReadsWithin, is_device};

use crate::places::{Met, PlaceSource, PlaceTaker};
use key_interner::Seed;
use release_files::{FileSource, PieceLines, SourceFault};
use rf2_rows::{FileKind, file_kind};
use row_lists::LoadFault;
use std::alloc::Global;

/// The files `names` of the source `source`, which reads each in pieces.
#[derive(Drop)]
pub struct PiecePlaces<'a, S: FileSource> {
    pub alloc: Global,
    pub source: &'a mut S,
    pub names: &'a [String],
    /// The limit of bytes of a file. A pass reads a file up to one byte past it, so that a longer
    /// file shows.
    pub byte_limit: u64,
}

impl<'a, S: FileSource> PlaceSource for PiecePlaces<'a, S> {
    ghost use Rattle.std.specs.Prelude.{◌+◌, map, option_map, string_bytes};
    ghost use Rattle.release_rows.specs.Files.{places_from};
    ghost use Rattle.release_rows.specs.Pieces.{cut_file, listed};

    ghost places = { λ held. option_map (λ known. places_from 0
        (map (cut_file held.byte_limit) (listed known (map string_bytes held.names.now))))
        (S.files held.source.now) };

    ghost asked = { λ held. record {
      names = map string_bytes held.names.now;
      most = held.byte_limit + 1;
    } };

    ghost history = { λ held. S.history held.source.now };

    ghost reference = { λ held. held.source.ghost_name };

    ghost told = { λ held. S.files held.source.now };

    fn last_file(&self) -> usize {
        self.names.len().saturating_sub(1)
    }

    fn seed(&self) -> Seed {
        self.source.seed()
    }

    fn take_places<T: PlaceTaker>(&mut self, taker: &mut T) -> Result<(), LoadFault> {
        take_pieces(self.alloc, self.source, self.names, self.byte_limit, taker)
    }
}

// Gives `taker` the places of the files `names`, in their order. Ignores a name that is not that of
// a Snapshot file.
//
// Reads a file as if it ended one byte past `byte_limit`. Holds in memory no more than that and one
// more piece. If the source tells its files, the places are those of the files in memory, cut at
// that byte.
fn take_pieces<S: FileSource, T: PlaceTaker>(
    alloc: Global,
    source: &mut S,
    names: &[String],
    byte_limit: u64,
    taker: &mut T,
) -> Result<(), LoadFault>
    ensures ok { IfSome (S.files source.old)
        (λ known. OnOk result (TakesAll T.takes taker.old
        (places_from 0 (map (cut_file byte_limit) (listed known (map string_bytes names.now))))
        taker.new)) }
    ensures err { IfSome (S.files source.old) (λ known. IfErr result (λ fault. fault
        ≢ LoadFault.Memory → FailsAtFile (S.history source.old) (S.history source.new) fault
        ⊎ StopsAt T.takes T.refuses taker.old
        (places_from 0 (map (cut_file byte_limit) (listed known (map string_bytes names.now))))
        taker.new fault)) }
    ensures device { FailsOnlyAt (map string_bytes names.now) result (S.history source.old)
        (S.history source.new) }
    ensures bounded { ReadsWithin (byte_limit + 1) (S.history source.old) (S.history source.new) }
    ensures kind { IfErr result (λ fault. FailsAtRead (has_kind_at (map string_bytes names.now))
        fault) }
    ensures named { IfErr result (FileIs (λ file. file < length names.now)) }
    ensures found { IfErr result (λ fault. fault ≢ LoadFault.NoConceptFile) }
    ensures files { S.files source.new ≡ S.files source.old }
    ensures failures { (S.history source.old).failures ≤ (S.history source.new).failures }
    ensures failure_is_device { RaisesOnlyAtDevice result (S.history source.old)
        (S.history source.new) }
{
    for (file, name) in names.iter().enumerate() {
        match take_name(alloc, file, name.as_str(), source, byte_limit, taker) {
            Ok(()) => {}
            Err(fault) => return Err(fault),
        }
    }
    Ok(())
}

// Opens the file `name`, which has the index `file`, and gives `taker` its places. Does nothing if
// the name is not that of a Snapshot file.
fn take_name<S: FileSource, T: PlaceTaker>(
    alloc: Global,
    file: usize,
    name: &str,
    source: &mut S,
    byte_limit: u64,
    taker: &mut T,
) -> Result<(), LoadFault>
    ensures goes { (known : List FileText) → S.files source.old ≡ Some known
        → GoesOver T.takes T.refuses (FailsAt file (S.history source.old) (S.history source.new))
        taker.old (places_of_file file (cut_file byte_limit (text_named known name.now))) result
        taker.new }
    ensures device { IfErr result (λ fault. is_device fault ≡ true
        → FailsAt file (S.history source.old) (S.history source.new) fault) }
    ensures failed { IfErr result (λ fault. is_device fault ≡ true
        → IsToldAs (S.history source.new).failed name.now) }
    ensures bounded { ReadsWithin (byte_limit + 1) (S.history source.old) (S.history source.new) }
    ensures kind { IfErr result (λ fault. is_device fault ≡ true
        → is_some (file_kind_of name.now) ≡ true) }
    ensures named { IfErr result (FileIs (λ at. at ≡ file)) }
    ensures found { IfErr result (λ fault. fault ≢ LoadFault.NoConceptFile) }
    ensures files { S.files source.new ≡ S.files source.old }
    ensures failures { (S.history source.old).failures ≤ (S.history source.new).failures }
    ensures failure_is_device { RaisesOnlyAtDevice result (S.history source.old)
        (S.history source.new) }
{
    match file_kind(name) {
        Some(kind) => match source.open(name) {
            Ok(()) => take_opened(alloc, file, kind, source, byte_limit, taker),
            Err(fault) => Err(fault_of(file, fault)),
        },
        None => Ok(()),
    }
}

// Gives `taker` the places of the file that `source` has open. It is of `kind` and has the index
// `file`.
fn take_opened<S: FileSource, T: PlaceTaker>(
    alloc: Global,
    file: usize,
    kind: FileKind,
    source: &mut S,
    byte_limit: u64,
    taker: &mut T,
) -> Result<(), LoadFault>
    ensures goes { (bytes : List ℕ) → S.rest source.old ≡ Some bytes → length bytes < 2 ^ 64
        → GoesOver T.takes T.refuses (FailsAt file (S.history source.old) (S.history source.new))
        taker.old (places_of_lines file kind (lines_of (take (byte_limit + 1) bytes))) result
        taker.new }
    ensures bounded { ReadsOn (S.history source.old) (S.history source.new) (byte_limit + 1) 0 }
    ensures failed { IfErr result (λ fault. is_device fault ≡ true
        → (S.history source.new).failed ≡ (S.history source.old).opened) }
    ensures device { IfErr result (λ fault. is_device fault ≡ true
        → FailsAt file (S.history source.old) (S.history source.new) fault) }
    ensures named { IfErr result (FileIs (λ at. at ≡ file)) }
    ensures found { IfErr result (λ fault. fault ≢ LoadFault.NoConceptFile) }
    ensures files { S.files source.new ≡ S.files source.old }
    ensures failures { (S.history source.old).failures ≤ (S.history source.new).failures }
    ensures failure_is_device { RaisesOnlyAtDevice result (S.history source.old)
        (S.history source.new) }
{
    let limit = byte_limit.saturating_add(1);
    let mut lines = PieceLines::within(alloc, limit);
    match lines.next_line(source) {
        Ok(Some(first)) => {
            match taker.take(file, kind, Met::First(first)) {
                Ok(()) => {}
                Err(fault) => return Err(fault),
            }
            take_later(file, kind, lines, source, limit, taker)
        }
        Ok(None) => taker.take(file, kind, Met::NoLine),
        Err(fault) => Err(fault_of(file, fault)),
    }
}

// Gives `taker` the lines after the first. `turns` bounds the loop for the proof of termination: a
// file has fewer such lines, since each has at least one byte.
fn take_later<S: FileSource, T: PlaceTaker>(
    file: usize,
    kind: FileKind,
    mut lines: PieceLines,
    source: &mut S,
    turns: u64,
    taker: &mut T,
) -> Result<(), LoadFault>
    ensures goes { (rest : List ℕ) → reachable lines.held.left (S.rest source.old) ≡ Some rest
        → length (lines_to_come lines rest) < turns
        → GoesOver T.takes T.refuses (FailsAt file (S.history source.old) (S.history source.new))
        taker.old (map (later_line file kind) (lines_to_come lines rest)) result taker.new }
    ensures bounded { ReadsOn (S.history source.old) (S.history source.new) lines.held.left 0 }
    ensures failed { IfErr result (λ fault. is_device fault ≡ true
        → (S.history source.new).failed ≡ (S.history source.old).opened) }
    ensures device { IfErr result (λ fault. is_device fault ≡ true
        → FailsAt file (S.history source.old) (S.history source.new) fault) }
    ensures named { IfErr result (FileIs (λ at. at ≡ file)) }
    ensures found { IfErr result (λ fault. fault ≢ LoadFault.NoConceptFile) }
    ensures files { S.files source.new ≡ S.files source.old }
    ensures failures { (S.history source.old).failures ≤ (S.history source.new).failures }
    ensures failure_is_device { RaisesOnlyAtDevice result (S.history source.old)
        (S.history source.new) }
{
    for turn in 0..turns {
        match lines.next_line(source) {
            Ok(Some(line)) => match taker.take(file, kind, Met::Later(line)) {
                Ok(()) => {}
                Err(fault) => return Err(fault),
            },
            Ok(None) => return Ok(()),
            Err(fault) => return Err(fault_of(file, fault)),
        }
    }
    Err(LoadFault::TooMany {
        file,
        line: u64::MAX,
    })
}

// Returns the fault of a load whose source fails with `fault` at the file with the index `file`.
fn fault_of(file: usize, fault: SourceFault) -> LoadFault
    ensures { result ≡ fault_of file fault }
{
    match fault {
        SourceFault::Device => LoadFault::Device { file: Some(file) },
        SourceFault::Memory => LoadFault::Memory,
    }
}
