//! Passes over the files of a release. A pass visits the places of the files one after another:
//! each line of a file, or, for a file without a line, the missing first line.
ghost use Rattle.std.specs.Prelude.{◌≡◌, ◌≢◌, ◌<◌, false, IfErr, OnOk, length, map};
ghost use Rattle.release_files.specs.Lines.{lines_of};
ghost use Rattle.release_files.specs.Source.{file_text};
ghost use Rattle.release_rows.specs.Files.{later_line, places_from, places_of_file, places_of_lines};
ghost use Rattle.release_rows.specs.Traversal.{StopsAt, TakesAll, place_of};
ghost use Rattle.release_rows.specs.DeviceFaults.{FileIs, is_device};

use key_interner::Seed;
use release_files::{Line, Lines, NamedBytes};
use rf2_rows::{FileKind, file_kind};
use row_lists::LoadFault;

/// What a pass meets at one place of a Snapshot file.
#[derive(Clone, Copy)]
pub enum Met<'a> {
    /// The file is empty, so that its header is missing.
    NoLine,
    /// The first line of the file.
    First(Line<'a>),
    /// A later line of the file.
    Later(Line<'a>),
}

/// The visitor of a pass over the files: it is given each place in turn, and may end the pass with
/// a fault.
pub trait PlaceTaker {
    ghost use Rattle.std.specs.Prelude.{◌≡◌, ◌≢◌, false, IfErr, OnOk};
    ghost use Rattle.release_rows.specs.Files.{Place};
    ghost use Rattle.release_rows.specs.Traversal.{place_of};
    ghost use Rattle.release_rows.specs.DeviceFaults.{FileIs, is_device};
    ghost use Rattle.row_lists.specs.declared.fault.LoadFault.{LoadFault};

    /// How a place that is accepted changes the visitor: the state before, the place, the state
    /// after.
    ghost takes: { Self → Place → Self → Type 0 };

    /// When a place ends the pass: the state before, the place, the state after, the fault.
    ghost refuses: { Self → Place → Self → LoadFault → Type 0 };

    /// Visits the place `met` of the file at index `file`, which is of `kind`. Returns the fault
    /// that ends the pass, if the place has one. Such a fault names this file, is no failure of the
    /// device, and is not `NoConceptFile`.
    fn take(&mut self, file: usize, kind: FileKind, met: Met<'_>) -> Result<(), LoadFault>
        ensures ok { OnOk result (takes self.old (place_of file kind met.entry) self.new) }
        ensures err { IfErr result (λ fault. fault ≢ LoadFault.Memory
            → refuses self.old (place_of file kind met.entry) self.new fault) }
        ensures own { IfErr result (λ fault. is_device fault ≡ false) }
        ensures named { IfErr result (FileIs (λ at. at ≡ file)) }
        ensures found { IfErr result (λ fault. fault ≢ LoadFault.NoConceptFile) };
}

/// The files of a release, over which passes can be made more than once.
pub trait PlaceSource {
    ghost use Rattle.std.specs.Prelude.{◌≡◌, ◌≢◌, ◌<◌, ◌≤◌, ◌-◌, ℕ, List, Option, IfErr, IfSome, OnOk, length};
    ghost use Rattle.release_files.specs.Source.{FileText, History};
    ghost use Rattle.release_rows.specs.Files.{Place};
    ghost use Rattle.release_rows.specs.Traversal.{FaultOf, StopsAt, TakesAll};
    ghost use Rattle.release_rows.specs.DeviceFaults.{AskedFiles, FailsAtRead, FailsOnlyAt, FileIs, RaisesOnlyAtDevice, ReadsWithin};
    ghost use Rattle.release_rows.specs.Pieces.{has_kind_at};
    ghost use Rattle.row_lists.specs.declared.fault.LoadFault.{LoadFault};

    /// The places in the order of a pass; `None` if the source does not tell them.
    ghost places: { Self → Option (List Place) };

    /// The names of the files, and how many bytes of each are read at most. A pass changes neither.
    ghost asked: { Self → AskedFiles };

    /// The history of the `FileSource` that reads the files: what it opened, read and counted.
    ghost history: { Self → History };

    /// The identity of the reference to that `FileSource`. A pass does not change it.
    ghost reference: { Self → ℕ };

    /// The files whose bytes that `FileSource` tells, if it tells any. A pass does not change them.
    ghost told: { Self → Option (List FileText) };

    /// Returns the index of the last file, or 0 if there is none.
    fn last_file(&self) -> usize
        ensures { result ≡ length (asked self.now).names - 1 };

    /// Returns the seed for hashes of what the files contain.
    fn seed(&self) -> Seed;

    /// Makes one pass: gives each place in turn to `taker`. Stops at the first fault that `taker`
    /// returns, or if a file cannot be read or memory is refused.
    fn take_places<T: PlaceTaker>(&mut self, taker: &mut T) -> Result<(), LoadFault>
        ensures ok { IfSome (places self.old)
            (λ known. OnOk result (TakesAll T.takes taker.old known taker.new)) }
        ensures err { FaultOf (places self.old)
            (λ known fault. StopsAt T.takes T.refuses taker.old known taker.new fault) result }
        ensures device { FailsOnlyAt (asked self.old).names result (history self.old)
            (history self.new) }
        ensures places { places self.new ≡ places self.old }
        ensures failures { (history self.old).failures ≤ (history self.new).failures }
        ensures failure_is_device { RaisesOnlyAtDevice result (history self.old)
            (history self.new) }
        ensures bounded { ReadsWithin (asked self.old).most (history self.old) (history self.new) }
        ensures kind { IfErr result (λ fault. FailsAtRead (has_kind_at (asked self.old).names)
            fault) }
        ensures named { IfErr result (FileIs (λ file. file < length (asked self.old).names)) }
        ensures found { IfErr result (λ fault. fault ≢ LoadFault.NoConceptFile) }
        ensures asked { asked self.new ≡ asked self.old }
        ensures told { told self.new ≡ told self.old }
        ensures reference { reference self.new ≡ reference self.old };
}

/// Files in memory. The seed of the hashes is fixed, since the caller trusts the files.
#[derive(Drop)]
pub struct MemoryPlaces<'a> {
    pub files: &'a [NamedBytes<'a>],
}

impl<'a> PlaceSource for MemoryPlaces<'a> {
    ghost use Rattle.std.specs.Prelude.{None, Some, map};
    ghost use Rattle.release_files.specs.MemorySource.{nothing_done};
    ghost use Rattle.release_files.specs.Source.{file_text};
    ghost use Rattle.release_rows.specs.Files.{places_from};

    ghost places = { λ held. Some (places_from 0 (map file_text held.files.now)) };

    ghost asked = { λ held. record {
      names = map (λ file. file.name.now) held.files.now;
      most = 0;
    } };

    ghost history = { λ _. nothing_done };

    ghost reference = { λ _. 0 };

    ghost told = { λ _. None };

    fn last_file(&self) -> usize {
        self.files.len().saturating_sub(1)
    }

    fn seed(&self) -> Seed {
        Seed::FIXED
    }

    fn take_places<T: PlaceTaker>(&mut self, taker: &mut T) -> Result<(), LoadFault> {
        take_files(self.files, taker)
    }
}

// Gives `taker` the places of all files, in the order of `files`. Ignores a file that is no
// Snapshot file by its name.
fn take_files<T: PlaceTaker>(files: &[NamedBytes<'_>], taker: &mut T) -> Result<(), LoadFault>
    ensures ok { OnOk result (TakesAll T.takes taker.old (places_from 0 (map file_text files.now))
        taker.new) }
    ensures err { IfErr result (λ fault. fault ≢ LoadFault.Memory
        → StopsAt T.takes T.refuses taker.old (places_from 0 (map file_text files.now)) taker.new
        fault) }
    ensures own { IfErr result (λ fault. is_device fault ≡ false) }
    ensures named { IfErr result (FileIs (λ file. file < length files.now)) }
    ensures found { IfErr result (λ fault. fault ≢ LoadFault.NoConceptFile) }
{
    for (file, named) in files.iter().enumerate() {
        match take_named(file, named, taker) {
            Ok(()) => {}
            Err(fault) => return Err(fault),
        }
    }
    Ok(())
}

// Gives `taker` the places of `named`, the file at index `file`, if it is a Snapshot file by its
// name.
fn take_named<T: PlaceTaker>(
    file: usize,
    named: &NamedBytes<'_>,
    taker: &mut T,
) -> Result<(), LoadFault>
    ensures ok { OnOk result (TakesAll T.takes taker.old (places_of_file file (file_text named.now))
        taker.new) }
    ensures err { IfErr result (λ fault. fault ≢ LoadFault.Memory
        → StopsAt T.takes T.refuses taker.old (places_of_file file (file_text named.now)) taker.new
        fault) }
    ensures own { IfErr result (λ fault. is_device fault ≡ false) }
    ensures named { IfErr result (FileIs (λ at. at ≡ file)) }
    ensures found { IfErr result (λ fault. fault ≢ LoadFault.NoConceptFile) }
{
    match file_kind(named.name) {
        Some(kind) => take_file(file, kind, named.bytes, taker),
        None => Ok(()),
    }
}

// Gives `taker` the places of a file of `kind` with the contents `bytes`. `file` is its index.
fn take_file<T: PlaceTaker>(
    file: usize,
    kind: FileKind,
    bytes: &[u8],
    taker: &mut T,
) -> Result<(), LoadFault>
    ensures ok { OnOk result (TakesAll T.takes taker.old
        (places_of_lines file kind (lines_of bytes.now)) taker.new) }
    ensures err { IfErr result (λ fault. fault ≢ LoadFault.Memory
        → StopsAt T.takes T.refuses taker.old (places_of_lines file kind (lines_of bytes.now))
        taker.new fault) }
    ensures own { IfErr result (λ fault. is_device fault ≡ false) }
    ensures named { IfErr result (FileIs (λ at. at ≡ file)) }
    ensures found { IfErr result (λ fault. fault ≢ LoadFault.NoConceptFile) }
{
    let mut lines = Lines::new(bytes);
    match lines.next() {
        Some(first) => {
            match taker.take(file, kind, Met::First(first)) {
                Ok(()) => {}
                Err(fault) => return Err(fault),
            }
            take_lines(file, kind, lines, taker)
        }
        None => taker.take(file, kind, Met::NoLine),
    }
}

// Gives `taker` the lines that `lines` has left, all of them lines after the first.
fn take_lines<T: PlaceTaker>(
    file: usize,
    kind: FileKind,
    lines: Lines<'_>,
    taker: &mut T,
) -> Result<(), LoadFault>
    ensures ok { OnOk result (TakesAll T.takes taker.old (map (later_line file kind) lines.entry)
        taker.new) }
    ensures err { IfErr result (λ fault. fault ≢ LoadFault.Memory
        → StopsAt T.takes T.refuses taker.old (map (later_line file kind) lines.entry) taker.new
        fault) }
    ensures own { IfErr result (λ fault. is_device fault ≡ false) }
    ensures named { IfErr result (FileIs (λ at. at ≡ file)) }
    ensures found { IfErr result (λ fault. fault ≢ LoadFault.NoConceptFile) }
{
    for line in lines {
        match taker.take(file, kind, Met::Later(line)) {
            Ok(()) => {}
            Err(fault) => return Err(fault),
        }
    }
    Ok(())
}
