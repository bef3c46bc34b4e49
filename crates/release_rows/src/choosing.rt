//! Reads the rows of a release, and chooses one row of each component that has several.
ghost use Rattle.std.specs.Prelude.{◌≡◌, ◌≢◌, ◌≤◌, ◌<◌, ◌+◌, ◌-◌, ◌^◌, IfErr, IfOk, IfSome, MatchOption, OnOk, false, true, length, min};
ghost use Rattle.std.specs.List.Sorted.{IsStrictlyIncreasing};
ghost use Rattle.row_lists.specs.ListsRead.{AreFew, read_in, listed_in};
ghost use Rattle.release_rows.specs.ReadRows.{HasFirstFault, IsReadFrom};
ghost use Rattle.row_lists.specs.ChosenLists.{listed_chosen};
ghost use Rattle.release_rows.specs.inside.Keys.{AreSingle};
ghost use Rattle.release_rows.specs.Limits.{row_total};
ghost use Rattle.release_rows.specs.inside.KeyedRows.{Covers};
ghost use Rattle.release_rows.specs.inside.RowsInside.{kept_in};
ghost use Rattle.release_rows.specs.inside.FirstPass.{AreChoicesAmong, AreChosenOfKept, HaveNoConflict, IsFirstAfter, IsFirstConflict, IsFirstOfKept};
ghost use Rattle.release_rows.specs.Traversal.{FaultOf, OfFiles};
ghost use Rattle.release_rows.specs.DeviceFaults.{FailsAtOneOf, FailsAtRead, FailsOnlyAt, FileIs, RaisesOnlyAtDevice, ReadsWithin, is_device as is_device_of};
ghost use Rattle.release_rows.specs.Pieces.{has_kind_at};

use crate::comparing::Comparing;
use crate::keys::RowKeys;
use crate::limits::Limits;
use crate::places::PlaceSource;
use crate::repeated::repeated_keys;
use crate::rows::Rows;
use crate::versions::Versions;
use row_lists::{LoadFault, MOST_ROWS, ReadRows};
use std::alloc::{AllocError, Global};

/// The fault of files with more rows than `MOST_ROWS`. It names no real file or line, because the
/// limits stop a load before it has read so many rows. The check is there for the proof: contracts
/// say nothing about the rows of files whose bytes the source does not tell.
pub const TOO_MANY_ROWS: LoadFault = LoadFault::TooMany { file: 0, line: 0 };

/// Reads the rows of all files that are Snapshot files of some kind by their names, and returns
/// lists made of the chosen rows, with the number of rows read. There must be at least one file.
/// Makes a second pass over the files only if several rows have one key. On failure returns the
/// first fault of the files in the order of files and lines, or the failure of the device or of
/// memory that ended a pass.
pub fn read_rows<P: PlaceSource>(
    alloc: Global,
    files: &mut P,
    limits: Limits,
) -> Result<ReadRows, LoadFault>
    requires total { row_total limits ≤ 68000000 }
    requires some { 0 < length (P.asked files.old).names }
    ensures ok { IfSome (P.places files.old)
        (λ known. IfOk result (λ read. IsReadFrom limits known read.count (read_in read.lists))) }
    ensures err { FaultOf (P.places files.old) (HasFirstFault limits) result }
    ensures device { FailsOnlyAt (P.asked files.old).names result (P.history files.old)
        (P.history files.new) }
    ensures failures { (P.history files.old).failures ≤ (P.history files.new).failures }
    ensures failure_is_device { RaisesOnlyAtDevice result (P.history files.old)
        (P.history files.new) }
    ensures bounded { ReadsWithin (P.asked files.old).most (P.history files.old)
        (P.history files.new) }
    ensures kind { IfErr result (λ fault. FailsAtRead (has_kind_at (P.asked files.old).names)
        fault) }
    ensures named { IfErr result (FileIs (λ file. file < length (P.asked files.old).names)) }
    ensures found { IfErr result (λ fault. fault ≢ LoadFault.NoConceptFile) }
    ensures asked { P.asked files.new ≡ P.asked files.old }
    ensures told { P.told files.new ≡ P.told files.old }
    ensures reference { P.reference files.new ≡ P.reference files.old }
{
    let mut rows = Rows::new(alloc, limits, files.seed());
    match files.take_places(&mut rows) {
        Ok(()) => choose_rows(alloc, files, rows),
        Err(fault) => Err(first_of_faults(alloc, files, &rows.keys, fault)),
    }
}

// Returns the first fault of the files, if the first pass ended with `fault`. A row before the
// place of `fault` may conflict with an earlier one; if so, that conflict comes first. A failure of
// the device or of memory is returned as it is. `keys` are those of the rows read before the end.
fn first_of_faults<P: PlaceSource>(
    alloc: Global,
    files: &mut P,
    keys: &RowKeys,
    fault: LoadFault,
) -> LoadFault
    requires some { 0 < length (P.asked files.old).names }
    ensures first { OfFiles result (IfSome (P.places files.old)
        (λ known. IsFirstAfter keys.now fault known result)) }
    ensures stays { is_device_of fault ≡ true
        → (result ≡ fault) × (P.history files.new ≡ P.history files.old) }
    ensures device { is_device_of fault ≡ false → is_device_of result ≡ true
        → FailsAtOneOf (P.asked files.old).names (P.history files.old) (P.history files.new)
        result }
    ensures failures { (P.history files.old).failures ≤ (P.history files.new).failures }
    ensures failure_is_device { is_device_of result ≡ false
        → (P.history files.new).failures ≡ (P.history files.old).failures }
    ensures bounded { ReadsWithin (P.asked files.old).most (P.history files.old)
        (P.history files.new) }
    ensures kind { is_device_of fault ≡ false
        → FailsAtRead (has_kind_at (P.asked files.old).names) result }
    ensures named { FileIs (λ file. file < length (P.asked files.old).names) fault
        → FileIs (λ file. file < length (P.asked files.old).names) result }
    ensures found { fault ≢ LoadFault.NoConceptFile → result ≢ LoadFault.NoConceptFile }
    ensures asked { P.asked files.new ≡ P.asked files.old }
    ensures told { P.told files.new ≡ P.told files.old }
    ensures reference { P.reference files.new ≡ P.reference files.old }
{
    if is_memory(&fault) || is_device(&fault) {
        return fault;
    }
    if keys.keys().len() as u64 > MOST_ROWS + 1 {
        return TOO_MANY_ROWS;
    }
    if let Err(conflict) = choices_among(alloc, files, keys) {
        return conflict;
    }
    fault
}

// Finishes after a first pass without a fault: chooses one row of each component, and drops what
// the other rows added to the lists of `rows`.
fn choose_rows<P: PlaceSource>(
    alloc: Global,
    files: &mut P,
    rows: Rows,
) -> Result<ReadRows, LoadFault>
    requires some { 0 < length (P.asked files.old).names }
    ensures ok { IfSome (P.places files.old)
        (λ known. IfOk result (λ read. AreChosenOfKept (kept_in rows) known read.count
        (listed_in read.lists))) }
    ensures err { FaultOf (P.places files.old) (IsFirstOfKept (kept_in rows)) result }
    ensures device { FailsOnlyAt (P.asked files.old).names result (P.history files.old)
        (P.history files.new) }
    ensures failures { (P.history files.old).failures ≤ (P.history files.new).failures }
    ensures failure_is_device { RaisesOnlyAtDevice result (P.history files.old)
        (P.history files.new) }
    ensures bounded { ReadsWithin (P.asked files.old).most (P.history files.old)
        (P.history files.new) }
    ensures kind { IfErr result (λ fault. FailsAtRead (has_kind_at (P.asked files.old).names)
        fault) }
    ensures named { IfErr result (FileIs (λ file. file < length (P.asked files.old).names)) }
    ensures found { IfErr result (λ fault. fault ≢ LoadFault.NoConceptFile) }
    ensures asked { P.asked files.new ≡ P.asked files.old }
    ensures told { P.told files.new ≡ P.told files.old }
    ensures reference { P.reference files.new ≡ P.reference files.old }
{
    if rows.keys.keys().len() as u64 > MOST_ROWS + 1 {
        drop(rows);
        return Err(TOO_MANY_ROWS);
    }
    match choices_among(alloc, files, &rows.keys) {
        Ok(choices) => {
            let read = keep_chosen(alloc, rows, choices)?;
            Ok(read)
        }
        Err(fault) => {
            drop(rows);
            Err(fault)
        }
    }
}

// Returns the lists of `rows` with only the items of chosen rows; `choices` says for each row
// whether it is chosen. If `choices` is `None`, keeps all items.
fn keep_chosen(
    alloc: Global,
    rows: Rows,
    choices: Option<Vec<bool>>,
) -> Result<ReadRows, AllocError>
    ensures count { IfOk result (λ read. read.count ≡ length rows.keys.keys) }
    ensures lists { IfOk result (λ read. MatchOption choices
        (listed_in read.lists ≡ listed_in rows.lists)
        (λ choices. listed_in read.lists ≡ listed_chosen (listed_in rows.lists) choices.items)) }
{
    let Rows {
        keys,
        mut lists,
        ..
    } = rows;
    let count = keys.keys().len() as u64;
    drop(keys);
    if let Some(choices) = choices {
        lists.choose(alloc, choices.as_slice())?;
    }
    Ok(ReadRows { lists, count })
}

// Returns for each row that the first pass read whether it is chosen. `None` if no two rows have
// one key: then all are chosen. Fails with the first conflict between rows of one component and
// effective time.
fn choices_among<P: PlaceSource>(
    alloc: Global,
    files: &mut P,
    keys: &RowKeys,
) -> Result<Option<Vec<bool>>, LoadFault>
    requires few { length keys.now.keys < 2 ^ 32 }
    requires some { 0 < length (P.asked files.old).names }
    ensures ok { IfSome (P.places files.old)
        (λ known. IfOk result (λ choices. MatchOption choices (AreSingle keys.now.keys)
        (λ choices. AreChoicesAmong keys.now known choices.items))) }
    ensures clear { IfSome (P.places files.old)
        (λ known. OnOk result (HaveNoConflict keys.now known)) }
    ensures err { FaultOf (P.places files.old) (IsFirstConflict keys.now) result }
    ensures device { FailsOnlyAt (P.asked files.old).names result (P.history files.old)
        (P.history files.new) }
    ensures failures { (P.history files.old).failures ≤ (P.history files.new).failures }
    ensures failure_is_device { RaisesOnlyAtDevice result (P.history files.old)
        (P.history files.new) }
    ensures bounded { ReadsWithin (P.asked files.old).most (P.history files.old)
        (P.history files.new) }
    ensures kind { IfErr result (λ fault. FailsAtRead (has_kind_at (P.asked files.old).names)
        fault) }
    ensures named { IfErr result (FileIs (λ file. file < length (P.asked files.old).names)) }
    ensures found { IfErr result (λ fault. fault ≢ LoadFault.NoConceptFile) }
    ensures asked { P.asked files.new ≡ P.asked files.old }
    ensures told { P.told files.new ≡ P.told files.old }
    ensures reference { P.reference files.new ≡ P.reference files.old }
{
    let repeated = repeated_keys(alloc, keys.keys())?;
    if repeated.is_empty() {
        return Ok(None);
    }
    match compare(alloc, files, keys, repeated) {
        Ok(choices) => Ok(Some(choices)),
        Err(fault) => Err(fault),
    }
}

// Makes the second pass, and returns for each row that the first pass read whether it is chosen.
// `repeated` has the keys that occur more than once. Fails with the first conflict. If the files
// have changed and now have fewer rows, that is a conflict too.
fn compare<P: PlaceSource>(
    alloc: Global,
    files: &mut P,
    keys: &RowKeys,
    repeated: Vec<u64>,
) -> Result<Vec<bool>, LoadFault>
    requires rising { IsStrictlyIncreasing repeated.items }
    requires few { length repeated.items < 2 ^ 32 }
    requires covers { Covers repeated.items keys.now.keys }
    requires some { 0 < length (P.asked files.old).names }
    ensures ok { IfSome (P.places files.old)
        (λ known. IfOk result (λ chosen. AreChoicesAmong keys.now known chosen.items)) }
    ensures err { FaultOf (P.places files.old) (IsFirstConflict keys.now) result }
    ensures device { FailsOnlyAt (P.asked files.old).names result (P.history files.old)
        (P.history files.new) }
    ensures failures { (P.history files.old).failures ≤ (P.history files.new).failures }
    ensures failure_is_device { RaisesOnlyAtDevice result (P.history files.old)
        (P.history files.new) }
    ensures bounded { ReadsWithin (P.asked files.old).most (P.history files.old)
        (P.history files.new) }
    ensures kind { IfErr result (λ fault. FailsAtRead (has_kind_at (P.asked files.old).names)
        fault) }
    ensures named { IfErr result (FileIs (λ file. file < length (P.asked files.old).names)) }
    ensures found { IfErr result (λ fault. fault ≢ LoadFault.NoConceptFile) }
    ensures asked { P.asked files.new ≡ P.asked files.old }
    ensures told { P.told files.new ≡ P.told files.old }
    ensures reference { P.reference files.new ≡ P.reference files.old }
{
    let versions = Versions::new(alloc, repeated, files.seed());
    let mut comparing = Comparing::new(keys, versions);
    match files.take_places(&mut comparing) {
        Ok(()) => {
            if !comparing.left.is_empty() {
                return Err(following(comparing.last, files.last_file()));
            }
            Ok(comparing.versions.chosen())
        }
        Err(fault) => Err(fault),
    }
}

// Returns the fault of files that have fewer rows than in the first pass: a conflict on the line
// after `last`, which is the file and line of the last row met. The file of the fault is at most
// `last_file`.
fn following(last: (usize, u64), last_file: usize) -> LoadFault
    ensures { result ≡ LoadFault.Conflict (min last.0 last_file) (min (last.1 + 1) (2 ^ 64 - 1)) }
{
    let (file, line) = last;
    LoadFault::Conflict {
        file: file.min(last_file),
        line: line.saturating_add(1),
    }
}

// Whether `fault` is want of memory.
fn is_memory(fault: &LoadFault) -> bool
    ensures other { result ≡ false → fault.now ≢ LoadFault.Memory }
    ensures memory { result ≡ true → fault.now ≡ LoadFault.Memory }
{
    matches!(fault, LoadFault::Memory)
}

// Whether `fault` is a failure of the device.
fn is_device(fault: &LoadFault) -> bool
    ensures { result ≡ is_device_of fault.now }
{
    matches!(fault, LoadFault::Device { .. })
}
