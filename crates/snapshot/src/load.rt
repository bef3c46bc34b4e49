//! Loads a release: reads its Snapshot files, and makes a `Snapshot` of the chosen rows.
ghost use Rattle.std.specs.Prelude.{◌≡◌, ◌≢◌, ◌↔◌, ◌+◌, ◌<◌, ◌≤◌, ◌⊎◌, ℕ, Err, Some, Ok, false, IfOk, IfErr, IfSome, is_some, map, max, length, string_bytes, count_by};
ghost use Rattle.std.specs.List.{list_any};
ghost use Rattle.std.specs.Cmp.Lexicographic.{slice_cmp};
ghost use Rattle.std.specs.List.Sorted.{IsSorted};
ghost use Rattle.std.specs.Ordering.{nat_cmp};
ghost use Rattle.rf2_rows.specs.Files.{file_kind_of};
ghost use Rattle.release_files.specs.Source.{file_text};
ghost use Rattle.release_rows.specs.Files.{has_kind as has_kind_of, is_concept_file, is_concept_kind, name_concepts};
ghost use Rattle.release_rows.specs.Pieces.{IsUnlisted, has_kind_at, listed};
ghost use Rattle.release_rows.specs.DeviceFaults.{FailsAtRead, FailsOnlyAt, FileIs, RaisesOnlyAtDevice, ReadsWithin, is_device};
ghost use Rattle.release_rows.specs.Limits.{limits_in_force, row_total};
ghost use Rattle.held_release.specs.Contents.{IsFaultOf};
ghost use Rattle.snapshot.specs.Load.{load_of, loaded_from};
ghost use Rattle.snapshot.specs.Loading.{IsLoadedFrom};

use held_release::{Snapshot, finish};
use release_files::{FileSource, NamedBytes};
use release_rows::{
    Limits, MemoryPlaces, PiecePlaces, PlaceSource, TOO_MANY_ROWS, list_names, read_rows,
};
use rf2_rows::{FileKind, file_kind};
use row_lists::LoadFault;
use std::alloc::{AllocError, Global};

/// The functions that load a release, implemented for `Snapshot`.
pub trait LoadSnapshot {
    /// Loads a release from the Snapshot files among `files`, which are in memory. Ignores the
    /// other files. Prefers names in the language with the code `lang`.
    ///
    /// Fails with the first fault, in this order: `NoConceptFile`, if no file has the name of a
    /// Concept file; then, file by file and line by line, `TooMany` by bytes, `Header` on line 1 or
    /// in a file without lines, `Row`, `Conflict`, `TooMany` by rows; last `Cycle`. Fails with
    /// `Memory` if memory is refused, but never if `NoConceptFile` applies.
    ///
    /// Only for files that the caller trusts: the seed of the hashes is fixed, and whoever knows
    /// the seed can make files that take very long to load and to index. With `load_from` the
    /// source gives the seed.
    fn load(
        alloc: Global,
        files: &[NamedBytes<'_>],
        lang: &str,
        limits: Limits,
    ) -> Result<Snapshot, LoadFault>
        ensures ok { IfOk result (λ snapshot. load_of limits lang.now (map file_text files.now)
            ≡ Ok snapshot) }
        ensures err { IfErr result (λ fault. IsFaultOf fault
            (load_of limits lang.now (map file_text files.now))) }
        ensures unnamed { (result ≡ Err LoadFault.NoConceptFile) ↔
            (list_any (λ file. is_concept_file (file_text file)) files.now ≡ false) }
        ensures named { IfErr result (FileIs (λ file. file < length files.now)) };

    /// Loads a release from the files that `source` lists, in the byte order of their names, with
    /// the results and faults of `load`. Reads each file in pieces, and no further than one byte
    /// past the limit of bytes. Puts the names, in this order, into `names`; a fault names a file
    /// by its index there. If the source cannot list its files, `names` is empty.
    ///
    /// Fails with `Device` if the source fails, and then keeps nothing. If the source lists a name
    /// twice, the first file with this name is loaded twice. The call is `list_names` followed by
    /// `load_named`, for callers who need not know which of the two failed.
    fn load_from<S: FileSource>(
        alloc: Global,
        source: &mut S,
        names: &mut Vec<String>,
        lang: &str,
        limits: Limits,
    ) -> Result<Snapshot, LoadFault>
        ensures loads { IsLoadedFrom (S.files source.old) (S.history source.old)
            (S.history source.new) limits lang.now (map string_bytes names.new.items) result }
        ensures failures { (S.history source.old).failures ≤ (S.history source.new).failures }
        ensures kind { IfErr result (λ fault. FailsAtRead
            (has_kind_at (map string_bytes names.new.items)) fault) }
        ensures files { S.files source.new ≡ S.files source.old }
        ensures rising { IsSorted (slice_cmp nat_cmp) (map string_bytes names.new.items) }
        ensures unnamed { name_concepts string_bytes names.new.items ≡ false
            → (result ≡ Err LoadFault.NoConceptFile)
            ⊎ IsUnlisted result (map string_bytes names.new.items) (S.history source.new) }
        ensures found { result ≡ Err LoadFault.NoConceptFile
            → name_concepts string_bytes names.new.items ≡ false }
        ensures named { IfErr result (FileIs (λ file. file < length names.new.items)) };

    /// Loads a release from the files `names` of `source`, in this order, with the results and
    /// faults of `load`. Reads each file in pieces. A fault names a file by its index in `names`;
    /// `Device` always names one.
    fn load_named<S: FileSource>(
        alloc: Global,
        source: &mut S,
        names: &[String],
        lang: &str,
        limits: Limits,
    ) -> Result<Snapshot, LoadFault>
        ensures ok { IfSome (S.files source.old)
            (λ known. IfOk result (λ snapshot. load_of limits lang.now
            (listed known (map string_bytes names.now)) ≡ Ok snapshot)) }
        ensures err { IfSome (S.files source.old)
            (λ known. IfErr result (λ fault. is_device fault ≡ false
            → IsFaultOf fault (load_of limits lang.now
            (listed known (map string_bytes names.now))))) }
        ensures device { FailsOnlyAt (map string_bytes names.now) result (S.history source.old)
            (S.history source.new) }
        ensures failures { (S.history source.old).failures ≤ (S.history source.new).failures }
        ensures failure_is_device { RaisesOnlyAtDevice result (S.history source.old)
            (S.history source.new) }
        ensures bounded { ReadsWithin ((limits_in_force limits).bytes + 1) (S.history source.old)
            (S.history source.new) }
        ensures kind { IfErr result (λ fault. FailsAtRead (has_kind_at (map string_bytes names.now))
            fault) }
        ensures files { S.files source.new ≡ S.files source.old }
        ensures unnamed { (result ≡ Err LoadFault.NoConceptFile) ↔
            (name_concepts string_bytes names.now ≡ false) }
        ensures named { IfErr result (FileIs (λ file. file < length names.now)) };
}

impl LoadSnapshot for Snapshot {
    fn load(
        alloc: Global,
        files: &[NamedBytes<'_>],
        lang: &str,
        limits: Limits,
    ) -> Result<Snapshot, LoadFault> {
        if !has_concept_file(files) {
            return Err(LoadFault::NoConceptFile);
        }
        let mut places = MemoryPlaces { files };
        load_places(
            alloc,
            &mut places,
            lang,
            limits.in_force(),
            kind_count(files),
        )
    }

    fn load_from<S: FileSource>(
        alloc: Global,
        source: &mut S,
        names: &mut Vec<String>,
        lang: &str,
        limits: Limits,
    ) -> Result<Snapshot, LoadFault> {
        match list_names(source, names) {
            Ok(()) => Snapshot::load_named(alloc, source, names.as_slice(), lang, limits),
            Err(fault) => Err(fault),
        }
    }

    fn load_named<S: FileSource>(
        alloc: Global,
        source: &mut S,
        names: &[String],
        lang: &str,
        limits: Limits,
    ) -> Result<Snapshot, LoadFault> {
        if !name_concept_file(names) {
            return Err(LoadFault::NoConceptFile);
        }
        let kinds = named_kind_count(names);
        let limits = limits.in_force();
        let mut places = PiecePlaces {
            alloc,
            source,
            names,
            byte_limit: limits.bytes,
        };
        load_places(alloc, &mut places, lang, limits, kinds)
    }
}

// Loads a release from `files`, of which `kinds` have a kind by their names. There must be at least
// one file. `limits` are the limits in force.
fn load_places<P: PlaceSource>(
    alloc: Global,
    files: &mut P,
    lang: &str,
    limits: Limits,
    kinds: u64,
) -> Result<Snapshot, LoadFault>
    requires total { row_total limits ≤ 68000000 }
    requires some { 0 < length (P.asked files.old).names }
    ensures ok { IfSome (P.places files.old)
        (λ known. IfOk result (λ snapshot. loaded_from limits lang.now kinds known ≡ Ok snapshot)) }
    ensures err { IfSome (P.places files.old)
        (λ known. IfErr result (λ fault. is_device fault ≡ false
        → IsFaultOf fault (loaded_from limits lang.now kinds known))) }
    ensures device { FailsOnlyAt (P.asked files.old).names result (P.history files.old)
        (P.history files.new) }
    ensures failures { (P.history files.old).failures ≤ (P.history files.new).failures }
    ensures failure_is_device { RaisesOnlyAtDevice result (P.history files.old)
        (P.history files.new) }
    ensures bounded { ReadsWithin (P.asked files.old).most (P.history files.old)
        (P.history files.new) }
    ensures kind { IfErr result (λ fault. FailsAtRead (has_kind_at (P.asked files.old).names)
        fault) }
    ensures named { IfErr result (FileIs (λ file. file < length (P.asked files.old).names)) }
    ensures found { IfErr result (λ fault. fault ≢ LoadFault.NoConceptFile) }
    ensures asked { P.asked files.new ≡ P.asked files.old }
    ensures told { P.told files.new ≡ P.told files.old }
    ensures reference { P.reference files.new ≡ P.reference files.old }
{
    match read_rows(alloc, files, limits) {
        Ok(read) => {
            if !read.are_few() {
                return Err(TOO_MANY_ROWS);
            }
            let language = String::from_str(alloc, lang)?;
            finish(alloc, read, language, kinds, files.seed())
        }
        Err(fault) => Err(fault),
    }
}

// Whether one of `files` is a Concept file by its name.
fn has_concept_file(files: &[NamedBytes<'_>]) -> bool
    ensures { result ≡ list_any (λ file. is_concept_file (file_text file)) files.now }
{
    files.iter().any(|file| is_concept_name(file.name))
}

// Returns how many of `files` are files of some kind by their names.
fn kind_count(files: &[NamedBytes<'_>]) -> u64
    ensures { result ≡ count_by (λ file. has_kind_of (file_text file)) files.now }
{
    files.iter().filter(|file| has_kind(file.name)).count() as u64
}

// Whether one of `names` is the name of a Concept file.
fn name_concept_file(names: &[String]) -> bool
    ensures { result ≡ name_concepts string_bytes names.now }
{
    names.iter().any(|name| is_concept_name(name.as_str()))
}

// Returns how many of `names` are names of files of some kind.
fn named_kind_count(names: &[String]) -> u64
    ensures { result ≡ count_by (λ name. is_some (file_kind_of (string_bytes name))) names.now }
{
    names.iter().filter(|name| has_kind(name.as_str())).count() as u64
}

// Whether `name` is the name of a Concept file.
fn is_concept_name(name: &str) -> bool
    ensures { result ≡ is_concept_kind (file_kind_of name.now) }
{
    matches!(file_kind(name), Some(FileKind::Concept))
}

// Whether `name` is the name of a file of some kind.
fn has_kind(name: &str) -> bool
    ensures { result ≡ is_some (file_kind_of name.now) }
{
    file_kind(name).is_some()
}
