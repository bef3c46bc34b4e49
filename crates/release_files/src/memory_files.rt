//! A `FileSource` over files in memory.
ghost use Rattle.std.specs.Prelude.{◌≡◌, ◌≢◌, ◌<◌, ◌≤◌, ◌^◌, ◌++◌, Err, IfErr, IfOk, IfSome, MatchOption, MatchResult, OnErr, OnOk, None, Some, IsOk, [], is_err, length, map, string_bytes, take};
ghost use Rattle.release_files.specs.MemorySource.{IsCall, IsCounted, IsFailed, IsToldOpened, with_bytes};
ghost use Rattle.release_files.specs.Source.{CountsFailures, FailsAtName, FailsAtOpened, IsListing, IsOpening, IsReading, Opens, ReadsNext, bytes_of, file_text};

use crate::NamedBytes;
use crate::source::{FileSource, SourceFault};
use std::alloc::{AllocError, Global};
use std::marker::Model;

/// A `FileSource` over files in memory. It borrows the files, and allocates only the list of their
/// names. The seed of its hashes is fixed, because the caller trusts the files. Its history has all
/// that it has done, except that it opened a name that no file has. Contracts name this type as the
/// files, the unread bytes of the open one, and the counts.
#[derive(Debug, Drop)]
pub struct MemoryFiles<'a> {
    alloc: Global,
    files: &'a [NamedBytes<'a>],
    // the bytes of the open file that were not read yet; none if no file is open
    rest: &'a [u8],
    piece: usize,
    fail_at: u64,
    calls: u64,
    failures: u64,
    // the name of the file that was opened last, and the name of the file at which a call failed
    // last
    opened: Option<&'a str>,
    failed: Option<&'a str>,
    // the number of bytes read since the last opening, and the greatest such number
    taken: u64,
    most: u64,
    // whether the last listing failed
    unlisted: bool,
}

impl<'a> Model for MemoryFiles<'a> {
    ghost use Rattle.release_files.specs.MemorySource.{MemorySource};

    ghost Value = { MemorySource };

    ghost use Rattle.release_files.specs.inside.MemoryFilesInside.{HasPieces, source_in};

    ghost view = { source_in };

    ghost invariant = { HasPieces };
}

impl<'a> MemoryFiles<'a> {
    ghost use Rattle.release_files.specs.MemorySource.{asked_source};

    /// Creates a source of `files`, of which none is open. One call of `read` reads at most `piece`
    /// bytes. To test failures, the calls of `list`, `open` and `read` are counted from 1, and the
    /// call with the number `fail_at` fails; if `fail_at` is 0, none does. The count stops at
    /// `u64::MAX`.
    pub fn new(
        alloc: Global,
        files: &'a [NamedBytes<'a>],
        piece: usize,
        fail_at: u64,
    ) -> MemoryFiles<'a>
        requires { 1 ≤ piece }
        ensures asked { result ≡ asked_source (map file_text files.now) piece fail_at }
        ensures files { ⟦<MemoryFiles<'a> as FileSource>⟧.files result
            ≡ Some (map file_text files.now) }
        ensures closed { ⟦<MemoryFiles<'a> as FileSource>⟧.rest result ≡ Some [] }
        ensures failures { (⟦<MemoryFiles<'a> as FileSource>⟧.history result).failures ≡ 0 }
    {
        MemoryFiles {
            alloc,
            files,
            rest: &[],
            piece,
            fail_at,
            calls: 0,
            failures: 0,
            opened: None,
            failed: None,
            taken: 0,
            most: 0,
            unlisted: false,
        }
    }

    // Counts a call. Fails if its number is `fail_at`.
    fn count_call(&mut self) -> Result<(), SourceFault>
        ensures call { IsCall self.old self.new }
        ensures ok { OnOk result ((self.new.calls ≢ self.new.fail_at)
            × (self.new.rest ≡ self.old.rest) × (self.new.history ≡ self.old.history)) }
        ensures fault { IfErr result (λ fault. (self.new.calls ≡ self.new.fail_at)
            × (fault ≡ SourceFault.Device) × (self.new.rest ≡ [])
            × IsFailed self.old.history self.new.history) }
    {
        self.calls = self.calls.saturating_add(1);
        if self.calls == self.fail_at {
            return Err(self.fail());
        }
        Ok(())
    }

    // Records a failure at the file that was opened last, and closes that file. Returns the fault.
    fn fail(&mut self) -> SourceFault
        ensures fault { result ≡ SourceFault.Device }
        ensures closed { self.new.rest ≡ [] }
        ensures failed { IsFailed self.old.history self.new.history }
        ensures same { IsCounted self.old.calls self.old self.new }
    {
        self.failures = self.failures.saturating_add(1);
        self.failed = self.opened;
        self.rest = &[];
        SourceFault::Device
    }

    // Copies the next bytes of the open file, at most `piece`, into the front of `buffer`. Returns
    // how many.
    fn take(&mut self, buffer: &mut [u8]) -> usize
        ensures within { result ≤ length buffer.new }
        ensures bytes { self.old.rest ≡ take result buffer.new ++ self.new.rest }
        ensures end { result ≡ 0 → 0 < length buffer.new → self.new.rest ≡ [] }
        ensures piece { result ≤ self.old.piece }
        ensures same { IsCounted self.old.calls self.old self.new }
        ensures taken { self.new.history ≡ with_bytes result self.old.history }
    {
        let count = buffer.len().min(self.rest.len()).min(self.piece);
        let (front, rest) = self.rest.split_at(count);
        buffer[..count].copy_from_slice(front);
        self.rest = rest;
        self.taken = self.taken.saturating_add(count as u64);
        self.most = self.most.max(self.taken);
        count
    }
}

impl<'a> FileSource for MemoryFiles<'a> {
    ghost files = { λ source. Some source.files };

    ghost rest = { λ source. Some source.rest };

    ghost history = { λ source. source.history };

    fn failures(&self) -> u64 {
        self.failures
    }

    fn list(&mut self) -> Result<Vec<String>, SourceFault>
        ensures names { IfOk result (λ names. map string_bytes names.items
            ≡ map (λ file. file.name) self.old.files) }
        ensures rest { MatchResult result (λ _. self.new.rest ≡ self.old.rest)
            (λ _. self.new.rest ≡ []) }
        ensures files { self.new.files ≡ self.old.files }
        ensures failures { CountsFailures result self.old.history self.new.history }
        ensures history { IsListing result self.old.history self.new.history }
        ensures unlisted { self.new.history.unlisted ≡ is_err result }
        ensures call { IsCall self.old self.new }
        ensures fails { self.new.calls ≡ self.new.fail_at → result ≡ Err SourceFault.Device }
        ensures memory { self.new.calls ≢ self.new.fail_at
            → IfErr result (λ fault. fault ≡ SourceFault.Memory) }
    {
        self.unlisted = true;
        self.count_call()?;
        match names_of(self.alloc, self.files) {
            Ok(names) => {
                self.unlisted = false;
                Ok(names)
            }
            Err(_) => {
                self.rest = &[];
                Err(SourceFault::Memory)
            }
        }
    }

    fn open(&mut self, name: &str) -> Result<(), SourceFault>
        ensures opened { OnOk result (Opens (Some self.old.files) name.now (Some self.new.rest)) }
        ensures closed { OnErr result (self.new.rest ≡ []) }
        ensures missing { bytes_of name.now self.old.files ≡ None
            → result ≡ Err SourceFault.Device }
        ensures files { self.new.files ≡ self.old.files }
        ensures failures { FailsAtName name.now result self.old.history self.new.history }
        ensures history { IsOpening name.now self.old.history self.new.history }
        ensures told { IsToldOpened name.now self.new }
        ensures call { IsCall self.old self.new }
        ensures fails { self.new.calls ≡ self.new.fail_at → result ≡ Err SourceFault.Device }
        ensures goes { self.new.calls ≢ self.new.fail_at → bytes_of name.now self.old.files ≢ None
            → IsOk result }
    {
        let found = file_named(self.files, name);
        self.opened = found.map(|file| file.0);
        self.taken = 0;
        self.count_call()?;
        match found {
            Some((_, bytes)) => {
                self.rest = bytes;
                Ok(())
            }
            None => Err(self.fail()),
        }
    }

    fn read(&mut self, buffer: &mut [u8]) -> Result<usize, SourceFault>
        ensures within { IfOk result (λ count. count ≤ length buffer.new) }
        ensures bytes { ReadsNext (Some self.old.rest) (Some self.new.rest) result buffer.new }
        ensures files { self.new.files ≡ self.old.files }
        ensures failures { FailsAtOpened result self.old.history self.new.history }
        ensures history { IsReading result self.old.history self.new.history }
        ensures taken { IfOk result (λ count. self.new.history
            ≡ with_bytes count self.old.history) }
        ensures piece { IfOk result (λ count. count ≤ self.old.piece) }
        ensures call { IsCall self.old self.new }
        ensures fails { self.new.calls ≡ self.new.fail_at → result ≡ Err SourceFault.Device }
        ensures goes { self.new.calls ≢ self.new.fail_at → IsOk result }
    {
        self.count_call()?;
        Ok(self.take(buffer))
    }
}

// Copies the names of `files`, in order.
fn names_of(alloc: Global, files: &[NamedBytes<'_>]) -> Result<Vec<String>, AllocError>
    ensures { IfOk result (λ names. map string_bytes names.items
        ≡ map (λ file. file.name.now) files.now) }
{
    let mut names = Vec::new(alloc);
    for file in files {
        names.push(String::from_str(alloc, file.name)?)?;
    }
    Ok(names)
}

// Returns the name and the bytes of the first file called `name`, or `None` if no file has this
// name.
fn file_named<'a>(files: &'a [NamedBytes<'a>], name: &str) -> Option<(&'a str, &'a [u8])>
    ensures found { MatchOption result (bytes_of name.now (map file_text files.now) ≡ None)
        (λ file. bytes_of name.now (map file_text files.now) ≡ Some file.1.now) }
    ensures named { IfSome result (λ file. file.0.now ≡ name.now) }
    ensures short { IfSome result (λ file. length file.1.now < 2 ^ 64) }
{
    for file in files {
        if file.name == name {
            return Some((file.name, file.bytes));
        }
    }
    None
}
