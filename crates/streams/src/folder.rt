//! A `FileSource` over the folders of a release.
ghost use Rattle.std.specs.Prelude.{◌≡◌, ◌≢◌, ◌≤◌, ◌++◌, ℕ, List, IfErr, IfOk, IfSome, IsSomeAnd, MatchOption, MatchResult, None, Ok, OnErr, OnOk, Some, length, map, string_bytes};
ghost use Rattle.std.specs.Io.KnownBytes.{IsAtEnd, Keeps, ReadConsumes};
ghost use Rattle.std.specs.IoError.{error_kind};
ghost use Rattle.release_files.specs.Source.{CountsFailures, FailsAtName, FailsAtOpened, FileText, IsListing, IsOpening, Opens};
ghost use Rattle.streams.specs.Folders.{AnswersFault, IsNumbered, IsOpenedBy, IsPlace, failed_so_often, path_below, rest_of};
ghost use Rattle.streams.specs.Traversal.{AreFilesBelow, AreFilesOf, AreFilesOfAll, FolderTree, numbered_name};

use crate::fault::TRIES;
use crate::system::FolderSystem;
use crate::traversal::list_files;
use key_interner::Seed;
use release_files::{FileSource, SourceFault};
use std::alloc::{AllocError, Global};
use std::fs::Files;
use std::io;
use std::io::{ErrorKind, Read};

/// A `FileSource` over the plain files of folders and their subfolders. The name of a file is its
/// path below its folder, with `/` between the parts. If there are two folders or more, the name
/// begins with the number of the folder, from 1, as in `2/a/b.txt`. The source does not tell the
/// contents of the files; it skips no byte of the open file and gives none twice. The files are
/// those of the host, or of any other system `R`.
///
/// `list` gives the names folder by folder. It follows links, but below each of the folders it
/// enters each folder once, whatever links lead to it. It goes level by level, and in each folder
/// in the byte order of the names. A link to nothing is listed only if its name is that of a
/// Snapshot file, so that opening it fails. `open` opens only plain files, and a file is closed
/// once its end is read.
///
/// The source draws its seed from the system when it is created. If that fails, each `list` fails.
#[derive(Drop)]
pub struct FolderSource<'a, R: Files = HostRuntime> {
    rt: &'a R,
    folders: &'a [String],
    file: Option<R::File>,
    failures: u64,
    // `None` if the seed could not be drawn
    seed: Option<Seed>,
}

impl<'a, R: FolderSystem> FolderSource<'a, R> {
    /// Creates a source of the files of `folders`, of which none is open. Draws the seed of its
    /// hashes from `rt`.
    pub fn new(rt: &'a R, folders: &'a [String]) -> FolderSource<'a, R>
        ensures { (⟦<FolderSource<'a, R> as FileSource>⟧.history result).failures ≡ 0 }
    {
        FolderSource {
            rt,
            folders,
            file: None,
            failures: 0,
            seed: Seed::draw(rt).ok(),
        }
    }

    // Turns `given`, the result of a system call, into the result of a call of the source. A
    // failure closes the open file, and is counted unless memory was refused.
    fn counted<T>(&mut self, given: io::Result<T>) -> Result<T, SourceFault>
        ensures value { IfOk result (λ value. given ≡ Ok value) }
        ensures answered { IfOk given (λ value. result ≡ Ok value) }
        ensures counted { IfErr given (λ error. AnswersFault (error_kind error) result
            (failed_so_often self.old.failures) (failed_so_often self.new.failures)) }
        ensures failures { CountsFailures result (failed_so_often self.old.failures)
            (failed_so_often self.new.failures) }
        ensures opened { FailsAtOpened result (failed_so_often self.old.failures)
            (failed_so_often self.new.failures) }
        ensures named { (name : List ℕ)
            → FailsAtName name result (failed_so_often self.old.failures)
            (failed_so_often self.new.failures) }
        ensures open { OnOk result (self.new.file ≡ self.old.file) }
        ensures closed { OnErr result (self.new.file ≡ None) }
    {
        match given {
            Ok(value) => Ok(value),
            Err(error) => {
                self.file = None;
                if error.kind() == ErrorKind::OutOfMemory {
                    return Err(SourceFault::Memory);
                }
                self.failures = self.failures.saturating_add(1);
                Err(SourceFault::Device)
            }
        }
    }
}

impl<'a, R: FolderSystem> FileSource for FolderSource<'a, R> {
    ghost files = { λ _. None };

    ghost rest = { λ source. rest_of R.File.Read.remaining source.file };

    ghost history = { λ source. failed_so_often source.failures };

    fn failures(&self) -> u64 {
        self.failures
    }

    fn seed(&self) -> Seed {
        self.seed.unwrap_or(Seed::FIXED)
    }

    /// Lists the names of the files. If the system tells its tree, these are exactly the names of
    /// the files of the folders, and no failure was ignored.
    fn list(&mut self) -> Result<Vec<String>, SourceFault>
        ensures listed { (tree : FolderTree) → R.tree self.old.rt.now ≡ Some tree
            → IfOk result (λ names. AreFilesOf tree self.old.folders.now
            (map string_bytes names.items)) }
        ensures names { IfOk result (λ names. IfSome None
            (λ (known : List FileText). map string_bytes names.items
            ≡ map (λ file. file.name) known)) }
        ensures rest { MatchResult result
            (λ _. Keeps (rest_of R.File.Read.remaining self.old.file)
            (rest_of R.File.Read.remaining self.new.file))
            (λ _. IsAtEnd (rest_of R.File.Read.remaining self.new.file)) }
        ensures failures { CountsFailures result (failed_so_often self.old.failures)
            (failed_so_often self.new.failures) }
        ensures history { IsListing result (failed_so_often self.old.failures)
            (failed_so_often self.new.failures) }
    {
        let names = list_seeded(self.rt, self.folders, self.seed);
        self.counted(names)
    }

    /// Opens the file at the path that consists of its folder, `/` and its path below the folder.
    fn open(&mut self, name: &str) -> Result<(), SourceFault>
        ensures path { OnOk result (IsSomeAnd self.new.file
            (λ file. IsOpenedBy R.opens self.old.folders.now name.now file)) }
        ensures opened { OnOk result (Opens None name.now
            (rest_of R.File.Read.remaining self.new.file)) }
        ensures closed { OnErr result (IsAtEnd (rest_of R.File.Read.remaining self.new.file)) }
        ensures failures { FailsAtName name.now result (failed_so_often self.old.failures)
            (failed_so_often self.new.failures) }
        ensures history { IsOpening name.now (failed_so_often self.old.failures)
            (failed_so_often self.new.failures) }
    {
        self.file = None;
        let file = open_file(self.rt, self.folders, name);
        self.file = Some(self.counted(file)?);
        Ok(())
    }

    fn read(&mut self, buffer: &mut [u8]) -> Result<usize, SourceFault> {
        let Some(file) = &mut self.file else {
            return Ok(0);
        };
        let count = read_some(file, buffer);
        if matches!(count, Ok(0)) && !buffer.is_empty() {
            self.file = None;
        }
        self.counted(count)
    }
}

// Returns the names of the files of `folders`. Fails if no seed could be drawn (`seed` is `None`),
// since then what the files contain could not be hashed safely.
fn list_seeded<R: FolderSystem>(
    rt: &R,
    folders: &[String],
    seed: Option<Seed>,
) -> io::Result<Vec<String>>
    ensures { (tree : FolderTree) → R.tree rt.now ≡ Some tree
        → IfOk result (λ names. AreFilesOf tree folders.now (map string_bytes names.items)) }
{
    match seed {
        Some(seed) => list_folders(rt, folders, seed),
        None => Err(io::Error::from(ErrorKind::Other)),
    }
}

// Returns the names of the files of `folders`, folder by folder. With one folder a name is a path;
// with several it begins with the number of the folder.
fn list_folders<R: FolderSystem>(rt: &R, folders: &[String], seed: Seed) -> io::Result<Vec<String>>
    ensures { (tree : FolderTree) → R.tree rt.now ≡ Some tree
        → IfOk result (λ names. AreFilesOf tree folders.now (map string_bytes names.items)) }
{
    if let [folder] = folders {
        return list_files(rt, folder.as_str(), seed);
    }
    list_several(rt, folders, seed)
}

// Returns the names of the files of several folders, each with the number of its folder in front.
fn list_several<R: FolderSystem>(rt: &R, folders: &[String], seed: Seed) -> io::Result<Vec<String>>
    ensures { (tree : FolderTree) → R.tree rt.now ≡ Some tree
        → IfOk result (λ names. AreFilesOfAll tree 1 folders.now (map string_bytes names.items)) }
{
    let mut names = Vec::new(rt.alloc());
    for (index, folder) in folders.iter().enumerate() {
        match list_numbered(rt, index + 1, folder.as_str(), seed, &mut names) {
            Ok(()) => {}
            Err(error) => return Err(error),
        }
    }
    Ok(names)
}

// Appends to `names` the names of the files of `folder`, each with the number of the folder in
// front.
fn list_numbered<R: FolderSystem>(
    rt: &R,
    number: usize,
    folder: &str,
    seed: Seed,
    names: &mut Vec<String>,
) -> io::Result<()>
    ensures { (tree : FolderTree) → R.tree rt.now ≡ Some tree
        → OnOk result ((own : List (List ℕ)) × AreFilesBelow tree folder.now own
        × (map string_bytes names.new.items ≡ map string_bytes names.old.items
        ++ map (numbered_name number) own)) }
{
    let own = list_files(rt, folder, seed)?;
    add_numbered(rt.alloc(), number, own.as_slice(), names)?;
    Ok(())
}

// Appends to `names` the names of `own`, each with `number` and `/` in front.
fn add_numbered(
    alloc: Global,
    number: usize,
    own: &[String],
    names: &mut Vec<String>,
) -> Result<(), AllocError>
    ensures { OnOk result (map string_bytes names.new.items ≡ map string_bytes names.old.items
        ++ map (numbered_name number) (map string_bytes own.now)) }
{
    for name in own {
        names.push(numbered_name(alloc, number, name.as_str())?)?;
    }
    Ok(())
}

// Returns `number`, `/` and `name`, joined.
fn numbered_name(alloc: Global, number: usize, name: &str) -> Result<String, AllocError>
    ensures { IfOk result (λ text. string_bytes text ≡ numbered_name number name.now) }
{
    format!(in alloc; "{number}/{name}")
}

// Opens the file called `name` of one of `folders`. Fails if the name has no number of a folder
// although there are several.
fn open_file<R: FolderSystem>(rt: &R, folders: &[String], name: &str) -> io::Result<R::File>
    ensures { IfOk result (λ file. IsOpenedBy R.opens folders.now name.now file) }
{
    match folder_and_path(folders, name) {
        Some((folder, below)) => rt.open_plain(joined(rt.alloc(), folder, below)?.as_str()),
        None => Err(io::Error::from(ErrorKind::NotFound)),
    }
}

// Returns the folder of the file called `name`, and the path of the file below it; `None` if there
// are several folders and the name does not begin with the number of one.
fn folder_and_path<'a>(folders: &'a [String], name: &'a str) -> Option<(&'a str, &'a str)>
    ensures { MatchOption result (length folders.now ≢ 1)
        (λ place. IsPlace folders.now name.now place.0.now place.1.now) }
{
    if let [folder] = folders {
        return Some((folder.as_str(), name));
    }
    numbered(folders, name)
}

// Returns the folder whose number is at the front of `name`, and the path after that number and
// `/`.
fn numbered<'a>(folders: &'a [String], name: &'a str) -> Option<(&'a str, &'a str)>
    ensures { IfSome result (λ place. IsNumbered folders.now name.now place.0.now place.1.now) }
{
    let (number, below) = name.split_once('/')?;
    let index = number.parse::<usize>().ok()?.checked_sub(1)?;
    Some((folders.get(index)?.as_str(), below))
}

// Reads the next bytes of `file` into `buffer`, and returns how many. Tries an interrupted read
// again, up to 1,000 times in all.
fn read_some<F: Read>(file: &mut F, buffer: &mut [u8]) -> io::Result<usize>
    ensures within { IfOk result (λ count. count ≤ length buffer.new) }
    ensures bytes { ReadConsumes (F.remaining file.old) (F.remaining file.new) result buffer.new }
{
    for _ in 0..TRIES {
        match file.read(buffer) {
            Ok(count) => return Ok(count),
            Err(error) => {
                if error.kind() != ErrorKind::Interrupted {
                    return Err(error);
                }
            }
        }
    }
    Err(io::Error::from(ErrorKind::Interrupted))
}

/// Returns the path of `below` within `folder`: the two joined by `/`. If `below` is empty, this is
/// `folder` as it is, even if that is empty.
pub fn joined(alloc: Global, folder: &str, below: &str) -> Result<String, AllocError>
    ensures { IfOk result (λ path. string_bytes path ≡ path_below folder.now below.now) }
{
    let mut path = String::from_str(alloc, folder)?;
    if !below.is_empty() {
        path.push_str("/")?;
        path.push_str(below)?;
    }
    Ok(path)
}
