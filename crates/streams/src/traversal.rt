//! Traverses a folder and its subfolders.
ghost use Rattle.std.specs.Prelude.{◌∷◌, ◌++◌, ◌≡◌, ℕ, List, Result, Some, OnOk, [], IfOk, map, string_bytes};
ghost use Rattle.std.specs.declared.io.ErrorKind.{ErrorKind};
ghost use Rattle.streams.specs.Folders.{path_below};
ghost use Rattle.streams.specs.Traversal.{AreFilesBelow, AreNamesIn, Enters, EntersAll, FolderTree, Found, Tells, found_at, found_in as found_in_folder, with_file, with_folder};
ghost use Rattle.streams.specs.declared.system.Standing.{Standing};
ghost use Rattle.streams.specs.inside.TraversalInside.{found_by};

use crate::folder::joined;
use crate::system::{FolderSystem, Standing};
use key_interner::{KeyInterner, Seed};
use rf2_rows::file_kind;
use std::alloc::{AllocError, Global};
use std::io::ErrorKind;
use std::{io, mem};

// The number of levels: the folder itself and 16 levels of subfolders. Deeper files are not listed.
const LEVELS: usize = 17;

/// Returns the names of the plain files of `folder` and its subfolders, level by level. A name is
/// the path below `folder`. The numbers of the folders that were entered are hashed with `seed`.
pub fn list_files<R: FolderSystem>(rt: &R, folder: &str, seed: Seed) -> io::Result<Vec<String>>
    ensures { (tree : FolderTree) → R.tree rt.now ≡ Some tree
        → IfOk result (λ names. AreFilesBelow tree folder.now (map string_bytes names.items)) }
{
    let mut traversal = Traversal::new(rt.alloc(), seed);
    let mut level = root(rt.alloc())?;
    for turn in 0..LEVELS {
        match traversal.enter_all(rt, folder, level.as_slice()) {
            Ok(()) => {}
            Err(error) => return Err(error),
        }
        level = traversal.take_folders(rt.alloc());
    }
    Ok(traversal.files)
}

// Returns the first level of the traversal: the folder itself, whose path below itself is empty.
fn root(alloc: Global) -> Result<Vec<String>, AllocError>
    ensures { IfOk result (λ level. map string_bytes level.items ≡ [] ∷ []) }
{
    let mut level = Vec::new(alloc);
    level.push(String::new(alloc))?;
    Ok(level)
}

// The files and folders that the traversal of a folder has found. Paths are relative to that
// folder.
#[derive(Drop)]
struct Traversal {
    // the paths of the plain files
    files: Vec<String>,
    // the paths of the folders of the next level, each with a `/` at its end
    folders: Vec<String>,
    // the numbers of the folders that were entered, since a link may lead to a folder again
    entered: KeyInterner,
}

impl Traversal {
    fn new(alloc: Global, seed: Seed) -> Traversal
        ensures found { found_by result ≡ record { files = []; folders = [] } }
        ensures entered { result.entered ≡ [] }
    {
        Traversal {
            files: Vec::new(alloc),
            folders: Vec::new(alloc),
            entered: KeyInterner::new(alloc, seed),
        }
    }

    // Returns the folders found for the next level, and leaves an empty list.
    fn take_folders(&mut self, alloc: Global) -> Vec<String>
        ensures taken { map string_bytes result.items ≡ (found_by self.old).folders }
        ensures found { found_by self.new ≡ record {
          files = (found_by self.old).files;
          folders = [];
        } }
        ensures entered { self.new.entered ≡ self.old.entered }
    {
        mem::replace(&mut self.folders, Vec::new(alloc))
    }

    // Enters each folder of `level`, in order.
    fn enter_all<R: FolderSystem>(
        &mut self,
        rt: &R,
        folder: &str,
        level: &[String],
    ) -> io::Result<()>
        ensures { (tree : FolderTree) → R.tree rt.now ≡ Some tree
            → OnOk result (EntersAll tree folder.now (map string_bytes level.now) self.old.entered
            (found_by self.old) self.new.entered (found_by self.new)) }
    {
        for below in level {
            match self.enter(rt, folder, below.as_str()) {
                Ok(()) => {}
                Err(error) => return Err(error),
            }
        }
        Ok(())
    }

    // Enters the folder at the path `below` within `folder`: records the files and folders in it,
    // in the byte order of their names. Does nothing if that folder was entered before.
    fn enter<R: FolderSystem>(&mut self, rt: &R, folder: &str, below: &str) -> io::Result<()>
        ensures { (tree : FolderTree) → R.tree rt.now ≡ Some tree
            → OnOk result (Enters tree folder.now below.now self.old.entered (found_by self.old)
            self.new.entered (found_by self.new)) }
    {
        let path = joined(rt.alloc(), folder, below)?;
        let (_, is_new) = self.entered.intern(folder_number(rt, path.as_str())?)?;
        if !is_new {
            return Ok(());
        }
        let names = sorted_names(rt, path.as_str())?;
        self.take_all(rt, folder, below, names.as_slice())
    }

    // Records what the folder `below` has under each of `names`.
    fn take_all<R: FolderSystem>(
        &mut self,
        rt: &R,
        folder: &str,
        below: &str,
        names: &[String],
    ) -> io::Result<()>
        ensures found { (tree : FolderTree) → R.tree rt.now ≡ Some tree
            → OnOk result (found_in_folder tree folder.now below.now (map string_bytes names.now)
            (found_by self.old) ≡ Some (found_by self.new)) }
        ensures entered { self.new.entered ≡ self.old.entered }
    {
        for name in names {
            match self.take(rt, folder, below, name.as_str()) {
                Ok(()) => {}
                Err(error) => return Err(error),
            }
        }
        Ok(())
    }

    // Records what the folder `below` has under `name`.
    fn take<R: FolderSystem>(
        &mut self,
        rt: &R,
        folder: &str,
        below: &str,
        name: &str,
    ) -> io::Result<()>
        ensures found { (tree : FolderTree) → R.tree rt.now ≡ Some tree
            → OnOk result (found_at (tree.at (path_below folder.now (below.now ++ name.now)))
            (below.now ++ name.now) (found_by self.old) ≡ Some (found_by self.new)) }
        ensures entered { self.new.entered ≡ self.old.entered }
    {
        let mut path = String::from_str(rt.alloc(), below)?;
        path.push_str(name)?;
        let standing = standing_below(rt, folder, path.as_str());
        self.take_found(path, standing)
    }

    // Records `path` if `found` is a plain file or a folder, and ignores anything else. `found` is
    // an error if the system cannot tell what the path leads to.
    fn take_found(&mut self, path: String, found: io::Result<Standing>) -> io::Result<()>
        ensures found { (so : Result Standing ErrorKind) → Tells (λ one. one) so found
            → OnOk result (found_at so (string_bytes path) (found_by self.old)
            ≡ Some (found_by self.new)) }
        ensures entered { self.new.entered ≡ self.old.entered }
    {
        match found {
            Ok(Standing::File) => Ok(self.push_file(path)?),
            Ok(Standing::Folder(_)) => Ok(self.push_folder(path)?),
            Ok(Standing::Other) => Ok(()),
            Err(error) => self.take_lost(path, error),
        }
    }

    // Handles a path for which the system returned `error` instead of what the path leads to. If
    // its name is that of a Snapshot file, records it as a file, so that opening it fails.
    // Otherwise ignores a link to nothing, and fails at any other error. Always fails if memory was
    // refused.
    fn take_lost(&mut self, path: String, error: io::Error) -> io::Result<()>
        ensures found { (so : Result Standing ErrorKind)
            → Tells {T = Standing} (λ one. one) so (Err error)
            → OnOk result (found_at so (string_bytes path) (found_by self.old)
            ≡ Some (found_by self.new)) }
        ensures entered { self.new.entered ≡ self.old.entered }
    {
        if error.kind() == ErrorKind::OutOfMemory {
            return Err(error);
        }
        if file_kind(path.as_str()).is_some() {
            return Ok(self.push_file(path)?);
        }
        match error.kind() {
            ErrorKind::NotFound | ErrorKind::NotADirectory | ErrorKind::FilesystemLoop => Ok(()),
            _ => Err(error),
        }
    }

    fn push_file(&mut self, path: String) -> Result<(), AllocError>
        ensures found { OnOk result (found_by self.new
            ≡ with_file (string_bytes path) (found_by self.old)) }
        ensures entered { self.new.entered ≡ self.old.entered }
    {
        self.files.push(path)?;
        Ok(())
    }

    fn push_folder(&mut self, mut path: String) -> Result<(), AllocError>
        ensures found { OnOk result (found_by self.new
            ≡ with_folder (string_bytes path) (found_by self.old)) }
        ensures entered { self.new.entered ≡ self.old.entered }
    {
        path.push_str("/")?;
        self.folders.push(path)?;
        Ok(())
    }
}

// Returns the number of the folder at `path`. Fails if the path does not lead to a folder.
fn folder_number<R: FolderSystem>(rt: &R, path: &str) -> io::Result<u128>
    ensures { (tree : FolderTree) → R.tree rt.now ≡ Some tree
        → IfOk result (λ number. tree.at path.now ≡ Ok (Standing.Folder number)) }
{
    match rt.standing(path) {
        Ok(Standing::Folder(number)) => Ok(number),
        Ok(_) => Err(io::Error::from(ErrorKind::NotADirectory)),
        Err(error) => Err(error),
    }
}

// Returns what the path `below` within `folder` leads to.
fn standing_below<R: FolderSystem>(rt: &R, folder: &str, below: &str) -> io::Result<Standing>
    ensures { (tree : FolderTree) → R.tree rt.now ≡ Some tree
        → Tells (λ one. one) (tree.at (path_below folder.now below.now)) result }
{
    let path = joined(rt.alloc(), folder, below)?;
    rt.standing(path.as_str())
}

// Returns the names in the folder at `path`, in byte order.
fn sorted_names<R: FolderSystem>(rt: &R, path: &str) -> io::Result<Vec<String>>
    ensures { (tree : FolderTree) → R.tree rt.now ≡ Some tree
        → IfOk result (λ names. AreNamesIn tree path.now (map string_bytes names.items)) }
{
    let mut names = rt.names_in(path)?;
    names.sort()?;
    Ok(names)
}
