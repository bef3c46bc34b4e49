//! The interface to the system that has the folders and files.
ghost use Rattle.std.specs.Prelude.{◌≡◌, ℕ, IfOk, List, None, Option, Some, map, string_bytes, ⊤};
ghost use Rattle.streams.specs.Traversal.{FolderTree, Tells};

use std::alloc::AllocGlobal;
use std::fs::{File, Files};
use std::io::ErrorKind;
use std::os::unix::fs::MetadataExt;
use std::random::RandomSource;
use std::{fs, io};

/// What a path leads to, after links are followed.
#[derive(Clone, Copy, Debug, PartialEq, Eq)]
pub enum Standing {
    /// A plain file.
    File,
    /// A folder, with a number that identifies it.
    Folder(u128),
    /// Something else.
    Other,
}

/// A system of folders and files, with memory and random bytes: the runtime of `main`, or any
/// other.
///
/// The standard library states nothing about what a system's files are. An implementation can state
/// it here: what each path leads to and which names each folder has (`tree`), and by which path a
/// file was opened (`opens`). The runtime of `main` states neither.
pub trait FolderSystem: Files + RandomSource + AllocGlobal + Clone + Drop {
    /// The file was opened at this path.
    ghost opens: { List ℕ → Self.File → Type 0 };

    /// The tree of folders and files; `None` if the system does not tell it.
    ghost tree: { Self → Option FolderTree };

    /// Opens the plain file at `path`. Fails if there is anything else, because opening a pipe may
    /// wait forever.
    fn open_plain(&self, path: &str) -> io::Result<Self::File>
        ensures { IfOk result (λ file. opens path.now file) };

    /// Returns what `path` leads to. Follows links.
    fn standing(&self, path: &str) -> io::Result<Standing>
        ensures { (known : FolderTree) → tree self.now ≡ Some known
            → Tells (λ found. found) (known.at path.now) result };

    /// Returns the names in the folder at `path`, in any order.
    fn names_in(&self, path: &str) -> io::Result<Vec<String>>
        ensures { (known : FolderTree) → tree self.now ≡ Some known
            → Tells (λ found. map string_bytes found.items) (known.names path.now) result };
}

impl FolderSystem for HostRuntime {
    ghost opens = { λ _ _. ⊤ };

    ghost tree = { λ _. None };

    fn open_plain(&self, path: &str) -> io::Result<<HostRuntime as Files>::File> {
        open_plain_at(self, path)
    }

    fn standing(&self, path: &str) -> io::Result<Standing> {
        standing_at(self, path)
    }

    fn names_in(&self, path: &str) -> io::Result<Vec<String>> {
        names_at(self, path)
    }
}

/// Opens the plain file at `path` of `system`, a system of the standard library. Fails if there is
/// anything else.
pub fn open_plain_at<R: Files>(system: &R, path: &str) -> io::Result<R::File> {
    if fs::metadata(system, path)?.is_file() {
        return File::open(system, path);
    }
    Err(io::Error::from(ErrorKind::InvalidInput))
}

/// Returns what `path` leads to in `system`, a system of the standard library. The number of a
/// folder is made of its device number and its inode number.
pub fn standing_at<R: Files>(system: &R, path: &str) -> io::Result<Standing> {
    let attributes = fs::metadata(system, path)?;
    if attributes.is_dir() {
        let number = u128::from(attributes.dev()) << 64 | u128::from(attributes.ino());
        return Ok(Standing::Folder(number));
    }
    if attributes.is_file() {
        return Ok(Standing::File);
    }
    Ok(Standing::Other)
}

/// Returns the names in the folder at `path` of `system`, a system of the standard library.
pub fn names_at<R: Files + AllocGlobal + Clone + Drop>(
    system: &R,
    path: &str,
) -> io::Result<Vec<String>> {
    let mut names = Vec::new(system.alloc());
    push_names(system, path, &mut names)?;
    Ok(names)
}

// Appends to `names` the names in the folder at `path`, in the order in which the system gives
// them.
fn push_names<R: Files + AllocGlobal + Clone + Drop>(
    system: &R,
    path: &str,
    names: &mut Vec<String>,
) -> io::Result<()> {
    for entry in fs::read_dir(system, path)? {
        let name = String::from_str(system.alloc(), entry?.file_name())?;
        names.push(name)?;
    }
    Ok(())
}
