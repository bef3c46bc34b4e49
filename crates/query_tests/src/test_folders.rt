//! A file system for tests, where folders and files fail as a test asks.
ghost use Rattle.std.specs.Prelude.{IsErr, None, ⊤};

use std::alloc::{Alloc, Allocator, Global};
use std::fs::{Files, Metadata, OpenFile, OpenOptions};
use std::io::{ErrorKind, Read, Seek, SeekFrom, Write};
use std::random::RandomSource;
use std::{fs, io};
use streams::{FolderSystem, Standing, names_at, open_plain_at, standing_at};

/// The node at a path.
#[derive(Clone, Copy)]
pub enum Node {
    /// A file with these bytes.
    File(&'static [u8]),
    /// A file that can't be opened.
    Unopened(ErrorKind),
    /// A file that can't be read.
    Unread(ErrorKind),
    /// A folder with these names, each ended by NUL. The second text is the path of a host folder,
    /// whose metadata serves as the folder's identity.
    Folder(&'static [u8], &'static str),
    /// A folder that can't be listed.
    Unlisted(ErrorKind),
    /// A node whose metadata can't be read.
    Unseen(ErrorKind),
}

/// A file system of nodes at paths. It also gives random bytes.
#[derive(Clone, Drop)]
pub struct TestFolders {
    rt: HostRuntime,
    nodes: &'static [(&'static str, Node)],
    // The value of each random byte; with `None`, drawing random bytes fails.
    random: Option<u8>,
}

impl TestFolders {
    pub fn new(
        rt: HostRuntime,
        nodes: &'static [(&'static str, Node)],
        random: Option<u8>,
    ) -> TestFolders {
        TestFolders { rt, nodes, random }
    }

    // Returns the node at a path, which may end in `/`.
    fn node(&self, path: &str) -> io::Result<Node> {
        let wanted = path.strip_suffix('/').unwrap_or(path);
        for (known, node) in self.nodes {
            if *known == wanted {
                return Ok(*node);
            }
        }
        Err(io::Error::from(ErrorKind::NotFound))
    }
}

/// An open file or folder: its bytes or its names, or why they can't be read.
#[derive(Drop)]
pub struct TestFile {
    bytes: &'static [u8],
    fault: Option<ErrorKind>,
}

// Fails. No source calls the operations that use it.
fn unsupported<T>() -> io::Result<T>
    ensures { IsErr result }
{
    Err(io::Error::from(ErrorKind::Unsupported))
}

impl Alloc for TestFolders {
    type A = Global;

    fn alloc(&self) -> Global {
        self.rt.alloc()
    }
}

impl RandomSource for TestFolders {
    fn fill_bytes(&self, buffer: &mut [u8]) -> io::Result<()> {
        match self.random {
            Some(byte) => {
                buffer.fill(byte);
                Ok(())
            }
            None => unsupported(),
        }
    }
}

impl Files for TestFolders {
    type File = TestFile;

    type Dir = TestFile;

    fn open_file(&self, _how: &OpenOptions, path: &str) -> io::Result<TestFile> {
        match self.node(path)? {
            Node::File(bytes) => Ok(TestFile { bytes, fault: None }),
            Node::Unread(kind) => Ok(TestFile {
                bytes: b"",
                fault: Some(kind),
            }),
            Node::Unopened(kind) => Err(io::Error::from(kind)),
            _ => unsupported(),
        }
    }

    fn open_dir(&self, path: &str) -> io::Result<TestFile> {
        match self.node(path)? {
            Node::Folder(bytes, _) => Ok(TestFile { bytes, fault: None }),
            Node::Unlisted(kind) => Err(io::Error::from(kind)),
            _ => unsupported(),
        }
    }

    fn metadata(&self, path: &str) -> io::Result<Metadata> {
        match self.node(path)? {
            Node::Folder(_, like) => fs::metadata(&self.rt, like),
            Node::Unlisted(_) => Ok(Metadata::of_dir()),
            Node::Unseen(kind) => Err(io::Error::from(kind)),
            _ => Ok(Metadata::of_file(0)),
        }
    }

    fn symlink_metadata(&self, path: &str) -> io::Result<Metadata> {
        self.metadata(path)
    }

    fn copy(&self, _from: &str, _to: &str) -> io::Result<u64> {
        unsupported()
    }

    fn rename(&self, _from: &str, _to: &str) -> io::Result<()> {
        unsupported()
    }

    fn remove_file(&self, _path: &str) -> io::Result<()> {
        unsupported()
    }

    fn create_dir(&self, _path: &str) -> io::Result<()> {
        unsupported()
    }

    fn remove_dir(&self, _path: &str) -> io::Result<()> {
        unsupported()
    }

    fn remove_dir_all<B: Allocator>(&self, _alloc: B, _path: &str) -> io::Result<()> {
        unsupported()
    }
}

impl FolderSystem for TestFolders {
    ghost opens = { λ _ _. ⊤ };

    ghost tree = { λ _. None };

    fn open_plain(&self, path: &str) -> io::Result<TestFile> {
        open_plain_at(self, path)
    }

    fn standing(&self, path: &str) -> io::Result<Standing> {
        standing_at(self, path)
    }

    fn names_in(&self, path: &str) -> io::Result<Vec<String>> {
        names_at(self, path)
    }
}

impl Read for TestFile {
    fn read(&mut self, buffer: &mut [u8]) -> io::Result<usize> {
        match self.fault {
            Some(kind) => Err(io::Error::from(kind)),
            None => self.bytes.read(buffer),
        }
    }
}

impl Write for TestFile {
    fn write(&mut self, _bytes: &[u8]) -> io::Result<usize> {
        unsupported()
    }

    fn flush(&mut self) -> io::Result<()> {
        unsupported()
    }
}

impl Seek for TestFile {
    fn seek(&mut self, _to: SeekFrom) -> io::Result<u64> {
        unsupported()
    }
}

impl OpenFile for TestFile {
    fn metadata(&self) -> io::Result<Metadata> {
        unsupported()
    }

    fn set_len(&self, _size: u64) -> io::Result<()> {
        unsupported()
    }

    fn sync_all(&self) -> io::Result<()> {
        unsupported()
    }

    fn sync_data(&self) -> io::Result<()> {
        unsupported()
    }
}
