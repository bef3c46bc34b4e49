//! A law about the definitions of a traversal of folders. A law is a function that does nothing;
//! its contract is a theorem.
ghost use Rattle.std.specs.Prelude.{◌<◌, ◌^◌, List, bytes_eq, length, ℕ};
ghost use Rattle.std.specs.List.{IsDistinct};
ghost use Rattle.std.specs.declared.alloc.Global.{Global};
ghost use Rattle.std.specs.declared.string.String.{String};
ghost use Rattle.streams.specs.NamesOnce.{ListsNamesOnce};
ghost use Rattle.streams.specs.Traversal.{AreFilesOf, FolderTree};

/// If no folder of `tree` lists a name twice or a name with a `/` in it, all files of `folders`
/// have different names. This holds even if `folders` names a folder more than once, and whatever
/// links lead to a folder. The law assumes fewer than 2^64 folders, which always holds in memory:
/// of greater numbers only the last digits would be written, so that two could have one text.
pub fn no_name_is_listed_twice()
    ensures { (tree : FolderTree) (folders : List (String Global)) (names : List (List ℕ))
        → ListsNamesOnce tree → length folders < 2 ^ 64 → AreFilesOf tree folders names
        → IsDistinct bytes_eq names }
{}
