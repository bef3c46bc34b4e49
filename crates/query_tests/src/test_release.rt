//! The release for the tests.
use release_files::NamedBytes;
use sample_release::sample_files;
use std::alloc::{AllocError, Global};

/// Returns the files of the sample release. It has no contract, because a test that knows the bytes
/// of the release is slow to prove.
pub fn sample() -> [NamedBytes<'static>; 5] {
    sample_files()
}

/// Returns the files of the sample release, and one more file after them.
pub fn sample_and<'a>(
    alloc: Global,
    name: &'a str,
    bytes: &'a [u8],
) -> Result<Vec<NamedBytes<'a>>, AllocError> {
    let mut files = Vec::new(alloc);
    for named in sample() {
        files.push(named)?;
    }
    files.push(NamedBytes { name, bytes })?;
    Ok(files)
}

/// Returns the files of the sample release, where the file at an index has other bytes.
pub fn sample_with(
    alloc: Global,
    place: usize,
    changed: &[u8],
) -> Result<Vec<NamedBytes<'_>>, AllocError> {
    let mut files = Vec::new(alloc);
    for (at, named) in sample().iter().enumerate() {
        let bytes = if at == place { changed } else { named.bytes };
        files.push(NamedBytes {
            name: named.name,
            bytes,
        })?;
    }
    Ok(files)
}
