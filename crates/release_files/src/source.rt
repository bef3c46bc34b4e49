//! The interface through which a load lists, opens and reads the files of a release.
ghost use Rattle.std.specs.Prelude.{◌≡◌, ℕ, ◌≤◌, Err, None, IfOk, IfSome, List, MatchResult, OnErr, OnOk, Option, length, map, string_bytes};
ghost use Rattle.std.specs.Io.KnownBytes.{IsAtEnd, Keeps};
ghost use Rattle.release_files.specs.Source.{CountsFailures, FailsAtName, FailsAtOpened, FileText, History, IsListing, IsOpening, IsReading, Opens, ReadsNext, bytes_of, source_fault_number};

use key_interner::Seed;

/// Why a call of a `FileSource` failed.
#[derive(Clone, Copy, Debug, PartialEq, Eq)]
pub enum SourceFault {
    /// The file, or the list of files, could not be read, or there is no such file.
    Device,
    /// Memory was refused.
    Memory,
}

impl SourceFault {
    /// Returns the number of the fault, 1 or 2.
    pub fn number(self) -> u8
        ensures { result ≡ source_fault_number self }
    {
        match self {
            SourceFault::Device => 1,
            SourceFault::Memory => 2,
        }
    }
}

/// A source from which a load reads the files of a release. It lists the files, and reads one file
/// at a time.
///
/// No call changes the files, so a file that is opened again gives the same bytes. A call fails
/// with `Device` if the device fails or does not have the file, and counts this in `failures`. It
/// fails with `Memory` if memory is refused. After a failed call no file is open.
pub trait FileSource {
    /// The files with their bytes, in the order in which `list` names them; `None` if the source
    /// does not tell them.
    ghost files: { Self → Option (List FileText) };

    /// The bytes of the open file that were not read yet, none if no file is open; `None` if the
    /// source does not tell them.
    ghost rest: { Self → Option (List ℕ) };

    /// What the source has done: how many failures there were, which name it opened last, at which
    /// file the device failed last, how many bytes it read of a file, and whether the last listing
    /// failed. A source may leave out all but the failures.
    ghost history: { Self → History };

    /// Returns the number of failures, at most `u64::MAX`.
    fn failures(&self) -> u64
        ensures { result ≡ (history self.now).failures };

    /// Returns the seed for hashes of what the files contain. It stays the same, and is fixed
    /// unless a source overrides this function. Whoever knows the seed can make files that take
    /// very long to load, so a source of files that the caller does not trust draws it at random
    /// (`Seed::draw`).
    fn seed(&self) -> Seed {
        Seed::FIXED
    }

    /// Lists the names of the files: the path of each below the folder of the release, with `/`
    /// between its parts. The open file stays open.
    fn list(&mut self) -> Result<Vec<String>, SourceFault>
        ensures names { IfOk result (λ names. IfSome (files self.old)
            (λ known. map string_bytes names.items ≡ map (λ file. file.name) known)) }
        ensures rest { MatchResult result (λ _. Keeps (rest self.old) (rest self.new))
            (λ _. IsAtEnd (rest self.new)) }
        ensures files { files self.new ≡ files self.old }
        ensures failures { CountsFailures result (history self.old) (history self.new) }
        ensures history { IsListing result (history self.old) (history self.new) };

    /// Closes the open file, and opens the first file called `name`. Fails with `Device` if no file
    /// has this name.
    fn open(&mut self, name: &str) -> Result<(), SourceFault>
        ensures opened { OnOk result (Opens (files self.old) name.now (rest self.new)) }
        ensures closed { OnErr result (IsAtEnd (rest self.new)) }
        ensures missing { IfSome (files self.old) (λ known. bytes_of name.now known ≡ None
            → result ≡ Err SourceFault.Device) }
        ensures files { files self.new ≡ files self.old }
        ensures failures { FailsAtName name.now result (history self.old) (history self.new) }
        ensures history { IsOpening name.now (history self.old) (history self.new) };

    /// Reads the next bytes of the open file into the front of `buffer`. Returns how many: 0 only
    /// at the end of the file, if `buffer` is empty, or if no file is open.
    fn read(&mut self, buffer: &mut [u8]) -> Result<usize, SourceFault>
        ensures within { IfOk result (λ count. count ≤ length buffer.new) }
        ensures bytes { ReadsNext (rest self.old) (rest self.new) result buffer.new }
        ensures files { files self.new ≡ files self.old }
        ensures failures { FailsAtOpened result (history self.old) (history self.new) }
        ensures history { IsReading result (history self.old) (history self.new) };
}
