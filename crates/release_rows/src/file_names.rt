//! The names of the files that a source lists.
ghost use Rattle.std.specs.Prelude.{◌≡◌, ◌≤◌, map, string_bytes};
ghost use Rattle.std.specs.Cmp.Lexicographic.{slice_cmp};
ghost use Rattle.std.specs.List.Sorted.{IsSorted};
ghost use Rattle.std.specs.Ordering.{nat_cmp};
ghost use Rattle.release_rows.specs.Pieces.{ListsNames, listing_fault};

use release_files::{FileSource, SourceFault};
use row_lists::LoadFault;

/// Replaces `names` by the names of the files that `source` lists, in byte order: the order in
/// which a load reads the files. Leaves no name if the source fails or memory is refused.
pub fn list_names<S: FileSource>(source: &mut S, names: &mut Vec<String>) -> Result<(), LoadFault>
    ensures listed { ListsNames (S.files source.old) result (map string_bytes names.new.items)
        (S.history source.old) (S.history source.new) }
    ensures rising { IsSorted (slice_cmp nat_cmp) (map string_bytes names.new.items) }
    ensures taken { (S.history source.new).most ≤ (S.history source.old).most }
    ensures files { S.files source.new ≡ S.files source.old }
{
    names.clear();
    match source.list() {
        Ok(listed) => *names = listed,
        Err(fault) => return Err(listing_fault(fault)),
    }
    names.sort_unstable();
    Ok(())
}

// Returns the fault of a load whose source fails with `fault` while it lists the files.
fn listing_fault(fault: SourceFault) -> LoadFault
    ensures { result ≡ listing_fault fault }
{
    match fault {
        SourceFault::Device => LoadFault::Device { file: None },
        SourceFault::Memory => LoadFault::Memory,
    }
}
