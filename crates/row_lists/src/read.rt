//! The result of reading the files of a release.
ghost use Rattle.std.specs.Prelude.{◌≡◌, true};
ghost use Rattle.row_lists.specs.ListsRead.{AreFew, read_in};

use crate::row_lists::RowLists;

/// The greatest number of rows that a release may have. The limits of a load never allow more.
/// Contracts state this only for files whose bytes the source tells, so a load also checks it when
/// it runs.
pub const MOST_ROWS: u64 = 68_000_000;

/// What reading the files of a release yields: the lists made of the chosen rows, and the number of
/// all rows.
#[derive(Drop)]
pub struct ReadRows {
    /// The lists made of the chosen rows.
    pub lists: RowLists,
    /// The number of rows in the files, chosen or not.
    pub count: u64,
}

impl ReadRows {
    /// Whether there are at most `MOST_ROWS` rows, and no list has more items than there are rows.
    pub fn are_few(&self) -> bool
        ensures few { result ≡ true → AreFew self.now.count (read_in self.now.lists) }
        ensures told { AreFew self.now.count (read_in self.now.lists) → result ≡ true }
    {
        let lists = &self.lists;
        let most = lists
            .concepts
            .len()
            .max(lists.inactive_concepts.len())
            .max(lists.names.len())
            .max(lists.isa_ends.len())
            .max(lists.attributes.len())
            .max(lists.member_ends.len());
        most as u64 <= self.count && self.count <= MOST_ROWS
    }
}
