//! How many rows concepts have, and which rows are faster to read.
ghost use Rattle.std.specs.Prelude.{◌≡◌, ◌≤◌, ◌<◌, true, length};
ghost use Rattle.candidates.specs.RowCounts.{stats_items, row_count_of};

use crate::candidates::CandidateStats;
use reading::Reader;

/// Returns how many rows have `concept` as their value or, if `back`, as their source.
pub fn rows_of_value(reader: Reader<'_>, back: bool, concept: u32) -> u64
    requires { concept < length reader.indexes.now.concepts }
    ensures { result ≡ row_count_of reader.entry.indexes.now back concept }
{
    if back {
        reader.source_row_count(concept)
    } else {
        reader.value_row_count(concept)
    }
}

/// Returns whether looking up the rows of the candidates is faster than reading `rows` adjacent
/// rows. It is not if all concepts or groups are candidates (`None`).
pub fn are_read_before(candidates: Option<CandidateStats>, rows: u64) -> bool
    ensures { result ≡ true → stats_items candidates < rows }
{
    match candidates {
        Some(stats) => look_ups(stats.items_and_rows()) < rows,
        None => false,
    }
}

/// Converts a cost: looking up `rows` rows by number takes about as long as reading the returned
/// number of adjacent rows.
pub fn look_ups(rows: u64) -> u64
    ensures { rows ≤ result }
{
    rows.saturating_mul(8)
}
