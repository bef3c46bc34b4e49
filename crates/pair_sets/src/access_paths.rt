//! The ways to read a leaf, called access paths.
//!
//! The leaf's choice names the rows that are read: those of the values that pass (`ByValue`), those
//! of the types (`ByType`), or all (`Scan`). If the candidates, or a few values, have fewer rows,
//! those are read instead. All ways find the same concepts or groups, so a bad one only costs time.
ghost use Rattle.std.specs.Prelude.{true, ◌≡◌, ◌<◌, ◌+◌, length};
ghost use Rattle.reading.specs.Counted.{full};

use crate::tested::Tested;
use candidates::look_ups;
use constraint_tree::Cardinality;
use set_algebra::{Choice, NodeLimits};

/// Which rows a leaf reads, and how it finds which values pass.
#[derive(Drop)]
pub enum AccessPath<S> {
    /// Reads the rows of the candidates, and tests types and values.
    ByCandidates(Tested<S>),
    /// Reads the rows of the values that pass. All of these are concepts, given by rising number.
    /// Backwards, reads the rows of the sources that pass.
    ByValue(Vec<u32>),
    /// Reads the rows of the types, given by identifier, and tests their values.
    ByType(Vec<u64>, Tested<S>),
    /// Reads all rows, concept by concept or group by group, and tests types and values.
    Scan(Tested<S>),
}

/// What a leaf asks of the pairs of each concept or group, and how it may be read.
#[derive(Clone, Copy, Debug)]
pub struct LeafRequest {
    /// How many distinct pairs must match (Expression Constraint Language, "Cardinality").
    pub count: Cardinality,
    /// Which rows to read.
    pub choice: Choice,
    /// The floor, which is how many items are counted at least, and the bound, which is how many
    /// may be read at most.
    pub limits: NodeLimits,
    /// An upper limit of how many rows the values that pass have, or `None` if none is known. No
    /// answer depends on it.
    pub value_rows: Option<u64>,
}

/// What is known before an access path is chosen. No answer depends on it.
#[derive(Clone, Copy, Debug)]
pub struct LeafReads {
    /// Which rows to read.
    pub choice: Choice,
    /// Whether attributes are read backwards.
    pub back: bool,
    /// How many items may be read at most.
    pub bound: u64,
    /// An upper limit of how many rows the values that pass have, or `None` if none is known.
    pub value_rows: Option<u64>,
}

/// The values that pass, if all are concepts, and how many rows they have. No answer depends on the
/// count of rows.
#[derive(Drop)]
pub struct PassingValues {
    /// The numbers of the values, rising.
    pub numbers: Vec<u32>,
    /// How many rows have one of them as their value or, backwards, as their source.
    pub rows: u64,
}

impl PassingValues {
    /// Returns how many values there are.
    pub fn count(&self) -> u64
        ensures { result ≡ length self.now.numbers.items }
    {
        self.numbers.len() as u64
    }
}

/// Returns whether reading `values` values and their `rows` rows is faster than reading `others`
/// adjacent rows. The rows of a value are adjacent in the index by value. The rows of a source,
/// which are read if `back`, must be looked up one by one.
pub fn values_are_read_before(back: bool, values: u64, rows: u64, others: u64) -> bool
    ensures { result ≡ true → full (values + rows) < others }
{
    let items = values.saturating_add(rows);
    if back {
        look_ups(items) < others
    } else {
        items < others
    }
}
