//! Limits of a load: how many rows of each kind it accepts, and how many bytes of a file.
ghost use Rattle.std.specs.Prelude.{◌≡◌, ◌-◌, nat_le, not};

use rf2_rows::FileKind;

/// Limits of a load. The limits of rows count the rows of all files of a kind together; `bytes` is
/// the limit of each single file. `in_force` lowers a field that is above its value in `standard`,
/// and raises `bytes` to at least 3.
#[derive(Clone, Copy, Debug, PartialEq, Eq)]
pub struct Limits {
    /// How many concept rows, active or not.
    pub concepts: u64,
    /// How many description rows, active or not.
    pub descriptions: u64,
    /// How many relationship rows, active or not.
    pub relationships: u64,
    /// How many rows of concrete values, active or not.
    pub concrete: u64,
    /// How many rows of simple reference sets, active or not.
    pub members: u64,
    /// How many bytes of one file.
    pub bytes: u64,
}

const STANDARD: Limits = Limits {
    concepts: 4_000_000,
    descriptions: 20_000_000,
    relationships: 20_000_000,
    concrete: 4_000_000,
    members: 20_000_000,
    bytes: 4_294_967_295,
};

// The smallest limit of bytes: a file may have a byte order mark of 3 bytes.
const LEAST_BYTES: u64 = 3;

impl Limits {
    ghost use Rattle.release_rows.specs.Limits.{left_after, limits_in_force, row_limit, standard_limits};

    /// Returns the default limits: 4,000,000 concept rows, 20,000,000 description rows, 20,000,000
    /// relationship rows, 4,000,000 rows of concrete values, 20,000,000 member rows, and
    /// 4,294,967,295 bytes in a file.
    pub fn standard() -> Limits
        ensures { result ≡ standard_limits }
    {
        STANDARD
    }

    /// Returns the limits that a load applies if the caller asks for `self`: none is above the
    /// standard one, and `bytes` is at least 3.
    pub fn in_force(self) -> Limits
        ensures { result ≡ limits_in_force self }
    {
        Limits {
            concepts: self.concepts.min(STANDARD.concepts),
            descriptions: self.descriptions.min(STANDARD.descriptions),
            relationships: self.relationships.min(STANDARD.relationships),
            concrete: self.concrete.min(STANDARD.concrete),
            members: self.members.min(STANDARD.members),
            bytes: self.bytes.min(STANDARD.bytes).max(LEAST_BYTES),
        }
    }

    /// Counts one row of `kind`: lowers its limit by one, unless it is 0. Returns whether the limit
    /// was above 0, that is, whether the row is allowed.
    pub(crate) fn take(&mut self, kind: FileKind) -> bool
        ensures room { result ≡ not (nat_le (row_limit self.old kind) 0) }
        ensures left { self.new ≡ left_after self.old kind }
    {
        match kind {
            FileKind::Concept => take_one(&mut self.concepts),
            FileKind::Description => take_one(&mut self.descriptions),
            FileKind::Relationship => take_one(&mut self.relationships),
            FileKind::Concrete => take_one(&mut self.concrete),
            FileKind::Member => take_one(&mut self.members),
        }
    }
}

// Lowers `count` by one, unless it is 0. Returns whether it was above 0.
fn take_one(count: &mut u64) -> bool
    ensures room { result ≡ not (nat_le count.old 0) }
    ensures left { count.new ≡ count.old - 1 }
{
    if *count == 0 {
        return false;
    }
    *count -= 1;
    true
}
