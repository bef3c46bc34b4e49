//! Tests of the indexes of the sample release, and of releases that are made for a test.
//!
//! The concepts have the numbers A 0, B 1, C 2, D 3, T 4, U 5, X 6, Y 7, Q 8 and Root 9.
use crate::load_tests::{MEMBERS, RELATIONSHIPS, replaced, sample, sample_with};
use postings::{FlaggedNumber, Indexes, Stats};
use release_files::NamedBytes;
use rf2_rows::Value;
use snapshot::{Limits, LoadFault, LoadSnapshot, Snapshot};
use std::alloc::Global;
use std::process::Abort;
use std::test::Fail;

// The types of the rows: T, U, and a concept that is not in force. The values are X and Y, and the
// two numbers of the sample in units of 10^-18.
const T: u64 = 104001;

const U: u64 = 105000;

const INACTIVE: u64 = 109006;

const X: Held = Held::Concept(106004);

const Y: Held = Held::Concept(107008);

const DECIMALS: [i128; 2] = [2_500_000_000_000_000_000, 3_000_000_000_000_000_000];

// A value: a concept by its identifier, or a number.
#[derive(Clone, Copy)]
enum Held {
    Concept(u64),
    Decimal(i128),
}

// A row: its number, its source, its type, its group number and its value.
type Row = (u32, u32, u64, u32, Held);

// A concept, the numbers of its rows, its first group and the group after its last, and its
// members.
type Lists<'a> = (u32, &'a [u32], (u32, u32), &'a [u32]);

// A group: its concept, and the numbers of its rows.
type Group<'a> = (u32, &'a [u32]);

// A row in the posting list of a type or of a value: the row's number; its source, and whether it
// is the first row with this pair there; its value (in the list of a type) or the place of its type
// (in the list of a value); and its group, and whether it is the first row with this pair there.
type Cells = (u32, (u32, bool), u32, (u32, bool));

// What indexes should have: the count of rows; the contents of some rows and of some concepts; all
// groups and all types; and the posting lists of some types and of some values.
struct Wants<'a> {
    row_count: u32,
    rows: &'a [Row],
    lists: &'a [Lists<'a>],
    groups: &'a [Group<'a>],
    types: &'a [u64],
    by_type: &'a [(u64, &'a [Cells])],
    by_value: &'a [(u32, &'a [Cells])],
}

// The rows are those of B, then of C, then of D, each in the order of the files, and the file of
// concrete values comes first. The groups of a concept are first those with a group number, and
// then the pairs without one.
const SAMPLE: Wants<'static> = Wants {
    row_count: 9,
    rows: &[
        (0, 1, T, 1, X),
        (1, 1, U, 1, Y),
        (2, 2, U, 0, Held::Decimal(DECIMALS[0])),
        (3, 2, T, 1, X),
        (4, 2, U, 2, Y),
        (5, 3, U, 1, Held::Decimal(DECIMALS[1])),
        (6, 3, T, 0, Y),
        (7, 3, U, 0, Y),
        (8, 3, U, 2, Y),
    ],
    lists: &[
        (0, &[], (0, 0), &[]),
        (1, &[0, 1], (0, 1), &[]),
        (2, &[2, 3, 4], (1, 4), &[]),
        (3, &[5, 6, 7, 8], (4, 8), &[]),
        (4, &[], (8, 8), &[]),
        (5, &[], (8, 8), &[]),
        (6, &[], (8, 8), &[]),
        (7, &[], (8, 8), &[]),
        (8, &[], (8, 8), &[1, 3]),
        (9, &[], (8, 8), &[]),
    ],
    groups: &[
        (1, &[0, 1]),
        (2, &[3]),
        (2, &[4]),
        (2, &[2]),
        (3, &[5]),
        (3, &[8]),
        (3, &[6]),
        (3, &[7]),
    ],
    types: &[T, U],
    by_type: &[(T, &SAMPLE_OF_T), (U, &SAMPLE_OF_U), (INACTIVE, &[])],
    by_value: &[(3, &[]), (7, &SAMPLE_OF_Y)],
};

const SAMPLE_OF_T: [Cells; 3] = [
    (0, (1, true), 6, (0, true)),
    (3, (2, true), 6, (1, true)),
    (6, (3, true), 7, (6, true)),
];

const SAMPLE_OF_U: [Cells; 6] = [
    (1, (1, true), 7, (0, true)),
    (2, (2, true), 10, (3, true)),
    (4, (2, true), 7, (2, true)),
    (5, (3, true), 11, (4, true)),
    (7, (3, true), 7, (7, true)),
    (8, (3, false), 7, (5, true)),
];

const SAMPLE_OF_Y: [Cells; 5] = [
    (1, (1, true), 1, (0, true)),
    (4, (2, true), 1, (2, true)),
    (6, (3, true), 0, (6, true)),
    (7, (3, true), 1, (7, true)),
    (8, (3, false), 1, (5, true)),
];

// Four more rows of D, which are inserted before the last row of the file: the pair of T and X in
// group 3, twice in group 4, and a row whose type is not in force.
const ROWS_OF_D: &[u8] = b"\
122026\t20240101\t1\t900000000000207008\t103007\t106004\t3\t104001\t900000000000011006\t900000000000451002\r\n\
123020\t20240101\t1\t900000000000207008\t103007\t106004\t4\t104001\t900000000000011006\t900000000000451002\r\n\
124025\t20240101\t1\t900000000000207008\t103007\t106004\t4\t104001\t900000000000011006\t900000000000451002\r\n\
125029\t20240101\t1\t900000000000207008\t103007\t107008\t0\t109006\t900000000000011006\t900000000000451002\r\n\
121022\t";

// What the indexes of the sample with the rows `ROWS_OF_D` should have.
const REPEATED: Wants<'static> = Wants {
    row_count: 13,
    rows: &[(9, 3, T, 3, X), (11, 3, T, 4, X), (12, 3, INACTIVE, 0, Y)],
    lists: &[(3, &[5, 6, 7, 8, 9, 10, 11, 12], (4, 11), &[])],
    groups: &[
        (1, &[0, 1]),
        (2, &[3]),
        (2, &[4]),
        (2, &[2]),
        (3, &[5]),
        (3, &[8]),
        (3, &[9]),
        (3, &[10, 11]),
        (3, &[6]),
        (3, &[7]),
        (3, &[12]),
    ],
    types: &[T, U, INACTIVE],
    by_type: &[
        (T, &REPEATED_OF_T),
        (INACTIVE, &[(12, (3, true), 7, (10, true))]),
    ],
    by_value: &[(7, &REPEATED_OF_Y)],
};

const REPEATED_OF_T: [Cells; 6] = [
    (0, (1, true), 6, (0, true)),
    (3, (2, true), 6, (1, true)),
    (6, (3, true), 7, (8, true)),
    (9, (3, true), 6, (6, true)),
    (10, (3, false), 6, (7, true)),
    (11, (3, false), 6, (7, false)),
];

const REPEATED_OF_Y: [Cells; 6] = [
    (1, (1, true), 1, (0, true)),
    (4, (2, true), 1, (2, true)),
    (6, (3, true), 0, (8, true)),
    (7, (3, true), 1, (9, true)),
    (8, (3, false), 1, (5, true)),
    (12, (3, true), 2, (10, true)),
];

// A row that says again that B is a member of Q. It is inserted before the last row.
const B_IS_A_MEMBER: &[u8] =
    b"00000000-0000-4000-8000-000000000004\t20240101\t1\t900000000000207008\t108003\t101009\r\n00000000-0000-4000-8000-000000000003";

fn assert_rows(rt: &impl Abort, indexes: &Indexes, wants: &[Row]) {
    for (n, source, type_id, group, held) in wants {
        assert!(rt; *n < indexes.row_count());
        let row = indexes.row(*n);
        assert_eq!(rt; row.source, *source, "source of row {n}");
        assert_eq!(rt; row.type_id.number(), *type_id, "type of row {n}");
        assert_eq!(rt; row.group, *group, "group of row {n}");
        assert!(rt; is_held(&row.value, *held), "value of row {n}");
    }
}

// Whether `value` is `want`.
fn is_held(value: &Value<'_>, want: Held) -> bool {
    match (value, want) {
        (Value::Concept(id), Held::Concept(number)) => id.number() == number,
        (Value::Decimal(decimal), Held::Decimal(number)) => decimal.0 == number,
        _ => false,
    }
}

fn assert_lists(rt: &impl Abort, indexes: &Indexes, wants: &[Lists<'_>]) {
    for (concept, rows, groups, members) in wants {
        assert!(rt; *concept < indexes.concept_count());
        let units = indexes.units_of(*concept);
        assert!(rt; indexes.rows_of(*concept) == *rows, "rows of {concept}");
        assert!(rt; (units.start, units.end) == *groups, "groups of {concept}");
        assert!(rt; indexes.members(*concept) == *members, "set {concept}");
    }
}

// Checks each group, and for each of its rows that it is the row's group.
fn assert_groups(rt: &impl Abort, indexes: &Indexes, wants: &[Group<'_>]) {
    assert_eq!(rt; indexes.group_count() as usize, wants.len());
    for (unit, (concept, rows)) in (0u32..).zip(wants) {
        assert!(rt; unit < indexes.group_count());
        assert_eq!(rt; indexes.unit_concept(unit), *concept, "group {unit}");
        assert!(rt; indexes.unit_rows(unit) == *rows, "group {unit}");
        for n in *rows {
            assert!(rt; *n < indexes.row_count());
            assert_eq!(rt; indexes.unit_of(*n), unit, "row {n}");
        }
    }
}

fn assert_types(rt: &impl Abort, indexes: &Indexes, wants: &[u64]) {
    assert_eq!(rt; indexes.types().len(), wants.len());
    for (id, want) in indexes.types().iter().zip(wants) {
        assert_eq!(rt; id.number(), *want);
    }
}

fn assert_by_type(rt: &impl Abort, indexes: &Indexes, wants: &[(u64, &[Cells])]) {
    for (id, cells) in wants {
        let columns = indexes.type_columns(*id);
        assert_cells(rt, indexes.by_type(*id), columns.values, cells);
        assert_marks(rt, columns.sources, columns.groups, cells);
    }
}

fn assert_by_value(rt: &impl Abort, indexes: &Indexes, wants: &[(u32, &[Cells])]) {
    for (concept, cells) in wants {
        assert!(rt; *concept < indexes.concept_count());
        let columns = indexes.value_columns(*concept);
        assert_cells(rt, indexes.by_value(*concept), columns.types, cells);
        assert_marks(rt, columns.sources, columns.groups, cells);
    }
}

// Checks the numbers of the rows in a posting list, and the column of their values or their types.
fn assert_cells(rt: &impl Abort, rows: &[u32], column: &[u32], wants: &[Cells]) {
    assert!(rt; (rows.len(), column.len()) == (wants.len(), wants.len()));
    for ((row, cell), want) in rows.iter().zip(column).zip(wants) {
        assert!(rt; (*row, *cell) == (want.0, want.2), "row {row}");
    }
}

fn assert_marks(
    rt: &impl Abort,
    sources: &[FlaggedNumber],
    groups: &[FlaggedNumber],
    wants: &[Cells],
) {
    assert!(rt; (sources.len(), groups.len()) == (wants.len(), wants.len()));
    for ((source, group), want) in sources.iter().zip(groups).zip(wants) {
        let row = want.0;
        assert!(rt; (source.number(), source.is_first()) == want.1, "row {row}");
        assert!(rt; (group.number(), group.is_first()) == want.3, "row {row}");
    }
}

// Checks the counts in the indexes. Each tested release has the concepts, the hierarchy and the
// members of the sample.
fn assert_stats(rt: &impl Abort, indexes: &Indexes, wants: &Wants<'_>) {
    let want = Stats {
        n: 10,
        a: wants.row_count as u64,
        g: wants.groups.len() as u64,
        r: 15,
        l: 10,
        m: 2,
    };
    assert!(rt; indexes.stats() == want);
}

fn assert_indexes(rt: &impl Abort, indexes: &Indexes, wants: &Wants<'_>) {
    assert_stats(rt, indexes, wants);
    assert_eq!(rt; indexes.index_of(103007), Some(3));
    assert_eq!(rt; indexes.index_of(INACTIVE), None);
    assert_eq!(rt; indexes.row_count(), wants.row_count);
    assert!(rt; indexes.decimals() == DECIMALS.as_slice());
    assert_rows(rt, indexes, wants.rows);
    assert_lists(rt, indexes, wants.lists);
    assert_groups(rt, indexes, wants.groups);
    assert_types(rt, indexes, wants.types);
    assert_by_type(rt, indexes, wants.by_type);
    assert_by_value(rt, indexes, wants.by_value);
}

// Returns the indexes of a release. It does little else, because a function that owns a snapshot or
// indexes is slow to prove.
fn indexes_of(alloc: Global, files: &[NamedBytes<'_>]) -> Result<Indexes, LoadFault> {
    let snapshot = Snapshot::load(alloc, files, "en", Limits::standard())?;
    Ok(Indexes::build(alloc, &snapshot)?)
}

fn member_rows_of(alloc: Global, files: &[NamedBytes<'_>]) -> Result<usize, LoadFault> {
    let snapshot = Snapshot::load(alloc, files, "en", Limits::standard())?;
    Ok(snapshot.member_rows().len())
}

fn assert_release(
    rt: &impl Abort,
    alloc: Global,
    files: &[NamedBytes<'_>],
    wants: &Wants<'_>,
) -> Result<(), LoadFault> {
    match indexes_of(alloc, files) {
        Ok(indexes) => {
            assert_indexes_and_drop(rt, indexes, wants);
            Ok(())
        }
        Err(fault) => Err(fault),
    }
}

fn assert_indexes_and_drop(rt: &impl Abort, indexes: Indexes, wants: &Wants<'_>) {
    assert_indexes(rt, &indexes, wants);
    drop(indexes);
}

#[test]
fn lists_the_sample_rows(rt: HostRuntime) -> Result<(), LoadFault> {
    assert_release(&rt, rt.alloc(), &sample(), &SAMPLE)
}

// A repeated pair counts once in its concept, and once in each of its groups. Groups with equal
// pairs stay two groups. A type need not be in force.
#[test]
fn tells_repeated_pairs_and_groups(rt: HostRuntime) -> Result<(), Fail> {
    let rows = sample()[RELATIONSHIPS].bytes;
    let changed = replaced(rt.alloc(), rows, b"121022\t", ROWS_OF_D)?;
    let files = sample_with(rt.alloc(), RELATIONSHIPS, changed.as_slice())?;
    assert_release(&rt, rt.alloc(), files.as_slice(), &REPEATED)?;
    Ok(())
}

// A member row with the same reference set and component as another row adds one to the count of
// rows, and changes no list.
#[test]
fn lists_a_repeated_member_once(rt: HostRuntime) -> Result<(), Fail> {
    let rows = sample()[MEMBERS].bytes;
    let last = b"00000000-0000-4000-8000-000000000003";
    let changed = replaced(rt.alloc(), rows, last, B_IS_A_MEMBER)?;
    let files = sample_with(rt.alloc(), MEMBERS, changed.as_slice())?;
    assert_eq!(rt; member_rows_of(rt.alloc(), files.as_slice())?, 3);
    assert_release(&rt, rt.alloc(), files.as_slice(), &SAMPLE)?;
    Ok(())
}
