//! The check digit: Verhoeff's scheme over the dihedral group of order 10 (Release File
//! Specification, "Check-digit").

ghost use Rattle.std.specs.Prelude.{◌≡◌, ◌+◌, ◌*◌, ◌/◌, ◌%◌, ◌<◌};
ghost use Rattle.sctid.specs.Identifier.{times, permuted};

// The products of the dihedral group of order 10: row `a`, column `b` has `a * b`.
const PRODUCTS: [[u8; 10]; 10] = [
    [0, 1, 2, 3, 4, 5, 6, 7, 8, 9],
    [1, 2, 3, 4, 0, 6, 7, 8, 9, 5],
    [2, 3, 4, 0, 1, 7, 8, 9, 5, 6],
    [3, 4, 0, 1, 2, 8, 9, 5, 6, 7],
    [4, 0, 1, 2, 3, 9, 5, 6, 7, 8],
    [5, 9, 8, 7, 6, 0, 4, 3, 2, 1],
    [6, 5, 9, 8, 7, 1, 0, 4, 3, 2],
    [7, 6, 5, 9, 8, 2, 1, 0, 4, 3],
    [8, 7, 6, 5, 9, 3, 2, 1, 0, 4],
    [9, 8, 7, 6, 5, 4, 3, 2, 1, 0],
];

// How a digit is permuted before it enters the product. Row `p` is for the digits at place `p`,
// counted from the right, modulo 8.
const PERMUTATIONS: [[u8; 10]; 8] = [
    [0, 1, 2, 3, 4, 5, 6, 7, 8, 9],
    [1, 5, 7, 6, 2, 8, 3, 0, 9, 4],
    [5, 8, 0, 3, 7, 9, 6, 1, 4, 2],
    [8, 9, 1, 6, 0, 4, 3, 5, 2, 7],
    [9, 4, 5, 3, 1, 2, 6, 8, 7, 0],
    [4, 2, 8, 6, 5, 7, 3, 9, 0, 1],
    [2, 7, 9, 3, 8, 0, 6, 4, 1, 5],
    [7, 0, 4, 6, 9, 1, 3, 2, 5, 8],
];

// The product of two adjacent permuted digits, the right digit's factor first. Row `i` is for a
// right digit at place `2 * i`, modulo 8. Entry `p` is for the two digits of the number `p`.
const PAIR_PRODUCTS: [[u8; 100]; 4] = [
    [
        1, 2, 3, 4, 0, 9, 5, 6, 7, 8, 5, 6, 7, 8, 9, 0, 1, 2, 3, 4, 7, 8, 9, 5, 6, 3, 4, 0, 1, 2,
        6, 7, 8, 9, 5, 4, 0, 1, 2, 3, 2, 3, 4, 0, 1, 8, 9, 5, 6, 7, 8, 9, 5, 6, 7, 2, 3, 4, 0, 1,
        3, 4, 0, 1, 2, 7, 8, 9, 5, 6, 0, 1, 2, 3, 4, 5, 6, 7, 8, 9, 9, 5, 6, 7, 8, 1, 2, 3, 4, 0,
        4, 0, 1, 2, 3, 6, 7, 8, 9, 5,
    ],
    [
        2, 0, 8, 6, 4, 1, 3, 9, 7, 5, 1, 4, 9, 7, 3, 0, 2, 5, 8, 6, 9, 7, 1, 4, 6, 8, 5, 2, 0, 3,
        4, 2, 6, 9, 1, 3, 0, 7, 5, 8, 5, 8, 0, 3, 7, 9, 6, 1, 4, 2, 6, 9, 4, 2, 8, 5, 7, 0, 3, 1,
        7, 5, 3, 1, 9, 6, 8, 4, 2, 0, 0, 3, 5, 8, 2, 4, 1, 6, 9, 7, 8, 6, 2, 0, 5, 7, 9, 3, 1, 4,
        3, 1, 7, 5, 0, 2, 4, 8, 6, 9,
    ],
    [
        5, 3, 6, 2, 0, 1, 7, 9, 8, 4, 7, 1, 8, 0, 3, 4, 9, 6, 5, 2, 1, 7, 2, 6, 9, 5, 3, 0, 4, 8,
        3, 5, 4, 9, 7, 8, 0, 2, 1, 6, 4, 9, 0, 8, 6, 7, 1, 3, 2, 5, 2, 6, 3, 5, 8, 9, 4, 1, 0, 7,
        6, 2, 7, 1, 4, 0, 8, 5, 9, 3, 0, 8, 1, 7, 5, 6, 2, 4, 3, 9, 9, 4, 5, 3, 1, 2, 6, 8, 7, 0,
        8, 0, 9, 4, 2, 3, 5, 7, 6, 1,
    ],
    [
        9, 0, 2, 5, 1, 7, 4, 6, 8, 3, 2, 7, 9, 3, 8, 0, 6, 4, 1, 5, 1, 8, 5, 2, 9, 4, 7, 3, 0, 6,
        8, 1, 3, 9, 2, 6, 0, 5, 7, 4, 6, 3, 0, 7, 4, 9, 2, 8, 5, 1, 3, 6, 8, 4, 7, 1, 5, 0, 2, 9,
        0, 9, 6, 1, 5, 3, 8, 2, 4, 7, 4, 5, 7, 0, 6, 2, 9, 1, 3, 8, 7, 2, 4, 8, 3, 5, 1, 9, 6, 0,
        5, 4, 1, 6, 0, 8, 3, 7, 9, 2,
    ],
];

/// Returns the product `a * b` in the dihedral group of order 10, whose elements are 0 to 9.
pub fn times(a: u8, b: u8) -> u8
    requires left { a < 10 }
    requires right { b < 10 }
    ensures product { result ≡ times a b }
    ensures element { result < 10 }
{
    PRODUCTS[usize::from(a)][usize::from(b)]
}

/// Permutes `digit` once for each place that it stands to the left of the check digit, which has
/// the place 0.
pub fn permuted(place: usize, digit: u8) -> u8
    requires { digit < 10 }
    ensures digit { result ≡ permuted place digit }
    ensures element { result < 10 }
{
    PERMUTATIONS[place % 8][usize::from(digit)]
}

/// Returns the product of two adjacent permuted digits, the right digit's factor first. The two
/// digits are those of the number `pair`, and the place of the right one is `2 * index`.
pub fn pair_product(index: usize, pair: u8) -> u8
    requires index { index < 4 }
    requires pair { pair < 100 }
    ensures product { result ≡ times (permuted (2 * index) (pair % 10))
        (permuted (2 * index + 1) (pair / 10)) }
    ensures element { result < 10 }
{
    PAIR_PRODUCTS[index][usize::from(pair)]
}
