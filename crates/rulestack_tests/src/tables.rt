// Replies of table sheets.
use crate::expect::{Asked, expect_each};
use std::test::Fail;

const CASES: &str = "
    rows that agree | 64 | 0 1: nn ny yy
        nothing known | 0 | nothing | same
        a column that is yes in one row | 0 | yes 0 | yes 0 1
        a column that is no in two rows | 0 | no 0 | same
        a column that is no in one row | 0 | no 1 | no 0 1
        a column that is yes in two rows | 0 | yes 1 | same
        no row agrees | 0 | yes 0 no 1 | contradiction
        other options stay | 0 | yes 0 7 no 5 63 | yes 0 1 7 no 5 63
        inconsistent at a column | 0 | both 0 | contradiction
        inconsistent elsewhere | 0 | both 7 | contradiction
        inconsistent at the last option | 0 | yes 1 both 63 | contradiction

    builds | 64 | 0 1: nn ny yy
        the first row | 0 | no 0-63 | same
        the second row | 0 | no 0-63 yes 1 | same
        the third row | 0 | no 0-63 yes 0 1 | same
        no row | 0 | no 0-63 yes 0 | contradiction
        other options are free | 0 | yes 0-63 no 9 40 | same
        no row, other options yes | 0 | yes 0-63 no 1 | contradiction
        one option inconsistent, else a build | 0 | no 0-63 both 1 | contradiction

    shapes | 64 | 3: / 0 5 63: yny / 1 2: yn yn / \
            48 49 50 51 52 53 54 55 56 57 58 59 60 61 62 63: yyyyyyyyyyyyyyyy nyyyyyyyyyyyyyyn
        no rows, nothing known | 0 | nothing | contradiction
        no rows, something known | 0 | yes 3 | contradiction
        no rows, a build | 0 | no 0-63 | contradiction
        no rows, inconsistent | 0 | both 9 | contradiction
        one row | 1 | nothing | yes 0 63 no 5
        one row, partly known | 1 | no 5 yes 6 | yes 0 6 63 no 5
        one row, lost | 1 | no 63 | contradiction
        a row twice | 2 | nothing | yes 1 no 2
        sixteen columns | 3 | nothing | yes 49-62
        sixteen columns, the first known | 3 | no 48 | no 48 63 yes 49-62
        sixteen columns, the last known | 3 | yes 63 | yes 48-63
        sixteen columns, no row | 3 | no 55 | contradiction

    options past the file | 4 | 0 1: nn ny yy
        known past the options | 0 | yes 0 50 no 4 40 | yes 0 1 50 no 4 40
        inconsistent past the options | 0 | both 4 | contradiction
        inconsistent at the last option | 0 | both 63 | contradiction
        yes past the options in a build | 0 | yes 4-63 no 0-3 | same

    numbers | 64 | 0: y / 0: n / 1:
        count | 3
        the first | 0 | nothing | yes 0
        the second | 1 | nothing | no 0
        the third | 2 | nothing | contradiction
        absent | 3 4 31 32 63 64 256 4294967295

    more than 64 tables | 64 | 0: y / 1: y / 2: y / 3: y / 4: y / 5: y / 6: y / 7: y / 8: y / 9: y / 10: y / 11: y / \
            12: y / 13: y / 14: y / 15: y / 16: y / 17: y / 18: y / 19: y / 20: y / 21: y / 22: y / 23: y / 24: y / \
            25: y / 26: y / 27: y / 28: y / 29: y / 30: y / 31: y / 32: y / 33: y / 34: y / 35: y / 36: y / 37: y / \
            38: y / 39: y / 40: y / 41: y / 42: y / 43: y / 44: y / 45: y / 46: y / 47: y / 48: y / 49: y / 50: y / \
            51: y / 52: y / 53: y / 54: y / 55: y / 56: y / 57: y / 58: y / 59: y / 60: y / 61: y / 62: y / 63: y / \
            0: y / 1: y / 2: y / 3: y / 4: y / 5: y
        count | 64
        the last | 63 | nothing | yes 63
        absent | 64 69 70

    no tables | 64 |
        count | 0
        absent | 0 1 63 64 4294967295
";

#[test]
fn table_sheets(rt: HostRuntime) -> Result<(), Fail> {
    expect_each(rt.alloc(), Asked::Tables, CASES)
}
