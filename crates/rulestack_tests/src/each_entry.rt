// Replies of a folder's entries over sheets; tests of projections have a file of their own.
use crate::expect::{Asked, expect_each};
use std::test::Fail;

const CASES: &str = "
    carry | 0 1: nn ny yy / 2 3; 1 -2 | carry 1; carry 0
        nothing known | 0 | nothing | same
        partly known | 0 | no 1 | no 1 2
        a build allowed | 0 | no 0-63 yes 3 | same
        a build refused | 0 | no 0-63 | contradiction
        inconsistent | 0 | both 9 | contradiction
        the other rule | 1 | yes 0 | yes 0 1
        the other rule, refused | 1 | yes 0 no 1 | contradiction

    product | 0 1: nn ny yy / 2 3; 1 -2 | product 0 and 1; product 1 and 0; product 1 and 1
        nothing known | 0 | nothing | same
        both add | 0 | no 1 | no 0 1 2
        only the first adds | 0 | yes 0 | yes 0 1
        only the second adds | 0 | yes 1 no 2 | yes 1 3 no 2
        each adds another value | 0 | yes 0 no 3 | yes 0 1 2 no 3
        a build allowed | 0 | no 0-63 yes 3 | same
        a build that the first refuses | 0 | no 0-63 yes 0 3 | contradiction
        a build that the second refuses | 0 | no 0-63 | contradiction
        inconsistent | 0 | both 9 | contradiction
        the other way round | 1 | no 1 | no 0 1 2
        one rule twice | 2 | no 1 | no 1 2

    product of replies that disagree | 0 1: nn ny yy / -1 / 5 / -5 | product 0 and 1; product 2 and 3; product 3 and 2
        a table and a clause | 0 | yes 0 | yes 0 both 1
        they agree | 0 | no 0 | no 0 1
        two clauses | 1 | nothing | both 5
        two clauses, some known | 1 | yes 7 no 4 | yes 7 no 4 both 5
        two clauses, turned round | 2 | yes 7 | yes 7 both 5
        one of them the contradiction | 1 | yes 5 | contradiction

    neither is told of the other | -2 / 2 3 | product 0 and 1; product 1 and 0
        what the first adds | 0 | nothing | no 2
        what the second adds | 1 | nothing | no 2
        asked again | 0 | no 2 | no 2 yes 3

    either | 0 1: nn ny yy / 2 3; 1 -2 | either 0 or 1; either 1 or 0; either 0 or 0
        nothing known | 0 | nothing | same
        both add, but not the same | 0 | no 1 | no 1
        only one adds | 0 | yes 0 | yes 0
        the first is the contradiction | 0 | yes 0 no 1 | yes 0 no 1 2
        the second is the contradiction | 0 | no 1-3 | no 0-3
        the second is the contradiction, the first adds | 0 | yes 0 no 2 3 | yes 0 1 no 2 3
        both are | 0 | yes 0 no 1-3 | contradiction
        a build that both allow | 0 | no 0-63 yes 3 | same
        a build that the first allows | 0 | no 0-63 | same
        a build that the second allows | 0 | no 0-63 yes 0 3 | same
        a build that none allows | 0 | no 0-63 yes 0 | contradiction
        inconsistent | 0 | both 9 | contradiction
        the other way round | 1 | yes 0 no 1 | yes 0 no 1 2
        one rule twice | 2 | yes 0 | yes 0 1
        one rule twice, refused | 2 | yes 0 no 1 | contradiction

    either of inconsistent replies | 5; -5 / 6; 7; 5 / 6; -6 / 4; 5 | either 0 or 1; either 1 or 0; either 0 or 2; \
            either 0 or 0; either 1 or 3
        the first is inconsistent | 0 | nothing | yes 5 6 7
        the second is inconsistent | 1 | yes 1 no 2 | yes 1 5 6 7 no 2
        both, at different options | 2 | nothing | contradiction
        both, at the same option | 3 | nothing | contradiction
        none is inconsistent | 4 | nothing | yes 5

    selection | 4; -9 / no clauses | selection 0 left 4 right 8 width 2; selection 1 left 4 right 8 width 2; \
            selection 1 left 8 right 4 width 1
        what the rule adds moves both ways | 0 | nothing | yes 4 8 no 5 9
        what is known moves to the right | 1 | yes 4 no 5 | yes 4 8 no 5 9
        what is known moves to the left | 1 | yes 9 no 8 | yes 5 9 no 4 8
        options beside the ranges stay | 1 | yes 3 6 no 7 10 | same
        they disagree | 1 | yes 4 no 8 | both 4 8
        they disagree, the left is no | 1 | no 5 yes 9 2 | both 5 9 yes 2
        the left range above the right | 2 | yes 4 no 9 | yes 4 8 no 9
        a build allowed | 0 | no 0-63 yes 4 8 | same
        a build that is not equal | 0 | no 0-63 yes 4 | no 0-63 both 4 8
        a build that the rule refuses | 0 | no 0-63 | contradiction
        the rule refuses, nothing else known | 0 | no 4 | contradiction
        inconsistent | 1 | both 4 | contradiction
        inconsistent beside the ranges | 1 | both 50 | contradiction

    selection, ranges | no clauses | selection 0 left 0 right 32 width 32; selection 0 left 2 right 0 width 2; \
            selection 0 left 0 right 63 width 1
        the whole lower half | 0 | yes 0 5 no 40 63 | yes 0 5 32 37 no 8 31 40 63
        side by side | 1 | yes 0 no 3 | yes 0 2 no 1 3
        not handed on further | 1 | yes 4 | same
        the outermost options | 2 | no 63 | no 0 63

    selection asks once | 4; 6 -8 | selection 0 left 4 right 8 width 1
        what moved is not told | 0 | nothing | yes 4 8
        asked again | 0 | yes 4 8 | yes 4 6 8
        known on the other side only | 0 | yes 8 | yes 4 6 8

    complement | 0 1: nn ny yy / 2 3; 1 -2 | complement 0; complement 1
        nothing known | 0 | nothing | same
        partly known, the rule adds | 0 | yes 0 | same
        partly known, the rule refuses | 0 | yes 0 no 1 | same
        all columns known, a row | 0 | yes 0 1 | same
        one option unknown | 0 | no 0-62 | same
        another option unknown | 0 | no 0 2-63 | same
        a build that the rule allows | 0 | no 0-63 | contradiction
        a build that the rule refuses | 0 | no 0-63 yes 0 | same
        inconsistent | 0 | both 9 | contradiction
        inconsistent, all known | 0 | no 0-63 yes 0 both 9 | contradiction
        the other rule, allowed | 1 | no 0-63 yes 3 | contradiction
        the other rule, refused | 1 | no 0-63 | same

    none | 0 1: nn ny yy / 2 3; 1 -2 | none; carry 0
        nothing known | 0 | nothing | contradiction
        partly known | 0 | yes 1 | contradiction
        a build | 0 | no 0-63 | contradiction
        another build | 0 | no 0-63 yes 0 | contradiction
        inconsistent | 0 | both 9 | contradiction
        the entry behind it | 1 | yes 0 | yes 0 1
";

#[test]
fn each_entry(rt: HostRuntime) -> Result<(), Fail> {
    expect_each(rt.alloc(), Asked::Folders, CASES)
}

// A draft carries at most 32 of the rules below.
const NUMBERS: &str = "
    numbers | 0 / no clauses | 2: none; carry 1; carry 0; carry 0; complement 1; carry 1; product 0 and 1
        count | 7
        the last | 6 | no 1 | yes 0 no 1
        absent | 7 8 31 32 63 64 255 256 4294967295

    carried | -0 / -1 / -2 / -3 / -4 / -5 / -6 / -7 / -8 / -9 / -10 / -11 / -12 / -13 / -14 / -15 / -16 / -17 / -18 / \
            -19 / -20 / -21 / -22 / -23 / -24 / -25 / -26 / -27 / -28 / -29 / -30 / -31 / -32 / -33 / -34 / -35 / \
            -36 / -37 / -38 / -39 | carried
        count | 32
        the first | 0 | nothing | no 0
        the last | 31 | nothing | no 31
        absent | 32 33 39 40 63 64
";

#[test]
fn numbers(rt: HostRuntime) -> Result<(), Fail> {
    expect_each(rt.alloc(), Asked::Folders, NUMBERS)
}
