// Replies of projections.
use crate::expect::{Asked, expect_each};
use std::test::Fail;

// In the search, no value of 0 and 1 meets the first sheet's four clauses, and yet each of them has two values left.
const OVER_SHEETS: &str = "
    over a table | 0 1: nn ny yy | projection 0 hides 0; projection 0 hides 1; projection 0 hides 0-1 7
        nothing known | 0 | nothing | same
        what is added there is dropped | 0 | no 1 | same
        a hidden option is not told | 0 | yes 0 | same
        a wrong hidden option stays | 0 | yes 0 no 1 | same
        a shown option is told | 1 | yes 0 | same
        a right hidden option stays | 1 | no 1 0 | same
        a wrong hidden option stays there too | 1 | yes 0 no 1 | same
        all shown known, both fillings fit | 0 | yes 1 no 2-63 | same
        all shown known, one filling fits | 0 | no 1-63 | same
        a build that is allowed below | 0 | yes 0 1 no 2-63 | same
        a build with a wrong hidden option | 0 | yes 0 no 1-63 | same
        one shown option unknown | 0 | yes 0 no 1-62 | same
        both columns hidden | 2 | yes 0 no 1 7 | same
        both columns hidden, a build | 2 | yes 0 no 1-63 | same
        inconsistent at a hidden option | 0 | both 0 | contradiction
        inconsistent at a hidden option, all known | 0 | no 1-63 both 0 | contradiction
        inconsistent at a shown option | 0 | both 9 | contradiction

    shown options get what is added | 0 1 2: nny yyy / 0: | projection 0 hides 0; projection 1 hides 3 6
        nothing known | 0 | nothing | yes 2
        a shown option known | 0 | yes 1 | yes 1 2
        a wrong hidden option known | 0 | yes 1 no 0 | yes 1 2 no 0
        a shown option wrong | 0 | no 2 | both 1-63 unknown 0
        a shown option wrong, the hidden known | 0 | no 2 yes 0 | both 1-63 yes 0
        all shown known, no filling | 0 | no 1-63 | contradiction
        a table without rows | 1 | nothing | both 0-63 unknown 3 6
        a table without rows, hidden known | 1 | yes 3 0 | both 0-63 yes 3 unknown 6
        a table without rows, one unknown | 1 | no 0-62 | both 0-63 no 3 6
        a table without rows, all shown known | 1 | no 0-63 unknown 3 6 | contradiction

    inconsistent at hidden options only | 5; -5 / 0 5; 0 -5 | projection 0 hides 5; projection 0 hides 6; \
            projection 1 hides 5; projection 0 hides
        it is dropped | 0 | nothing | same
        it is dropped, some known | 0 | yes 2 no 3 | same
        the hidden option is put back | 0 | yes 5 no 3 | same
        the hidden option is put back as no | 0 | no 5 3 | same
        one shown option unknown | 0 | no 0-62 | same
        all shown known | 0 | no 0-63 unknown 5 | contradiction
        a build | 0 | no 0-63 | contradiction
        it is shown | 1 | yes 6 | yes 6 both 5
        once 0 is no | 2 | no 0 | same
        once 0 is no, all shown known | 2 | no 0-63 unknown 5 | contradiction
        while 0 is yes, all shown known | 2 | no 1-63 unknown 5 yes 0 | same
        nothing is hidden | 3 | yes 6 | yes 6 both 5

    the search | 0 1; 0 -1; -0 1; -0 -1 / 0 1; 0 -1; -0 1 / 0 1 9; 0 -1; -0 1; -0 -1 | projection 0 hides 0-1; \
            projection 1 hides 0-1; projection 2 hides 0-1
        nothing known | 0 | nothing | same
        one shown option unknown | 0 | no 2-62 | same
        another shown option unknown | 0 | yes 3-63 | same
        no filling fits | 0 | no 2-63 | contradiction
        no filling fits other shown values | 0 | yes 2-63 | contradiction
        no filling fits a build | 0 | no 0-63 | contradiction
        one filling fits | 1 | no 2-63 | same
        one filling fits a build with another | 1 | no 0-63 | same
        a shown option lets one fit | 2 | yes 2-63 | same
        a shown option lets none fit | 2 | yes 2-63 no 9 | contradiction

    nothing hidden | 0 1: nn ny yy | projection 0 hides
        nothing known | 0 | nothing | same
        partly known | 0 | yes 0 | yes 0 1
        no row | 0 | yes 0 no 1 | contradiction
        a build allowed | 0 | no 0-63 yes 1 | same
        a build refused | 0 | no 0-63 yes 0 | contradiction
        inconsistent | 0 | both 0 | contradiction
";

#[test]
fn over_sheets(rt: HostRuntime) -> Result<(), Fail> {
    expect_each(rt.alloc(), Asked::Folders, OVER_SHEETS)
}

// Behind the clause sheets stand the entries of the folder over them, and those of the folder over that one. A selection
// refuses a build at two options only; a projection that hides nothing by the contradiction. A complement replies to builds
// only, so each filling of sixteen hidden options has to be tried: yes first, and the one in which all are no comes last.
const OVER_A_FOLDER: &str = "
    two stacked | 0 2; -0 1 / 0 2; -0 2 / 0 1 2; -0 1 3; -1 2 | projection 0 hides 0; projection 1 hides 0; \
            projection 2 hides 0 / projection 0 hides 1; projection 1 hides 1; projection 2 hides 1
        fillings of both make up for all | 0 | no 0-63 | same
        no fillings of both can | 1 | no 0-63 | contradiction
        none are needed | 1 | no 0-63 yes 2 | same
        both hidden options stay | 1 | yes 0 no 1 | same
        a shown option unknown, the lower drops the rest | 1 | no 2 | same
        a shown option unknown, all others known | 1 | no 0-62 | same
        neither 2 nor 3 is yes | 2 | no 0-63 | contradiction
        3 is yes | 2 | no 0-63 yes 3 | same
        2 is yes | 2 | no 0-63 yes 2 | same
        the upper drops what the lower adds | 2 | no 2 | same
        inconsistent at the upper's hidden option | 0 | both 1 | contradiction
        inconsistent at the lower's hidden option | 0 | both 0 | contradiction

    nothing hidden over a selection | no clauses | selection 0 left 4 right 8 width 1 / projection 0 hides; carry 0; \
            projection 0 hides 8; projection 0 hides 4 8
        the projection | 0 | no 0-63 yes 4 | contradiction
        the carry | 1 | no 0-63 yes 4 | no 0-63 both 4 8
        the projection, allowed | 0 | no 0-63 | same
        the projection, unfinished | 0 | yes 4 no 8 | both 4 8
        8 hidden | 2 | no 0-63 yes 4 | same
        8 hidden, unfinished | 2 | yes 4 no 8 | same
        both hidden | 3 | no 0-63 yes 4 | same

    sixteen hidden | 0 1 2 3 4 5 6 7 8 9 10 11 12 13 14 15 / no clauses | complement 0; complement 1 / \
            projection 0 hides 0-15; projection 1 hides 0-15; projection 0 hides 1-15
        only the last filling fits | 0 | no 16-63 | same
        only the last filling fits a build | 0 | yes 0-63 | same
        no filling fits | 1 | no 16-63 | contradiction
        no filling fits a build | 1 | no 0-63 | contradiction
        one shown option unknown | 1 | no 16-62 | same
        a shown option rules all out | 2 | yes 0 no 16-63 | contradiction
        fifteen hidden, the last fits | 2 | no 0 16-63 | same
";

#[test]
fn over_a_folder(rt: HostRuntime) -> Result<(), Fail> {
    expect_each(rt.alloc(), Asked::Folders, OVER_A_FOLDER)
}
