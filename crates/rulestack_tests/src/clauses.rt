// Replies of clause sheets.
use crate::expect::{Asked, expect_each};
use std::test::Fail;

const CASES: &str = "
    values left | 64 | 2 3; 1 -2
        nothing known | 0 | nothing | same
        one left in the second clause only | 0 | no 1 | no 1 2
        one left in both, one of them known | 0 | no 1 2 | no 1 2 yes 3
        one already as wanted is left too | 0 | yes 2 | yes 1 2
        the value left is already known | 0 | yes 2 no 3 | yes 1 2 no 3
        the first clause has lost both | 0 | no 2 3 | contradiction
        the second clause has lost both | 0 | no 1 yes 2 | contradiction
        other options stay | 0 | no 1 40 yes 63 | no 1 2 40 yes 63
        inconsistent in a clause | 0 | both 2 | contradiction
        inconsistent elsewhere | 0 | both 9 | contradiction

    builds | 64 | 2 3; 1 -2
        a value of each clause | 0 | no 0-63 yes 3 | same
        another value of each | 0 | no 0-63 yes 1 2 | same
        all yes | 0 | yes 0-63 | same
        none of the first clause | 0 | no 0-63 | contradiction
        none of the second clause | 0 | no 0-63 yes 2 | contradiction
        none of the second clause, both of the first | 0 | yes 0-63 no 1 | contradiction
        one option inconsistent, else a build | 0 | yes 0-63 both 40 | contradiction

    judged on the question | 64 | -2; 2 3 / 2 3; -2 / 5; -5; 7 / 1 5; 1 -5 / 4; 1 2 / 1 2; -4 / -5; 5
        what a clause before adds is no matter | 0 | nothing | no 2
        what a clause behind adds is no matter | 1 | nothing | no 2
        asked again with the reply | 0 | no 2 | no 2 yes 3
        yes and no of one option | 2 | nothing | both 5 yes 7
        yes and no of one option, some known | 2 | yes 0 no 1 | both 5 yes 7 0 no 1
        no and yes of one option | 6 | nothing | both 5
        two that clash once another is lost | 3 | no 1 | no 1 both 5
        two that do not clash yet | 3 | nothing | same
        two that clash, the option known | 2 | yes 5 | contradiction
        two that clash, a build | 2 | yes 0-63 | contradiction
        a lost clause behind one that adds | 4 | no 1 2 | contradiction
        a lost clause before one that adds | 5 | no 1 2 | contradiction

    shapes | 64 | no clauses / 63 / -0 / 0 1 2 3 4 5 6 7 8 9 10 11 12 13 14 15 / 1; 1; 1 / 0 1; 0 1
        no clauses, nothing known | 0 | nothing | same
        no clauses, something known | 0 | yes 0 no 1 | same
        no clauses, a build | 0 | yes 5 no 0-4 6-63 | same
        no clauses, inconsistent | 0 | both 3 | contradiction
        one yes | 1 | nothing | yes 63
        one yes, lost | 1 | no 63 | contradiction
        one no | 2 | yes 63 | yes 63 no 0
        one no, lost | 2 | yes 0 | contradiction
        sixteen values, two left | 3 | no 0-8 11-15 | same
        sixteen values, one left | 3 | no 0-8 10-15 | no 0-8 10-15 yes 9
        sixteen values, all lost | 3 | no 0-15 | contradiction
        the same clause three times | 4 | nothing | yes 1
        the same clause twice | 5 | no 1 | no 1 yes 0

    options past the file | 4 | 2 3; 1 -2
        known past the options | 0 | no 1 4 63 yes 50 | no 1 2 4 63 yes 50
        inconsistent past the options | 0 | both 4 | contradiction
        yes past the options in a build | 0 | yes 3-63 no 0-2 | same

    numbers | 64 | 0 / no clauses
        count | 2
        the first | 0 | nothing | yes 0
        the second | 1 | nothing | nothing
        absent | 2 3 31 32 63 64 256 4294967295

    no clause sheets | 64 |
        count | 0
        absent | 0 1 63 64 4294967295
";

#[test]
fn clause_sheets(rt: HostRuntime) -> Result<(), Fail> {
    expect_each(rt.alloc(), Asked::Clauses, CASES)
}
