// Closures, and the search for a build.
use crate::build::{bodies, known, sheet_rules};
use crate::expect::{Asked, expect_each, expect_same};
use ruleset::{RuleSet, finds_build};
use sheet_rules::ClauseSheets;
use std::test::Fail;

// In the longest chain, for each option but the last: if it is yes, then so is the next one.
const OF_CLAUSES: &str = "
    clause sheets closed | 64 | 2 3; 1 -2 / -2; 2 3; -3 4; -4 5 / 5; -5 / 0 1; 0 -1; -0 1; -0 -1
        nothing to add | closure of 0 | nothing | same
        two rounds | closure of 0 | no 1 | no 1 2 yes 3
        a build allowed | closure of 0 | no 0-63 yes 3 | same
        a build refused | closure of 0 | no 0-63 | contradiction
        another build refused | closure of 0 | yes 0-63 no 1 | contradiction
        refused at once | closure of 0 | no 2 3 | contradiction
        refused as two clauses clash | closure of 0 | no 1 3 | contradiction
        inconsistent | closure of 0 | both 9 | contradiction
        four rounds | closure of 1 | nothing | no 2 yes 3 4 5
        four rounds, some known | closure of 1 | yes 60 no 1 | no 1 2 yes 3 4 5 60
        refused in the second round | closure of 1 | no 4 | contradiction
        refused from both ends | closure of 1 | no 5 | contradiction
        inconsistent at one option | closure of 2 | nothing | contradiction
        no build is left, and no reply tells | closure of 3 | nothing | same
        a rule that is not there | closure of 4 | nothing | contradiction
        a rule that is not there, a build | closure of 4 | no 0-63 | contradiction

    longest chain | 64 | -0 1; -1 2; -2 3; -3 4; -4 5; -5 6; -6 7; -7 8; -8 9; -9 10; -10 11; -11 12; -12 13; -13 14; \
            -14 15; -15 16; -16 17; -17 18; -18 19; -19 20; -20 21; -21 22; -22 23; -23 24; -24 25; -25 26; -26 27; \
            -27 28; -28 29; -29 30; -30 31; -31 32; -32 33; -33 34; -34 35; -35 36; -36 37; -37 38; -38 39; -39 40; \
            -40 41; -41 42; -42 43; -43 44; -44 45; -45 46; -46 47; -47 48; -48 49; -49 50; -50 51; -51 52; -52 53; \
            -53 54; -54 55; -55 56; -56 57; -57 58; -58 59; -59 60; -60 61; -61 62; -62 63
        from the first on | closure of 0 | yes 0 | yes 0-63
        from the last on | closure of 0 | no 63 | no 0-63
        from the middle on | closure of 0 | yes 31 | yes 31-63
        both ways | closure of 0 | yes 31 no 30 | yes 31-63 no 0-30
        both ends meet | closure of 0 | yes 0 no 63 | contradiction
        a neighbour says no | closure of 0 | yes 30 no 31 | contradiction
        nothing to begin with | closure of 0 | nothing | same
";

#[test]
fn clause_sheets_closed(rt: HostRuntime) -> Result<(), Fail> {
    expect_each(rt.alloc(), Asked::Clauses, OF_CLAUSES)
}

// The product of the table and the clauses, as in the example of docs/MEANING.md.
const PRODUCT: &str = "
    product closed | 0 1: nn ny yy / 2 3; 1 -2 | product 0 and 1; complement 0
        1 is no | closure of 0 | no 1 | no 0-2 yes 3
        0 is yes | closure of 0 | yes 0 | yes 0 1
        3 is no | closure of 0 | no 3 | no 3 yes 1 2
        0 and 2 are no | closure of 0 | no 0 2 | no 0 2 yes 3
        1 and 3 are no | closure of 0 | no 1 3 | contradiction
        0 is yes and 1 no | closure of 0 | yes 0 no 1 | contradiction
        a complement, unfinished | closure of 1 | no 1 | same
        a complement, a build allowed | closure of 1 | no 0-63 | contradiction
        a complement, a build refused | closure of 1 | no 0-63 yes 0 | same
";

#[test]
fn product_closed(rt: HostRuntime) -> Result<(), Fail> {
    expect_each(rt.alloc(), Asked::Folders, PRODUCT)
}

// A search: what it is about, the rule, the listed options, what is known, and whether a leaf is found.
pub(crate) type Search<'a> = (&'a str, u32, &'a [u8], &'a str, bool);

pub(crate) fn expect_searches<R: RuleSet>(rules: &mut R, cases: &[Search]) -> Result<(), Fail> {
    for (about, rule, options, words, wanted) in cases {
        let found = finds_build(rules, *rule, options, known(words)?);
        expect_same(found, *wanted, "search", about)?;
    }
    Ok(())
}

// Rule 0 allows only both 0 and 1 yes, rule 1 nothing, rule 2 one of 0, 1 and 2 yes.
const SEARCHED: &str = "0 1; 0 -1; -0 1 / 0 1; 0 -1; -0 1; -0 -1 / 0 1 2; -0 -1; -0 -2; -1 -2";

const SEARCHES: [Search; 19] = [
    ("one fits", 0, &[0, 1], "no 2-63", true),
    ("one fits, listed turned round", 0, &[1, 0], "no 2-63", true),
    (
        "known options in the list",
        0,
        &[5, 0, 9, 1],
        "no 2-63",
        true,
    ),
    ("an option twice", 0, &[0, 0, 1, 1], "no 2-63", true),
    ("one known wrong", 0, &[0, 1], "no 0 2-63", false),
    ("a build allowed", 0, &[], "yes 0-63", true),
    ("a build refused", 0, &[], "yes 0-63 no 1", false),
    (
        "a build refused, options listed",
        0,
        &[0, 1],
        "yes 0-63 no 1",
        false,
    ),
    ("inconsistent", 0, &[0, 1], "both 9", false),
    ("none fits", 1, &[0, 1], "no 2-63", false),
    ("none fits, nothing else known", 1, &[0], "nothing", false),
    ("a leaf where nothing is listed", 1, &[], "nothing", true),
    ("a leaf where too few are listed", 1, &[7], "nothing", true),
    ("one of the three", 2, &[0, 1, 2], "no 3-63", true),
    ("only the last", 2, &[0, 1, 2], "no 0 1 3-63", true),
    ("none of the three", 2, &[0, 1, 2], "no 0-63", false),
    ("two of the three", 2, &[2], "yes 0 1 no 3-63", false),
    ("no such rule", 3, &[0, 1], "no 2-63", false),
    ("no such rule, nothing listed", 3, &[], "no 0-63", false),
];

#[test]
fn searches(rt: HostRuntime) -> Result<(), Fail> {
    let heap = rt.alloc();
    let bodies = bodies(heap, SEARCHED)?;
    let mut rules: ClauseSheets<'_> = sheet_rules(heap, bodies.as_slice(), 64)?;
    expect_searches(&mut rules, &SEARCHES)
}
