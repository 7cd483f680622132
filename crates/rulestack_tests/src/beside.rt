// Two rule sets side by side. In these, rule k of the tables adds that option k is yes, and rule k of the clause sheets
// that it is no.
use crate::build::{beside, sheet_rules};
use crate::expect::{Asked, expect_cases, expect_each};
use ruleset::SideBySide;
use sheet_rules::TableSheets;
use sheets::{ClauseSheet, TableSheet};
use std::alloc::{AllocError, Global};
use std::test::Fail;

// So many tables more. Table k of them has one column, option k, and one row, in which it is yes; past 63 the options begin
// anew.
fn add_tables(heap: Global, bodies: &mut Vec<Vec<u8>>, count: u8) -> Result<(), AllocError> {
    for option in 0..count {
        bodies.push([1, option % 64, 1, 0].to_vec(heap)?)?;
    }
    Ok(())
}

// So many clause sheets more. Clause sheet k of them has one clause, for which option k is wanted no.
fn add_clauses(heap: Global, bodies: &mut Vec<Vec<u8>>, count: u8) -> Result<(), AllocError> {
    for option in 0..count {
        bodies.push([1, 128 | option].to_vec(heap)?)?;
    }
    Ok(())
}

// So many tables beside so many clause sheets.
const TWO_SETS: &str = "
    numbered on | 2 | 3
        count | 5
        the first of the first | 0 | nothing | yes 0
        the last of the first | 1 | yes 9 | yes 1 9
        the first of the second | 2 | nothing | no 0
        the last of the second | 4 | yes 0 | yes 0 no 2
        inconsistent, to the first | 1 | both 9 | contradiction
        inconsistent, to the second | 2 | both 9 | contradiction
        absent | 5 64 65 79 80 256 4294967295

    forty and forty | 40 | 40
        count | 64
        the last of the first | 39 | nothing | yes 39
        the first of the second | 40 | nothing | no 0
        the last that counts | 63 | nothing | no 23
        the next one | 64 | nothing | contradiction
        absent | 64 65 79 80 256 4294967295

    64 and 1 | 64 | 1
        count | 64
        the last | 63 | nothing | yes 63
        absent | 64 65 79 80 256 4294967295

    63 and 2 | 63 | 2
        count | 64
        the last | 63 | nothing | no 0
        absent | 64 65 79 80 256 4294967295

    1 and 64 | 1 | 64
        count | 64
        the last | 63 | nothing | no 62
        absent | 64 65 79 80 256 4294967295

    the first empty | 0 | 3
        count | 3
        the first | 0 | nothing | no 0
        the last | 2 | nothing | no 2
        absent | 3 64 65 79 80 256 4294967295

    the second empty | 3 | 0
        count | 3
        the first | 0 | nothing | yes 0
        the last | 2 | nothing | yes 2
        absent | 3 64 65 79 80 256 4294967295

    both empty | 0 | 0
        count | 0
        none | 0 | nothing | contradiction
        absent | 0 64 65 79 80 256 4294967295
";

pub(crate) fn expect_beside(
    heap: Global,
    tables: &str,
    clauses: &str,
    about: &str,
    cases: &str,
) -> Result<(), Fail> {
    let mut bodies = Vec::new(heap);
    add_tables(heap, &mut bodies, tables.parse::<u8>()?)?;
    let tables = bodies.len();
    add_clauses(heap, &mut bodies, clauses.parse::<u8>()?)?;
    expect_bodies(heap, bodies.as_slice(), tables, about, cases)
}

fn expect_bodies(
    heap: Global,
    bodies: &[Vec<u8>],
    tables: usize,
    about: &str,
    cases: &str,
) -> Result<(), Fail> {
    let mut rules = beside::<TableSheet<'_>, ClauseSheet<'_>>(heap, bodies, tables)?;
    expect_cases(&mut rules, about, cases)
}

#[test]
fn two_sets(rt: HostRuntime) -> Result<(), Fail> {
    expect_each(rt.alloc(), Asked::Beside, TWO_SETS)
}

const THREE_SETS: &str = "
    count | 64
    the last of the first | 1 | nothing | yes 1
    the first of the second | 2 | nothing | no 0
    the last of the second | 41 | nothing | no 39
    the first of the third | 42 | nothing | yes 0
    the last that counts | 63 | nothing | yes 21
    absent | 64 65 4294967295
";

// Two tables, beside forty clause sheets beside forty tables.
#[test]
fn three_sets(rt: HostRuntime) -> Result<(), Fail> {
    let heap = rt.alloc();
    let mut bodies = Vec::new(heap);
    add_tables(heap, &mut bodies, 2)?;
    add_clauses(heap, &mut bodies, 40)?;
    add_tables(heap, &mut bodies, 40)?;
    expect_three_sets(heap, bodies.as_slice())
}

fn expect_three_sets(heap: Global, bodies: &[Vec<u8>]) -> Result<(), Fail> {
    let (tables, others) = bodies.split_at_checked(2).ok_or("too few sheets")?;
    let others = beside::<ClauseSheet<'_>, TableSheet<'_>>(heap, others, 40)?;
    let tables: TableSheets<'_> = sheet_rules(heap, tables, 64)?;
    expect_cases(
        &mut SideBySide::new(tables, others),
        "three sets",
        THREE_SETS,
    )
}
