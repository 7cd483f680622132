// The selling order: options 32 to 47, then 16 to 31, then 0 to 15, then 48 to 63.
use crate::build::{NO_CLAUSES, bit, known};
use crate::expect::{OpenedSheet, Run, Then, expect_of_sheet, expect_same};
use crate::words::EVERY_OPTION;
use assignment::Assignment;
use listing::first_unknown;
use std::alloc::Global;
use std::test::Fail;

// What is known, and the option that is chosen.
const FIRST_UNKNOWN: [(&str, Option<u8>); 14] = [
    ("nothing", Some(32)),
    ("yes 32", Some(33)),
    ("both 32", Some(33)),
    ("no 0-46 48-63", Some(47)),
    ("no 32-47", Some(16)),
    ("no 32-47 yes 17", Some(16)),
    ("yes 32-47 no 16-30 0-15", Some(31)),
    ("yes 32-47 no 16-31", Some(0)),
    ("yes 1-63", Some(0)),
    ("yes 16-47 no 0-14 48", Some(15)),
    ("yes 0-47", Some(48)),
    ("yes 0-47 no 48-62", Some(63)),
    ("yes 0-31 no 32-63", None),
    ("both 0-63", None),
];

#[test]
fn first_unknown_options() -> Result<(), Fail> {
    for (words, option) in &FIRST_UNKNOWN {
        expect_same(first_unknown(known(words)?), *option, words)?;
    }
    Ok(())
}

const SELLING_ORDER: [u8; 64] = [
    32, 33, 34, 35, 36, 37, 38, 39, 40, 41, 42, 43, 44, 45, 46, 47, 16, 17, 18, 19, 20, 21, 22, 23,
    24, 25, 26, 27, 28, 29, 30, 31, 0, 1, 2, 3, 4, 5, 6, 7, 8, 9, 10, 11, 12, 13, 14, 15, 48, 49,
    50, 51, 52, 53, 54, 55, 56, 57, 58, 59, 60, 61, 62, 63,
];

#[test]
fn each_option_in_turn() -> Result<(), Fail> {
    let mut known = Assignment::new(0, 0);
    for option in &SELLING_ORDER {
        expect_same(first_unknown(known), Some(*option), "the next option")?;
        known = known.with(u32::from(*option), option % 3 == 0);
    }
    expect_same(first_unknown(known), None, "all known")
}

// The options that are shown are free, all others no at the start, and the rule allows every build.
fn expect_of_free(heap: Global, shown: &[u32], calls: &str) -> Result<(), Fail> {
    let free = shown.iter().fold(0, |free, option| free | bit(*option));
    let sheet = OpenedSheet {
        body: NO_CLAUSES,
        options: 64,
        start: Assignment::new(0, !free),
    };
    let run = Run {
        about: "free options",
        shown,
        calls,
    };
    expect_of_sheet(heap, sheet, run, Then::Nothing)
}

// Of each two the letter of the one that is chosen first stands behind that of the other.
const PAIRS: [[u32; 2]; 11] = [
    [0, 32],
    [16, 32],
    [0, 16],
    [48, 0],
    [48, 16],
    [33, 32],
    [47, 46],
    [16, 47],
    [0, 31],
    [48, 15],
    [63, 62],
];

#[test]
fn two_options(rt: HostRuntime) -> Result<(), Fail> {
    for pair in &PAIRS {
        expect_of_free(
            rt.alloc(),
            pair,
            "
            next 1 | stopped 1
            next 1 | built yy 1
            next 0 | built ny 0
            next 0 | stopped 0
            next 1 | built yn 1
            next 0 | built nn 0
            next 0 | end 0
            ",
        )?;
    }
    Ok(())
}

#[test]
fn one_option_of_each_block(rt: HostRuntime) -> Result<(), Fail> {
    expect_of_free(
        rt.alloc(),
        &[32, 16, 0, 48],
        "
        look | known ????
        next 4 | built yyyy 4
        next 4 | built yyyn 0
        next 4 | built yyny 1
        next 4 | built yynn 0
        next 4 | built ynyy 2
        next 4 | built ynyn 0
        next 4 | built ynny 1
        next 4 | built ynnn 0
        next 4 | built nyyy 3
        next 4 | built nyyn 0
        next 4 | built nyny 1
        next 4 | built nynn 0
        next 4 | built nnyy 2
        next 4 | built nnyn 0
        next 4 | built nnny 1
        next 4 | built nnnn 0
        next 4 | end 0
        ",
    )
}

// All 64 options are free: 64 choices are open at the first build, and options 63 and 62 are the last.
#[test]
fn all_options(rt: HostRuntime) -> Result<(), Fail> {
    expect_of_free(
        rt.alloc(),
        EVERY_OPTION,
        "
        next 63 | stopped 63
        next 0 | stopped 0
        next 1 | built yyyyyyyyyyyyyyyyyyyyyyyyyyyyyyyyyyyyyyyyyyyyyyyyyyyyyyyyyyyyyyyy 1
        next 0 | built yyyyyyyyyyyyyyyyyyyyyyyyyyyyyyyyyyyyyyyyyyyyyyyyyyyyyyyyyyyyyyyn 0
        next 0 | stopped 0
        next 9 | built yyyyyyyyyyyyyyyyyyyyyyyyyyyyyyyyyyyyyyyyyyyyyyyyyyyyyyyyyyyyyyny 1
        again | done
        next 4294967295 | built yyyyyyyyyyyyyyyyyyyyyyyyyyyyyyyyyyyyyyyyyyyyyyyyyyyyyyyyyyyyyyyy 64
        ",
    )
}
