// Files with two faults or more: the earlier check decides.
use crate::expect::expect_all;
use std::test::Fail;

const HEADS: &str = "
    too long, kind 0 | 00*32769 | refused 1 record 0 0
    head cut, kind 9 | FOUR 00 00 09 | refused 2 record 21 0
    kind 6, first | 00 00 06 00 FOUR | refused 3 record 0 0
    kind 0, lower | FOUR TABLE 00 00 00 00 | refused 3 record 27 0
    kind 6, after the question | FOUR TABLE ASK 00 00 06 00 | refused 3 record 32 0
    kind 6, body cut | FOUR 09 00 06 00 | refused 3 record 21 0
    out of turn, body cut | FOUR start:17 | refused 4 record 21 0
    out of turn, unfit | FOUR start:0 | refused 4 record 21 0
    after the question, cut | FOUR TABLE ASK question:999 | refused 4 record 32 0
    start cut, would be unfit | start:16 04 | refused 2 record 0 0
    table cut, no columns | FOUR table:2 00 | refused 2 record 21 0
    clauses cut, a clause of 0 | FOUR clauses:2 00 | refused 2 record 21 0
    folder cut, 13 bytes | FOUR TABLE folder:13 07 | refused 2 record 27 0
    question cut, 2 bytes | FOUR TABLE question:2 09 | refused 2 record 27 0
    ";

const ONE_TOO_MANY: &str = "
    out of turn, 33rd sheet | FOUR TABLE*32 CARRY TABLE | refused 4 record 229 0
    33rd sheet, body cut | FOUR TABLE*32 table:9 | refused 5 record 213 0
    33rd sheet, unfit | FOUR TABLE*32 table:0 | refused 5 record 213 0
    33rd sheet, beyond | FOUR TABLE*32 clauses:2 01 04 | refused 5 record 213 0
    lower kind, 33rd sheet | FOUR CLAUSES*32 TABLE | refused 4 record 149 0
    after the question, 5th | FOUR TABLE CARRY*4 ASK CARRY | refused 4 record 96 0
    5th folder, body cut | FOUR TABLE CARRY*4 folder:12 | refused 5 record 91 0
    5th folder, unfit | FOUR TABLE CARRY*4 folder:0 | refused 5 record 91 0
    5th folder, op 7 | FOUR TABLE CARRY*4 folder:12 07 00 00 00 00*8 | refused 5 record 91 0
    ";

const UNFIT_BEFORE_CONTENTS: &str = "
    start of 16, n 0 | start:16 00*16 | refused 6 record 0 0
    start of 18, both | start:18 04 01 00*7 01*9 | refused 6 record 0 0
    half a row, column 9 | FOUR table:3 01 09 00 | refused 6 record 21 0
    column missing, column 9 | FOUR table:2 02 09 | refused 6 record 21 0
    last clause cut, bit 6 | FOUR clauses:3 01 40 01 | refused 6 record 21 0
    last clause cut, option 4 | FOUR clauses:4 01 04 02 00 | refused 6 record 21 0
    a clause of 0, option 4 | FOUR clauses:3 01 04 00 | refused 6 record 21 0
    13 bytes, op 7 | FOUR TABLE folder:13 07*13 | refused 6 record 27 0
    question of 2, rule 9 | FOUR TABLE question:2 09 09 | refused 6 record 27 0
    33 entries, op 7 | FOUR TABLE folder:396 070909090900000000000000*33 | refused 6 record 27 0
    ";

const EARLIER_RECORDS: &str = "
    start, then a cut | start:17 04 01 00*7 01 00*7 00 | refused 8 start 0 0
    start, then kind 6 | start:17 04 10 00*7 00*8 00 00 06 00 | refused 7 start 0 0
    start, then the end | start:17 00 00*16 | refused 9 start 0 0
    table, then the end | FOUR table:2 01 04 | refused 7 sheet 21 0
    table, then a start | FOUR table:3 02 01 01 FOUR | refused 8 sheet 21 1
    clauses, then a table | FOUR clauses:2 01 40 TABLE | refused 9 sheet 21 0
    folder, then a sheet | FOUR folder:12 00 00 00 00 00*8 TABLE | refused 10 folder 21 0
    question, then a byte | FOUR TABLE question:1 01 00 | refused 10 question 27 0
    question, then kind 0 | FOUR TABLE question:1 01 00 00 00 00 | refused 10 question 27 0
    question, then another | FOUR TABLE question:1 01 ASK | refused 10 question 27 0
    question of 2, then a byte | FOUR TABLE question:2 00 00 00 | refused 6 record 27 0
    ";

#[test]
fn records(rt: HostRuntime) -> Result<(), Fail> {
    expect_all(
        rt.alloc(),
        &[HEADS, ONE_TOO_MANY, UNFIT_BEFORE_CONTENTS, EARLIER_RECORDS],
    )
}

const STARTS: &str = "
    n 0, so option 0 is beyond | start:17 00 01 00*7 00*8 | refused 9 start 0 0
    n 65, both | start:17 41 01 00*7 01 00*7 | refused 9 start 0 0
    n 0, beyond and both | start:17 00 01 00*7 01 00*7 | refused 9 start 0 0
    yes beyond, another both | start:17 04 11 00*7 01 00*7 | refused 7 start 0 0
    no beyond, another both | start:17 04 01 00*7 11 00*7 | refused 7 start 0 0
    the same beyond and both | start:17 04 10 00*7 10 00*7 | refused 7 start 0 0
    ";

const TABLES: &str = "
    beyond, then lower | FOUR table:3 02 46 00 | refused 7 sheet 21 0
    lower, then beyond | FOUR table:4 03 01 00 46 | refused 8 sheet 21 1
    beyond at 1, lower at 2 | FOUR table:4 03 00 04 01 | refused 7 sheet 21 1
    beyond at 1 and 2 | FOUR table:4 03 00 04 05 | refused 7 sheet 21 1
    lower at 1 and 2 | FOUR table:4 03 03 02 01 | refused 8 sheet 21 1
    last column, first row | FOUR table:5 02 00 04 04 00 | refused 7 sheet 21 1
    column twice, first row | FOUR table:5 02 01 01 04 00 | refused 8 sheet 21 1
    rows 1 and 2 | FOUR table:8 01 00 01 00 02 00 04 00 | refused 9 sheet 21 1
    ";

const CLAUSES: &str = "
    bit 6 and beyond | FOUR clauses:2 01 44 | refused 9 sheet 21 0
    bit 6 and twice | FOUR clauses:3 02 01 41 | refused 9 sheet 21 0
    beyond, then bit 6 | FOUR clauses:3 02 04 45 | refused 7 sheet 21 0
    beyond, then lower | FOUR clauses:3 02 04 00 | refused 7 sheet 21 0
    lower, then beyond | FOUR clauses:4 03 01 00 04 | refused 8 sheet 21 0
    lower, then bit 6 | FOUR clauses:4 03 01 00 42 | refused 8 sheet 21 0
    twice, then bit 6 in 1 | FOUR clauses:5 02 01 01 01 40 | refused 8 sheet 21 0
    beyond in 1, bit 6 in 2 | FOUR clauses:6 01 00 01 04 01 40 | refused 7 sheet 21 1
    ";

const ENTRIES_OF_A_FOLDER: &str = "
    op, unused and rule | FOUR TABLE folder:12 07 09 09 09 09 00*7 question:1 09 | refused 9 folder 27 0
    unused and rule | FOUR TABLE folder:12 00 09 01 00 00*8 question:1 09 | refused 9 folder 27 0
    unused third and rule | FOUR TABLE folder:12 01 00 09 01 00*8 question:1 09 | refused 9 folder 27 0
    unused and beyond | FOUR TABLE folder:12 04 00 01 00 10 00*7 question:1 09 | refused 9 folder 27 0
    rule and width 0 | FOUR TABLE folder:12 03 09 00 01 00*8 question:1 09 | refused 10 folder 27 0
    rule and width 33 | FOUR TABLE folder:12 03 09 00 01 21 00*7 question:1 09 | refused 10 folder 27 0
    rule and ranges beyond | FOUR TABLE folder:12 03 09 04 00 01 00*7 question:1 09 | refused 10 folder 27 0
    rule and hidden beyond | FOUR TABLE folder:12 04 09 00 00 10 00*7 question:1 09 | refused 10 folder 27 0
    width 33 and beyond | FOUR TABLE folder:12 03 00 00 00 21 00*7 question:1 09 | refused 9 folder 27 0
    width 0 and beyond | FOUR TABLE folder:12 03 00 C8 00 00*8 question:1 09 | refused 9 folder 27 0
    beyond and overlap | FOUR TABLE folder:12 03 00 03 03 02 00*7 question:1 09 | refused 7 folder 27 0
    beyond right and overlap | FOUR TABLE folder:12 03 00 02 03 02 00*7 question:1 09 | refused 7 folder 27 0
    beyond and 17 hidden | FOUR TABLE folder:12 04 00 00 00 FF FF 01 00*5 question:1 09 | refused 7 folder 27 0
    overlap and question | FOUR TABLE folder:12 03 00 01 02 02 00*7 question:1 09 | refused 8 folder 27 0
    the question alone | FOUR TABLE folder:12 06 00 00 00 00*8 question:1 09 | refused 10 question 43 0
    ";

const EARLIER_ENTRIES: &str = "
    hidden before the question | MANY TABLE folder:12 04 00 00 00 FF FF 01 00*5 question:1 09 | refused 12 folder 27 0
    hidden before op | MANY TABLE folder:24 04 00 00 00 FF FF 01 00*5 07 00 00 00 00*8 | refused 12 folder 27 0
    overlap before hidden | MANY TABLE folder:24 03 00 01 01 01 00*7 04 00 00 00 FF FF 01 00*5 | refused 8 folder 27 0
    hidden before overlap | MANY TABLE folder:24 04 00 00 00 FF FF 01 00*5 03 00 01 01 01 00*7 | refused 12 folder 27 0
    item 1 before the next | MANY TABLE folder:24 06 00 00 00 00*8 04 00 00 00 FF FF 01 00*5 09 | refused 12 folder 27 1
    ";

#[test]
fn contents(rt: HostRuntime) -> Result<(), Fail> {
    expect_all(
        rt.alloc(),
        &[
            STARTS,
            TABLES,
            CLAUSES,
            ENTRIES_OF_A_FOLDER,
            EARLIER_ENTRIES,
        ],
    )
}
