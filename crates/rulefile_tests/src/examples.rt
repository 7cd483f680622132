// The examples of docs/REFUSALS.md: the 65-byte file of docs/FORMAT.md with one change, or with one part missing.
use crate::expect::expect_all;
use std::test::Fail;

const CHANGED_BYTES: &str = "
    the sample itself | SAMPLE | options 4
    kind 6, first | SAMPLE 2=06 | refused 3 record 0 0
    kind 6 | SAMPLE 23=06 | refused 3 record 21 0
    a second start | SAMPLE 23=01 | refused 4 record 21 0
    half a row | SAMPLE 21=08 | refused 6 record 21 0
    17 columns | SAMPLE 25=11 | refused 6 record 21 0
    a clause of 0 values | SAMPLE 38=00 | refused 6 record 34 0
    no options | SAMPLE 4=00 | refused 9 start 0 0
    65 options | SAMPLE 4=41 | refused 9 start 0 0
    64 options | SAMPLE 4=40 | options 64
    option 4 of 4 is known yes | SAMPLE 5=10 | refused 7 start 0 0
    option 0 is both | SAMPLE 5=01 13=01 | refused 8 start 0 0
    column 1 is option 4 of 4 | SAMPLE 27=04 | refused 7 sheet 21 1
    column 1 is option 200 | SAMPLE 27=C8 | refused 7 sheet 21 1
    columns 0 and 1 are the same option | SAMPLE 27=00 | refused 8 sheet 21 1
    row 2 has a third column | SAMPLE 32=07 | refused 9 sheet 21 2
    bit 6 comes before the option 4 | SAMPLE 43=C4 | refused 9 sheet 34 1
    option 4 in clause 1 | SAMPLE 43=84 | refused 7 sheet 34 1
    option 1 twice in clause 1 | SAMPLE 43=81 | refused 8 sheet 34 1
    there is no op 7 | SAMPLE 48=07 | refused 9 folder 44 0
    a product has no third field | SAMPLE 51=01 | refused 9 folder 44 0
    rule 2 of rules 0 and 1 below | SAMPLE 50=02 | refused 10 folder 44 0
    a selection of options 1, 2 and 3, 4 | SAMPLE 48=03 51=03 52=02 | refused 7 folder 44 0
    a selection of options 1, 2 and 2, 3 | SAMPLE 48=03 51=02 52=02 | refused 8 folder 44 0
    17 options hidden | SAMPLE 4=40 48=04 50=00 52=FF 53=FF 54=01 | refused 12 folder 44 0
    16 options hidden | SAMPLE 4=40 48=04 50=00 52=FF 53=FF | options 64
    the folder has rule 0 only | SAMPLE 64=01 | refused 10 question 60 0
    ";

const ADDED_BYTES: &str = "
    no bytes at all | | refused 11 record 0 0
    one byte more | SAMPLE 00 | refused 2 record 65 0
    two bytes more | SAMPLE 01 00 | refused 2 record 65 0
    three bytes more | SAMPLE 01 00 05 | refused 2 record 65 0
    four bytes more, kind 0 | SAMPLE 00 00 00 00 | refused 3 record 65 0
    four bytes more, kind 5 | SAMPLE 01 00 05 00 | refused 4 record 65 0
    five bytes more, kind 6 | SAMPLE 00 00 06 00 00 | refused 3 record 65 0
    the question once more | SAMPLE ASK | refused 4 record 65 0
    a start once more | SAMPLE FOUR | refused 4 record 65 0
    the table 33 times | FOUR 09000200020001000002000300*33 | refused 5 record 437 0
    ";

// The file is unfinished if it ends where a record begins, and cut if it does not.
const EVERY_CUT: &str = "
    the first 0 bytes | SAMPLE size=0 | refused 11 record 0 0
    the first 1 bytes | SAMPLE size=1 | refused 2 record 0 0
    the first 2 bytes | SAMPLE size=2 | refused 2 record 0 0
    the first 3 bytes | SAMPLE size=3 | refused 2 record 0 0
    the first 4 bytes | SAMPLE size=4 | refused 2 record 0 0
    the first 5 bytes | SAMPLE size=5 | refused 2 record 0 0
    the first 6 bytes | SAMPLE size=6 | refused 2 record 0 0
    the first 7 bytes | SAMPLE size=7 | refused 2 record 0 0
    the first 8 bytes | SAMPLE size=8 | refused 2 record 0 0
    the first 9 bytes | SAMPLE size=9 | refused 2 record 0 0
    the first 10 bytes | SAMPLE size=10 | refused 2 record 0 0
    the first 11 bytes | SAMPLE size=11 | refused 2 record 0 0
    the first 12 bytes | SAMPLE size=12 | refused 2 record 0 0
    the first 13 bytes | SAMPLE size=13 | refused 2 record 0 0
    the first 14 bytes | SAMPLE size=14 | refused 2 record 0 0
    the first 15 bytes | SAMPLE size=15 | refused 2 record 0 0
    the first 16 bytes | SAMPLE size=16 | refused 2 record 0 0
    the first 17 bytes | SAMPLE size=17 | refused 2 record 0 0
    the first 18 bytes | SAMPLE size=18 | refused 2 record 0 0
    the first 19 bytes | SAMPLE size=19 | refused 2 record 0 0
    the first 20 bytes | SAMPLE size=20 | refused 2 record 0 0
    the first 21 bytes | SAMPLE size=21 | refused 11 record 21 0
    the first 22 bytes | SAMPLE size=22 | refused 2 record 21 0
    the first 23 bytes | SAMPLE size=23 | refused 2 record 21 0
    the first 24 bytes | SAMPLE size=24 | refused 2 record 21 0
    the first 25 bytes | SAMPLE size=25 | refused 2 record 21 0
    the first 26 bytes | SAMPLE size=26 | refused 2 record 21 0
    the first 27 bytes | SAMPLE size=27 | refused 2 record 21 0
    the first 28 bytes | SAMPLE size=28 | refused 2 record 21 0
    the first 29 bytes | SAMPLE size=29 | refused 2 record 21 0
    the first 30 bytes | SAMPLE size=30 | refused 2 record 21 0
    the first 31 bytes | SAMPLE size=31 | refused 2 record 21 0
    the first 32 bytes | SAMPLE size=32 | refused 2 record 21 0
    the first 33 bytes | SAMPLE size=33 | refused 2 record 21 0
    the first 34 bytes | SAMPLE size=34 | refused 11 record 34 0
    the first 35 bytes | SAMPLE size=35 | refused 2 record 34 0
    the first 36 bytes | SAMPLE size=36 | refused 2 record 34 0
    the first 37 bytes | SAMPLE size=37 | refused 2 record 34 0
    the first 38 bytes | SAMPLE size=38 | refused 2 record 34 0
    the first 39 bytes | SAMPLE size=39 | refused 2 record 34 0
    the first 40 bytes | SAMPLE size=40 | refused 2 record 34 0
    the first 41 bytes | SAMPLE size=41 | refused 2 record 34 0
    the first 42 bytes | SAMPLE size=42 | refused 2 record 34 0
    the first 43 bytes | SAMPLE size=43 | refused 2 record 34 0
    the first 44 bytes | SAMPLE size=44 | refused 11 record 44 0
    the first 45 bytes | SAMPLE size=45 | refused 2 record 44 0
    the first 46 bytes | SAMPLE size=46 | refused 2 record 44 0
    the first 47 bytes | SAMPLE size=47 | refused 2 record 44 0
    the first 48 bytes | SAMPLE size=48 | refused 2 record 44 0
    the first 49 bytes | SAMPLE size=49 | refused 2 record 44 0
    the first 50 bytes | SAMPLE size=50 | refused 2 record 44 0
    the first 51 bytes | SAMPLE size=51 | refused 2 record 44 0
    the first 52 bytes | SAMPLE size=52 | refused 2 record 44 0
    the first 53 bytes | SAMPLE size=53 | refused 2 record 44 0
    the first 54 bytes | SAMPLE size=54 | refused 2 record 44 0
    the first 55 bytes | SAMPLE size=55 | refused 2 record 44 0
    the first 56 bytes | SAMPLE size=56 | refused 2 record 44 0
    the first 57 bytes | SAMPLE size=57 | refused 2 record 44 0
    the first 58 bytes | SAMPLE size=58 | refused 2 record 44 0
    the first 59 bytes | SAMPLE size=59 | refused 2 record 44 0
    the first 60 bytes | SAMPLE size=60 | refused 11 record 60 0
    the first 61 bytes | SAMPLE size=61 | refused 2 record 60 0
    the first 62 bytes | SAMPLE size=62 | refused 2 record 60 0
    the first 63 bytes | SAMPLE size=63 | refused 2 record 60 0
    the first 64 bytes | SAMPLE size=64 | refused 2 record 60 0
    ";

#[test]
fn changed_added_and_cut(rt: HostRuntime) -> Result<(), Fail> {
    expect_all(rt.alloc(), &[CHANGED_BYTES, ADDED_BYTES, EVERY_CUT])
}
