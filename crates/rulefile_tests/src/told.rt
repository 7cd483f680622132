// Files with one fault: each number, in each layer that it occurs in.
use crate::expect::expect_all;
use std::test::Fail;

const CUT_OR_UNKNOWN_RECORDS: &str = "
    only half a head | 11 00 | refused 2 record 0 0
    three bytes of a head | FOUR 02 00 02 | refused 2 record 21 0
    a table without its body | FOUR table:2 | refused 2 record 21 0
    a table without its last byte | FOUR table:2 01 | refused 2 record 21 0
    a folder without its last bytes | FOUR CLAUSES folder:12 06 00 | refused 2 record 25 0
    a question without its rule | FOUR TABLE question:1 | refused 2 record 27 0
    none of 256 bytes | FOUR clauses:256 | refused 2 record 21 0
    kind 0 at the front | 00 00 00 00 | refused 3 record 0 0
    kind 0 | FOUR 00 00 00 00 | refused 3 record 21 0
    kind 6 | FOUR TABLE 00 00 06 00 | refused 3 record 27 0
    kind 258 | FOUR 00 00 02 01 | refused 3 record 21 0
    kind 512 | FOUR 00 00 00 02 | refused 3 record 21 0
    ";

const RECORDS_OUT_OF_TURN: &str = "
    a table first | TABLE ASK | refused 4 record 0 0
    clauses first | CLAUSES ASK | refused 4 record 0 0
    a folder first | folder:12 06 00 00 00 00*8 ASK | refused 4 record 0 0
    a question first | ASK | refused 4 record 0 0
    a second start | FOUR FOUR | refused 4 record 21 0
    a start after a table | FOUR TABLE FOUR | refused 4 record 27 0
    a table after clauses | FOUR CLAUSES TABLE ASK | refused 4 record 25 0
    a table after a folder | FOUR TABLE CARRY TABLE ASK | refused 4 record 43 0
    clauses after a folder | FOUR TABLE CARRY CLAUSES ASK | refused 4 record 43 0
    a start after the question | FOUR TABLE ASK FOUR | refused 4 record 32 0
    a table after the question | FOUR TABLE ASK TABLE | refused 4 record 32 0
    clauses after the question | FOUR TABLE ASK CLAUSES | refused 4 record 32 0
    a folder after the question | FOUR TABLE ASK CARRY | refused 4 record 32 0
    a second question | FOUR TABLE ASK ASK | refused 4 record 32 0
    ";

const UNFINISHED_FILES: &str = "
    no record |  | refused 11 record 0 0
    a start alone | FOUR | refused 11 record 21 0
    no question after a table | FOUR TABLE | refused 11 record 27 0
    no question after clauses | FOUR CLAUSES | refused 11 record 25 0
    no question after a folder | FOUR TABLE CARRY | refused 11 record 43 0
    a question after all | FOUR TABLE CARRY ASK | options 4
    ";

const UNFIT_BODIES: &str = "
    a start of 0 bytes | start:0 | refused 6 record 0 0
    a start of 16 bytes | start:16 04 00*15 | refused 6 record 0 0
    a start of 18 bytes | start:18 04 00*17 | refused 6 record 0 0
    an empty table | FOUR table:0 | refused 6 record 21 0
    no columns | FOUR table:1 00 | refused 6 record 21 0
    a column missing | FOUR TABLE table:2 02 00 | refused 6 record 27 0
    half a row | FOUR table:3 01 00 00 | refused 6 record 21 0
    a clause of no values | FOUR clauses:1 00 | refused 6 record 21 0
    a value missing | FOUR TABLE clauses:2 02 00 | refused 6 record 27 0
    a last clause cut | FOUR clauses:3 01 00 01 | refused 6 record 21 0
    no entry | FOUR TABLE folder:0 | refused 6 record 27 0
    an entry of 11 bytes | FOUR TABLE folder:11 00*11 | refused 6 record 27 0
    an entry and a byte | FOUR TABLE folder:13 00*13 | refused 6 record 27 0
    a question of 0 bytes | FOUR TABLE question:0 | refused 6 record 27 0
    a question of 2 bytes | FOUR TABLE question:2 00 00 | refused 6 record 27 0
    ";

#[test]
fn records(rt: HostRuntime) -> Result<(), Fail> {
    expect_all(
        rt.alloc(),
        &[
            CUT_OR_UNKNOWN_RECORDS,
            RECORDS_OUT_OF_TURN,
            UNFINISHED_FILES,
            UNFIT_BODIES,
        ],
    )
}

const START_FAULTS: &str = "
    no options | start:17 00 00*16 TABLE ASK | refused 9 start 0 0
    65 options | start:17 41 00*16 TABLE ASK | refused 9 start 0 0
    255 options | start:17 FF 00*16 TABLE ASK | refused 9 start 0 0
    option 4 of 4 yes | start:17 04 10 00*7 00*8 TABLE ASK | refused 7 start 0 0
    option 4 of 4 no | start:17 04 00*8 10 00*7 TABLE ASK | refused 7 start 0 0
    option 63 of 63 yes | start:17 3F 00*7 80 00*8 TABLE ASK | refused 7 start 0 0
    option 63 of 63 no | start:17 3F 00*8 00*7 80 TABLE ASK | refused 7 start 0 0
    option 0 both | start:17 04 01 00*7 01 00*7 TABLE ASK | refused 8 start 0 0
    option 2 both | start:17 04 06 00*7 0C 00*7 TABLE ASK | refused 8 start 0 0
    option 63 both | start:17 40 00*7 80 00*7 80 TABLE ASK | refused 8 start 0 0
    each option one or the other | start:17 04 05 00*7 0A 00*7 TABLE ASK | options 4
    ";

const TABLE_FAULTS: &str = "
    column 4 of 4 | FOUR table:2 01 04 | refused 7 sheet 21 0
    column 64 of 64 | MANY table:2 01 40 | refused 7 sheet 21 0
    column 128 of 64 | MANY table:3 02 01 80 | refused 7 sheet 21 1
    column 255 of 64 | MANY table:2 01 FF | refused 7 sheet 21 0
    a column twice | FOUR table:3 02 01 01 | refused 8 sheet 21 1
    a column lower | FOUR table:4 03 00 02 01 | refused 8 sheet 21 2
    option 0 twice | FOUR TABLE table:3 02 00 00 | refused 8 sheet 27 1
    a second column of one | FOUR table:4 01 00 02 00 | refused 9 sheet 21 0
    a last column of one | FOUR table:6 01 00 01 00 00 80 | refused 9 sheet 21 1
    a third table | FOUR TABLE TABLE table:2 01 04 | refused 7 sheet 33 0
    ";

const CLAUSE_FAULTS: &str = "
    option 4 of 4 wanted yes | FOUR clauses:2 01 04 | refused 7 sheet 21 0
    option 4 of 4 wanted no | FOUR clauses:2 01 84 | refused 7 sheet 21 0
    option 63 of 63 | start:17 3F 00*16 clauses:2 01 3F | refused 7 sheet 21 0
    an option twice | FOUR clauses:3 02 01 01 | refused 8 sheet 21 0
    an option yes and no | FOUR clauses:3 02 00 80 | refused 8 sheet 21 0
    an option no, a lower one yes | FOUR clauses:3 02 82 01 | refused 8 sheet 21 0
    an option lower in clause 1 | FOUR clauses:5 01 00 02 03 02 | refused 8 sheet 21 1
    bit 6 | FOUR clauses:2 01 40 | refused 9 sheet 21 0
    bit 6 of 64 options | MANY clauses:2 01 41 | refused 9 sheet 21 0
    bits 6 and 7 | FOUR TABLE clauses:2 01 C0 | refused 9 sheet 27 0
    bit 6 in clause 2 | FOUR clauses:6 01 00 01 01 01 42 | refused 9 sheet 21 2
    ";

const OPS_AND_UNUSED_FIELDS: &str = "
    op 7 | FOUR TABLE CLAUSES folder:12 07 00 00 00 00*8 ASK | refused 9 folder 31 0
    op 255 | FOUR TABLE CLAUSES folder:12 FF 00 00 00 00*8 ASK | refused 9 folder 31 0
    a carry's second | FOUR TABLE CLAUSES folder:12 00 00 01 00 00*8 ASK | refused 9 folder 31 0
    a carry's third | FOUR TABLE CLAUSES folder:12 00 00 00 01 00*8 ASK | refused 9 folder 31 0
    a carry's word | FOUR TABLE CLAUSES folder:12 00 00 00 00 01 00*7 ASK | refused 9 folder 31 0
    a product's third | FOUR TABLE CLAUSES folder:12 01 00 01 01 00*8 ASK | refused 9 folder 31 0
    a product's word | FOUR TABLE CLAUSES folder:12 01 00 01 00 00*7 80 ASK | refused 9 folder 31 0
    an either's third | FOUR TABLE CLAUSES folder:12 02 00 01 01 00*8 ASK | refused 9 folder 31 0
    an either's word | FOUR TABLE CLAUSES folder:12 02 00 01 00 01 00*7 ASK | refused 9 folder 31 0
    a projection's second | FOUR TABLE CLAUSES folder:12 04 00 01 00 01 00*7 ASK | refused 9 folder 31 0
    a projection's third | FOUR TABLE CLAUSES folder:12 04 00 00 01 01 00*7 ASK | refused 9 folder 31 0
    a complement's second | FOUR TABLE CLAUSES folder:12 05 00 01 00 00*8 ASK | refused 9 folder 31 0
    a complement's third | FOUR TABLE CLAUSES folder:12 05 00 00 01 00*8 ASK | refused 9 folder 31 0
    a complement's word | FOUR TABLE CLAUSES folder:12 05 00 00 00 00*4 01 00*3 ASK | refused 9 folder 31 0
    the first of none | FOUR TABLE CLAUSES folder:12 06 01 00 00 00*8 ASK | refused 9 folder 31 0
    the second of none | FOUR TABLE CLAUSES folder:12 06 00 01 00 00*8 ASK | refused 9 folder 31 0
    the third of none | FOUR TABLE CLAUSES folder:12 06 00 00 01 00*8 ASK | refused 9 folder 31 0
    the word of none | FOUR TABLE CLAUSES folder:12 06 00 00 00 01 00*7 ASK | refused 9 folder 31 0
    ";

const RULES_OF_ENTRIES: &str = "
    a carry of rule 2 of 2 | FOUR TABLE CLAUSES folder:12 00 02 00 00 00*8 ASK | refused 10 folder 31 0
    a product's first | FOUR TABLE CLAUSES folder:12 01 02 00 00 00*8 ASK | refused 10 folder 31 0
    a product's second | FOUR TABLE CLAUSES folder:12 01 00 02 00 00*8 ASK | refused 10 folder 31 0
    an either's first | FOUR TABLE CLAUSES folder:12 02 FF 00 00 00*8 ASK | refused 10 folder 31 0
    an either's second | FOUR TABLE CLAUSES folder:12 02 00 02 00 00*8 ASK | refused 10 folder 31 0
    a selection's rule | FOUR TABLE CLAUSES folder:12 03 02 00 02 02 00*7 ASK | refused 10 folder 31 0
    a projection's rule | FOUR TABLE CLAUSES folder:12 04 02 00 00 01 00*7 ASK | refused 10 folder 31 0
    a complement's rule | FOUR TABLE CLAUSES folder:12 05 02 00 00 00*8 ASK | refused 10 folder 31 0
    a carry of rule 1 of 2 | FOUR TABLE CLAUSES folder:12 00 01 00 00 00*8 ASK | options 4
    a product of one rule twice | FOUR TABLE CLAUSES folder:12 01 01 01 00 00*8 ASK | options 4
    an either of rules 0 and 1 | FOUR TABLE CLAUSES folder:12 02 00 01 00 00*8 ASK | options 4
    a selection's options are no rules | FOUR TABLE CLAUSES folder:12 03 01 02 03 01 00*7 ASK | options 4
    a complement of rule 1 | FOUR TABLE CLAUSES folder:12 05 01 00 00 00*8 ASK | options 4
    none | FOUR TABLE CLAUSES folder:12 06 00 00 00 00*8 ASK | options 4
    ";

const RANGES_AND_HIDDEN_OPTIONS: &str = "
    width 0 | FOUR TABLE CLAUSES folder:12 03 00 00 01 00*8 ASK | refused 9 folder 31 0
    left past the options | FOUR TABLE CLAUSES folder:12 03 00 03 00 02 00*7 ASK | refused 7 folder 31 0
    right past the options | FOUR TABLE CLAUSES folder:12 03 00 00 03 02 00*7 ASK | refused 7 folder 31 0
    a range from option 255 on | FOUR TABLE CLAUSES folder:12 03 00 FF 00 01 00*7 ASK | refused 7 folder 31 0
    option 4 of 4 hidden | FOUR TABLE CLAUSES folder:12 04 00 00 00 10 00*7 ASK | refused 7 folder 31 0
    option 63 of 4 hidden | FOUR TABLE CLAUSES folder:12 04 00 00 00 00*7 80 ASK | refused 7 folder 31 0
    ranges that share option 2 | FOUR TABLE CLAUSES folder:12 03 00 01 02 02 00*7 ASK | refused 8 folder 31 0
    the same, the other way round | FOUR TABLE CLAUSES folder:12 03 00 02 01 02 00*7 ASK | refused 8 folder 31 0
    one range twice | FOUR TABLE CLAUSES folder:12 03 00 01 01 01 00*7 ASK | refused 8 folder 31 0
    17 options hidden | MANY TABLE folder:12 04 00 00 00 FF FF 01 00*5 ASK | refused 12 folder 27 0
    ";

const LATER_ENTRIES_AND_FOLDERS: &str = "
    entry 1 | FOUR TABLE folder:24 00 00 00 00 00*8 07 00 00 00 00*8 ASK | refused 9 folder 27 1
    entry 2 | FOUR TABLE folder:36 00 00 00 00 00*8 00 00 00 00 00*8 07 00 00 00 00*8 ASK | refused 9 folder 27 2
    folder 1 | FOUR TABLE CARRY folder:24 00 00 00 00 00*8 07 00 00 00 00*8 ASK | refused 9 folder 43 1
    folder 1 over 1 | FOUR TABLE CLAUSES CARRY folder:12 00 01 00 00 00*8 | refused 10 folder 47 0
    folder 1 over 2 | FOUR TABLE folder:24 00 00 00 00 00*8 00 00 00 00 00*8 folder:12 00 01 00 00 00*8 ASK | options 4
    ";

const QUESTIONS: &str = "
    no rule at all | FOUR ASK | refused 10 question 21 0
    sheet 2 of 2 | FOUR TABLE CLAUSES question:1 02 | refused 10 question 31 0
    sheet 255 | FOUR TABLE question:1 FF | refused 10 question 27 0
    a sheet below a folder | FOUR TABLE TABLE CARRY question:1 01 | refused 10 question 49 0
    sheet 1 of 2 | FOUR TABLE CLAUSES question:1 01 | options 4
    a folder over no sheets | FOUR folder:12 06 00 00 00 00*8 ASK | options 4
    ";

#[test]
fn contents(rt: HostRuntime) -> Result<(), Fail> {
    expect_all(
        rt.alloc(),
        &[
            START_FAULTS,
            TABLE_FAULTS,
            CLAUSE_FAULTS,
            OPS_AND_UNUSED_FIELDS,
            RULES_OF_ENTRIES,
            RANGES_AND_HIDDEN_OPTIONS,
            LATER_ENTRIES_AND_FOLDERS,
            QUESTIONS,
        ],
    )
}
