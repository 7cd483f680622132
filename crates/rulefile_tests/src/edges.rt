// Files at the edge of a limit, and one past it.
use crate::build::bytes_of;
use crate::expect::{expect, expect_all, expect_same};
use std::alloc::Global;
use std::test::Fail;

const OPTIONS: &str = "
    1 option | start:17 01 01 00*7 00*8 TABLE ASK | options 1
    option 1 of 1 | start:17 01 00*8 02 00*7 TABLE ASK | refused 7 start 0 0
    63 options, 62 known | start:17 3F 00*7 40 00*8 TABLE ASK | options 63
    63 options, 63 known | start:17 3F 00*7 80 00*8 TABLE ASK | refused 7 start 0 0
    64 options, 63 yes | start:17 40 00*7 80 00*8 TABLE ASK | options 64
    64 options, 63 no | start:17 40 00*8 00*7 80 TABLE ASK | options 64
    64 options, all known | start:17 40 FF*8 00*8 TABLE ASK | options 64
    65 options, 63 yes | start:17 41 00*7 80 00*8 TABLE ASK | refused 9 start 0 0
    column 63 | MANY table:2 01 3F ASK | options 64
    column 63 of 63 | start:17 3F 00*16 table:2 01 3F ASK | refused 7 sheet 21 0
    63 wanted | MANY clauses:4 01 3F 01 BF ASK | options 64
    63 hidden | MANY TABLE folder:12 04 00 00 00 00*7 80 ASK | options 64
    63 of 63 hidden | start:17 3F 00*16 TABLE folder:12 04 00 00 00 00*7 80 | refused 7 folder 27 0
    ";

const COLUMNS: &str = "
    0 columns | MANY table:1 00 ASK | refused 6 record 21 0
    1 column | MANY table:2 01 00 ASK | options 64
    16 columns | MANY table:17 10 000102030405060708090A0B0C0D0E0F ASK | options 64
    17 columns | MANY table:18 11 000102030405060708090A0B0C0D0E0F10 ASK | refused 6 record 21 0
    yes in all of 16 columns | MANY table:19 10 000102030405060708090A0B0C0D0E0F FFFF ASK | options 64
    yes in all of 15 columns | MANY table:18 0F 000102030405060708090A0B0C0D0E FF7F ASK | options 64
    a 16th of 15 columns | MANY table:18 0F 000102030405060708090A0B0C0D0E 0080 ASK | refused 9 sheet 21 0
    ";

const ROWS: &str = "
    0 rows | MANY table:2 01 05 ASK | options 64
    1 row | MANY table:4 01 05 0100 ASK | options 64
    256 rows | MANY table:514 01 05 0100*256 ASK | options 64
    257 rows | MANY table:516 01 05 0100*257 ASK | refused 6 record 21 0
    256 rows and a byte | MANY table:515 01 05 0100*256 00 ASK | refused 6 record 21 0
    row 255 is bad | MANY table:514 01 05 0100*255 0300 ASK | refused 9 sheet 21 255
    256 rows of 16 columns | MANY table:529 10 000102030405060708090A0B0C0D0E0F 0080*256 ASK | options 64
    ";

const CLAUSES: &str = "
    0 clauses | MANY clauses:0 ASK | options 64
    1 clause | MANY clauses:2 01 05 ASK | options 64
    256 clauses | MANY clauses:512 0105*256 ASK | options 64
    257 clauses | MANY clauses:514 0105*257 ASK | refused 6 record 21 0
    clause 255 is bad | MANY clauses:512 0105*255 0145 ASK | refused 9 sheet 21 255
    0 wanted values | MANY clauses:3 01 05 00 ASK | refused 6 record 21 0
    1 wanted value | MANY clauses:2 01 80 ASK | options 64
    16 wanted values | MANY clauses:17 10 000102030405060708090A0B0C0D0E0F ASK | options 64
    17 wanted values | MANY clauses:18 11 000102030405060708090A0B0C0D0E0F10 ASK | refused 6 record 21 0
    256 clauses of 16 | MANY clauses:4352 10000102030405060708090A0B0C0D0E0F*256 ASK | options 64
    ";

const SHEETS: &str = "
    32 tables | FOUR TABLE*32 question:1 1F | options 4
    rule 32 of 32 tables | FOUR TABLE*32 question:1 20 | refused 10 question 213 0
    33 tables | FOUR TABLE*33 ASK | refused 5 record 213 0
    32 tables and clauses | FOUR TABLE*32 CLAUSES ASK | refused 5 record 213 0
    a table and 31 clauses | FOUR TABLE CLAUSES*31 question:1 1F | options 4
    a table and 32 clauses | FOUR TABLE CLAUSES*32 ASK | refused 5 record 151 0
    32 clauses | FOUR CLAUSES*32 question:1 1F | options 4
    33 clauses | FOUR CLAUSES*33 ASK | refused 5 record 149 0
    ";

#[test]
fn start_and_sheets(rt: HostRuntime) -> Result<(), Fail> {
    expect_all(rt.alloc(), &[OPTIONS, COLUMNS, ROWS, CLAUSES, SHEETS])
}

const ENTRIES_OF_A_FOLDER: &str = "
    0 entries | MANY folder:0 ASK | refused 6 record 21 0
    1 entry | MANY folder:12 060000000000000000000000 ASK | options 64
    32 entries | MANY folder:384 060000000000000000000000*32 ASK | options 64
    33 entries | MANY folder:396 060000000000000000000000*33 ASK | refused 6 record 21 0
    entry 31 names no rule | MANY folder:384 060000000000000000000000*31 00*12 ASK | refused 10 folder 21 31
    rule 31 of 32 | MANY folder:384 060000000000000000000000*32 question:1 1F | options 64
    rule 32 of 32 | MANY folder:384 060000000000000000000000*32 question:1 20 | refused 10 question 409 0
    ";

const WIDTHS: &str = "
    width 0 | MANY TABLE folder:12 03 00 00 20 00*8 ASK | refused 9 folder 27 0
    width 1 | MANY TABLE folder:12 03 00 00 20 01 00*7 ASK | options 64
    width 32 | MANY TABLE folder:12 03 00 00 20 20 00*7 ASK | options 64
    width 33 | MANY TABLE folder:12 03 00 00 1F 21 00*7 ASK | refused 9 folder 27 0
    width 2^8 + 1 | MANY TABLE folder:12 03 00 00 20 01 01 00*6 ASK | refused 9 folder 27 0
    width 2^32 + 1 | MANY TABLE folder:12 03 00 00 20 01 00 00 00 01 00*3 ASK | refused 9 folder 27 0
    width 2^63 + 1 | MANY TABLE folder:12 03 00 00 20 01 00 00 00 00 00 00 80 ASK | refused 9 folder 27 0
    the greatest width | MANY TABLE folder:12 03 00 00 20 FF*8 ASK | refused 9 folder 27 0
    ";

const RANGES: &str = "
    right ends at n | start:17 0A 00*16 TABLE folder:12 03 00 00 07 03 00*7 ASK | options 10
    right ends past n | start:17 0A 00*16 TABLE folder:12 03 00 00 08 03 00*7 ASK | refused 7 folder 27 0
    left ends at n | start:17 0A 00*16 TABLE folder:12 03 00 07 00 03 00*7 ASK | options 10
    left ends past n | start:17 0A 00*16 TABLE folder:12 03 00 08 00 03 00*7 ASK | refused 7 folder 27 0
    wider than n | start:17 0A 00*16 TABLE folder:12 03 00 00 00 0B 00*7 ASK | refused 7 folder 27 0
    as wide as n | start:17 0A 00*16 TABLE folder:12 03 00 00 00 0A 00*7 ASK | refused 8 folder 27 0
    right ends at 64 | MANY TABLE folder:12 03 00 00 3F 01 00*7 ASK | options 64
    right ends at 65 | MANY TABLE folder:12 03 00 00 40 01 00*7 ASK | refused 7 folder 27 0
    left from 255 on | MANY TABLE folder:12 03 00 FF 00 02 00*7 ASK | refused 7 folder 27 0
    right follows left | start:17 0A 00*16 TABLE folder:12 03 00 02 05 03 00*7 ASK | options 10
    left follows right | start:17 0A 00*16 TABLE folder:12 03 00 05 02 03 00*7 ASK | options 10
    right on left's end | start:17 0A 00*16 TABLE folder:12 03 00 02 04 03 00*7 ASK | refused 8 folder 27 0
    left on right's end | start:17 0A 00*16 TABLE folder:12 03 00 04 02 03 00*7 ASK | refused 8 folder 27 0
    one option each | start:17 02 00*16 TABLE folder:12 03 00 01 00 01 00*7 ASK | options 2
    one option twice | start:17 02 00*16 TABLE folder:12 03 00 01 01 01 00*7 ASK | refused 8 folder 27 0
    ";

const HIDDEN_OPTIONS: &str = "
    none hidden | MANY TABLE folder:12 04 00 00 00 00*8 ASK | options 64
    the first 16 | MANY TABLE folder:12 04 00 00 00 FF FF 00*6 ASK | options 64
    the first 17 | MANY TABLE folder:12 04 00 00 00 FF FF 01 00*5 ASK | refused 12 folder 27 0
    the last 16 | MANY TABLE folder:12 04 00 00 00 00*6 FF FF ASK | options 64
    the last 17 | MANY TABLE folder:12 04 00 00 00 00*5 80 FF FF ASK | refused 12 folder 27 0
    each fourth | MANY TABLE folder:12 04 00 00 00 11*8 ASK | options 64
    all 64 | MANY TABLE folder:12 04 00 00 00 FF*8 ASK | refused 12 folder 27 0
    all of 16 | start:17 10 00*16 TABLE folder:12 04 00 00 00 FF FF 00*6 ASK | options 16
    all of 17 | start:17 11 00*16 TABLE folder:12 04 00 00 00 FF FF 01 00*5 ASK | refused 12 folder 27 0
    17 of 16 | start:17 10 00*16 TABLE folder:12 04 00 00 00 FF FF 01 00*5 ASK | refused 7 folder 27 0
    ";

const FOLDERS: &str = "
    4 folders | FOUR TABLE CARRY*4 ASK | options 4
    5 folders | FOUR TABLE CARRY*5 ASK | refused 5 record 91 0
    32 tables, 4 folders | FOUR TABLE*32 CARRY*4 ASK | options 4
    32 tables, 5 folders | FOUR TABLE*32 CARRY*5 ASK | refused 5 record 277 0
    ";

#[test]
fn folders(rt: HostRuntime) -> Result<(), Fail> {
    expect_all(
        rt.alloc(),
        &[ENTRIES_OF_A_FOLDER, WIDTHS, RANGES, HIDDEN_OPTIONS, FOLDERS],
    )
}

// A file of 32,768 bytes: a start of 21, seven clauses records of 4 + 256 * 17, one of 4 + 132 * 17 + 2, and a question
// of 5.
const LARGEST: &str = "start:17 10 00*16
    clauses:4352 10000102030405060708090A0B0C0D0E0F*256
    clauses:4352 10000102030405060708090A0B0C0D0E0F*256
    clauses:4352 10000102030405060708090A0B0C0D0E0F*256
    clauses:4352 10000102030405060708090A0B0C0D0E0F*256
    clauses:4352 10000102030405060708090A0B0C0D0E0F*256
    clauses:4352 10000102030405060708090A0B0C0D0E0F*256
    clauses:4352 10000102030405060708090A0B0C0D0E0F*256
    clauses:2246 10000102030405060708090A0B0C0D0E0F*132 0100
    question:1 00";

// What is told of the largest file with more bytes behind it.
fn expect_largest(heap: Global, about: &str, more: &[u8], words: &str) -> Result<(), Fail> {
    let mut file = bytes_of(heap, LARGEST)?;
    expect_same(file.len(), 32768, "the largest file")?;
    file.extend_from_slice(more)?;
    expect(heap, about, file.as_slice(), words)
}

const BYTES: &str = "
    32,768 zeros | 00*32768 | refused 3 record 0 0
    32,769 zeros | 00*32769 | refused 1 record 0 0
    32,769 bytes, the first a sample | SAMPLE 00*32704 | refused 1 record 0 0
    32,768 bytes, the first a sample | SAMPLE 00*32703 | refused 3 record 65 0
    ";

#[test]
fn bytes(rt: HostRuntime) -> Result<(), Fail> {
    let heap = rt.alloc();
    let too_long = "refused 1 record 0 0";
    expect_largest(heap, "32,768 bytes", b"", "options 16")?;
    expect_largest(heap, "32,769 bytes, the last no head", b"\0", too_long)?;
    expect_largest(
        heap,
        "32,773 bytes, the last a question",
        b"\x01\0\x05\0\0",
        too_long,
    )?;
    expect_all(heap, &[BYTES])
}
