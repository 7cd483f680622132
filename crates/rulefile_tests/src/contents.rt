// Accepted files give back what they hold.
use crate::build::bytes_of;
use crate::expect::expect_same;
use crate::view::write_file;
use rulefile::{Space, read};
use std::alloc::{AllocError, Global};
use std::test::Fail;

// What an accepted file holds, as text, and of another one the fault.
fn held(heap: Global, bytes: &[u8]) -> Result<String, AllocError> {
    let space = Space::reserve(heap)?;
    let mut text = String::new(heap);
    match read(space, bytes) {
        Ok(file) => write_file(&mut text, &file)?,
        Err(fault) => write!(text, "{fault}")?,
    }
    Ok(text)
}

// The file that the words stand for is accepted, and this is what it holds.
fn expect_held(heap: Global, words: &str, wanted: &str) -> Result<(), Fail> {
    let bytes = bytes_of(heap, words)?;
    let text = held(heap, bytes.as_slice())?;
    expect_same(text.as_str(), wanted, "what the file holds")
}

#[test]
fn sample(rt: HostRuntime) -> Result<(), Fail> {
    expect_held(
        rt.alloc(),
        "SAMPLE",
        "options 4, yes 0, no 0, asked 0; table [0, 1] 0 2 3; clauses [(2, false)(3, false)] [(1, false)(2, true)]; \
        folder 0 Some([Product { first: 0, second: 1 }]); folder 1 None; ",
    )
}

// Three tables and two clauses records, a folder with an entry of each op, and a folder over that one.
const LAYERS: &str = "start:17 40 01 00*6 80 02 01 00*6
    TABLE table:9 02 05 3F 0300 0000 0300 table:4 01 07 0100
    CLAUSES clauses:5 01 BF 02 00 81
    folder:84 00 04 00*10 01 00 04 00*9 02 04 00 00*9 03 01 22 02 1E 00*7 04 02 00 00 01 80 00*6 05 03 00*10 06 00*11
    folder:24 00 06 00*10 02 06 06 00*9
    question:1 01";

#[test]
fn layers(rt: HostRuntime) -> Result<(), Fail> {
    expect_held(
        rt.alloc(),
        LAYERS,
        "options 64, yes 8000000000000001, no 102, asked 1, 0 Yes, 1 No, 8 No, 63 Yes; \
        table [0]; table [5, 63] 3 0 3; table [7] 1; clauses; clauses [(63, true)] [(0, false)(1, true)]; \
        folder 0 Some([Carry { rule: 4 }, Product { first: 0, second: 4 }, Either { first: 4, second: 0 }, \
        Selection { rule: 1, left: 34, right: 2, width: 30 }, Projection { rule: 2, hidden: 32769 }, \
        Complement { rule: 3 }, None]); folder 1 Some([Carry { rule: 6 }, Either { first: 6, second: 6 }]); \
        folder 2 None; ",
    )
}

#[test]
fn known_values(rt: HostRuntime) -> Result<(), Fail> {
    expect_held(
        rt.alloc(),
        "start:17 40 00*7 80 02 00*7 TABLE ASK",
        "options 64, yes 8000000000000000, no 2, asked 0, 1 No, 63 Yes; table [0]; folder 0 None; ",
    )
}

// The largest table: 16 columns, 255 rows of 0x8001 and one of 0xFFFF. And 256 clauses.
const LARGE: &str =
    "MANY table:529 10 303132333435363738393A3B3C3D3E3F 0180*255 FFFF clauses:512 0105*256 ASK";

fn repeated(heap: Global, part: &str, count: u32) -> Result<String, AllocError> {
    let mut text = String::new(heap);
    for _ in 0..count {
        text.push_str(part)?;
    }
    Ok(text)
}

#[test]
fn large_sheets(rt: HostRuntime) -> Result<(), Fail> {
    let heap = rt.alloc();
    let rows = repeated(heap, " 32769", 255)?;
    let clauses = repeated(heap, " [(5, false)]", 256)?;
    let wanted = format!(in heap;
        "options 64, yes 0, no 0, asked 0; \
        table [48, 49, 50, 51, 52, 53, 54, 55, 56, 57, 58, 59, 60, 61, 62, 63]{rows} 65535; \
        clauses{clauses}; folder 0 None; "
    )?;
    expect_held(heap, LARGE, wanted.as_str())
}
