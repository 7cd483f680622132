// The rules of a whole file.
use crate::build::{add_sheet, fields_of, known};
use crate::expect::{expect_build, expect_cases, expect_same};
use assignment::Assignment;
use rulefile::{Space, read};
use rulestack::{RuleStack, StackSpace, ask, build};
use std::alloc::Global;
use std::test::Fail;

// The example of docs/FORMAT.md.
const SAMPLE: &[u8; 65] = b"\x11\0\x01\0\x04\0\0\0\0\0\0\0\0\0\0\0\0\0\0\0\0\
    \x09\0\x02\0\x02\0\x01\0\0\x02\0\x03\0\
    \x06\0\x03\0\x02\x02\x03\x02\x01\x82\
    \x0c\0\x04\0\x01\0\x01\0\0\0\0\0\0\0\0\0\
    \x01\0\x05\0\0";

// A question by the call `ask`: what it is about, the rule, the question, and the reply that is wanted.
type ByAsk<'a> = (&'a str, u32, &'a str, &'a str);

// A file in which nothing is known at the start: how many options it has, its sheets, its folders and the asked rule; then
// the cases, those for the call `ask`, and for some rules, by number, the builds that are allowed, in letters, of those in
// which the options from 4 on are no.
#[derive(Clone, Copy)]
struct FileRow<'a> {
    about: &'a str,
    options: u8,
    sheets: &'a str,
    folders: &'a [&'a str],
    asked: u8,
    cases: &'a str,
    by_ask: &'a [ByAsk<'a>],
    allowed: &'a [(u32, &'a str)],
}

fn add_record(bytes: &mut Vec<u8>, kind: u8, body: &[u8]) -> Result<(), Fail> {
    let [low, high] = u16::try_from(body.len())?.to_le_bytes();
    bytes.extend_from_slice(&[low, high, kind, 0])?;
    bytes.extend_from_slice(body)?;
    Ok(())
}

fn add_sheet_record(heap: Global, bytes: &mut Vec<u8>, sheet: &str) -> Result<(), Fail> {
    let mut body = Vec::new(heap);
    add_sheet(&mut body, sheet)?;
    let kind = if sheet.contains(':') { 2 } else { 3 };
    add_record(bytes, kind, body.as_slice())
}

fn folder_body(heap: Global, entries: &str) -> Result<Vec<u8>, Fail> {
    let mut body = Vec::new(heap);
    for entry in entries.split(';') {
        let fields = fields_of(entry)?;
        body.extend_from_slice(&[fields.op, fields.first, fields.second, fields.third])?;
        body.extend_from_slice(&fields.word.to_le_bytes())?;
    }
    Ok(body)
}

fn add_folder(heap: Global, bytes: &mut Vec<u8>, entries: &str) -> Result<(), Fail> {
    let body = folder_body(heap, entries)?;
    add_record(bytes, 4, body.as_slice())
}

fn add_parts(heap: Global, bytes: &mut Vec<u8>, row: &FileRow) -> Result<(), Fail> {
    let mut start = [0; 17];
    start[0] = row.options;
    add_record(bytes, 1, &start)?;
    for sheet in row.sheets.split('/') {
        add_sheet_record(heap, bytes, sheet.trim())?;
    }
    for folder in row.folders {
        add_folder(heap, bytes, folder)?;
    }
    add_record(bytes, 5, &[row.asked])
}

fn file_of(heap: Global, row: &FileRow) -> Result<Vec<u8>, Fail> {
    let mut bytes = Vec::new(heap);
    add_parts(heap, &mut bytes, row)?;
    Ok(bytes)
}

fn expect_file(heap: Global, bytes: &[u8], row: &FileRow) -> Result<(), Fail> {
    let Ok(file) = read(Space::reserve(heap)?, bytes) else {
        return Err(Fail::new("the file is refused"));
    };
    let asked = file.asked();
    let mut rules = build(StackSpace::reserve(heap)?, file);
    expect_row(&mut rules, asked, row)
}

fn expect_row(rules: &mut RuleStack, asked: u32, row: &FileRow) -> Result<(), Fail> {
    expect_same(asked, u32::from(row.asked), row.about, "asked rule")?;
    expect_cases(rules, row.about, row.cases)?;
    expect_by_ask(rules, row)?;
    for (rule, allowed) in row.allowed {
        expect_builds(rules, *rule, row.about, allowed)?;
    }
    Ok(())
}

fn expect_by_ask(rules: &mut RuleStack, row: &FileRow) -> Result<(), Fail> {
    for (case, rule, question, wanted) in row.by_ask {
        let reply = ask(rules, *rule, known(question)?);
        expect_same(reply, known(wanted)?, row.about, case)?;
    }
    Ok(())
}

fn expect_builds(rules: &mut RuleStack, rule: u32, about: &str, allowed: &str) -> Result<(), Fail> {
    for yes in 0..16u64 {
        let reply = ask(rules, rule, Assignment::new(yes, !yes));
        expect_build(reply, yes, about, allowed)?;
    }
    Ok(())
}

// The sheets of the example.
const SHEETS: &str = "0 1: nn ny yy / 2 3; 1 -2";

// The builds are in the order of the table of docs/MEANING.md.
const EXAMPLE: FileRow = FileRow {
    about: "the example",
    options: 4,
    sheets: SHEETS,
    folders: &["product 0 and 1"],
    asked: 0,
    cases: "
        count | 1
        nothing known | 0 | nothing | same
        both sheets add | 0 | no 1 | no 0 1 2
        asked again | 0 | no 0 1 2 | no 0 1 2 yes 3
        a third time | 0 | no 0 1 2 yes 3 | same
        the table adds | 0 | yes 0 | yes 0 1
        the clauses add | 0 | yes 2 | yes 1 2
        the first clause adds | 0 | no 3 | yes 2 no 3
        the clauses refuse | 0 | no 2 3 | contradiction
        the table refuses | 0 | yes 0 no 1 | contradiction
        options past the file | 0 | no 1 63 yes 4 | no 0 1 2 63 yes 4
        inconsistent | 0 | both 0 | contradiction
        inconsistent past the file | 0 | both 63 | contradiction
        absent | 1 31 32 63 64 4294967295
    ",
    by_ask: &[
        ("1 is no", 0, "no 1", "no 0 1 2"),
        ("asked with the reply", 0, "no 0 1 2", "no 0 1 2 yes 3"),
        ("no such rule", 1, "no 0-63 yes 3", "contradiction"),
    ],
    allowed: &[(0, "nnny nyny nyyn nyyy yyny yyyn yyyy")],
};

#[test]
fn sample(rt: HostRuntime) -> Result<(), Fail> {
    expect_file(rt.alloc(), SAMPLE, &EXAMPLE)
}

#[test]
fn built_from_words(rt: HostRuntime) -> Result<(), Fail> {
    let bytes = file_of(rt.alloc(), &EXAMPLE)?;
    let same = bytes.as_slice() == SAMPLE.as_slice();
    expect_same(same, true, "built from words", "the example's bytes")
}

const ROWS: [FileRow; 4] = [
    FileRow {
        about: "no folder",
        options: 4,
        sheets: SHEETS,
        folders: &[],
        asked: 1,
        cases: "
            count | 2
            the table | 0 | no 1 | no 0 1
            the clauses | 1 | no 1 | no 1 2
            the table refuses | 0 | yes 0 no 1 | contradiction
            the clauses do not | 1 | yes 0 no 1 | yes 0 no 1 2
            absent | 2 3 31 32 63 64
        ",
        by_ask: &[],
        allowed: &[
            (
                0,
                "nnnn nynn yynn nnyn nyyn yyyn nnny nyny yyny nnyy nyyy yyyy",
            ),
            (1, "nyyn yyyn nnny ynny nyny yyny nyyy yyyy"),
        ],
    },
    FileRow {
        about: "one folder",
        options: 4,
        sheets: SHEETS,
        folders: &["complement 0; carry 1; either 0 or 1"],
        asked: 2,
        cases: "
            count | 3
            the complement | 0 | no 1 | same
            the clauses | 1 | no 1 | no 1 2
            the either | 2 | yes 0 no 1 | yes 0 no 1 2
            absent | 3 4 31 32 63 64
        ",
        by_ask: &[],
        allowed: &[
            (0, "ynnn ynyn ynny ynyy"),
            (1, "nyyn yyyn nnny ynny nyny yyny nyyy yyyy"),
            (
                2,
                "nnnn nynn yynn nnyn nyyn yyyn nnny ynny nyny yyny nnyy nyyy yyyy",
            ),
        ],
    },
    // The last rule allows what the product refuses, but would allow with the other value of option 3.
    FileRow {
        about: "four folders",
        options: 4,
        sheets: SHEETS,
        folders: &[
            "carry 0; carry 1; product 0 and 1",
            "carry 2; complement 2",
            "projection 0 hides 3; carry 1; carry 0; none",
            "product 0 and 1; carry 2; carry 3",
        ],
        asked: 0,
        cases: "
            count | 3
            nothing known | 0 | nothing | same
            what is added at the hidden option is dropped | 0 | no 2 | same
            at shown options it is added | 0 | no 1 | no 0 1 2
            the hidden option is put back | 0 | no 1 3 | no 0 1 2 3
            it is not told | 0 | no 2 3 | same
            the product, handed on | 1 | no 1 | no 0 1 2
            none, handed on | 2 | nothing | contradiction
            inconsistent at the hidden option | 0 | both 3 | contradiction
            absent | 3 4 31 32 63 64
        ",
        by_ask: &[],
        allowed: &[
            (0, "nnnn nynn yynn"),
            (1, "nyyn yyyn nnny nyny yyny nyyy yyyy"),
            (2, ""),
        ],
    },
    // Twenty tables and twelve clause sheets: the most that a file may have.
    FileRow {
        about: "32 sheets",
        options: 64,
        sheets: "0: y / 1: y / 2: y / 3: y / 4: y / 5: y / 6: y / 7: y / 8: y / 9: y / \
            10: y / 11: y / 12: y / 13: y / 14: y / 15: y / 16: y / 17: y / 18: y / 19: y / \
            -0 / -1 / -2 / -3 / -4 / -5 / -6 / -7 / -8 / -9 / -10 / -11",
        folders: &[],
        asked: 31,
        cases: "
            count | 32
            the first table | 0 | nothing | yes 0
            the last table | 19 | nothing | yes 19
            the first clause sheet | 20 | nothing | no 0
            the asked rule | 31 | nothing | no 11
            the asked rule, refused | 31 | yes 11 | contradiction
            absent | 32 33 63 64 4294967295
        ",
        by_ask: &[],
        allowed: &[],
    },
];

fn expect_file_of(heap: Global, row: &FileRow) -> Result<(), Fail> {
    let bytes = file_of(heap, row)?;
    expect_file(heap, bytes.as_slice(), row)
}

#[test]
fn other_files(rt: HostRuntime) -> Result<(), Fail> {
    for row in &ROWS {
        expect_file_of(rt.alloc(), row)?;
    }
    Ok(())
}
