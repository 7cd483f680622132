// What is refused at opening, in which order, and with the rule set given back.
use crate::build::{NO_CLAUSES, SAMPLE, clause_sheets, known};
use crate::expect::{expect_asked, expect_same, expect_words};
use crate::steps::sample_steps;
use assignment::Assignment;
use enquiry::{Enquiry, NotOpened};
use file_enquiry::{FileSpace, open_file};
use ruleset::RuleSet;
use std::alloc::Global;
use std::test::Fail;

// The number with which an enquiry is refused, or none, and the rule set given back.
#[derive(Drop)]
struct Tried<R> {
    refused: Option<u8>,
    rules: R,
}

fn try_to_open<R: RuleSet>(rules: R, options: u32, start: Assignment, rule: u32) -> Tried<R> {
    match Enquiry::open(rules, options, start, rule) {
        Ok(enquiry) => Tried {
            refused: None,
            rules: enquiry.close().rules,
        },
        Err(NotOpened { rules, refusal }) => Tried {
            refused: Some(refusal.number()),
            rules,
        },
    }
}

// An enquiry on two rules is refused with this number, or opened. The rule set that is given back was asked once, as
// before, and answers as ever.
fn expect_opening(options: u32, start: &str, rule: u32, refused: Option<u8>) -> Result<(), Fail> {
    let mut rules = sample_steps();
    expect_asked(&mut rules, 0, "yes 5", "yes 5")?;
    let tried = try_to_open(rules, options, known(start)?, rule);
    rules = tried.rules;
    expect_same(
        (tried.refused, rules.count(), rules.notes.asked),
        (refused, 2, 1),
        start,
    )?;
    expect_asked(&mut rules, 0, "yes 0", "yes 0 1")
}

// The options, the start, the rule, and the number of the refusal if there is one.
const OPENINGS: [(u32, &str, u32, Option<u8>); 39] = [
    // One fault.
    (0, "nothing", 0, Some(9)),
    (65, "nothing", 0, Some(9)),
    (66, "nothing", 1, Some(9)),
    (256, "nothing", 1, Some(9)),
    (u32::MAX, "nothing", 0, Some(9)),
    (4, "yes 4", 0, Some(7)),
    (4, "no 4", 0, Some(7)),
    (4, "yes 63", 0, Some(7)),
    (1, "no 1", 0, Some(7)),
    (63, "yes 63", 0, Some(7)),
    (63, "no 63", 0, Some(7)),
    (4, "both 0", 0, Some(8)),
    (4, "yes 0-2 no 2-3 both 2", 0, Some(8)),
    (64, "both 63", 0, Some(8)),
    (64, "both 0-63", 0, Some(8)),
    (4, "nothing", 2, Some(10)),
    (4, "yes 0 no 1", 3, Some(10)),
    (64, "nothing", 64, Some(10)),
    (64, "nothing", 256, Some(10)),
    (64, "nothing", u32::MAX, Some(10)),
    // More faults: the number is that of the first.
    (0, "yes 0", 0, Some(9)),
    (0, "both 0", 0, Some(9)),
    (0, "nothing", 2, Some(9)),
    (0, "both 0-63", 9, Some(9)),
    (65, "both 0", 0, Some(9)),
    (65, "both 0-63", 9, Some(9)),
    (4, "yes 4 both 0", 0, Some(7)),
    (4, "no 4 both 0", 0, Some(7)),
    (4, "both 4", 0, Some(7)),
    (4, "no 63", 2, Some(7)),
    (4, "both 0-63", 2, Some(7)),
    (4, "both 3", 2, Some(8)),
    (64, "both 0-63", u32::MAX, Some(8)),
    // No fault.
    (1, "nothing", 0, None),
    (1, "yes 0", 1, None),
    (4, "yes 3 no 0-2", 0, None),
    (63, "yes 62", 0, None),
    (64, "yes 63 no 0", 1, None),
    (64, "yes 0-31 no 32-63", 1, None),
];

#[test]
fn faults_at_opening() -> Result<(), Fail> {
    for (options, start, rule, refused) in &OPENINGS {
        expect_opening(*options, start, *rule, *refused)?;
    }
    Ok(())
}

// Of clause sheets with these bodies the rule is asked for that has the number of their count.
fn expect_past_the_count(
    heap: Global,
    bodies: &[&[u8]],
    count: u32,
    about: &str,
) -> Result<(), Fail> {
    let tried = try_to_open(
        clause_sheets(heap, bodies)?,
        4,
        Assignment::new(0, 0),
        count,
    );
    expect_same(
        (tried.refused, tried.rules.count()),
        (Some(10), count),
        about,
    )
}

#[test]
fn rules_past_the_count(rt: HostRuntime) -> Result<(), Fail> {
    let heap = rt.alloc();
    expect_past_the_count(heap, &[], 0, "no rules at all")?;
    expect_past_the_count(heap, &[NO_CLAUSES], 1, "one sheet")?;
    expect_past_the_count(heap, &[&[1, 0], &[1, 1], &[1, 2]], 3, "three sheets")
}

// A file is not opened, and this is told of it.
fn expect_told(heap: Global, bytes: &[u8], words: &str, place: usize) -> Result<(), Fail> {
    match open_file(FileSpace::reserve(heap)?, bytes) {
        Ok(_) => Err(Fail::new("the file is opened")),
        Err(fault) => expect_words(heap, fault, words, "a faulty file", place),
    }
}

// Where one byte of the sample is changed, and to what.
const CHANGED: [(usize, u8, &str); 5] = [
    (4, 0, "refused 9 start 0 0"),
    (5, 0x10, "refused 7 start 0 0"),
    (27, 4, "refused 7 sheet 21 1"),
    (48, 7, "refused 9 folder 44 0"),
    (64, 1, "refused 10 question 60 0"),
];

fn changed(place: usize, byte: u8) -> [u8; 65] {
    let mut bytes = *SAMPLE;
    if let Some(old) = bytes.get_mut(place) {
        *old = byte;
    }
    bytes
}

#[test]
fn faulty_files(rt: HostRuntime) -> Result<(), Fail> {
    for (place, byte, words) in &CHANGED {
        expect_told(rt.alloc(), &changed(*place, *byte), words, *place)?;
    }
    let cut = SAMPLE.get(..64).unwrap_or(&[]);
    expect_told(rt.alloc(), cut, "refused 2 record 60 0", 64)
}
