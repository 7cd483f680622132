// Assignments and clause sheets written as words, and enquiries opened on them.
use assignment::Assignment;
use enquiry::Enquiry;
use refusals::Body;
use ruleset::RuleSet;
use sheet_rules::ClauseSheets;
use sheets::{ClauseSheet, Sheet};
use std::alloc::Global;
use std::test::Fail;

// The example of docs/FORMAT.md.
pub(crate) const SAMPLE: &[u8; 65] = b"\x11\0\x01\0\x04\0\0\0\0\0\0\0\0\0\0\0\0\0\0\0\0\
    \x09\0\x02\0\x02\0\x01\0\0\x02\0\x03\0\
    \x06\0\x03\0\x02\x02\x03\x02\x01\x82\
    \x0c\0\x04\0\x01\0\x01\0\0\0\0\0\0\0\0\0\
    \x01\0\x05\0\0";

// What is known, as `yes 0 2 no 3-7 both 8`: the options behind each word have its value, and of an option that is
// named twice the last value counts. All others are unknown. `nothing` needs no option.
pub(crate) fn known(words: &str) -> Result<Assignment, Fail> {
    let mut yes = 0;
    let mut no = 0;
    let mut value = (false, false);
    for word in words.split_whitespace() {
        match word {
            "nothing" => {}
            "yes" => value = (true, false),
            "no" => value = (false, true),
            "both" => value = (true, true),
            "unknown" => value = (false, false),
            _ => {
                let options = mask_of(word)?;
                yes = put(yes, options, value.0);
                no = put(no, options, value.1);
            }
        }
    }
    Ok(Assignment::new(yes, no))
}

fn put(mask: u64, options: u64, set: bool) -> u64 {
    if set { mask | options } else { mask & !options }
}

// The mask of one option, as `3`, or of a range with both its ends, as `3-7`.
fn mask_of(word: &str) -> Result<u64, Fail> {
    let (low, high) = word.split_once('-').unwrap_or((word, word));
    let mut mask = 0;
    for option in low.parse::<u32>()?..=high.parse::<u32>()? {
        mask |= 1u64.checked_shl(option).ok_or("an option past 63")?;
    }
    Ok(mask)
}

// The mask of one option; of none from 64 on.
pub(crate) fn bit(option: u32) -> u64 {
    1u64.checked_shl(option).unwrap_or(0)
}

// In the body of a clause sheet a clause is the count of its values, and then each option that is wanted yes, or one of
// these for an option that is wanted no.
pub(crate) const NO_1: u8 = 128 | 1;

pub(crate) const NO_2: u8 = 128 | 2;

pub(crate) const NO_9: u8 = 128 | 9;

pub(crate) const NO_16: u8 = 128 | 16;

pub(crate) const NO_17: u8 = 128 | 17;

pub(crate) const NO_32: u8 = 128 | 32;

pub(crate) const NO_33: u8 = 128 | 33;

pub(crate) const NO_40: u8 = 128 | 40;

pub(crate) const NO_50: u8 = 128 | 50;

// The body of the clause sheet that allows every build.
pub(crate) const NO_CLAUSES: &[u8] = &[];

// Clause sheets with these bodies, in a file with 64 options.
pub(crate) fn clause_sheets<'a>(
    heap: Global,
    bodies: &[&'a [u8]],
) -> Result<ClauseSheets<'a>, Fail> {
    let mut sheets = Vec::new(heap);
    for bytes in bodies {
        sheets.push(ClauseSheet::read(Body { bytes, place: 0 }, 64)?)?;
    }
    Ok(ClauseSheets::new(sheets))
}

// An enquiry that is to open.
pub(crate) fn opened<R: RuleSet + Drop>(
    rules: R,
    options: u32,
    start: Assignment,
    rule: u32,
) -> Result<Enquiry<R>, Fail> {
    let opened = Enquiry::open(rules, options, start, rule).ok();
    Ok(opened.ok_or("the enquiry is not opened")?)
}
