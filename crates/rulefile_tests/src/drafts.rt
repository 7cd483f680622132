// Drafts that are filled without a file.
use crate::build::bytes_of;
use crate::expect::expect_same;
use crate::view::show_draft;
use entries::{Draft, EntryFields, EntrySpace};
use std::alloc::{AllocError, Global};
use std::test::Fail;

// A draft that is told two numbers, entries that it is given one after the other, and what it holds then. Each line of
// the trials is an entry as a file has it, a `|`, and what the draft answers.
struct Filling {
    options: u32,
    below: u32,
    trials: &'static str,
    held: &'static str,
}

// The fields of an entry, which has twelve bytes in a file.
fn fields_of(heap: Global, words: &str) -> Result<EntryFields, Fail> {
    let bytes = bytes_of(heap, words)?;
    let (head, word) = bytes
        .as_slice()
        .split_first_chunk::<4>()
        .ok_or("no fields")?;
    let [op, first, second, third] = *head;
    let word = word.as_array::<8>().ok_or("no word")?;
    Ok(EntryFields {
        op,
        first,
        second,
        third,
        word: u64::from_le_bytes(*word),
    })
}

// What a draft answers to an entry: `rule` and the number of entries before it, or `refused` and the number of the
// refusal. A refused entry is to leave the draft as it was.
fn answer(heap: Global, draft: &mut Draft, fields: EntryFields) -> Result<String, AllocError> {
    let rule = draft.entries().len();
    let before = show_draft(heap, draft)?;
    let Err(refusal) = draft.add(fields) else {
        return format!(in heap; "rule {rule}");
    };
    let number = refusal.number();
    let after = show_draft(heap, draft)?;
    let change = if after == before { "" } else { ", but changed" };
    format!(in heap; "refused {number}{change}")
}

fn expect_answer(heap: Global, draft: &mut Draft, trial: &str) -> Result<(), Fail> {
    let (entry, words) = trial.split_once('|').ok_or("no answer")?;
    let fields = fields_of(heap, entry)?;
    let answer = answer(heap, draft, fields)?;
    expect_same(answer.as_str(), words.trim(), trial.trim())
}

fn expect_answers(heap: Global, draft: &mut Draft, trials: &str) -> Result<(), Fail> {
    for trial in trials.trim().lines() {
        expect_answer(heap, draft, trial)?;
    }
    Ok(())
}

fn expect_filled(heap: Global, filling: &Filling) -> Result<(), Fail> {
    let space = EntrySpace::reserve(heap)?;
    let mut draft = Draft::new(space, filling.options, filling.below);
    expect_answers(heap, &mut draft, filling.trials)?;
    let text = show_draft(heap, &draft)?;
    expect_same(text.as_str(), filling.held, "the draft at the end")
}

fn expect_all_filled(heap: Global, fillings: &[Filling]) -> Result<(), Fail> {
    for filling in fillings {
        expect_filled(heap, filling)?;
    }
    Ok(())
}

// Told a bad number of options, a draft refuses good entries and bad ones with 9.
const ALL_REFUSED: &str = "
    06 00 00 00 00*8 | refused 9
    00 01 00 00 00*8 | refused 9
    07 00 00 00 00*8 | refused 9
    00 02 00 00 00*8 | refused 9
    03 00 46 00 01 00*7 | refused 9
    03 00 01 01 01 00*7 | refused 9
    04 00 00 00 FF FF 01 00*5 | refused 9
    ";

const OPTIONS_TOLD: [Filling; 6] = [
    Filling {
        options: 0,
        below: 2,
        trials: ALL_REFUSED,
        held: "0 over 2: []",
    },
    Filling {
        options: 65,
        below: 2,
        trials: ALL_REFUSED,
        held: "65 over 2: []",
    },
    Filling {
        options: 256,
        below: 2,
        trials: ALL_REFUSED,
        held: "256 over 2: []",
    },
    Filling {
        options: u32::MAX,
        below: 2,
        trials: ALL_REFUSED,
        held: "4294967295 over 2: []",
    },
    Filling {
        options: 1,
        below: 2,
        trials: "
            04 01 00 00 01 00*7 | rule 0
            04 01 00 00 02 00*7 | refused 7
            ",
        held: "1 over 2: [Projection { rule: 1, hidden: 1 }]",
    },
    Filling {
        options: 64,
        below: 2,
        trials: "
            04 01 00 00 00*6 FF FF | rule 0
            03 00 00 20 20 00*7 | rule 1
            03 00 00 21 20 00*7 | refused 7
            ",
        held: "64 over 2: [Projection { rule: 1, hidden: 18446462598732840960 }, \
            Selection { rule: 0, left: 0, right: 32, width: 32 }]",
    },
];

#[test]
fn options_told(rt: HostRuntime) -> Result<(), Fail> {
    expect_all_filled(rt.alloc(), &OPTIONS_TOLD)
}

const RULES_TOLD: [Filling; 4] = [
    Filling {
        options: 4,
        below: 0,
        trials: "
            00 00 00 00 00*8 | refused 10
            06 00 00 00 00*8 | rule 0
            05 00 00 00 00*8 | refused 10
            ",
        held: "4 over 0: [None]",
    },
    Filling {
        options: 4,
        below: 255,
        trials: "
            00 FE 00 00 00*8 | rule 0
            00 FF 00 00 00*8 | refused 10
            ",
        held: "4 over 255: [Carry { rule: 254 }]",
    },
    Filling {
        options: 4,
        below: 256,
        trials: "
            05 FF 00 00 00*8 | rule 0
            02 00 FF 00 00*8 | rule 1
            ",
        held: "4 over 256: [Complement { rule: 255 }, Either { first: 0, second: 255 }]",
    },
    Filling {
        options: 4,
        below: u32::MAX,
        trials: "01 FF 00 00 00*8 | rule 0",
        held: "4 over 4294967295: [Product { first: 255, second: 0 }]",
    },
];

#[test]
fn rules_told(rt: HostRuntime) -> Result<(), Fail> {
    expect_all_filled(rt.alloc(), &RULES_TOLD)
}

// Between two accepted entries: bad ops, unused fields, rules, widths, ranges, overlaps and hidden options, alone and
// with a fault that a later check would find.
const REFUSED_ENTRIES: Filling = Filling {
    options: 20,
    below: 2,
    trials: "
        01 00 01 00 00*8 | rule 0
        07 00 00 00 00*8 | refused 9
        07 09 09 09 09 00*7 | refused 9
        06 01 00 00 00*8 | refused 9
        05 02 01 00 00*8 | refused 9
        00 02 00 00 00*8 | refused 10
        03 02 00 01 00*8 | refused 10
        03 00 00 01 00*8 | refused 9
        03 00 00 01 21 00*7 | refused 9
        03 00 00 01 01 00*3 01 00*3 | refused 9
        03 00 00 12 03 00*7 | refused 7
        03 00 12 12 03 00*7 | refused 7
        03 00 10 11 03 00*7 | refused 8
        04 00 00 00 F0 FF 1F 00*5 | refused 7
        04 00 00 00 F8 FF 0F 00*5 | refused 12
        04 01 00 00 F0 FF 0F 00*5 | rule 1
        ",
    held: "20 over 2: [Product { first: 0, second: 1 }, Projection { rule: 1, hidden: 1048560 }]",
};

#[test]
fn refused_entries(rt: HostRuntime) -> Result<(), Fail> {
    expect_filled(rt.alloc(), &REFUSED_ENTRIES)
}

// 32 entries, then to a full draft a good entry, and one for each check that an entry can fail.
const FULL_DRAFT: Filling = Filling {
    options: 64,
    below: 32,
    trials: "
        00 00 00 00 00*8 | rule 0
        00 01 00 00 00*8 | rule 1
        00 02 00 00 00*8 | rule 2
        00 03 00 00 00*8 | rule 3
        00 04 00 00 00*8 | rule 4
        00 05 00 00 00*8 | rule 5
        00 06 00 00 00*8 | rule 6
        00 07 00 00 00*8 | rule 7
        00 08 00 00 00*8 | rule 8
        00 09 00 00 00*8 | rule 9
        00 0A 00 00 00*8 | rule 10
        00 0B 00 00 00*8 | rule 11
        00 0C 00 00 00*8 | rule 12
        00 0D 00 00 00*8 | rule 13
        00 0E 00 00 00*8 | rule 14
        00 0F 00 00 00*8 | rule 15
        00 10 00 00 00*8 | rule 16
        00 11 00 00 00*8 | rule 17
        00 12 00 00 00*8 | rule 18
        00 13 00 00 00*8 | rule 19
        00 14 00 00 00*8 | rule 20
        00 15 00 00 00*8 | rule 21
        00 16 00 00 00*8 | rule 22
        00 17 00 00 00*8 | rule 23
        00 18 00 00 00*8 | rule 24
        00 19 00 00 00*8 | rule 25
        00 1A 00 00 00*8 | rule 26
        00 1B 00 00 00*8 | rule 27
        00 1C 00 00 00*8 | rule 28
        00 1D 00 00 00*8 | rule 29
        00 1E 00 00 00*8 | rule 30
        00 1F 00 00 00*8 | rule 31
        00 00 00 00 00*8 | refused 5
        07 00 00 00 00*8 | refused 5
        00 00 01 00 00*8 | refused 5
        00 20 00 00 00*8 | refused 5
        03 00 00 01 00*8 | refused 5
        03 00 40 00 01 00*7 | refused 5
        03 00 01 01 01 00*7 | refused 5
        04 00 00 00 FF FF 01 00*5 | refused 5
        ",
    held: "64 over 32: [Carry { rule: 0 }, Carry { rule: 1 }, Carry { rule: 2 }, Carry { rule: 3 }, Carry { rule: 4 }, \
        Carry { rule: 5 }, Carry { rule: 6 }, Carry { rule: 7 }, Carry { rule: 8 }, Carry { rule: 9 }, \
        Carry { rule: 10 }, Carry { rule: 11 }, Carry { rule: 12 }, Carry { rule: 13 }, Carry { rule: 14 }, \
        Carry { rule: 15 }, Carry { rule: 16 }, Carry { rule: 17 }, Carry { rule: 18 }, Carry { rule: 19 }, \
        Carry { rule: 20 }, Carry { rule: 21 }, Carry { rule: 22 }, Carry { rule: 23 }, Carry { rule: 24 }, \
        Carry { rule: 25 }, Carry { rule: 26 }, Carry { rule: 27 }, Carry { rule: 28 }, Carry { rule: 29 }, \
        Carry { rule: 30 }, Carry { rule: 31 }]",
};

#[test]
fn full_draft(rt: HostRuntime) -> Result<(), Fail> {
    expect_filled(rt.alloc(), &FULL_DRAFT)
}
