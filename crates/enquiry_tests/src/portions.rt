// Listings that are stopped and resumed wherever they can be: the builds are those of the unbroken listing, in its
// order, and the choices of all portions add up to its choices.
use crate::build::{NO_1, NO_2, NO_16, NO_32, SAMPLE, bit, known, opened};
use crate::expect::{
    Listed, OpenedSheet, Run, Then, expect_listed, expect_of_file, expect_of_sheet,
};
use crate::steps::sample_steps;
use assignment::Assignment;
use enquiry::Enquiry;
use ruleset::RuleSet;
use std::test::Fail;

// Budgets that take turns: any two from 0 to 8, and then 1, 2 or 9; and each from 1 to 8 alone.
pub(crate) fn expect_in_portions<R: RuleSet>(
    enquiry: &mut Enquiry<R>,
    wanted: Listed,
) -> Result<(), Fail> {
    for number in 0..243 {
        let third = match number % 3 {
            0 => 1,
            1 => 2,
            _ => 9,
        };
        expect_listed(enquiry, &[number / 27, number / 3 % 9, third], wanted)?;
        enquiry.again();
    }
    for budget in 1..9 {
        expect_listed(enquiry, &[budget], wanted)?;
        enquiry.again();
    }
    expect_listed(enquiry, &[u32::MAX], wanted)
}

// No calls before the listing.
const NO_CALLS: Run = Run {
    about: "no calls",
    shown: &[],
    calls: "",
};

// Bit i of a number is option i.
#[test]
fn sample(rt: HostRuntime) -> Result<(), Fail> {
    expect_of_file(
        rt.alloc(),
        SAMPLE,
        NO_CALLS,
        Then::Lists(Listed {
            builds: &[0b1111, 0b0111, 0b1011, 0b1110, 0b0110, 0b1010, 0b1000],
            choices: 6,
        }),
    )
}

#[test]
fn sample_with_a_settlement(rt: HostRuntime) -> Result<(), Fail> {
    expect_of_file(
        rt.alloc(),
        SAMPLE,
        Run {
            about: "a settlement",
            shown: &[],
            calls: "settle 3 yes | done",
        },
        Then::Lists(Listed {
            builds: &[0b1111, 0b1011, 0b1110, 0b1010, 0b1000],
            choices: 4,
        }),
    )
}

const A: u64 = 1 << 32;

const B: u64 = 1 << 16;

const C: u64 = 1;

const D: u64 = 1 << 48;

// Of 32 and 16 at least one is no, and of 0 and 48 at least one is yes.
#[test]
fn four_blocks(rt: HostRuntime) -> Result<(), Fail> {
    expect_of_sheet(
        rt.alloc(),
        OpenedSheet {
            body: &[2, NO_16, NO_32, 2, 0, 48],
            options: 64,
            start: known("no 0-63 unknown 32 16 0 48")?,
        },
        NO_CALLS,
        Then::Lists(Listed {
            builds: &[
                A | C | D,
                A | C,
                A | D,
                B | C | D,
                B | C,
                B | D,
                C | D,
                C,
                D,
            ],
            choices: 8,
        }),
    )
}

// Where option 0 is no, no build is left, and only a choice at option 1 shows it.
const DEAD_WITHOUT_0: &[u8] = &[3, 0, 1, 2, 3, 0, 1, NO_2, 3, 0, NO_1, 2, 3, 0, NO_1, NO_2];

fn dead_without_0() -> OpenedSheet<'static> {
    OpenedSheet {
        body: DEAD_WITHOUT_0,
        options: 3,
        start: Assignment::new(0, 0),
    }
}

#[test]
fn choices_before_the_end(rt: HostRuntime) -> Result<(), Fail> {
    expect_of_sheet(
        rt.alloc(),
        dead_without_0(),
        NO_CALLS,
        Then::Lists(Listed {
            builds: &[0b111, 0b011, 0b101, 0b001],
            choices: 5,
        }),
    )
}

#[test]
fn choices_at_the_end(rt: HostRuntime) -> Result<(), Fail> {
    expect_of_sheet(
        rt.alloc(),
        dead_without_0(),
        Run {
            about: "choices at the end",
            shown: &[0, 1, 2],
            calls: "
                next 9 | built yyy 3
                next 9 | built yyn 0
                next 9 | built yny 1
                next 9 | built ynn 0
                next 9 | end 1
                next 9 | end 0
                settle 0 no | done
                look | known n??
                next 0 | stopped 0
                next 1 | end 1
                next 1 | end 0
                again | done
                next 9 | end 1
                ",
        },
        Then::Nothing,
    )
}

// Option 3 is yes at the start: where 2 is yes, there is no build.
#[test]
fn rules_of_another_kind() -> Result<(), Fail> {
    let wanted = Listed {
        builds: &[0b1011, 0b1001, 0b1010, 0b1000],
        choices: 7,
    };
    let mut enquiry = opened(sample_steps(), 4, Assignment::new(bit(3), 0), 1)?;
    expect_in_portions(&mut enquiry, wanted)
}
