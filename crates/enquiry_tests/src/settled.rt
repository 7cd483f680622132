// Settlements: what fixes an option, and how many may stand.
use crate::build::{NO_CLAUSES, bit, clause_sheets, known, opened};
use crate::expect::{
    OpenedSheet, Run, Then, expect_calls, expect_of_sheet, expect_runs, expect_same,
};
use crate::words::EVERY_OPTION;
use assignment::Assignment;
use calls::CallRefusal;
use enquiry::Enquiry;
use ruleset::RuleSet;
use std::alloc::Global;
use std::test::Fail;

const BESIDE_A_LOOK: &[&str] = &[
    "against what a look shows
    settle 0 yes | done
    look | known yy??
    settle 1 no | done
    look | dead
    next 0 | end 0
    next 5 | end 0
    settle 0 no | refused 22
    settle 1 yes | refused 22
    settle 2 yes | done
    settle 2 yes | refused 22
    look | dead
    again | done
    next 5 | end 0
    back | done
    look | dead
    back | done
    look | known yy??
    next 1 | stopped 1
    next 1 | built yyyy 1
    next 0 | built yyyn 0
    next 0 | built yyny 0
    next 0 | end 0
    back | done
    back | refused 23
    look | known ????
    ",
    "what a look shows
    settle 0 yes | done
    look | known yy??
    settle 1 yes | done
    settle 1 yes | refused 22
    settle 1 no | refused 22
    look | known yy??
    back | done
    settle 1 no | done
    look | dead
    back | done
    back | done
    back | refused 23
    ",
];

#[test]
fn beside_what_a_look_shows(rt: HostRuntime) -> Result<(), Fail> {
    expect_runs(rt.alloc(), BESIDE_A_LOOK)
}

// Options 0 and 1 are fixed at the start; the rule allows every build.
#[test]
fn fixed_at_the_start(rt: HostRuntime) -> Result<(), Fail> {
    expect_of_sheet(
        rt.alloc(),
        OpenedSheet {
            body: NO_CLAUSES,
            options: 63,
            start: known("yes 0 no 1 4-61")?,
        },
        Run {
            about: "fixed at the start",
            shown: &[0, 1, 2, 3, 62],
            calls: "
                look | known yn???
                settle 0 yes | refused 22
                settle 0 no | refused 22
                settle 1 yes | refused 22
                settle 1 no | refused 22
                settle 62 no | done
                settle 63 no | refused 21
                settle 3 yes | done
                look | known yn?yn
                next 1 | built ynyyn 1
                next 1 | built ynnyn 0
                back | done
                back | done
                back | refused 23
                settle 0 no | refused 22
                look | known yn???
                ",
        },
        Then::Nothing,
    )
}

// Every third option is yes.
const THIRDS: u64 = 0x9249_2492_4924_9249;

fn settle_each<R: RuleSet>(enquiry: &mut Enquiry<R>) -> Result<(), Fail> {
    for option in 0..64 {
        let settled = enquiry.settle(option, option % 3 == 0);
        expect_same(settled, Ok(()), "each option once")?;
    }
    Ok(())
}

fn expect_each_fixed<R: RuleSet>(enquiry: &mut Enquiry<R>) -> Result<(), Fail> {
    for option in 0..64 {
        let both = (enquiry.settle(option, true), enquiry.settle(option, false));
        let fixed = Err(CallRefusal::Fixed);
        expect_same(both, (fixed, fixed), "one more yes or no")?;
    }
    Ok(())
}

// The newest settlement falls, and the older ones stay.
fn take_each_back<R: RuleSet>(enquiry: &mut Enquiry<R>) -> Result<(), Fail> {
    for option in (0..64).rev() {
        let older = bit(option).saturating_sub(1);
        let known = Assignment::new(THIRDS & older, !THIRDS & older);
        let found = (enquiry.back(), enquiry.look());
        expect_same(found, (Ok(()), Some(known)), "the newest is dropped")?;
    }
    Ok(())
}

fn expect_sixty_four<R: RuleSet>(heap: Global, enquiry: &mut Enquiry<R>) -> Result<(), Fail> {
    settle_each(enquiry)?;
    expect_each_fixed(enquiry)?;
    expect_calls(
        heap,
        enquiry,
        Run {
            about: "sixty-four settlements",
            shown: EVERY_OPTION,
            calls: "
                look | known ynnynnynnynnynnynnynnynnynnynnynnynnynnynnynnynnynnynnynnynnynny
                settle 64 yes | refused 21
                next 0 | built ynnynnynnynnynnynnynnynnynnynnynnynnynnynnynnynnynnynnynnynnynny 0
                next 0 | end 0
                ",
        },
    )?;
    take_each_back(enquiry)?;
    expect_calls(
        heap,
        enquiry,
        Run {
            about: "sixty-four settlements",
            shown: EVERY_OPTION,
            calls: "
                back | refused 23
                next 63 | stopped 63
                ",
        },
    )
}

// All 64 options are free, and the rule allows every build.
#[test]
fn sixty_four_settlements(rt: HostRuntime) -> Result<(), Fail> {
    let heap = rt.alloc();
    let mut enquiry = opened(
        clause_sheets(heap, &[NO_CLAUSES])?,
        64,
        Assignment::new(0, 0),
        0,
    )?;
    expect_sixty_four(heap, &mut enquiry)
}
