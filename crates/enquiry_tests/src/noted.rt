// Enquiries on a rule set of another kind, which keeps notes and answers an inconsistent question without contradicting
// all. If option 0 is yes, its rule 0 adds that 1 is yes; if option 2 is yes, its rule 1 adds that 1 is yes and 3 no.
use crate::build::{bit, known, opened};
use crate::expect::{FOUR, Run, expect_asked, expect_calls, expect_same};
use crate::steps::{Notes, Steps, sample_steps};
use assignment::Assignment;
use ruleset::RuleSet;
use std::alloc::Global;
use std::test::Fail;

// Calls of an enquiry on one of the rules, how many questions were asked at their end, and the last of them with its
// reply.
struct Noted {
    about: &'static str,
    rule: u32,
    calls: &'static str,
    asked: u64,
    question: &'static str,
    reply: &'static str,
}

const NOTED: [Noted; 8] = [
    // Each yes at option 0 takes two questions: the first adds something.
    Noted {
        about: "listed by rule 0",
        rule: 0,
        calls: "
            next 9 | built yynn 1
            next 9 | built nynn 1
            next 9 | built nnnn 0
            next 9 | end 0
            ",
        asked: 6,
        question: "no 0-63",
        reply: "no 0-63",
    },
    Noted {
        about: "listed by rule 1",
        rule: 1,
        calls: "
            next 9 | built yyny 3
            next 9 | built ynny 1
            next 9 | built nyny 2
            next 9 | built nnny 1
            next 9 | end 0
            next 9 | end 0
            ",
        asked: 15,
        question: "yes 3 no 0-2 4-63",
        reply: "yes 3 no 0-2 4-63",
    },
    Noted {
        about: "what is refused asks nothing",
        rule: 1,
        calls: "back | refused 23",
        asked: 0,
        question: "nothing",
        reply: "nothing",
    },
    Noted {
        about: "beginning anew asks nothing",
        rule: 1,
        calls: "again | done",
        asked: 0,
        question: "nothing",
        reply: "nothing",
    },
    Noted {
        about: "a settlement that is refused asks nothing",
        rule: 1,
        calls: "settle 3 no | refused 22",
        asked: 0,
        question: "nothing",
        reply: "nothing",
    },
    Noted {
        about: "a look asks once",
        rule: 1,
        calls: "look | known ???y",
        asked: 1,
        question: "yes 3 no 4-63",
        reply: "yes 3 no 4-63",
    },
    // A look asks once more. What is refused asks nothing, and a listing that halted asks only on.
    Noted {
        about: "questions between portions",
        rule: 1,
        calls: "
            next 2 | stopped 2
            look | known ???y
            settle 9 yes | refused 21
            next 0 | stopped 0
            back | refused 23
            next 9 | built yyny 1
            ",
        asked: 6,
        question: "yes 0 1 3 no 2 4-63",
        reply: "yes 0 1 3 no 2 4-63",
    },
    // The settlement is against the start: the reply is inconsistent at option 3 alone, and no build is left.
    Noted {
        about: "settled dead",
        rule: 1,
        calls: "
            settle 2 yes | done
            look | dead
            next 9 | end 0
            next 9 | end 0
            ",
        asked: 2,
        question: "yes 2 3 no 4-63",
        reply: "yes 1 2 no 4-63 both 3",
    },
];

// Whatever is inconsistent, the rules add as ever.
fn expect_unchanged(rules: Steps) -> Result<(), Fail> {
    let mut rules = rules;
    expect_same(rules.count(), 2, "count")?;
    expect_asked(&mut rules, 1, "both 9", "both 9")?;
    expect_asked(&mut rules, 1, "yes 2 both 9", "yes 2 1 no 3 both 9")?;
    expect_asked(&mut rules, 2, "both 9", "both 0-63")
}

// An enquiry on rule 0 has two options; one on rule 1 has four, and option 3 is yes at the start.
fn expect_noted(heap: Global, noted: &Noted) -> Result<(), Fail> {
    let (options, yes) = match noted.rule {
        0 => (2, 0),
        _ => (4, bit(3)),
    };
    let run = Run {
        about: noted.about,
        shown: FOUR,
        calls: noted.calls,
    };
    let start = Assignment::new(yes, 0);
    let mut enquiry = opened(sample_steps(), options, start, noted.rule)?;
    expect_calls(heap, &mut enquiry, run)?;
    let rules = enquiry.close().rules;
    let notes = Notes {
        asked: noted.asked,
        question: known(noted.question)?,
        reply: known(noted.reply)?,
    };
    expect_same(rules.notes, notes, noted.about)?;
    expect_unchanged(rules)
}

// The calls are answered so, and the rule set is given back with these notes, and unchanged.
#[test]
fn calls_and_notes(rt: HostRuntime) -> Result<(), Fail> {
    for noted in &NOTED {
        expect_noted(rt.alloc(), noted)?;
    }
    Ok(())
}

#[test]
fn before_an_enquiry() -> Result<(), Fail> {
    expect_unchanged(sample_steps())
}
