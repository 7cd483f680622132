// Folders over a rule set of another kind, which keeps notes and leaves an inconsistent question as it is. If option 0
// is yes, its rule 0 adds that 1 is yes; if option 2 is yes, its rule 1 adds that 1 is yes and 3 no.
use crate::build::known;
use crate::closures::{Search, expect_searches};
use crate::expect::{Asked, expect_cases, expect_each, expect_laid, expect_same};
use crate::steps::{Notes, Step, Steps};
use assignment::Assignment;
use ruleset::RuleSet;
use std::alloc::Global;
use std::cell::Cell;
use std::test::Fail;

fn no_notes() -> Notes {
    Notes {
        asked: 0,
        last: None,
    }
}

fn steps(copy: &Cell<Notes>) -> Steps<'_> {
    Steps {
        first: Step {
            option: 0,
            added: Assignment::new(0b10, 0),
        },
        second: Step {
            option: 2,
            added: Assignment::new(0b10, 0b1000),
        },
        notes: no_notes(),
        copy,
    }
}

const ON_ITS_OWN: &str = "
    count | 2
    nothing known | 0 | nothing | same
    the first | 0 | yes 0 2 | yes 0 1 2
    the second | 1 | yes 0 2 | yes 0 1 2 no 3
    inconsistent elsewhere | 0 | both 9 | same
    inconsistent elsewhere, and it adds | 0 | yes 0 both 9 | yes 0 1 both 9
    inconsistent at its option | 1 | both 2 | yes 1 no 3 both 2
    a build refused | 0 | no 0-63 yes 0 | no 0-63 yes 0 both 1
    absent | 2 3 63 64 4294967295
";

#[test]
fn on_its_own() -> Result<(), Fail> {
    let notes = Cell::new(no_notes());
    expect_cases(&mut steps(&notes), "on its own", ON_ITS_OWN)
}

// Entries over the steps.
const OVER_STEPS: &str = "
    inconsistent questions | steps | carry 0; product 0 and 1; either 0 or 1; selection 0 left 4 right 8 width 1; \
            projection 0 hides 9; complement 0; none
        carry | 0 | both 9 | same
        carry, and it adds | 0 | yes 0 both 9 | yes 0 1 both 9
        product | 1 | both 9 | same
        product, and both add | 1 | yes 0 2 both 9 | yes 0 1 2 no 3 both 9
        either | 2 | both 9 | contradiction
        selection | 3 | both 9 | same
        selection, inconsistent in a range | 3 | both 4 | both 4 8
        selection, and it adds | 3 | yes 0 8 both 9 | yes 0 1 4 8 both 9
        projection, at a hidden option | 4 | both 9 | contradiction
        projection, at a shown option | 4 | both 0 | contradiction
        complement | 5 | both 9 | contradiction
        complement, nothing else unknown | 5 | no 0-63 yes 0 both 9 | contradiction
        none | 6 | both 9 | contradiction

    other questions | steps | carry 1; product 0 and 1; either 0 or 1; selection 0 left 1 right 8 width 1; \
            projection 0 hides 1; projection 0 hides; complement 0
        carry | 0 | yes 2 | yes 1 2 no 3
        carry, a build refused | 0 | no 0-63 yes 2 | no 0-63 yes 2 both 1
        product | 1 | yes 0 2 | yes 0 1 2 no 3
        product, one adds | 1 | yes 0 | yes 0 1
        either, what both add | 2 | yes 0 2 | yes 0 1 2
        either, one adds | 2 | yes 2 | same
        either, one is inconsistent | 2 | yes 2 3 no 1 | same
        either, the other is | 2 | yes 0 2 3 no 1 | contradiction
        either, only the first is | 2 | yes 0 no 1 | same
        selection of what is added | 3 | yes 0 | yes 0 1 8
        selection against what is added | 3 | yes 0 no 8 | yes 0 both 1 8
        projection, added and dropped | 4 | yes 0 | same
        projection, hidden and wrong | 4 | yes 0 no 1 | same
        projection, the build with 1 fits | 4 | no 0-63 yes 0 | same
        projection that hides nothing | 5 | no 0-63 yes 0 | contradiction
        projection that hides nothing, unfinished | 5 | yes 0 no 1 | yes 0 both 1
        complement, a build refused | 6 | no 0-63 yes 0 | same
        complement, a build allowed | 6 | no 0-63 | contradiction
        complement, unfinished | 6 | yes 0 no 1 | same
";

pub(crate) fn expect_over_steps(
    heap: Global,
    entries: &str,
    about: &str,
    cases: &str,
) -> Result<(), Fail> {
    let notes = Cell::new(no_notes());
    expect_laid(heap, steps(&notes), entries, about, cases)
}

#[test]
fn folders_over_steps(rt: HostRuntime) -> Result<(), Fail> {
    expect_each(rt.alloc(), Asked::Folders, OVER_STEPS)
}

// An entry, a case of it, and how many questions the rules below have noted then.
const NOTED: [(&str, &str, u64); 7] = [
    ("carry 0", "carry | 0 | both 9 | same", 1),
    ("product 0 and 1", "product | 0 | yes 0 | yes 0 1", 2),
    ("either 0 or 1", "either | 0 | yes 0 | same", 2),
    (
        "selection 0 left 4 right 8 width 1",
        "selection | 0 | yes 0 | yes 0 1",
        1,
    ),
    (
        "projection 0 hides 9",
        "projection | 0 | yes 0 | yes 0 1",
        1,
    ),
    (
        "complement 0",
        "complement | 0 | no 0-63 | contradiction",
        1,
    ),
    ("none", "none | 0 | yes 0 | contradiction", 0),
];

// What the steps have noted after the cases of a folder over them.
fn notes_after(heap: Global, entries: &str, about: &str, cases: &str) -> Result<Notes, Fail> {
    let notes = Cell::new(no_notes());
    expect_laid(heap, steps(&notes), entries, about, cases)?;
    Ok(notes.get())
}

#[test]
fn questions_noted(rt: HostRuntime) -> Result<(), Fail> {
    for (entry, case, wanted) in &NOTED {
        let notes = notes_after(rt.alloc(), entry, "questions noted", case)?;
        expect_same(notes.asked, *wanted, "questions noted", entry)?;
    }
    Ok(())
}

const ASKED_TWICE: &str = "
    the first time | 0 | yes 0 both 9 | yes 0 1 both 9
    another question | 1 | yes 2 | yes 1 2 no 3
    the second time | 0 | yes 0 both 9 | yes 0 1 both 9
    the third time | 0 | yes 0 both 9 | yes 0 1 both 9
    count | 2
";

#[test]
fn asked_twice(rt: HostRuntime) -> Result<(), Fail> {
    let Notes { asked, last } = notes_after(
        rt.alloc(),
        "carry 0; carry 1",
        "asked twice",
        ASKED_TWICE,
    )?;
    expect_same(asked, 4, "asked twice", "questions noted")?;
    let wanted = (known("yes 0 both 9")?, known("yes 0 1 both 9")?);
    expect_same(last, Some(wanted), "asked twice", "last question and reply")
}

const ADDED: &str = "something added | closure of 0 | yes 0 | yes 0 1";

const CLOSED: &str = "
    nothing added | closure of 0 | yes 2 | same
    inconsistent | closure of 0 | both 9 | contradiction
    inconsistent at one option | closure of 0 | yes 0 no 1 | contradiction
    no such rule | closure of 2 | nothing | contradiction
";

#[test]
fn closed() -> Result<(), Fail> {
    let notes = Cell::new(no_notes());
    let mut rules = steps(&notes);
    expect_cases(&mut rules, "closed", ADDED)?;
    expect_same(
        notes.get().asked,
        2,
        "closed",
        "once more after it has added",
    )?;
    expect_cases(&mut rules, "closed", CLOSED)
}

const SEARCHES: [Search; 6] = [
    ("1 is free", 0, &[1], "yes 0 no 2-63", true),
    ("1 is no", 0, &[1], "yes 0 no 1-63", false),
    ("0 is no", 0, &[0, 2], "no 1 3-63", true),
    ("2 is no", 1, &[0, 2], "yes 1 3 no 4-63", true),
    ("inconsistent", 0, &[0], "both 9", false),
    ("no such rule", 2, &[1], "yes 0 no 2-63", false),
];

#[test]
fn searched() -> Result<(), Fail> {
    let notes = Cell::new(no_notes());
    expect_searches(&mut steps(&notes), &SEARCHES)
}
