// Running an enquiry in a test, and comparing what it answers.
use crate::build::{SAMPLE, clause_sheets, known, opened};
use crate::portions::expect_in_portions;
use crate::words::{InWords, line_of};
use assignment::Assignment;
use enquiry::{Closed, Enquiry};
use file_enquiry::{FileSpace, open_file};
use listing::{Build, Progress};
use ruleset::RuleSet;
use std::alloc::Global;
use std::fmt::{Debug, Display};
use std::test::Fail;

// The options of a small file, as the example of docs/FORMAT.md.
pub(crate) const FOUR: &[u32] = &[0, 1, 2, 3];

// What was found is what the case wants.
pub(crate) fn expect_same<T: PartialEq + Debug + Copy>(
    found: T,
    wanted: T,
    case: &str,
) -> Result<(), Fail> {
    if found != wanted {
        return Err(Fail::new(format_args!("{case}: {found:?} is not {wanted:?}")));
    }
    Ok(())
}

// What was found is so in words. The case is told by what it is about, and by the place of the line or byte.
pub(crate) fn expect_words<T: Display + Copy>(
    heap: Global,
    found: T,
    wanted: &str,
    about: &str,
    place: usize,
) -> Result<(), Fail> {
    let words = format!(in heap; "{found}")?;
    if words.as_str() != wanted {
        return Err(Fail::new(format_args!("{about}, at {place}: {words} is not {wanted}")));
    }
    Ok(())
}

// Each line of the calls is a call, a `|`, and the reply that is wanted, with a letter for each option that is shown.
#[derive(Clone, Copy)]
pub(crate) struct Run<'a> {
    pub(crate) about: &'a str,
    pub(crate) shown: &'a [u32],
    pub(crate) calls: &'a str,
}

pub(crate) fn expect_calls<R: RuleSet>(
    heap: Global,
    enquiry: &mut Enquiry<R>,
    run: Run,
) -> Result<(), Fail> {
    let Run {
        about,
        shown,
        calls,
    } = run;
    for (line, text) in calls.trim().lines().enumerate() {
        let (call, wanted) = line_of(text).ok_or("not a call with its reply")?;
        let reply = enquiry.answer(call);
        expect_words(heap, InWords { reply, shown }, wanted, about, line)?;
    }
    Ok(())
}

// The rule of a clause sheet with this body, and what it is opened with.
#[derive(Clone, Copy)]
pub(crate) struct OpenedSheet<'a> {
    pub(crate) body: &'a [u8],
    pub(crate) options: u32,
    pub(crate) start: Assignment,
}

// What is expected of an enquiry after its calls.
#[derive(Clone, Copy)]
pub(crate) enum Then<'a> {
    Nothing,
    // Closed, it gives back the rules of the sample, and this last build.
    Last(Option<u64>),
    // It lists these builds, however it is stopped.
    Lists(Listed<'a>),
}

pub(crate) fn expect_run<R: RuleSet + Drop>(
    heap: Global,
    enquiry: Enquiry<R>,
    run: Run,
    then: Then,
) -> Result<(), Fail> {
    let mut enquiry = enquiry;
    expect_calls(heap, &mut enquiry, run)?;
    match then {
        Then::Nothing => Ok(()),
        Then::Last(yes) => expect_closed(enquiry.close(), yes, run.calls),
        Then::Lists(listed) => expect_in_portions(&mut enquiry, listed),
    }
}

fn expect_closed<R: RuleSet + Drop>(
    closed: Closed<R>,
    yes: Option<u64>,
    case: &str,
) -> Result<(), Fail> {
    let Closed { mut rules, last } = closed;
    expect_same(last, yes.map(|yes| Build { yes }), case)?;
    expect_same(rules.count(), 1, "the rules given back")?;
    expect_asked(&mut rules, 0, "no 1", "no 0 1 2")
}

// The same on a file with four options.
pub(crate) fn expect_of_file(heap: Global, bytes: &[u8], run: Run, then: Then) -> Result<(), Fail> {
    match open_file(FileSpace::reserve(heap)?, bytes) {
        Ok(enquiry) => expect_run(heap, enquiry, run, then),
        Err(_) => Err(Fail::new("the file is refused")),
    }
}

// The same on a clause sheet.
pub(crate) fn expect_of_sheet(
    heap: Global,
    sheet: OpenedSheet,
    run: Run,
    then: Then,
) -> Result<(), Fail> {
    let OpenedSheet {
        body,
        options,
        start,
    } = sheet;
    expect_run(
        heap,
        opened(clause_sheets(heap, &[body])?, options, start, 0)?,
        run,
        then,
    )
}

// Runs on the sample, each of a new enquiry. Above its calls stands what it is about.
pub(crate) fn expect_runs(heap: Global, runs: &[&str]) -> Result<(), Fail> {
    for run in runs {
        let (about, calls) = run.split_once('\n').ok_or("no calls")?;
        let run = Run {
            about,
            shown: FOUR,
            calls,
        };
        expect_of_file(heap, SAMPLE, run, Then::Nothing)?;
    }
    Ok(())
}

// A rule replies so to a question.
pub(crate) fn expect_asked<R: RuleSet>(
    rules: &mut R,
    rule: u32,
    question: &str,
    reply: &str,
) -> Result<(), Fail> {
    let found = rules.propagate(rule, known(question)?);
    expect_same(found, known(reply)?, question)
}

// All builds that a listing gives, and the choices that all its calls together open.
#[derive(Clone, Copy)]
pub(crate) struct Listed<'a> {
    pub(crate) builds: &'a [u64],
    pub(crate) choices: u32,
}

// The listing is run on by one budget after the other, over and over, until it ends. What it gives is as wanted, and no
// call opens more choices than it may, or halts with some left.
pub(crate) fn expect_listed<R: RuleSet>(
    enquiry: &mut Enquiry<R>,
    budgets: &[u32],
    wanted: Listed,
) -> Result<(), Fail> {
    let mut left = wanted;
    for _ in 0..500 {
        for budget in budgets {
            let progress = enquiry.next(*budget);
            left = left_after(progress, *budget, left).ok_or(("not to come", progress))?;
            if let Progress::End { .. } = progress {
                return Ok(());
            }
        }
    }
    Err(Fail::new("the listing does not end"))
}

// What is left of a listing after this call, if the call was to come.
fn left_after<'a>(progress: Progress, budget: u32, left: Listed<'a>) -> Option<Listed<'a>> {
    let (opened, builds) = match (progress, left.builds) {
        (Progress::Stopped { opened }, builds) if opened == budget => (opened, builds),
        (Progress::Built { build, opened }, [first, rest @ ..]) if build.yes == *first => {
            (opened, rest)
        }
        (Progress::End { opened }, []) if opened == left.choices => (opened, left.builds),
        _ => return None,
    };
    if opened > budget {
        return None;
    }
    let choices = left.choices.checked_sub(opened)?;
    Some(Listed { builds, choices })
}
