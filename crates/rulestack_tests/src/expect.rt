// Asking rule sets in a test, and comparing what they reply. The cases stand in tables of text: blocks with an empty line
// between them. The first line of a block says of which rule set it is, and each further line is a case.
use crate::algebra::SHEETS;
use crate::beside::expect_beside;
use crate::build::{beside, bodies, in_letters, known, lay, sheet_rules, tables_in};
use crate::noted::expect_over_steps;
use assignment::Assignment;
use ruleset::{RuleSet, closure};
use sheet_rules::{SheetRule, SheetRules};
use sheets::{ClauseSheet, Sheet, TableSheet};
use std::alloc::Global;
use std::fmt::Debug;
use std::test::Fail;

// What was found is what the case wants.
pub(crate) fn expect_same<T: PartialEq + Debug + Copy>(
    found: T,
    wanted: T,
    about: &str,
    case: &str,
) -> Result<(), Fail> {
    if found != wanted {
        return Err(Fail::new(format_args!("{about}, {case}: {found:?} is not {wanted:?}")));
    }
    Ok(())
}

// The three parts of a line with `|` between them. More of them stand in the last.
pub(crate) fn parts(line: &str) -> Result<(&str, &str, &str), Fail> {
    let (first, rest) = line.split_once('|').ok_or("only one part")?;
    let (second, third) = rest.split_once('|').ok_or("only two parts")?;
    Ok((first.trim(), second.trim(), third.trim()))
}

// The rule set that the cases of a block are asked of: what the first line of the block says behind what it is about.
#[derive(Clone, Copy)]
pub(crate) enum Asked {
    // How many options the file has, and its tables.
    Tables,
    // How many options the file has, and its clause sheets.
    Clauses,
    // How many tables there are, and how many clause sheets, one beside the other.
    Beside,
    // Tables and clause sheets, and the entries of a folder over the ones beside the others. Those of a folder over that one
    // stand behind `/`. In place of the sheets stands `seven sheets` for those of the worked examples, or `steps`.
    Folders,
}

pub(crate) fn expect_each(heap: Global, asked: Asked, text: &str) -> Result<(), Fail> {
    for block in text.split("\n\n") {
        expect_block(heap, asked, block.trim())?;
    }
    Ok(())
}

fn expect_block(heap: Global, asked: Asked, block: &str) -> Result<(), Fail> {
    let (head, cases) = block.split_once('\n').ok_or("no cases")?;
    let (about, first, second) = parts(head)?;
    match asked {
        Asked::Tables => expect_tables_or_clauses(heap, true, first, second, about, cases),
        Asked::Clauses => expect_tables_or_clauses(heap, false, first, second, about, cases),
        Asked::Beside => expect_beside(heap, first, second, about, cases),
        Asked::Folders => expect_folders(heap, first, second, about, cases),
    }
}

// A case: a rule, the question and the reply. A reply `same` is the question, and a rule `closure of 0` is asked until it
// adds nothing.
fn expect_case<R: RuleSet>(
    rules: &mut R,
    about: &str,
    case: &str,
    asked: &str,
) -> Result<(), Fail> {
    let (rule, question, reply) = parts(asked)?;
    let question = known(question)?;
    let found = match rule.strip_prefix("closure of ") {
        Some(rule) => closure(rules, rule.parse::<u32>()?, question),
        None => rules.propagate(rule.parse::<u32>()?, question),
    };
    let wanted = match reply {
        "same" => question,
        words => known(words)?,
    };
    expect_same(found, wanted, about, case)
}

const QUESTIONS: [&str; 5] = [
    "nothing",
    "yes 0 no 1-63",
    "no 0-63",
    "both 5",
    "contradiction",
];

// A rule with this number is not there, whatever is asked.
fn expect_absent<R: RuleSet>(rules: &mut R, about: &str, rule: u32) -> Result<(), Fail> {
    for question in &QUESTIONS {
        let found = rules.propagate(rule, known(question)?);
        expect_same(found, Assignment::contradiction(), about, question)?;
    }
    Ok(())
}

fn expect_all_absent<R: RuleSet>(rules: &mut R, about: &str, numbers: &str) -> Result<(), Fail> {
    for number in numbers.split_whitespace() {
        expect_absent(rules, about, number.parse::<u32>()?)?;
    }
    Ok(())
}

// The cases of a rule set, each in a line behind what it is about. `count | 3` says how many rules there are, and
// `absent | 3 64` that those with these numbers are not there.
pub(crate) fn expect_cases<R: RuleSet>(
    rules: &mut R,
    about: &str,
    cases: &str,
) -> Result<(), Fail> {
    for line in cases.trim().lines() {
        expect_line(rules, about, line)?;
    }
    Ok(())
}

fn expect_line<R: RuleSet>(rules: &mut R, about: &str, line: &str) -> Result<(), Fail> {
    let (case, asked) = line.split_once('|').ok_or("only one part")?;
    match case.trim() {
        "count" => expect_same(rules.count(), asked.trim().parse::<u32>()?, about, "count"),
        "absent" => expect_all_absent(rules, about, asked),
        "letters" => expect_letters(rules, about, asked),
        "allowed" => expect_allowed(rules, about, asked),
        case => expect_case(rules, about, case, asked),
    }
}

// The question and the reply of rule 0 in letters, as `y?? | ynn`.
fn expect_letters<R: RuleSet>(rules: &mut R, about: &str, asked: &str) -> Result<(), Fail> {
    let (question, reply) = asked.split_once('|').ok_or("no reply")?;
    let found = rules.propagate(0, in_letters(question.trim())?);
    expect_same(found, in_letters(reply.trim())?, about, question.trim())
}

// Of so many builds, by their yeses from none on, those that rule 0 allows, as `8: ynn nyy`.
fn expect_allowed<R: RuleSet>(rules: &mut R, about: &str, allowed: &str) -> Result<(), Fail> {
    let (builds, allowed) = allowed.split_once(':').ok_or("no number of builds")?;
    for yes in 0..builds.trim().parse::<u64>()? {
        let reply = rules.propagate(0, Assignment::new(yes, !yes));
        expect_build(reply, yes, about, allowed)?;
    }
    Ok(())
}

// The reply to the build with these yeses: the build itself if it is among those in letters, and inconsistent if not.
pub(crate) fn expect_build(
    reply: Assignment,
    yes: u64,
    about: &str,
    allowed: &str,
) -> Result<(), Fail> {
    let given_back = reply.yes_mask() == yes && reply.no_mask() == !yes;
    let clashing = reply.is_inconsistent();
    if given_back != is_among(yes, allowed)? || clashing == given_back {
        return Err(Fail::new(format_args!("{about}, build {yes}: {reply:?}")));
    }
    Ok(())
}

fn is_among(build: u64, allowed: &str) -> Result<bool, Fail> {
    for letters in allowed.split_whitespace() {
        if in_letters(letters)?.yes_mask() == build {
            return Ok(true);
        }
    }
    Ok(false)
}

// The cases of tables by themselves, or of clause sheets.
fn expect_tables_or_clauses(
    heap: Global,
    are_tables: bool,
    options: &str,
    sheets: &str,
    about: &str,
    cases: &str,
) -> Result<(), Fail> {
    let bodies = bodies(heap, sheets)?;
    let bodies = bodies.as_slice();
    if are_tables {
        return expect_sheets::<TableSheet<'_>>(heap, bodies, options, about, cases);
    }
    expect_sheets::<ClauseSheet<'_>>(heap, bodies, options, about, cases)
}

fn expect_sheets<'a, S: Sheet<'a> + SheetRule>(
    heap: Global,
    bodies: &'a [Vec<u8>],
    options: &str,
    about: &str,
    cases: &str,
) -> Result<(), Fail> {
    let mut rules: SheetRules<S> = sheet_rules(heap, bodies, options.parse::<u32>()?)?;
    expect_cases(&mut rules, about, cases)
}

// The cases of a folder with these entries over other rules.
pub(crate) fn expect_laid<R: RuleSet + Drop>(
    heap: Global,
    below: R,
    entries: &str,
    about: &str,
    cases: &str,
) -> Result<(), Fail> {
    let mut rules = lay(heap, below, entries)?;
    expect_cases(&mut rules, about, cases)
}

fn expect_folders(
    heap: Global,
    below: &str,
    folders: &str,
    about: &str,
    cases: &str,
) -> Result<(), Fail> {
    match below {
        "steps" => expect_over_steps(heap, folders, about, cases),
        "seven sheets" => expect_over(heap, SHEETS, folders, about, cases),
        sheets => expect_over(heap, sheets, folders, about, cases),
    }
}

// The cases of folders over sheets: the tables beside the clause sheets.
fn expect_over(
    heap: Global,
    sheets: &str,
    folders: &str,
    about: &str,
    cases: &str,
) -> Result<(), Fail> {
    let bodies = bodies(heap, sheets)?;
    let sheets = beside::<TableSheet<'_>, ClauseSheet<'_>>(
        heap,
        bodies.as_slice(),
        tables_in(sheets),
    )?;
    expect_stacked(heap, sheets, folders, about, cases)
}

// One folder over other rules, or two of them, one over the other.
fn expect_stacked<R: RuleSet + Drop>(
    heap: Global,
    below: R,
    folders: &str,
    about: &str,
    cases: &str,
) -> Result<(), Fail> {
    match folders.split_once('/') {
        None => expect_laid(heap, below, folders, about, cases),
        Some((lower, upper)) => expect_laid(heap, lay(heap, below, lower)?, upper, about, cases),
    }
}
