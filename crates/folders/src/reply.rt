// The reply of an entry over any set of rules.
ghost use Rattle.std.specs.Prelude.{◌≡◌, not, ◌&&◌};
ghost use Rattle.assignment.specs.Lattice.{join, known_outside, meet, outside, whole, within};
ghost use Rattle.folders.specs.Entries.{entry_reply, exclude, fits_below, project as project_reply};

use crate::hidden::list_options;
use assignment::Assignment;
use entries::Entry;
use ruleset::{RuleSet, finds_build};

pub(crate) fn reply<R: RuleSet>(below: &mut R, entry: Entry, question: Assignment) -> Assignment
    ensures answer { result ≡ entry_reply entry (R.RuleSet.meaning below.old).reply question }
    ensures same { R.RuleSet.meaning below.new ≡ R.RuleSet.meaning below.old }
{
    match entry {
        Entry::Carry { rule } => below.propagate(u32::from(rule), question),
        Entry::Product { first, second } => {
            let one = below.propagate(u32::from(first), question);
            let other = below.propagate(u32::from(second), question);
            one.join(other)
        }
        Entry::Either { first, second } => {
            let one = below.propagate(u32::from(first), question);
            let other = below.propagate(u32::from(second), question);
            either(one, other)
        }
        Entry::Selection {
            rule,
            left,
            right,
            width,
        } => {
            let found = below.propagate(u32::from(rule), question);
            found.equate(u32::from(left), u32::from(right), u32::from(width))
        }
        Entry::Projection { rule, hidden } => project(below, u32::from(rule), hidden, question),
        Entry::Complement { rule } => complement(below, u32::from(rule), question),
        Entry::None => Assignment::contradiction(),
    }
}

// What both replies know; an inconsistent one knows everything.
fn either(one: Assignment, other: Assignment) -> Assignment
    ensures { result ≡ meet (whole one) (whole other) }
{
    one.whole().meet(other.whole())
}

// The reply below to the question without its hidden options, which are then put back as they were asked. Once all shown
// options are known, a build below has to fit them.
fn project<R: RuleSet>(below: &mut R, rule: u32, hidden: u64, question: Assignment) -> Assignment
    ensures answer { result ≡ project_reply hidden ((R.RuleSet.meaning below.old).reply rule) question }
    ensures same { R.RuleSet.meaning below.new ≡ R.RuleSet.meaning below.old }
{
    if question.is_inconsistent() {
        return Assignment::contradiction();
    }
    if lacks_build(below, rule, hidden, question) {
        return Assignment::contradiction();
    }
    let found = below.propagate(rule, question.without(hidden));
    put_back(found, hidden, question)
}

// Whether all shown options are known, and no build below fits them.
#[tactic(auto, using(crate::proofs::HiddenOptions::hidden_search))]
fn lacks_build<R: RuleSet>(below: &mut R, rule: u32, hidden: u64, question: Assignment) -> bool
    ensures answer { result ≡ (known_outside hidden question && not (fits_below hidden ((R.RuleSet.meaning below.old).reply rule) question)) }
    ensures same { R.RuleSet.meaning below.new ≡ R.RuleSet.meaning below.old }
{
    if !question.is_known_without(hidden) {
        return false;
    }
    let options = list_options(hidden);
    !finds_build(below, rule, &options, question.without(hidden))
}

// The hidden options as they were asked, all others as they were found.
fn put_back(found: Assignment, hidden: u64, question: Assignment) -> Assignment
    ensures { result ≡ join (outside hidden found) (within hidden question) }
{
    found.without(hidden).join(question.only(hidden))
}

// An inconsistent question gets the contradiction, and so does a build that is allowed below; any other comes back.
#[tactic(auto, unfolding(assignment::specs::Lattice::same))]
fn complement<R: RuleSet>(below: &mut R, rule: u32, question: Assignment) -> Assignment
    ensures answer { result ≡ exclude ((R.RuleSet.meaning below.old).reply rule) question }
    ensures same { R.RuleSet.meaning below.new ≡ R.RuleSet.meaning below.old }
{
    if question.is_inconsistent() {
        return Assignment::contradiction();
    }
    if question.is_total() && below.propagate(rule, question) == question {
        return Assignment::contradiction();
    }
    question
}
