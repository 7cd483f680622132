// The rule of one clause sheet.
ghost use Rattle.std.specs.Prelude.{◌≡◌, [], ◌∷◌, map, MatchOption};
ghost use Rattle.assignment.specs.Lattice.{unknown as nothing_known};
ghost use Rattle.ruleformat.specs.Clauses.{clauses_of, wanted_of};
ghost use Rattle.sheets.specs.Views.{wanted_view};
ghost use Rattle.sheet_rules.specs.ClauseReply.{added_by_clause as added_by, clauses_lawful, clauses_reply};
ghost use Rattle.sheet_rules.specs.Lost.{left};

use crate::rule::SheetRule;
use assignment::Assignment;
use sheets::{Clause, ClauseSheet, Wanted};

impl SheetRule for ClauseSheet<'_> {
    ghost rule_of = { λ body. clauses_reply (clauses_of body) };

    ghost keeps_promises = { λ body. clauses_lawful (clauses_of body) };

    fn reply(&self, question: Assignment) -> Assignment {
        if question.is_inconsistent() {
            return Assignment::contradiction();
        }
        let mut reply = question;
        for clause in self.clauses() {
            let Some(added) = clause_adds(clause, question) else {
                return Assignment::contradiction();
            };
            reply = reply.join(added);
        }
        reply
    }
}

// What a clause adds: its value where only one is left. Where none is left there is no answer.
fn clause_adds(clause: Clause, question: Assignment) -> Option<Assignment>
    ensures { MatchOption result (left question (map wanted_of clause.entry.rest.now) ≡ []) (λ x. x ≡ added_by question (map wanted_of clause.entry.rest.now)) }
{
    let mut values = clause;
    let wanted = next_left(&mut values, question)?;
    match next_left(&mut values, question) {
        None => Some(unknown().with(wanted.option, !wanted.negated)),
        Some(_) => Some(unknown()),
    }
}

// The next wanted value that is not lost, with the values behind it still to come.
fn next_left(values: &mut Clause, question: Assignment) -> Option<Wanted>
    ensures { MatchOption result (left question (map wanted_of values.old.rest.now) ≡ []) (λ w. left question (map wanted_of values.old.rest.now) ≡ wanted_view w ∷ left question (map wanted_of values.new.rest.now)) }
{
    while let Some(wanted) = values.next() {
        if !question.knows(wanted.option, wanted.negated) {
            return Some(wanted);
        }
    }
    None
}

// Nothing is known of any option.
fn unknown() -> Assignment
    ensures { result ≡ nothing_known }
{
    Assignment::new(0, 0)
}
