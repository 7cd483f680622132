// The closure of a rule.
ghost use Rattle.std.specs.Prelude.{◌≡◌, ◌||◌};
ghost use Rattle.assignment.specs.Lattice.{inconsistent, same};
ghost use Rattle.ruleset.specs.Closure.{Asked, AskedOnce, ClosureAsked, ClosureGrows, ClosureLeast, Least, closure as closed};

use crate::rules::RuleSet;
use assignment::Assignment;

/// What a rule makes of an assignment: it is asked, and asked again with its reply, until the reply adds nothing. Where a
/// reply is inconsistent, this is the contradiction.
pub fn closure<R: RuleSet>(rules: &mut R, rule: u32, known: Assignment) -> Assignment
    ensures answer { result ≡ closed ((R.RuleSet.meaning rules.old).reply rule) known }
    ensures least { Least ((R.RuleSet.meaning rules.old).reply rule) known result }
    ensures asked { Asked ((R.RuleSet.meaning rules.old).reply rule) known result }
    ensures same { R.RuleSet.meaning rules.new ≡ R.RuleSet.meaning rules.old }
{
    let mut current = known;
    loop {
        let reply = rules.propagate(rule, current);
        if is_last(reply, current) {
            return reply.whole();
        }
        current = reply;
    }
}

// Whether asking ends with this reply: it is inconsistent, or it adds nothing to the question.
#[tactic(auto, unfolding(assignment::specs::Lattice::same))]
fn is_last(reply: Assignment, question: Assignment) -> bool
    ensures { result ≡ (inconsistent reply || same reply question) }
{
    reply.is_inconsistent() || reply == question
}

/// The laws of closures: which assignment a closure is, how asking in rounds comes to it, and that it grows with the
/// question and the rule.
pub fn closure_laws()
    ensures least { ClosureLeast }
    ensures asked { ClosureAsked }
    ensures once { AskedOnce }
    ensures grows { ClosureGrows }
{}
