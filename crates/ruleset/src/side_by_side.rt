// Two sets of rules as one.
ghost use Rattle.std.specs.Prelude.{◌≡◌};
ghost use Rattle.ruleset.specs.SideBySide.{SideBySideReplies, side_by_side, side_by_side_lawful};

use crate::rules::RuleSet;
use assignment::Assignment;

const MAX_RULES: u32 = 64;

/// The rules of the first, and after them those of the second; of both together the first 64.
#[derive(Drop)]
pub struct SideBySide<A, B> {
    first: A,
    second: B,
}

impl<A, B> SideBySide<A, B> {
    pub fn new(first: A, second: B) -> SideBySide<A, B>
        ensures first { result.first ≡ first }
        ensures second { result.second ≡ second }
    {
        SideBySide { first, second }
    }
}

impl<A: RuleSet, B: RuleSet> RuleSet for SideBySide<A, B> {
    ghost meaning = { λ s. side_by_side (A.RuleSet.meaning s.first) (B.RuleSet.meaning s.second) };

    ghost lawful = { λ s. side_by_side_lawful (A.RuleSet.lawful s.first) (B.RuleSet.lawful s.second) };

    fn count(&self) -> u32 {
        (self.first.count() + self.second.count()).min(MAX_RULES)
    }

    fn propagate(&mut self, rule: u32, question: Assignment) -> Assignment {
        if rule >= self.count() {
            return Assignment::contradiction();
        }
        let before = self.first.count();
        if rule < before {
            return self.first.propagate(rule, question);
        }
        self.second.propagate(rule - before, question)
    }
}

/// What each rule of two sets side by side replies.
pub fn side_by_side_laws()
    ensures { SideBySideReplies }
{}
