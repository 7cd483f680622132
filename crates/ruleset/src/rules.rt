// A set of numbered rules that may be asked.
ghost use Rattle.std.specs.Prelude.{◌≡◌};
ghost use Rattle.ruleset.specs.Meaning.{Meaning, Lawful};

use assignment::Assignment;

/// At most 64 rules, numbered from 0. A question hands a rule what is known, and the reply adds what the rule makes of
/// it. A rule set may keep notes for itself while it is asked; what it means stays.
pub trait RuleSet {
    ghost meaning: { Self → Meaning };

    ghost lawful: { (r : Self) → Lawful (meaning r) };

    /// How many rules there are.
    fn count(&self) -> u32
        ensures { result ≡ (meaning self.now).count };

    /// The reply of a rule; a rule that is not there answers the contradiction.
    fn propagate(&mut self, rule: u32, question: Assignment) -> Assignment
        ensures answer { result ≡ (meaning self.old).reply rule question }
        ensures same { meaning self.new ≡ meaning self.old };
}
