// A sheet as a rule.
ghost use Rattle.std.specs.Prelude.{◌≡◌, ℕ, List};
ghost use Rattle.ruleset.specs.Listed.{Rule};
ghost use Rattle.ruleset.specs.Meaning.{LawfulRule};

use assignment::Assignment;
use sheets::SheetBody;

/// A sheet that can be asked. Its body says what it replies, as a rule that keeps a rule's promises.
pub trait SheetRule: SheetBody + Drop {
    ghost rule_of: { List ℕ → Rule };

    ghost keeps_promises: { (body : List ℕ) → LawfulRule (rule_of body) };

    /// The reply to a question.
    fn reply(&self, question: Assignment) -> Assignment
        ensures { result ≡ rule_of (Self.body_of self.now) question };
}
